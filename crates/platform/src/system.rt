//! The types for the registers of the System Control Space.

use crate::mpu::MpuRegister;

/// The register at a word of the Private Peripheral Bus, or `Unlisted`.
#[derive(Clone, Copy)]
pub enum SystemRegister {
    SysTick(SysTickRegister),
    /// The word of this number, from 0 to 7, of ISER, ICER, ISPR, ICPR or IABR.
    Interrupts(InterruptRegister, u8),
    /// A word of IPR or SHPR: the priority bytes of four exceptions, of which this one is the first.
    Priorities(u8),
    Control(ControlRegister),
    Status(StatusRegister),
    Mpu(MpuRegister),
    /// A word without a register: it reads 0 and ignores writes.
    Unlisted,
}

/// A register of SysTick.
#[derive(Clone, Copy)]
pub enum SysTickRegister {
    /// SYST_CSR: ENABLE, TICKINT, CLKSOURCE and COUNTFLAG.
    Csr,
    /// SYST_RVR: the value that is reloaded.
    Rvr,
    /// SYST_CVR: the current value.
    Cvr,
}

/// A register with a bit for each interrupt.
#[derive(Clone, Copy)]
pub enum InterruptRegister {
    /// A 1 enables, and the register reads which are enabled.
    Iser,
    /// A 1 disables, and the register reads which are enabled.
    Icer,
    /// A 1 makes pending, and the register reads which are pending.
    Ispr,
    /// A 1 clears pending, and the register reads which are pending.
    Icpr,
    /// The register reads which are active, and ignores writes.
    Iabr,
}

/// A register of identification and of control, with a state of its own only in the exceptions.
#[derive(Clone, Copy)]
pub enum ControlRegister {
    /// ICTR: how many words of ISER there are, less 1.
    Ictr,
    /// CPUID.
    Cpuid,
    /// ICSR: NMI, PendSV and SysTick are made pending by it, and it reads what is active and pending.
    Icsr,
    /// AIRCR: PRIGROUP and requests for a reset.
    Aircr,
    /// SHCSR: which faults are enabled, and which system handlers are pending and active.
    Shcsr,
    /// STIR: a write makes an interrupt pending.
    Stir,
}

/// A register of configuration, or of what a fault leaves.
#[derive(Clone, Copy)]
pub enum StatusRegister {
    /// VTOR: the address of the vector table.
    Vtor,
    /// SCR: SLEEPDEEP, SEVONPEND and SLEEPONEXIT.
    Scr,
    /// CCR: NONBASETHRDENA, USERSETMPEND, UNALIGN_TRP, DIV_0_TRP, BFHFNMIGN and STKALIGN.
    Ccr,
    /// CFSR: the causes of MemManage, BusFault and UsageFault.
    Cfsr,
    /// HFSR: the causes of HardFault.
    Hfsr,
    /// MMFAR: the address of a MemManage fault.
    Mmfar,
    /// BFAR: the address of a BusFault.
    Bfar,
}
