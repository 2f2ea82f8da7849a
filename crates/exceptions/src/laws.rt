//! The values of the constants that the definitions cite (ARM DDI 0403, "Exception number
//! definition", "Configurable Fault Status Register" and "HardFault Status Register"): each law is
//! the contract of a function that does nothing.

ghost use Rattle.std.specs.Prelude.{◌≡◌, ◌^◌, ◌+◌};

use platform::exception::{
    BUS_FAULT, EXCEPTIONS, FIRST_INTERRUPT, HARD_FAULT, MAX_INTERRUPTS, MEM_MANAGE, NMI, PEND_SV,
    SV_CALL, SYS_TICK, USAGE_FAULT,
};
use platform::fault_status::{
    BFARVALID, DACCVIOL, DIVBYZERO, FORCED, IACCVIOL, IBUSERR, INVPC, INVSTATE, MMARVALID, MSTKERR,
    MUNSTKERR, NOCP, PRECISERR, STKERR, UNALIGNED, UNDEFINSTR, UNSTKERR, VECTTBL,
};

/// The numbers of the exceptions. Interrupt 0 has number 16, and there are 240 interrupts at most (profile).
pub fn exceptions_have_their_numbers()
    ensures faults { (NMI ≡ 2) × (HARD_FAULT ≡ 3) × (MEM_MANAGE ≡ 4) × (BUS_FAULT ≡ 5) × (USAGE_FAULT ≡ 6) }
    ensures calls { (SV_CALL ≡ 11) × (PEND_SV ≡ 14) × (SYS_TICK ≡ 15) }
    ensures lines { (FIRST_INTERRUPT ≡ 16) × (MAX_INTERRUPTS ≡ 240)
        × (EXCEPTIONS ≡ FIRST_INTERRUPT + MAX_INTERRUPTS) }
{}

/// The bits of MMFSR, BFSR and UFSR in CFSR, and those of HFSR.
pub fn fault_status_has_its_bits()
    ensures mem_manage { (IACCVIOL ≡ 2 ^ 0) × (DACCVIOL ≡ 2 ^ 1) × (MUNSTKERR ≡ 2 ^ 3) × (MSTKERR ≡ 2 ^ 4)
        × (MMARVALID ≡ 2 ^ 7) }
    ensures bus_fault { (IBUSERR ≡ 2 ^ 8) × (PRECISERR ≡ 2 ^ 9) × (UNSTKERR ≡ 2 ^ 11) × (STKERR ≡ 2 ^ 12)
        × (BFARVALID ≡ 2 ^ 15) }
    ensures usage_fault { (UNDEFINSTR ≡ 2 ^ 16) × (INVSTATE ≡ 2 ^ 17) × (INVPC ≡ 2 ^ 18) × (NOCP ≡ 2 ^ 19)
        × (UNALIGNED ≡ 2 ^ 24) × (DIVBYZERO ≡ 2 ^ 25) }
    ensures hard_fault { (VECTTBL ≡ 2 ^ 1) × (FORCED ≡ 2 ^ 30) }
{}
