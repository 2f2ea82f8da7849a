//! What a fault pends, and what it sets (ARM DDI 0403, "Configurable Fault Status Register",
//! "HardFault Status Register", "MemManage Fault Address Register" and "BusFault Address Register").

// ---- MMFSR, bits 7:0 of CFSR

/// A fetch was refused by its rule.
pub const IACCVIOL: u32 = 1 << 0;

/// A load or a store was refused by its rule.
pub const DACCVIOL: u32 = 1 << 1;

/// A pop of exception return was refused by its rule.
pub const MUNSTKERR: u32 = 1 << 3;

/// A push of exception entry was refused by its rule.
pub const MSTKERR: u32 = 1 << 4;

/// MMFAR has the address.
pub const MMARVALID: u32 = 1 << 7;

// ---- BFSR, bits 15:8 of CFSR

/// A fetch was refused by the bus.
pub const IBUSERR: u32 = 1 << 8;

/// A load or a store was refused by the bus.
pub const PRECISERR: u32 = 1 << 9;

/// A pop of exception return was refused by the bus.
pub const UNSTKERR: u32 = 1 << 11;

/// A push of exception entry was refused by the bus.
pub const STKERR: u32 = 1 << 12;

/// BFAR has the address.
pub const BFARVALID: u32 = 1 << 15;

// ---- UFSR, bits 31:16 of CFSR

/// The encoding is UNDEFINED.
pub const UNDEFINSTR: u32 = 1 << 16;

/// EPSR.T is 0.
pub const INVSTATE: u32 = 1 << 17;

/// A check of an exception return failed.
pub const INVPC: u32 = 1 << 18;

/// A coprocessor instruction.
pub const NOCP: u32 = 1 << 19;

/// An unaligned access.
pub const UNALIGNED: u32 = 1 << 24;

/// A division by zero.
pub const DIVBYZERO: u32 = 1 << 25;

// ---- HFSR

/// The read of a vector was refused.
pub const VECTTBL: u32 = 1 << 1;

/// HardFault took the place of a fault or an SVC that could not be taken.
pub const FORCED: u32 = 1 << 30;

/// What a fault pends, and what it sets.
#[derive(Clone, Copy)]
pub struct FaultEffect {
    /// The number of its exception.
    pub exception: u16,
    /// The bits that it sets in CFSR.
    pub cfsr: u32,
    /// The bits that it sets in HFSR.
    pub hfsr: u32,
    pub address: FaultAddress,
}

/// The register that gets the address of a refused access.
#[derive(Clone, Copy)]
pub enum FaultAddress {
    /// No register.
    NotKept,
    Mmfar(u32),
    Bfar(u32),
}
