//! The bits of the fault status registers (ARM DDI 0403 B3.2.15 and B3.2.16).

use platform::fault_status::{
    BFARVALID, DACCVIOL, DIVBYZERO, FORCED, IACCVIOL, IBUSERR, INVPC, INVSTATE, MMARVALID, MSTKERR,
    MUNSTKERR, NOCP, PRECISERR, STKERR, UNALIGNED, UNDEFINSTR, UNSTKERR, VECTTBL,
};
use std::fmt;

/// The bits that this machine never sets: of lazy stacking, of imprecise bus errors, and of debug events.
const MLSPERR: u32 = 1 << 5;

const IMPRECISERR: u32 = 1 << 10;

const LSPERR: u32 = 1 << 13;

const DEBUGEVT: u32 = 1 << 31;

/// A bit of a fault status register.
#[derive(Clone, Copy)]
pub struct FaultBit {
    /// The value of a register in which it alone is set.
    pub mask: u32,
    pub name: &'static str,
    pub meaning: &'static str,
}

impl FaultBit {
    /// Returns whether the bit is set in a value of its register.
    pub fn is_set(&self, value: u32) -> bool {
        value & self.mask != 0
    }
}

/// The bits of CFSR, the Configurable Fault Status Register.
pub const CFSR_BITS: [FaultBit; 19] = [
    FaultBit {
        mask: IACCVIOL,
        name: "IACCVIOL",
        meaning: "the MPU or the default map refused a fetch",
    },
    FaultBit {
        mask: DACCVIOL,
        name: "DACCVIOL",
        meaning: "the MPU refused a load or a store",
    },
    FaultBit {
        mask: MUNSTKERR,
        name: "MUNSTKERR",
        meaning: "the MPU refused a pop of exception return",
    },
    FaultBit {
        mask: MSTKERR,
        name: "MSTKERR",
        meaning: "the MPU refused a push of exception entry",
    },
    FaultBit {
        mask: MLSPERR,
        name: "MLSPERR",
        meaning: "the MPU refused lazy stacking of floating-point state",
    },
    FaultBit {
        mask: MMARVALID,
        name: "MMARVALID",
        meaning: "MMFAR has the address",
    },
    FaultBit {
        mask: IBUSERR,
        name: "IBUSERR",
        meaning: "bus error at a fetch",
    },
    FaultBit {
        mask: PRECISERR,
        name: "PRECISERR",
        meaning: "bus error at a load or a store, precise",
    },
    FaultBit {
        mask: IMPRECISERR,
        name: "IMPRECISERR",
        meaning: "bus error at a load or a store, imprecise",
    },
    FaultBit {
        mask: UNSTKERR,
        name: "UNSTKERR",
        meaning: "bus error at a pop of exception return",
    },
    FaultBit {
        mask: STKERR,
        name: "STKERR",
        meaning: "bus error at a push of exception entry",
    },
    FaultBit {
        mask: LSPERR,
        name: "LSPERR",
        meaning: "bus error at lazy stacking of floating-point state",
    },
    FaultBit {
        mask: BFARVALID,
        name: "BFARVALID",
        meaning: "BFAR has the address",
    },
    FaultBit {
        mask: UNDEFINSTR,
        name: "UNDEFINSTR",
        meaning: "undefined instruction",
    },
    FaultBit {
        mask: INVSTATE,
        name: "INVSTATE",
        meaning: "EPSR.T is 0, or the IT state is wrong",
    },
    FaultBit {
        mask: INVPC,
        name: "INVPC",
        meaning: "wrong EXC_RETURN, or a return that isn't possible",
    },
    FaultBit {
        mask: NOCP,
        name: "NOCP",
        meaning: "coprocessor that is absent or not enabled",
    },
    FaultBit {
        mask: UNALIGNED,
        name: "UNALIGNED",
        meaning: "unaligned access",
    },
    FaultBit {
        mask: DIVBYZERO,
        name: "DIVBYZERO",
        meaning: "division by zero",
    },
];

/// The bits of HFSR, the HardFault Status Register.
pub const HFSR_BITS: [FaultBit; 3] = [
    FaultBit {
        mask: VECTTBL,
        name: "VECTTBL",
        meaning: "bus error at a vector read",
    },
    FaultBit {
        mask: FORCED,
        name: "FORCED",
        meaning: "escalated from a fault that couldn't be taken",
    },
    FaultBit {
        mask: DEBUGEVT,
        name: "DEBUGEVT",
        meaning: "debug event",
    },
];

/// CFSR and HFSR.
#[derive(Clone, Copy)]
pub struct FaultNames {
    pub cfsr: u32,
    pub hfsr: u32,
}

impl fmt::Display for FaultNames {
    /// Writes the names of the bits that are set, `none` where none is.
    fn fmt<W: fmt::Write>(&self, f: &mut fmt::Formatter<W>) -> fmt::Result {
        let separator = write_names(f, "", self.cfsr, &CFSR_BITS)?;
        let separator = write_names(f, separator, self.hfsr, &HFSR_BITS)?;
        if separator.is_empty() {
            write!(f, "none")
        } else {
            Ok(())
        }
    }
}

/// Writes the names of the bits that are set in a value, the first after a separator. Returns the separator of
/// the next name.
fn write_names<W: fmt::Write>(
    f: &mut fmt::Formatter<W>,
    separator: &'static str,
    value: u32,
    bits: &[FaultBit],
) -> Result<&'static str, fmt::Error> {
    let mut separator = separator;
    'bits: for bit in bits {
        if bit.is_set(value) {
            let name = bit.name;
            write!(f, "{separator}{name}")?;
            separator = " ";
        }
    }
    Ok(separator)
}
