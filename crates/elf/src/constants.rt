//! The numbers of the manual and of the profile, beside the constants by which definitions and code name them. A
//! constant that is changed changes in both: these clauses, which have the numbers themselves, refuse it.

ghost use Rattle.std.specs.Prelude.{◌≡◌, ◌^◌};

use crate::image::MAX_SEGMENTS;
use platform::exception::{
    BUS_FAULT, EXCEPTIONS, FIRST_INTERRUPT, HARD_FAULT, MAX_INTERRUPTS, MEM_MANAGE, NMI, PEND_SV,
    SV_CALL, SYS_TICK, USAGE_FAULT,
};
use platform::fault_status::{
    BFARVALID, DACCVIOL, DIVBYZERO, FORCED, IACCVIOL, IBUSERR, INVPC, INVSTATE, MMARVALID, MSTKERR,
    MUNSTKERR, NOCP, PRECISERR, STKERR, UNALIGNED, UNDEFINSTR, UNSTKERR, VECTTBL,
};
use platform::map::RAM_BASE;
use platform::mpu::MAX_REGIONS;

/// The numbers of exceptions (ARM DDI 0403, B1.5.2, "Exception number definition").
pub fn exceptions_are_numbered_as_in_the_manual()
    ensures nmi { NMI ≡ 2 }
    ensures hard_fault { HARD_FAULT ≡ 3 }
    ensures mem_manage { MEM_MANAGE ≡ 4 }
    ensures bus_fault { BUS_FAULT ≡ 5 }
    ensures usage_fault { USAGE_FAULT ≡ 6 }
    ensures sv_call { SV_CALL ≡ 11 }
    ensures pend_sv { PEND_SV ≡ 14 }
    ensures sys_tick { SYS_TICK ≡ 15 }
    ensures first_line { FIRST_INTERRUPT ≡ 16 }
{}

/// The bits of CFSR that faults of memory accesses set (ARM DDI 0403, B3.2.15: MMFSR in bits 7 to 0, BFSR in bits 15
/// to 8).
pub fn bits_of_memory_faults_are_those_of_the_manual()
    ensures iaccviol { IACCVIOL ≡ 2 ^ 0 }
    ensures daccviol { DACCVIOL ≡ 2 ^ 1 }
    ensures munstkerr { MUNSTKERR ≡ 2 ^ 3 }
    ensures mstkerr { MSTKERR ≡ 2 ^ 4 }
    ensures mmarvalid { MMARVALID ≡ 2 ^ 7 }
    ensures ibuserr { IBUSERR ≡ 2 ^ 8 }
    ensures preciserr { PRECISERR ≡ 2 ^ 9 }
    ensures unstkerr { UNSTKERR ≡ 2 ^ 11 }
    ensures stkerr { STKERR ≡ 2 ^ 12 }
    ensures bfarvalid { BFARVALID ≡ 2 ^ 15 }
{}

/// The bits of CFSR that usage faults set (ARM DDI 0403, B3.2.15: UFSR in bits 31 to 16), and those of HFSR (B3.2.16).
pub fn other_fault_bits_are_those_of_the_manual()
    ensures undefinstr { UNDEFINSTR ≡ 2 ^ 16 }
    ensures invstate { INVSTATE ≡ 2 ^ 17 }
    ensures invpc { INVPC ≡ 2 ^ 18 }
    ensures nocp { NOCP ≡ 2 ^ 19 }
    ensures unaligned { UNALIGNED ≡ 2 ^ 24 }
    ensures divbyzero { DIVBYZERO ≡ 2 ^ 25 }
    ensures vecttbl { VECTTBL ≡ 2 ^ 1 }
    ensures forced { FORCED ≡ 2 ^ 30 }
{}

/// What a machine can have at most, and where RAM begins (profile; RAM: ARM DDI 0403, B3.1, "The system address map").
pub fn a_machine_has_the_sizes_of_the_profile()
    ensures lines { MAX_INTERRUPTS ≡ 240 }
    ensures exceptions { EXCEPTIONS ≡ 256 }
    ensures regions { MAX_REGIONS ≡ 16 }
    ensures ram { RAM_BASE ≡ 2 ^ 29 }
    ensures headers { MAX_SEGMENTS ≡ 64 }
{}
