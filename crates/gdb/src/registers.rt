//! The registers of the target description.

ghost use Rattle.std.specs.Prelude.{◌≡◌};
ghost use Rattle.gdb.specs.Targets.{place_of, register_written, target_values};
ghost use Rattle.instruction_set.specs.Registers.{sp};

use gdb_texts::REGISTERS;
use machine::{Decider, Exceptions, KeptCode, Machine, Place, SysTickState};

/// Returns SP, the stack pointer in use.
fn stack_pointer<D: Decider, C: KeptCode, L: Exceptions, U: SysTickState>(
    machine: &Machine<D, C, L, U>,
) -> u32
    ensures { result ≡ sp machine.now.state.registers }
{
    let values = machine.regs();
    if machine.execution().exception == 0 && values.control / 2 % 2 == 1 {
        values.psp
    } else {
        values.msp
    }
}

/// Returns the values of all registers, in the order of their numbers.
pub fn register_values<D: Decider, C: KeptCode, L: Exceptions, U: SysTickState>(
    machine: &Machine<D, C, L, U>,
) -> [u32; REGISTERS]
    ensures { result ≡ target_values machine.now.state }
{
    let v = machine.regs();
    let sp = stack_pointer(machine);
    let g = v.general;
    [
        g[0],
        g[1],
        g[2],
        g[3],
        g[4],
        g[5],
        g[6],
        g[7],
        g[8],
        g[9],
        g[10],
        g[11],
        g[12],
        sp,
        v.lr,
        v.pc,
        v.xpsr,
        v.msp,
        v.psp,
        v.primask,
        v.basepri,
        v.faultmask,
        v.control,
    ]
}

/// Returns the place of a register with a value, if there is a register of that number.
pub fn place_of(number: u32, value: u32) -> Option<Place>
    ensures { result ≡ place_of number value }
{
    match number {
        0..=15 => Some(Place::Reg(number as u8, value)),
        16 => Some(Place::Special(3, value)),
        17 => Some(Place::Special(8, value)),
        18 => Some(Place::Special(9, value)),
        19 => Some(Place::Special(16, value)),
        20 => Some(Place::Special(17, value)),
        21 => Some(Place::Special(19, value)),
        22 => Some(Place::Special(20, value)),
        _ => None,
    }
}
