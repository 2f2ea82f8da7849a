//! Steps over handlers and other tasks.

ghost use Rattle.std.specs.Prelude.{◌≡◌};
ghost use Rattle.gdb.specs.Over.{is_back, is_same_code, is_stack, remembered_after, return_point};
ghost use Rattle.instruction_set.specs.Registers.{uses_psp};

use machine::{Decider, Exceptions, KeptCode, Machine, StepKind, SysTickState, is_instruction};

/// The code that a step over handlers returns to: the exception whose handler it is, or 0, the stack that it uses, SP,
/// and its next instruction.
#[derive(Clone, Copy)]
pub struct ReturnPoint {
    pub exception: u16,
    pub uses_psp: bool,
    pub sp: u32,
    pub pc: u32,
}

/// Returns whether the process stack is in use.
fn uses_psp<D: Decider, C: KeptCode, L: Exceptions, U: SysTickState>(
    machine: &Machine<D, C, L, U>,
) -> bool
    ensures { result ≡ uses_psp machine.now.state.registers }
{
    machine.execution().exception == 0 && machine.regs().control / 2 % 2 == 1
}

/// Returns the code that the machine runs.
fn return_point<D: Decider, C: KeptCode, L: Exceptions, U: SysTickState>(
    machine: &Machine<D, C, L, U>,
) -> ReturnPoint
    ensures { result ≡ return_point machine.now.state }
{
    let uses_psp = uses_psp(machine);
    let values = machine.regs();
    ReturnPoint {
        exception: machine.execution().exception,
        uses_psp,
        sp: if uses_psp { values.psp } else { values.msp },
        pc: values.pc,
    }
}

/// Returns whether a step is a Stack step.
fn is_stack(kind: Option<StepKind>) -> bool
    ensures { result ≡ is_stack kind }
{
    matches!(kind, Some(StepKind::Stack))
}

/// Returns whether two points are in the same code: of the same exception, on the same stack, with the same SP.
fn is_same_code(one: ReturnPoint, other: ReturnPoint) -> bool
    ensures { result ≡ is_same_code one other }
{
    one.exception == other.exception
        && (one.sp == other.sp
            && (if one.uses_psp {
                other.uses_psp
            } else {
                !other.uses_psp
            }))
}

/// Returns whether the next step is an instruction of the code that was interrupted.
pub fn is_back<D: Decider, C: KeptCode, L: Exceptions, U: SysTickState>(
    machine: &Machine<D, C, L, U>,
    point: ReturnPoint,
) -> bool
    ensures { result ≡ is_back machine.now.state point }
{
    is_same_code(return_point(machine), point) && is_instruction(machine.next_kind())
}

/// Returns what a unit returns to after the next step. `over` is whether it goes over handlers.
pub fn remembered_after<D: Decider, C: KeptCode, L: Exceptions, U: SysTickState>(
    over: bool,
    point: Option<ReturnPoint>,
    machine: &Machine<D, C, L, U>,
) -> Option<ReturnPoint>
    ensures { result ≡ remembered_after over point machine.now.state }
{
    match point {
        None => {
            if over && is_stack(machine.next_kind()) {
                Some(return_point(machine))
            } else {
                None
            }
        }
        Some(point) => {
            if is_back(machine, point) {
                None
            } else {
                Some(point)
            }
        }
    }
}
