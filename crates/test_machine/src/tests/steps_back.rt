//! How many steps are made once more to go back in time. Contracts say where going back ends, and not how.

ghost use Rattle.std.specs.Prelude.{◌≡◌, ◌<◌, length};
ghost use Rattle.gdb_past.specs.Places.{AreOfOneMachine};
ghost use Rattle.gdb_past.specs.Ways.{IsAfterMark};

use super::machines::machine_with;
use gdb_past::{Past, room_of};
use machine::{Decider, Events, Exceptions, Fast, KeptCode, Machine, SMALL_BOARD, SysTickState};
use std::alloc::{AllocError, Global};
use std::test::*;

/// How many steps the machine makes.
const STEPS: u64 = 1_000_000;

/// MOV R0, #7, and a branch back to it.
const LOOP: &str = "\
word 100 E7FD2007
reg F 100";

/// Makes steps, and follows the machine.
fn run_on<D: Decider, C: KeptCode, L: Exceptions, U: SysTickState>(
    past: &mut Past<L, U>,
    machine: &mut Machine<D, C, L, U>,
    count: u64,
)
    requires { IsAfterMark past.old machine.old.state }
    ensures past { past.new ≡ past.old }
    ensures after { IsAfterMark past.new machine.new.state }
{
    let mut events = Events::new();
    'steps: for step in 0..count {
        let _ = step;
        let _ = machine.step(&mut events);
        past.follow(machine);
    }
}

/// Goes back to a place after the only mark. Returns how many steps are made once more.
fn steps_again<D: Decider, C: KeptCode, L: Exceptions, U: SysTickState>(
    past: &mut Past<L, U>,
    machine: &mut Machine<D, C, L, U>,
    place: u64,
) -> u64
    requires mark { 0 < length past.old.marks }
    requires fits { AreOfOneMachine past.old.start machine.old.state }
    ensures past { past.new ≡ past.old }
    ensures fits { AreOfOneMachine past.new.start machine.new.state }
{
    let nearest = past.go_near(0, 0, place, machine);
    let _ = past.go_near(0, place, place, machine);
    place - nearest
}

/// Runs a machine, goes back to a place, and then a step further back. Returns how many steps were made once more for
/// each, or fails where memory can't be allocated.
fn both_again<D: Decider, C: KeptCode, L: Exceptions, U: SysTickState>(
    alloc: Global,
    machine: &mut Machine<D, C, L, U>,
    place: u64,
) -> Result<[u64; 2], AllocError> {
    let mut past = Past::new(alloc, room_of(&SMALL_BOARD), machine)?;
    run_on(&mut past, machine, STEPS);
    let marks = past.count();
    prove!(marks > 0);
    let first = steps_again(&mut past, machine, place);
    let second = steps_again(&mut past, machine, place.saturating_sub(1));
    Ok([first, second])
}

/// At most 16,384 steps and a twelfth of those of the run, for a step back from its end and for one from a place in its
/// middle, and for a step further back.
#[test]
fn going_back_makes_few_steps_again(rt: HostRuntime) -> Result<(), Fail> {
    'places: for place in [STEPS - 1, 600_000].iter() {
        let mut machine: Fast = machine_with(rt.alloc(), LOOP).ok_or("a machine")?;
        let again = both_again(rt.alloc(), &mut machine, *place)
            .ok()
            .ok_or("memory")?;
        'again: for steps in again.iter() {
            assert!(rt; *steps <= 16_384 + STEPS / 12, "{steps}, back to {place}");
        }
    }
    Ok(())
}
