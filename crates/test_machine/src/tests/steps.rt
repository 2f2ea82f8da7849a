//! Single steps.

use super::machines::machine_with;
use machine::{Events, Slow, event_line, stop_line};
use std::test::*;

/// Returns whether a machine goes on by a step with one event, of this line.
fn tells(machine: &mut Slow, events: &mut Events, line: &str) -> bool {
    if machine.step(events).is_some() || events.len() != 1 {
        return false;
    }
    let lines = events.as_slice();
    event_line(&lines[0]).as_slice() == line.as_bytes()
}

/// Returns whether a machine stops, or has stopped, by a step of this number of events.
fn stops(machine: &mut Slow, events: &mut Events, count: usize, line: &str) -> bool {
    let Some(stop) = machine.step(events) else {
        return false;
    };
    events.len() == count && stop_line(&stop).as_slice() == line.as_bytes()
}

/// MOV R0, #7, and BKPT.
const TO_BREAKPOINT: &str = "\
word 100 BE002007
reg F 100";

const BREAKPOINT: &str = "stop breakpoint 0\n";

/// A stopped machine repeats its stop and has no event.
#[test]
fn a_step_tells_its_events(rt: HostRuntime) -> Result<(), Fail> {
    let mut machine: Slow = machine_with(rt.alloc(), TO_BREAKPOINT).ok_or("a machine")?;
    let mut events = Events::new();
    assert!(rt; tells(&mut machine, &mut events, "1 F 00000100 2 p ok off\n"));
    assert!(rt; stops(&mut machine, &mut events, 1, BREAKPOINT));
    assert!(rt; stops(&mut machine, &mut events, 0, BREAKPOINT));
    Ok(())
}
