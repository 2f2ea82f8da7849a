//! Runs of tasks whose writer is cut. A task is code in unprivileged Thread mode while the regions of the MPU decide
//! (ARM DDI 0403, "Protected Memory System Architecture, PMSAv7").

use super::cut::Text;
use super::cuts::{ALL, At, Ending, NOWHERE, run_task_cut};
use super::machines::machine_with;
use machine::{RegValues, RunError, Slow};
use std::test::*;

/// STR R1, [R0] and B to itself. Region 1 is the 4 KiB of flash, which all may read, and CONTROL.nPRIV is bit 0 of
/// special register 14.
const STORE: &str = "\
word 100 E7FE6001
word E000ED9C 20000010
word E000EDA0 03000013
word E000ED9C 00000011
word E000EDA0 06000017
word E000ED94 1
reg 0 20000000
reg 1 77
special 14 1
reg F 100";

/// What three steps of it write: four lines of 23 bytes, of which two are of the first step.
static STORE_TRACE: [u8; 92] =
    *b"1 F 00000100 2 u ok r1\n1 S 20000000 4 u ok r0\n2 F 00000102 2 u ok r1\n3 F 00000102 2 u ok r1\n";

/// Returns whether a writer got this number of bytes of the trace.
fn got(text: &Text, bytes: usize) -> bool {
    text.len() == bytes && STORE_TRACE.starts_with(text.as_slice())
}

/// The step whose line a writer of this number of bytes cuts.
fn cut_step(bytes: usize) -> u64 {
    if bytes < 46 {
        1
    } else if bytes < 69 {
        2
    } else {
        3
    }
}

/// Returns whether a writer of this number of bytes breaks a machine, in the step whose line it cuts.
fn breaks(machine: &mut Slow, left: usize, fails: bool) -> bool {
    let ending = Ending {
        most: ALL,
        at: At { left, fails },
    };
    let (end, text) = run_task_cut(machine, 3, ending);
    match end {
        Err(RunError::Write { steps }) => {
            steps == cut_step(left) && got(&text, left) && machine.broken()
        }
        _ => false,
    }
}

/// Returns whether a machine is broken, so that a run of a task writes nothing.
fn is_broken(machine: &mut Slow) -> bool {
    let ending = Ending {
        most: ALL,
        at: NOWHERE,
    };
    let (end, text) = run_task_cut(machine, 3, ending);
    matches!(end, Err(RunError::Broken)) && text.is_empty()
}

/// The other registers than R0 to R12.
fn others(values: &RegValues) -> [u32; 9] {
    [
        values.msp,
        values.psp,
        values.lr,
        values.pc,
        values.xpsr,
        values.control,
        values.primask,
        values.faultmask,
        values.basepri,
    ]
}

/// Returns whether two machines have the same registers and regions.
fn registers_agree(one: &Slow, two: &Slow) -> bool {
    let (first, second) = (one.regs(), two.regs());
    'regions: for number in 0..8_u8 {
        if one.region(number) != two.region(number) {
            return false;
        }
    }
    first.general == second.general && others(&first) == others(&second)
}

/// Returns whether two machines have the same bytes in a range of addresses.
fn bytes_agree(one: &Slow, two: &Slow, base: u32) -> bool {
    'bytes: for place in 0..0x2000_u32 {
        let address = base | place;
        if one.byte(address) != two.byte(address) {
            return false;
        }
    }
    true
}

/// Returns whether two machines of the small board agree.
fn agree(one: &Slow, two: &Slow) -> bool {
    registers_agree(one, two) && bytes_agree(one, two, 0) && bytes_agree(one, two, 0x2000_0000)
}

/// Of two machines that are broken alike, one is run further, which changes nothing.
#[test]
fn a_writer_that_fails_in_a_task_breaks_the_machine(rt: HostRuntime) -> Result<(), Fail> {
    'bytes: for left in 0..92usize {
        'ways: for fails in [true, false] {
            let mut machine: Slow = machine_with(rt.alloc(), STORE).ok_or("a machine")?;
            let mut other: Slow = machine_with(rt.alloc(), STORE).ok_or("a machine")?;
            assert!(rt; breaks(&mut machine, left, fails), "after {left}");
            assert!(rt; breaks(&mut other, left, fails), "after {left}");
            assert!(rt; is_broken(&mut machine), "after {left}");
            assert!(rt; agree(&machine, &other), "after {left}");
        }
    }
    Ok(())
}
