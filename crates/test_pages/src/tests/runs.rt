//! What a run of a machine is counted as.

use access_map::Worlds;
use elf::load;
use machine::{Board, Fast, SMALL_BOARD, Stop};
use platform::access::{Kind, Rule};
use std::test::*;
use survey::{Mark, Survey, Touch};
use survey_run::{WorldCount, survey_run};

/// An ELF file with this code from address 8 on, which begins there:
///
///     00000008  2005      MOVS R0, #5
///     0000000A  4902      LDR  R1, [PC, #8]      the word at 14
///     0000000C  6008      STR  R0, [R1, #0]      to 20000100
///     0000000E  680A      LDR  R2, [R1, #0]
///     00000010  BE00      BKPT #0
///     00000014  20000100
const IMAGE: [u8; 108] = [
    0x7F, b'E', b'L', b'F', 1, 1, 1, 0, 0, 0, 0, 0, 0, 0, 0, 0, 2, 0, 40, 0, 1, 0, 0, 0, 0, 0, 0,
    0, 52, 0, 0, 0, 0, 0, 0, 0, 0, 0, 0, 5, 52, 0, 32, 0, 1, 0, 0, 0, 0, 0, 0, 0, 1, 0, 0, 0, 84,
    0, 0, 0, 0, 0, 0, 0, 0, 0, 0, 0, 24, 0, 0, 0, 24, 0, 0, 0, 5, 0, 0, 0, 4, 0, 0, 0, 0, 0x10, 0,
    0x20, 9, 0, 0, 0, 0x05, 0x20, 0x02, 0x49, 0x08, 0x60, 0x0A, 0x68, 0x00, 0xBE, 0, 0, 0x00, 0x01,
    0, 0x20,
];

#[test]
fn a_run_is_counted(rt: HostRuntime) -> Result<(), Fail> {
    let board = Board {
        layout: SMALL_BOARD,
        events: Vec::new(rt.alloc()),
        devices: Vec::new(rt.alloc()),
    };
    let image = load(&IMAGE)?;
    let mut machine = Fast::new(rt.alloc(), &image, &board)?;
    let mut survey = Survey::new(rt.alloc(), &SMALL_BOARD)?;
    let mut count = WorldCount::new(Worlds::new(rt.alloc())?);
    let first = survey_run(&mut machine, 3, &mut survey, &mut count);
    assert!(rt; matches!(first, Stop::StepLimit));
    assert!(rt; survey.steps == 3);
    let second = survey_run(&mut machine, 100, &mut survey, &mut count);
    assert!(rt; matches!(second, Stop::Breakpoint(0)));
    assert!(rt; survey.steps == 5);
    assert!(rt; count.worlds().rows().is_empty());
    'kinds: for (kind, number) in [(Kind::Fetch, 5), (Kind::Load, 2), (Kind::Store, 1)] {
        assert!(rt; survey.counts.number(Rule::MpuOff, true, kind, None) == number);
    }
    assert!(rt; survey.faults.number() == 0);
    assert!(rt; survey.settings.rows().is_empty());
    assert!(rt; survey.flash.is_marked(true, Touch::Executed, 0));
    assert!(rt; !survey.flash.is_marked(true, Touch::Executed, 1));
    assert!(rt; survey.flash.is_marked(true, Touch::Read, 0));
    assert!(rt; survey.ram.is_marked(true, Touch::Written, 8));
    assert!(rt; !survey.ram.is_marked(true, Touch::Written, 7));
    'instructions: for (address, number) in [(6, 0), (8, 1), (0xA, 1), (0x10, 1), (0x12, 0)] {
        assert!(rt; survey.flash_code.number(true, address) == number);
    }
    assert!(rt; survey.timeline.used() == 5);
    assert!(rt; survey.timeline.is_marked(4, Mark::Privileged));
    Ok(())
}
