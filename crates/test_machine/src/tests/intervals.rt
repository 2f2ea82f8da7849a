//! What kept decisions keep, and time kept ahead beside time that is counted.

use clock::{Clock, LazySysTick, Script, ScriptedEvent, Signal};
use mpu::{Decider, Kind, MpuRegister, MpuRegs};
use mpu_table::{KeptDecisions, Table};
use std::test::*;

/// Returns whether the rule of a fetch by privileged code is kept.
fn is_kept(kept: &KeptDecisions<Table>, address: u32) -> bool {
    kept.kept_rule(address, Kind::Fetch, true).is_some()
}

#[test]
fn fetches_are_kept_until_the_registers_are_written(rt: HostRuntime) {
    let mut registers = MpuRegs::new(8);
    let mut kept = KeptDecisions::<Table>::fresh(&registers);
    let _ = kept.decide_and_keep(0x100, Kind::Fetch, true, true);
    assert!(rt; !is_kept(&kept, 0x100), "at a priority below 0");
    let _ = kept.decide_and_keep(0x100, Kind::Fetch, true, false);
    assert!(rt; is_kept(&kept, 0x100), "where it is granted");
    let _ = kept.decide_and_keep(0x2000_0100, Kind::Fetch, true, false);
    assert!(rt;
        is_kept(&kept, 0x100) && is_kept(&kept, 0x2000_0100),
        "in flash and in RAM"
    );
    let _ = kept.decide_and_keep(0x4000_0000, Kind::Fetch, true, false);
    assert!(rt; !is_kept(&kept, 0x4000_0000), "where it is refused");
    assert!(rt; registers.write_reg(MpuRegister::Control, 5).is_ok());
    kept.reload(&registers);
    assert!(rt; !is_kept(&kept, 0x100), "after a write");
}

#[test]
fn rules_of_data_are_kept_until_the_registers_are_written(rt: HostRuntime) {
    let mut registers = MpuRegs::new(8);
    let mut kept = KeptDecisions::<Table>::fresh(&registers);
    assert!(rt;
        kept.kept_rule(0x2000_0000, Kind::Load, true).is_none(),
        "before a decision"
    );
    let _ = kept.decide_and_keep(0x2000_0000, Kind::Load, true, false);
    let _ = kept.decide_and_keep(0, Kind::Load, true, false);
    assert!(rt;
        kept.kept_rule(0, Kind::Load, true).is_some(),
        "beside one of RAM"
    );
    assert!(rt;
        kept.kept_rule(0x2000_0000, Kind::Store, true).is_some(),
        "for each kind"
    );
    assert!(rt;
        kept.kept_rule(0x2000_0000, Kind::Load, false).is_some(),
        "for each privilege"
    );
    assert!(rt;
        kept.kept_rule(0x2000_0000, Kind::Vector, true).is_none(),
        "but for vectors"
    );
    assert!(rt; registers.write_reg(MpuRegister::Control, 1).is_ok());
    kept.reload(&registers);
    let _ = kept.decide_and_keep(0x2000_0000, Kind::Load, false, false);
    assert!(rt;
        kept.kept_rule(0x2000_0000, Kind::Load, false).is_none(),
        "where it is refused"
    );
    assert!(rt;
        kept.kept_rule(0x2000_0000, Kind::Load, true).is_none(),
        "without PRIVDEFENA"
    );
}

#[test]
fn nothing_is_due_before_the_tick_that_is_kept(rt: HostRuntime) -> Result<(), Fail> {
    let mut clock = Clock::<LazySysTick>::new(Script::new(rt.alloc(), &[])?);
    clock.write_rvr(2);
    clock.write_csr(3);
    assert!(rt; *clock.due() == 3);
    let mut clock = clock.with_due(5);
    assert!(rt; clock.quiet_ticks() == 4);
    'ticks: for _ in 0..3 {
        if clock.now() < 3 {
            assert!(rt; clock.tick_quietly());
        }
    }
    assert!(rt; clock.read_cvr() == 0);
    Ok(())
}

/// The last tick of a clock, 2^48, and the one after it, which is kept where nothing more is due.
const LAST: u64 = 1 << 48;

#[test]
fn an_event_in_the_last_tick_is_due_there(rt: HostRuntime) -> Result<(), Fail> {
    let mut script = Vec::new(rt.alloc());
    script.push(ScriptedEvent {
        at: LAST,
        what: Signal::Nmi,
    })?;
    let clock = Clock::<LazySysTick>::new(Script::new(rt.alloc(), script.as_slice())?);
    assert!(rt; *clock.due() == LAST);
    let clock = Clock::<LazySysTick>::new(Script::new(rt.alloc(), &[])?);
    assert!(rt; *clock.due() == LAST + 1);
    Ok(())
}
