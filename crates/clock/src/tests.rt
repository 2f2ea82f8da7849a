//! The end of the clock, which no run can reach.

use crate::{Clock, EagerSysTick, LazySysTick, Script};
use std::test::*;

/// The tick at which a clock ends.
const LAST: u64 = 1 << 48;

#[test]
fn counting_reaches_the_last_tick(rt: HostRuntime) -> Result<(), Fail> {
    let mut clock: Clock<EagerSysTick> = Clock::new(Script::new(rt.alloc(), &[])?);
    clock.ticks = LAST - 1;
    let due = clock.tick_due();
    assert_eq!(rt; clock.now(), LAST);
    assert_eq!(rt; due, [0; 8]);
    Ok(())
}

#[test]
fn a_quiet_tick_reaches_the_last_tick(rt: HostRuntime) -> Result<(), Fail> {
    let mut clock: Clock<LazySysTick> = Clock::new(Script::new(rt.alloc(), &[])?);
    clock.ticks = LAST - 1;
    assert!(rt; clock.tick_quietly());
    assert_eq!(rt; clock.now(), LAST);
    Ok(())
}
