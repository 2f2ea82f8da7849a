//! Exceptions of boards of 8 and of 240 interrupts: what pends and is kept, call by call.

use nvic::{Exceptions, Masks, PlainExceptions};
use std::test::*;

#[test]
fn a_disabled_line_waits(rt: HostRuntime) {
    let mut levels = PlainExceptions::fresh(8, 4);
    levels.pend(16);
    assert!(rt; levels.is_interrupt_pending());
    assert!(rt; levels.best().is_none() && levels.candidate().is_none());
    levels.enable(16);
    levels.activate(3);
    assert!(rt; levels.best() == Some(16) && levels.candidate().is_none());
    assert!(rt; !levels.is_other_active(3) && levels.is_other_active(16));
    levels.clear(16);
    levels.pend(15);
    assert!(rt; !levels.is_interrupt_pending());
}

/// Returns whether the masks are the highest ones of a board that keeps three bits.
fn are_highest(masks: Masks) -> bool {
    masks.basepri == 0xE0 && masks.primask && masks.faultmask
}

#[test]
fn what_a_board_keeps(rt: HostRuntime) {
    let mut levels = PlainExceptions::fresh(255, 3);
    assert!(rt; levels.interrupts() == 240 && levels.priority_bits() == 3 && levels.group() == 0);
    levels.set_group(0xFD);
    assert!(rt; levels.group() == 5);
    levels.set_basepri(0xFF);
    levels.set_primask(true);
    levels.set_faultmask(true);
    assert!(rt; are_highest(levels.masks()));
}
