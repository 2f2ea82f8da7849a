//! Exceptions as sets of bits beside exceptions as plain sets: the same changes, the same answers.

use nvic::{Escalation, Exceptions, PlainExceptions};
use nvic_levels::BitLevels;
use std::test::*;

/// The next number of a fixed list.
fn next(number: u32) -> u32 {
    number.wrapping_mul(1_664_525).wrapping_add(1_013_904_223)
}

/// Makes the change that a number of the list says: its kind, an exception and a byte.
fn change<L: Exceptions>(levels: &mut L, number: u32) {
    let exception = (number >> 20 & 0xFF) as u16;
    let byte = (number >> 12 & 0xFF) as u8;
    let on = number >> 11 & 1 == 1;
    match number >> 28 {
        0 | 1 => levels.pend(exception),
        2 => levels.clear(exception),
        3 | 4 => levels.enable(exception),
        5 => levels.disable(exception),
        6 | 7 => levels.set_priority(exception, byte),
        8 => levels.activate(exception),
        9 | 10 => levels.deactivate(exception),
        11 => levels.set_group(byte),
        12 => levels.set_primask(on),
        13 => levels.set_faultmask(on),
        14 => levels.set_basepri(byte),
        _ => levels.pend_due(&[number, 0, 0, number, 0, 0, 0, number]),
    }
}

/// A number for what becomes of a fault.
fn place(escalation: Escalation) -> u8 {
    match escalation {
        Escalation::Itself => 0,
        Escalation::HardFault => 1,
        Escalation::Lockup => 2,
    }
}

/// Returns whether both answer alike of all exceptions.
fn agree(plain: &PlainExceptions, bits: &BitLevels) -> bool {
    plain.best() == bits.best()
        && plain.candidate() == bits.candidate()
        && plain.candidate_unmasked() == bits.candidate_unmasked()
        && plain.execution_priority().number() == bits.execution_priority().number()
        && plain.is_below_zero() == bits.is_below_zero()
        && plain.is_interrupt_pending() == bits.is_interrupt_pending()
}

/// Returns whether both answer alike of one exception.
fn agree_on(plain: &PlainExceptions, bits: &BitLevels, exception: u16) -> bool {
    plain.is_pending(exception) == bits.is_pending(exception)
        && plain.is_enabled(exception) == bits.is_enabled(exception)
        && plain.is_active(exception) == bits.is_active(exception)
        && plain.priority(exception) == bits.priority(exception)
        && place(plain.escalate(exception)) == place(bits.escalate(exception))
}

#[test]
fn sets_of_bits_answer_as_plain_sets(rt: HostRuntime) -> Result<(), Fail> {
    let mut plain = PlainExceptions::fresh(240, 4);
    let mut bits = BitLevels::fresh(240, 4);
    let mut number = 1;
    for _ in 0..2_000 {
        number = next(number);
        change(&mut plain, number);
        change(&mut bits, number);
        assert!(rt; agree(&plain, &bits));
        assert!(rt; agree_on(&plain, &bits, (number >> 20 & 0x1FF) as u16));
    }
    Ok(())
}

#[test]
fn a_level_has_what_is_pending_and_enabled(rt: HostRuntime) -> Result<(), Fail> {
    let mut levels = BitLevels::fresh(240, 4);
    levels.set_priority(255, 0x40);
    levels.pend(255);
    assert!(rt; *levels.level(0x40) == [0; 8]);
    levels.enable(255);
    assert!(rt; *levels.level(0x40) == [0, 0, 0, 0, 0, 0, 0, 0x8000_0000]);
    levels.set_priority(255, 0x50);
    assert!(rt; *levels.level(0x40) == [0; 8]);
    assert!(rt; *levels.level(0x50) == [0, 0, 0, 0, 0, 0, 0, 0x8000_0000]);
    Ok(())
}
