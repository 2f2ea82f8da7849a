//! The state of a machine as text.

ghost use Rattle.std.specs.Prelude.{◌≡◌, ◌+◌, ◌≤◌, ◌++◌, codes, length};
ghost use Rattle.debugger.specs.StateText.{clock_line, number_if, numbers_below, set_line, state_text, status_lines};
ghost use Rattle.output.specs.Output.{Put};
ghost use Rattle.platform.specs.declared.exception.TheConstants.{EXCEPTIONS};

use crate::texts::{regions_text, registers_text};
use debugger_commands::{Reply, put_register};
use output::{IoError, Out};
use platform::exception::EXCEPTIONS;
use platform::system::StatusRegister;
use target::Target;
use trace::page::Page;

/// Room for the text of a state.
pub type StatePage = Page<0x4000>;

/// Appends the line of the clock.
#[tactic(auto, using(debugger_commands::proofs::Concatenation::in_three))]
fn put_clock(page: &mut StatePage, ticks: u64)
    requires { length page.old ≤ 1024 }
    ensures text { page.new ≡ page.old ++ clock_line ticks }
    ensures short { length page.new ≤ length page.old + 27 }
{
    page.put(b"CLOCK ");
    page.put_decimal(ticks);
    page.put(b"\n");
}

/// Returns the lines of the registers of faults, of VTOR and of CCR.
#[tactic(auto, unfolding(crate::specs::StateText::status_lines, platform::specs::Status::read_status))]
fn status_text<T: Target>(machine: &T) -> Reply
    ensures { result ≡ status_lines (T.model machine.now).state.bus.system.status }
{
    let mut page = Reply::new();
    put_register(
        &mut page,
        b"CFSR",
        machine.status_word(StatusRegister::Cfsr),
    );
    put_register(
        &mut page,
        b"HFSR",
        machine.status_word(StatusRegister::Hfsr),
    );
    put_register(
        &mut page,
        b"MMFAR",
        machine.status_word(StatusRegister::Mmfar),
    );
    put_register(
        &mut page,
        b"BFAR",
        machine.status_word(StatusRegister::Bfar),
    );
    put_register(
        &mut page,
        b"VTOR",
        machine.status_word(StatusRegister::Vtor),
    );
    put_register(&mut page, b"CCR", machine.status_word(StatusRegister::Ccr));
    page
}

/// Appends a number, where it's in a set.
fn put_number_if(page: &mut StatePage, number: u16, there: bool)
    requires { length page.old + 21 ≤ 0x4000 }
    ensures text { page.new ≡ page.old ++ number_if number there }
    ensures short { length page.new ≤ length page.old + 21 }
{
    if there {
        page.put(b" ");
        page.put_decimal(number as u64);
    }
}

/// Appends the line of the pending exceptions.
#[tactic(auto, unfolding(crate::specs::StateText::numbers_below))]
fn put_pending<T: Target>(page: &mut StatePage, machine: &T)
    requires { length page.old ≤ 4096 }
    ensures text { page.new
        ≡ page.old ++ set_line (codes "PENDING") (T.model machine.now).state.bus.system.nvic.pending }
    ensures short { length page.new ≤ length page.old + 5384 }
{
    page.put(b"PENDING");
    'numbers: for number in 0..EXCEPTIONS {
        put_number_if(page, number, machine.is_pending(number));
    }
    page.put(b"\n");
}

/// Appends the line of the active exceptions.
#[tactic(auto, unfolding(crate::specs::StateText::numbers_below))]
fn put_active<T: Target>(page: &mut StatePage, machine: &T)
    requires { length page.old ≤ 10000 }
    ensures { page.new ≡ page.old ++ set_line (codes "ACTIVE") (T.model machine.now).state.bus.system.nvic.active }
{
    page.put(b"ACTIVE");
    'numbers: for number in 0..EXCEPTIONS {
        put_number_if(page, number, machine.is_active(number));
    }
    page.put(b"\n");
}

/// Returns the state of a machine, a line for each value.
#[tactic(auto, using(crate::proofs::Joining::in_six))]
pub fn state_page<T: Target>(machine: &T) -> StatePage
    ensures { result ≡ state_text (T.model machine.now).state }
{
    let mut page = StatePage::new();
    page.put_slice(registers_text(&machine.regs()).as_slice());
    put_clock(&mut page, machine.ticks());
    page.put_slice(status_text(machine).as_slice());
    page.put_slice(regions_text(machine).as_slice());
    put_pending(&mut page, machine);
    put_active(&mut page, machine);
    page
}

/// Writes the state of a machine, a line for each value.
pub fn write_state<T: Target, W: Out>(machine: &T, out: &mut W) -> Result<(), IoError>
    ensures { Put (W.writing out.old) (W.writing out.new) (state_text (T.model machine.now).state) result }
{
    out.put_all(state_page(machine).as_slice())
}
