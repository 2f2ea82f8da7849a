//! The texts of answers that show a part of the machine, and that of the end of a run of a task.

ghost use Rattle.std.specs.Prelude.{◌≡◌, ◌+◌, ◌≤◌, ◌++◌, length};
ghost use Rattle.debugger.specs.Answers.{closing_text, next_line, next_text, part_text, task_text};
ghost use Rattle.debugger.specs.StateText.{core_lines, mask_lines, registers_text};
ghost use Rattle.debugger_commands.specs.Texts.{bytes_text, memory_text, region_lines};
ghost use Rattle.output.specs.Output.{Put};
ghost use Rattle.platform.specs.declared.mpu.TheConstants.{MAX_REGIONS};

use crate::state::write_state;
use debugger_commands::{
    Part, Reply, byte_address, decision_text, help_text, put_byte, put_generals, put_region,
    put_register,
};
use output::{IoError, Out};
use platform::mpu::MAX_REGIONS;
use platform::stop::{Stop, Unsupported};
use target::{RegValues, Target};
use task_laws::{StepKind, TaskEnd};

/// Writes the text for a part of the machine.
pub fn put_part<T: Target, W: Out>(machine: &T, part: Part, out: &mut W) -> Result<(), IoError>
    ensures { Put (W.writing out.old) (W.writing out.new) (part_text (T.model machine.now).state part) result }
{
    match part {
        Part::Regs => out.put_all(registers_text(&machine.regs()).as_slice()),
        Part::Memory(address, last) => {
            out.put_all(memory_text(machine, address, last as u32 + 1).as_slice())
        }
        Part::Regions => out.put_all(regions_text(machine).as_slice()),
        Part::Explain(address, privileged, kind) => {
            out.put_all(decision_text(&machine.explain(address, privileged, kind)).as_slice())
        }
        Part::State => write_state(machine, out),
        Part::Next => out.put_all(next_text(machine).as_slice()),
        Part::Help => out.put_all(help_text()),
    }
}

/// Appends the kind of the next step, or the line of the stop.
fn put_next(page: &mut Reply, kind: Option<StepKind>, stop: Option<Stop>)
    requires { length page.old + 64 ≤ 1024 }
    ensures { page.new ≡ page.old ++ next_line kind stop }
{
    match kind {
        Some(StepKind::Vector) => page.put(b"Vector\n"),
        Some(StepKind::Stack) => page.put(b"Stack\n"),
        Some(StepKind::Sleep) => page.put(b"Sleep\n"),
        Some(StepKind::Instruction) => page.put(b"Instruction\n"),
        None => match stop {
            Some(stop) => page.put_stop(&stop),
            None => page.put_stop(&Stop::OutOfProfile(Unsupported::ClockEnd)),
        },
    }
}

/// Returns the line of the kind of the next step, or of the stop.
pub fn next_text<T: Target>(machine: &T) -> Reply
    ensures { result ≡ next_text (T.model machine.now).state }
{
    let mut page = Reply::new();
    put_next(&mut page, machine.next_kind(), machine.stop());
    page
}

/// Returns the line after an answer: the clock, PC and the kind of the next step, or the stop.
pub fn closing_text<T: Target>(machine: &T) -> Reply
    ensures { result ≡ closing_text (T.model machine.now).state }
{
    let mut page = Reply::new();
    page.put(b"= ");
    page.put_decimal(machine.ticks());
    page.put(b" ");
    page.put_word(machine.regs().pc);
    page.put(b" ");
    put_next(&mut page, machine.next_kind(), machine.stop());
    page
}

/// Appends the lines of the stack pointers, LR, PC and XPSR.
#[tactic(auto, unfolding(crate::specs::StateText::core_lines))]
fn put_core(page: &mut Reply, values: &RegValues)
    requires { length page.old ≤ 403 }
    ensures text { page.new ≡ page.old ++ core_lines values.now }
    ensures short { length page.new ≤ length page.old + 100 }
{
    put_register(page, b"MSP", values.msp);
    put_register(page, b"PSP", values.psp);
    put_register(page, b"LR", values.lr);
    put_register(page, b"PC", values.pc);
    put_register(page, b"XPSR", values.xpsr);
}

/// Appends the lines of CONTROL and the masks.
#[tactic(auto, unfolding(crate::specs::StateText::mask_lines))]
fn put_masks(page: &mut Reply, values: &RegValues)
    requires { length page.old ≤ 503 }
    ensures { page.new ≡ page.old ++ mask_lines values.now }
{
    put_register(page, b"CONTROL", values.control);
    put_register(page, b"PRIMASK", values.primask);
    put_register(page, b"FAULTMASK", values.faultmask);
    put_register(page, b"BASEPRI", values.basepri);
}

/// Returns the lines of all registers.
pub fn registers_text(values: &RegValues) -> Reply
    ensures { result ≡ registers_text values.now }
{
    let mut page = Reply::new();
    put_generals(&mut page, &values.general);
    put_core(&mut page, values);
    put_masks(&mut page, values);
    page
}

/// Appends the first bytes of memory and of devices from an address on.
#[tactic(auto, unfolding(debugger_commands::specs::Texts::bytes_text))]
fn put_bytes<T: Target>(page: &mut Reply, machine: &T, address: u32, count: u32)
    requires few { count ≤ 256 }
    requires room { length page.old ≤ 9 }
    ensures text { page.new ≡ page.old ++ bytes_text (T.model machine.now).state.bus address count }
    ensures short { length page.new ≤ 777 }
{
    'offsets: for offset in 0..count {
        put_byte(
            page,
            machine.peek_memory_or_device(byte_address(address, offset)),
        );
    }
}

/// Returns the line of `count` bytes of memory.
pub fn memory_text<T: Target>(machine: &T, address: u32, count: u32) -> Reply
    requires { count ≤ 256 }
    ensures { result ≡ memory_text (T.model machine.now).state.bus address count }
{
    let mut page = Reply::new();
    page.put_word(address);
    page.put(b":");
    put_bytes(&mut page, machine, address, count);
    page.put(b"\n");
    page
}

/// Returns the lines of the regions that the board has.
#[tactic(auto, unfolding(debugger_commands::specs::Texts::region_lines))]
pub fn regions_text<T: Target>(machine: &T) -> Reply
    ensures { result ≡ region_lines (T.model machine.now).state.bus.system.mpu MAX_REGIONS }
{
    let mut page = Reply::new();
    'numbers: for number in 0..MAX_REGIONS {
        put_region(&mut page, number, machine.region(number));
    }
    page
}

/// Returns the line of the end of a run of a task.
pub fn task_text(end: TaskEnd) -> Reply
    ensures { result ≡ task_text end }
{
    let mut page = Reply::new();
    match end {
        TaskEnd::Done => page.put(b"task done\n"),
        TaskEnd::Other => page.put(b"task other\n"),
        TaskEnd::NotTask => page.put(b"task not\n"),
        TaskEnd::Stopped(stop) => page.put_stop(&stop),
    }
    page
}
