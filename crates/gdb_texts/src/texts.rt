//! The texts of `monitor help`, `monitor why`, and the second line of `monitor explain`.

ghost use Rattle.std.specs.Prelude.{◌≡◌, ◌+◌, ◌≤◌, ◌++◌, length};
ghost use Rattle.gdb_texts.specs.Texts.{explanation, monitor_help, refusal_text, rule_words, why_text};

use crate::replies::ErrorCode;
use platform::access::{Decision, Rule};
use trace::page::Page;

/// A line for each command of `monitor` that a session carries out.
pub const HELP: &str = "\
explain <a> p|u r|w|x       shows the rule that would decide an access, and says it in words
regions                     shows RBAR and RASR of each region of the MPU
state                       shows registers, the clock, fault registers, regions and exceptions
next                        shows the kind of the next step, or the stop line
history                     shows the ticks to which going back undoes a write, the first one, and now
trace <which>               chooses the lines of steps: all, refused, exceptions, console or none
trace on|off                the same as all, and as console
lines on|off                sets whether lines say why a run ended
stop <what> on|off          sets whether runs end at: refused, faults or exceptions
step into|over              sets whether steps go into handlers, or over them and other tasks
budget <n>                  sets the most steps of a run; 0 sets no limit
place reg <n> <v>           puts a value into a core register: 13 is the stack pointer in use, 14 LR, 15 PC
place special <n> <v>       puts a value into a special register, numbered as in MSR
place word <a> <v>          puts a value into a word of memory, of the system registers or of a device
restart                     goes back to the first state
why                         says why the last packet was refused
help                        shows these lines
After place and restart, `maintenance flush register-cache` makes GDB read the registers again.
";

/// Returns a line for each command.
#[tactic(auto, unfolding(crate::specs::Texts::monitor_help))]
pub fn monitor_help() -> &'static [u8]
    ensures { result.now ≡ monitor_help }
{
    HELP.as_bytes()
}

/// Returns the line of a refusal.
fn refusal_text(error: ErrorCode) -> &'static [u8]
    ensures { result.now ≡ refusal_text error }
{
    match error {
        ErrorCode::NoAnnex => b"E00: there is no description but target.xml\n",
        ErrorCode::NotAligned =>
            b"E01: a system register is written by a whole word at its address\n",
        ErrorCode::NoSuchPlace => b"E02: no register or memory that can be written\n",
        ErrorCode::Stopped => b"E03: not now: stopped, in a handler, or entering an exception\n",
        ErrorCode::Refused => b"E04: the write would stop the machine\n",
        ErrorCode::Malformed => b"E05: a packet not of its form\n",
        ErrorCode::NoRoom => b"E06: no room for another breakpoint or watchpoint\n",
        ErrorCode::TooLong => b"E07: a packet of more than 4096 bytes\n",
        ErrorCode::NotReadable => b"E08: no byte can be read there\n",
    }
}

/// Returns the answer to `why`, for the last packet that was refused.
pub fn why_text(last: Option<ErrorCode>) -> &'static [u8]
    ensures { result.now ≡ why_text last }
{
    match last {
        Some(error) => refusal_text(error),
        None => b"no packet was refused\n",
    }
}

/// Appends what a rule means.
fn put_rule_words(page: &mut Page<128>, rule: Rule)
    requires { length page.old + 112 ≤ 128 }
    ensures text { page.new ≡ page.old ++ rule_words rule }
    ensures short { length page.new ≤ length page.old + 112 }
{
    match rule {
        Rule::ExecuteNever => page.put(b"no code is fetched from e0000000 on"),
        Rule::VectorRead => page.put(b"vectors are read without asking the MPU"),
        Rule::PrivatePeripheralBus => page.put(
            b"the Private Peripheral Bus is for privileged code",
        ),
        Rule::MpuOff => page.put(b"the MPU is off, so the default memory map decides"),
        Rule::NegativePriority => {
            page.put(
                b"the priority is below 0 and HFNMIENA is 0, so the default memory map decides",
            );
        }
        Rule::Region(number) => {
            page.put(b"the highest region with this address is ");
            page.put_decimal(number as u64);
        }
        Rule::Background => page.put(
            b"no region has this address, so the default memory map decides",
        ),
        Rule::NoRegion => page.put(b"no region has this address"),
    }
}

/// Returns the second line of `explain`: what the rule of a decision means, and whether it grants the access.
pub fn explanation(decision: &Decision) -> Page<128>
    ensures { result ≡ explanation decision.now }
{
    let mut page = Page::new();
    put_rule_words(&mut page, decision.rule);
    if decision.granted {
        page.put(b": granted\n");
    } else {
        page.put(b": refused\n");
    }
    page
}
