//! The answer to `help`.

ghost use Rattle.std.specs.Prelude.{◌≡◌};
ghost use Rattle.debugger_commands.specs.Texts.{help_text};

/// A line for each command.
pub const HELP: &str = "\
step                   makes a step: its trace lines, then `at <pc>` or the stop line
run <n>                makes up to n steps, from 1 to 1000000, and ends where something is hit
task <n>               makes up to n steps of a task, from 1 to 1000000; nothing that is hit ends it
break <a>              sets a breakpoint at an address, at most 16
watch r|w|a <a> <n>    sets a watchpoint on n bytes for reads, writes or all of both, at most 16
stop <what> on|off     sets whether runs end where something is hit: refused, faults or exceptions
clear                  removes all breakpoints and watchpoints, and sets each `stop` to off
trace <which>          chooses the lines of steps: all, refused, exceptions, console or none
regs                   shows the core registers
mem <a> <n>            shows n bytes from an address on, from 1 to 256
regions                shows RBAR and RASR of each region of the MPU
explain <a> p|u r|w|x  shows the rule that would decide an access, and whether it would grant it
state                  shows registers, the clock, fault registers, regions and exceptions
next                   shows the kind of the next step, or the stop line
place reg <n> <v>      puts a value into a core register: 13 is the stack pointer in use, 14 LR, 15 PC
place special <n> <v>  puts a value into a special register, numbered as in MSR
place word <a> <v>     puts a value into a word of memory, of the system registers or of a device
signal <how> <k>       does what an event of the script does to interrupt k: pulse, rise or fall
signal nmi             makes NMI pending
save <k>               saves the state of the machine in slot k; `--slots` sets how many there are
back <k>               takes the machine back to the state in slot k
script 1               shows the numbers of the board; answers then end with `= <tick> <pc> <next>`
help                   shows these lines
quit                   ends the session
";

/// Returns a line for each command.
#[tactic(auto, unfolding(crate::specs::Texts::help_text))]
pub fn help_text() -> &'static [u8]
    ensures { result.now ≡ help_text }
{
    HELP.as_bytes()
}
