//! The texts of the help, and what to write in place of wrong arguments.

/// What `clap` says of a word that begins with `-`.
pub const DASH_TIP: &str = "tip: to pass ";

/// What to write in place of a word that begins with `-`.
pub const DASH_ADVICE: &str = "\
Only the options of the usage are taken, and --steps takes no negative number.
A file whose name begins with - is written with ./ before it.
";

/// The commands of the program.
pub const COMMANDS_ADVICE: &str = "The commands are run, report, tasks, debug, gdb and help.\n";

/// What the program's help says of its statuses and messages.
pub const AFTER_MARM: &str = "\
Exit status:
  0  all steps were made, a breakpoint was met, the run ended as expected (--expect, --expect-apart), or a
     session of debug or gdb ended; or the version was asked for
  1  the run ended otherwise than expected (--expect, --expect-apart)
  2  the arguments are wrong, or help was asked for (marm: usage)
  3  the image or the board is refused, or memory ran out for the board or the machine
     (marm: load, board, start, size)
  4  the machine stopped otherwise, without --expect and --expect-apart: the trace's last line says why
  5  reading or writing failed, or memory ran out for the arguments or a file (marm: io)

Example:
  marm run --board examples/boards/small.toml --steps 10 examples/first.elf";

/// What the help of `run` says of the trace and of the statuses.
pub const AFTER_RUN: &str = "\
The trace has one line for each access: its tick, kind, address, size in bytes, privilege, outcome,
and the rule or region that decided it. Its last line says why the run ended. With --trace refused it
has the refused accesses and the faults alone; with faults each line of their steps, and the entries of
the handlers of faults; with exceptions the lines of refused, and the entries and returns of handlers;
with console the bytes that the firmware printed, in place of lines; with none no more than the last line.

The file of --state is created, or replaced, after the run, however it ended; not where the image or
the board is refused or the trace can't be written.

Exit status:
  0  all steps were made, or a breakpoint was met; with --expect, the run ended as expected
  1  the run ended otherwise than expected (--expect)
  2  the arguments are wrong, or help was asked for (marm: usage)
  3  the image or the board is refused, or memory ran out for the board or the machine
     (marm: load, board, start, size)
  4  the machine stopped otherwise, without --expect: the trace's last line says why
  5  reading or writing failed, or memory ran out for the arguments or a file (marm: io)

Example:
  marm run --board examples/boards/small.toml --steps 10 examples/first.elf";

/// What the help of `report` says of the page and of the statuses.
pub const AFTER_REPORT: &str = "\
The page says which memory the code touched, by which rule or region, what was refused and by which
instruction, what ran when, and what the machine was like at the end. It is one HTML file that needs no
other: open it in a browser.

Exit status:
  0  all steps were made, or a breakpoint was met
  2  the arguments are wrong, or help was asked for (marm: usage)
  3  the image or the board is refused, or memory ran out for the board or the machine
     (marm: load, board, start, size)
  4  the machine stopped otherwise: the line below the page's title says why
  5  reading or writing failed, or memory ran out for the arguments or a file (marm: io)

Example:
  marm report --board examples/boards/small.toml --steps 10 examples/first.elf >first.html";

/// What the help of `tasks` says of the lines and of the statuses.
pub const AFTER_TASKS: &str = "\
A world is a setting of the MPU under which unprivileged code made a step in Thread mode. Tasks that run
under the same setting are one world. Worlds are numbered from 1, in the order of their first steps.
Addresses are eight hexadecimal digits, other numbers decimal. The lines are:
  world <k> steps <n> tick <t> pc <a> code <first> <last> [<name>]
                     the steps of world k, the tick and the PC of the first, the lowest and the highest PC
                     of its steps, and the symbol that has the PC of the first, if the image has one
  map <k> <first> <last> <place> <rights> <rule>
                     what world k may do from one address to another in flash, RAM (ram) or the device
                     window (window): read (r), write (w) and execute (x), each - where it may not; and the
                     rule that decides a load
  others <n>         the steps of worlds after the 64th, which have no number; only where there are any
  apart <a> <b>      neither world may write a byte of RAM that the other may read or execute
  shares <a> <b> <first> <last>
                     world a may write these bytes of RAM, and world b may read or execute them
  stop <words>       why the run ended: the last line, as in a trace

Bytes from A to B of an --allow are not counted as shared. Worlds that are apart may still depend on one
another by privileged code that copies for them, by devices and system registers, by timing, and by what a
switch of tasks leaves in registers.

Exit status:
  0  all steps were made, or a breakpoint was met; with --expect-apart, no line begins with shares or others
  1  with --expect-apart, a line begins with shares or others
  2  the arguments are wrong, or help was asked for (marm: usage)
  3  the image or the board is refused, or memory ran out for the board or the machine
     (marm: load, board, start, size)
  4  the machine stopped otherwise, without --expect-apart: the last line says why
  5  reading or writing failed, or memory ran out for the arguments or a file (marm: io)

Example:
  marm tasks --board examples/boards/small.toml --steps 10 examples/first.elf";

/// What the help of `debug` says of the commands and of the statuses.
pub const AFTER_DEBUG: &str = "\
Commands, one a line on standard input; numbers are decimal, or hexadecimal after 0x:
  step               makes a step: its trace lines, then `at <pc>` or the stop line
  run <n>            makes up to n steps, from 1 to 1000000, and ends where something is hit: a breakpoint, a
                     watchpoint, or what `stop` set
  task <n>           makes up to n steps of a task (unprivileged code in Thread mode under the regions of the
                     MPU), from 1 to 1000000; nothing that is hit ends it; then `task done`, `task other` where
                     the next step isn't an instruction, `task not` where no task runs, or the stop line
  break <a>          sets a breakpoint at an address, at most 16; an odd address is never hit
  watch r|w|a <a> <n>
                     sets a watchpoint on n bytes from an address on, at most 16: a granted read (r), write (w)
                     or either (a) of one of the bytes hits it
  stop refused|faults|exceptions on|off
                     sets whether refused accesses, faults or entries of handlers are hit
  clear              removes all breakpoints and watchpoints, and sets each `stop` to off
  trace all|refused|exceptions|console|none
                     chooses which lines steps have; what is hit and ends a run always has its line
  regs               shows the core registers
  mem <a> <n>        shows n bytes from an address on, from 1 to 256
  regions            shows RBAR and RASR of each region of the MPU
  explain <a> p|u r|w|x
                     shows the rule that would decide an access by privileged (p) or unprivileged (u)
                     code that reads, writes or executes, and whether the rule would grant it
  state              shows the state as --state of `marm run` does
  next               shows the kind of the next step: Instruction, Stack, Vector or Sleep; or the stop line
  place reg|special <n> <v>
                     puts a value into a core register (13 is the stack pointer in use, 14 LR, 15 PC) or a
                     special register, which is numbered as in MSR
  place word <a> <v>
                     puts a value into a word of flash, RAM, the Private Peripheral Bus or a device
  signal pulse|rise|fall <k>
                     does what an event of the board's script does to interrupt k, first in the next tick
  signal nmi         makes NMI pending
  save <k>           saves the state of the machine in slot k, from 0 up to one less than --slots
  back <k>           takes the machine back to the state that was saved in slot k
  script 1           shows the numbers of the board; from now on each answer ends with a line
                     `= <ticks> <pc> <next>`
  help               shows a line for each command
  quit               ends the session, as the end of the input does

Words are separated by exactly one space. A line ends with a line feed, without a carriage return, and
has at most 80 bytes before it. The last line needs no line feed.

Answers `error 1` (no such command, a wrong number of words, or a line of more than 80 bytes), `error 2`
(a word isn't allowed there) and `error 3` (16 breakpoints or 16 watchpoints are set, or nothing was saved
in the slot) change nothing. Nor do the refusals of `place` and `signal`: `refused 1 NotAligned`, `refused 2
NoSuchPlace`, `refused 3 Stopped` (the machine has stopped; or it is in Handler mode or in an exception entry,
for a value other than R0 to R12, LR or a word of flash or RAM), and `refused 4 Refused`, with the words of
the stop that a store of the value would be.

Exit status:
  0  the session ended
  2  the arguments are wrong, or help was asked for (marm: usage)
  3  the image or the board is refused, or memory ran out for the board or the machine
     (marm: load, board, start, size)
  5  reading or writing failed, or memory ran out for the arguments or a file (marm: io)

Example:
  echo 'explain 0x20000000 u w' |
  marm debug --board examples/boards/small.toml examples/first.elf";

/// What the help of `gdb` says of the session and of the statuses.
pub const AFTER_GDB: &str = "\
GDB starts this program, and both speak over standard input and output:
  target remote | marm gdb --board FILE IMAGE

The machine makes steps only while GDB waits for it to stop, and Ctrl-C in GDB stops it. GDB shows what the
firmware prints, and before a stop the lines of a trace that say why. `monitor help` in GDB lists the commands
of this program.

GDB has a signal for each stop:
  SIGTRAP  a step was made, a breakpoint is next, or the machine has stopped at a BKPT
  SIGINT   Ctrl-C
  SIGSEGV  memory protection refused an access, after `monitor stop refused on` or `monitor stop faults on`
  SIGBUS   the bus refused an access, after one of these
  SIGILL   another fault, after `monitor stop faults on`; or the machine has stopped: unpredictable
  SIGUSR1  a handler was entered, after `monitor stop exceptions on`
  SIGXCPU  the steps of --steps were made
  SIGABRT, SIGSYS, SIGTERM
           the machine has stopped: lockup, outofprofile, reset

Exit status:
  0  the session ended
  2  the arguments are wrong, or help was asked for (marm: usage)
  3  the image or the board is refused, or memory ran out for the board or the machine
     (marm: load, board, start, size)
  5  reading or writing failed, or memory ran out for the arguments or a file (marm: io)

Example:
  gdb-multiarch -ex 'target remote | marm gdb --board examples/boards/small.toml examples/first.elf'";
