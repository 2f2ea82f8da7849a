//! The commands of the program, as `clap` is to read them.

ghost use Rattle.std.specs.Prelude.{◌≡◌, IfOk, false};
ghost use Rattle.clap.specs.Words.{app_of, rule_of};
ghost use Rattle.clap.specs.declared.builder.command.Command.TheViews.{out-Command};
ghost use Rattle.command_line.specs.Commands as spec;

use crate::texts::{AFTER_DEBUG, AFTER_GDB, AFTER_MARM, AFTER_REPORT, AFTER_RUN, AFTER_TASKS};
use clap::builder::ValueParser;
use clap::{Arg, ArgAction, Command};
use std::alloc::{AllocError, Global};

/// The most steps of a run.
pub const MAX_STEPS: u64 = 0x1_0000_0000;

/// The most slots of a debug session.
pub const MAX_SLOTS: u64 = 8;

/// What the help says of `--steps`.
pub const STEPS_HELP: &str =
    "The most steps (instructions, halves of exception entries, idle ticks) to make, from 0 to 4294967296";

/// What the help says of the `--steps` of a session.
pub const LIMIT_HELP: &str = "\
The most steps (instructions, halves of exception entries, idle ticks) to make, from 0 to 4294967296 (the default)";

/// What the help says of `--trace`.
const TRACE_HELP: &str = "\
Which lines are written, before the line of the stop: all (the default), refused, faults, exceptions, console or none";

/// What the help says of `--expect`.
const EXPECT_HELP: &str = "\
The words of the last line, as \"breakpoint 0\" or \"stop breakpoint 0\": status 0 if the run ends so, and 1 if not";

/// What the help says of `--state`.
const STATE_HELP: &str =
    "A file for the state after the run: registers, clock, faults, regions and exceptions, a line for each value; \
     - is standard output, after the trace";

/// What the help says of `--dump`.
const DUMP_HELP: &str =
    "Memory after the run, as raw bytes, to a file: LENGTH bytes from ADDR on, decimal or 0x and hexadecimal; \
     at most 16 times";

/// What the help says of `--expect-apart`.
const APART_HELP: &str =
    "Status 0 where no line begins with shares or others, at any stop, and 1 where one does";

/// What the help says of `--allow`.
const ALLOW_HELP: &str =
    "Addresses from A to B that worlds may share, decimal or 0x and hexadecimal; at most 16 times";

/// What the help says of `--slots`.
const SLOTS_HELP: &str =
    "How many states of the machine can be saved, from 0 (the default) to 8; the memory for them is taken at the start";

/// The program's version.
const VERSION: &str = "0.3.0";

/// Returns the command `marm`, with its subcommands.
pub fn marm<'a>(alloc: Global) -> Result<Command<'a>, AllocError>
    ensures { IfOk result (λ c. app_of c ≡ spec.marm) }
{
    let gdb = gdb(alloc)?;
    let marm = marm_with_debug(alloc)?;
    marm.subcommand(gdb)
}

/// Returns the command `marm`, with the subcommands that make a run, and `debug`.
fn marm_with_debug<'a>(alloc: Global) -> Result<Command<'a>, AllocError>
    ensures { IfOk result (λ c. app_of c ≡ spec.marm_with_debug) }
{
    let debug = debug(alloc)?;
    let marm = marm_with_tasks(alloc)?;
    marm.subcommand(debug)
}

/// Returns the command `marm`, with the subcommands that make a run.
fn marm_with_tasks<'a>(alloc: Global) -> Result<Command<'a>, AllocError>
    ensures { IfOk result (λ c. app_of c ≡ spec.marm_with_tasks) }
{
    let tasks = tasks(alloc)?;
    let marm = marm_of_runs(alloc)?;
    marm.subcommand(tasks)
}

/// Returns the command `marm`, with `run` and `report` alone.
fn marm_of_runs<'a>(alloc: Global) -> Result<Command<'a>, AllocError>
    ensures { IfOk result (λ c. app_of c ≡ spec.marm_of_runs) }
{
    let run = run(alloc)?;
    let report = report(alloc)?;
    let marm = Command::new(alloc, "marm")
        .about("An ARMv7-M machine that writes a proved trace of its memory accesses")
        .version(VERSION)
        .after_help(AFTER_MARM)
        .subcommand_required(true);
    marm.subcommand(run)?.subcommand(report)
}

/// Returns the subcommand `debug`, with its arguments.
fn debug<'a>(alloc: Global) -> Result<Command<'a>, AllocError>
    ensures app { IfOk result (λ c. app_of c ≡ spec.debug) }
    ensures local { IfOk result (λ c. (out-Command c).has_globals ≡ false) }
{
    let debug = Command::new(alloc, "debug")
        .about("Reads commands from standard input and writes their answers to standard output")
        .after_help(AFTER_DEBUG);
    let debug = debug.arg(board(alloc))?;
    let debug = debug.arg(option(alloc, "slots", "N", SLOTS_HELP))?;
    debug.arg(image(alloc))
}

/// Returns the subcommand `gdb`, with its arguments.
fn gdb<'a>(alloc: Global) -> Result<Command<'a>, AllocError>
    ensures app { IfOk result (λ c. app_of c ≡ spec.gdb) }
    ensures local { IfOk result (λ c. (out-Command c).has_globals ≡ false) }
{
    let gdb = Command::new(alloc, "gdb")
        .about("Serves GDB on standard input and output, by its remote serial protocol")
        .after_help(AFTER_GDB);
    let gdb = gdb.arg(board(alloc))?;
    let gdb = gdb.arg(limit(alloc, LIMIT_HELP))?;
    gdb.arg(image(alloc))
}

/// Returns the subcommand `report`, with its three arguments.
fn report<'a>(alloc: Global) -> Result<Command<'a>, AllocError>
    ensures app { IfOk result (λ c. app_of c ≡ spec.report) }
    ensures local { IfOk result (λ c. (out-Command c).has_globals ≡ false) }
{
    let report = Command::new(alloc, "report")
        .about(
            "Runs an image on a board and writes a page about the run, in HTML, to standard output",
        )
        .after_help(AFTER_REPORT);
    let report = report.arg(board(alloc))?;
    let report = report.arg(steps(alloc))?;
    report.arg(image(alloc))
}

/// Returns the subcommand `tasks`, with its arguments.
fn tasks<'a>(alloc: Global) -> Result<Command<'a>, AllocError>
    ensures app { IfOk result (λ c. app_of c ≡ spec.tasks) }
    ensures local { IfOk result (λ c. (out-Command c).has_globals ≡ false) }
{
    let tasks = tasks_in_steps(alloc)?;
    let tasks = tasks.arg(expect_apart(alloc))?;
    let tasks = tasks.arg(allow(alloc))?;
    tasks.arg(image(alloc))
}

/// Returns the subcommand `tasks`, with its board and its steps alone.
fn tasks_in_steps<'a>(alloc: Global) -> Result<Command<'a>, AllocError>
    ensures app { IfOk result (λ c. app_of c ≡ spec.tasks_in_steps) }
    ensures local { IfOk result (λ c. (out-Command c).has_globals ≡ false) }
{
    let tasks = Command::new(alloc, "tasks")
        .about("Runs an image on a board and writes which memory its tasks may touch and share")
        .after_help(AFTER_TASKS);
    let tasks = tasks.arg(board(alloc))?;
    tasks.arg(steps(alloc))
}

/// Returns the subcommand `run`, with its arguments.
fn run<'a>(alloc: Global) -> Result<Command<'a>, AllocError>
    ensures app { IfOk result (λ c. app_of c ≡ spec.run) }
    ensures local { IfOk result (λ c. (out-Command c).has_globals ≡ false) }
{
    let run = run_with_options(alloc)?;
    run.arg(image(alloc))
}

/// Returns the subcommand `run`, with its options alone.
fn run_with_options<'a>(alloc: Global) -> Result<Command<'a>, AllocError>
    ensures app { IfOk result (λ c. app_of c ≡ spec.run_with_options) }
    ensures local { IfOk result (λ c. (out-Command c).has_globals ≡ false) }
{
    let run = run_with_ends(alloc)?;
    let run = run.arg(option(alloc, "state", "FILE", STATE_HELP))?;
    run.arg(dump(alloc))
}

/// Returns the subcommand `run`, with its board, its steps, and what its end is compared with.
fn run_with_ends<'a>(alloc: Global) -> Result<Command<'a>, AllocError>
    ensures app { IfOk result (λ c. app_of c ≡ spec.run_with_ends) }
    ensures local { IfOk result (λ c. (out-Command c).has_globals ≡ false) }
{
    let run = run_in_steps(alloc)?;
    let run = run.arg(option(alloc, "trace", "WHICH", TRACE_HELP))?;
    run.arg(option(alloc, "expect", "STOP", EXPECT_HELP))
}

/// Returns the subcommand `run`, with its board and its steps alone.
fn run_in_steps<'a>(alloc: Global) -> Result<Command<'a>, AllocError>
    ensures app { IfOk result (λ c. app_of c ≡ spec.run_in_steps) }
    ensures local { IfOk result (λ c. (out-Command c).has_globals ≡ false) }
{
    let run = Command::new(alloc, "run")
        .about("Runs an image on a board and writes the trace to standard output")
        .after_help(AFTER_RUN);
    let run = run.arg(board(alloc))?;
    run.arg(steps(alloc))
}

/// Returns the option `--name VALUE`, which may be left out.
fn option<'a>(alloc: Global, name: &'a str, value: &'a str, help: &'a str) -> Arg<'a>
    ensures rule { rule_of result ≡ spec.option name.entry.now }
    ensures local { result.global ≡ false }
{
    Arg::new(alloc, name)
        .long(name)
        .value_name(value)
        .help(help)
        .action(ArgAction::Set)
}

/// Returns `--dump ADDR:LENGTH=FILE`, which may be there several times.
fn dump<'a>(alloc: Global) -> Arg<'a>
    ensures rule { rule_of result ≡ spec.dump }
    ensures local { result.global ≡ false }
{
    option(alloc, "dump", "ADDR:LENGTH=FILE", DUMP_HELP).action(ArgAction::Append)
}

/// Returns `--expect-apart`, which has no value.
fn expect_apart<'a>(alloc: Global) -> Arg<'a>
    ensures rule { rule_of result ≡ spec.expect_apart }
    ensures local { result.global ≡ false }
{
    Arg::new(alloc, "expect-apart")
        .long("expect-apart")
        .help(APART_HELP)
        .action(ArgAction::SetTrue)
}

/// Returns `--allow A-B`, which may be there several times.
fn allow<'a>(alloc: Global) -> Arg<'a>
    ensures rule { rule_of result ≡ spec.allow }
    ensures local { result.global ≡ false }
{
    option(alloc, "allow", "A-B", ALLOW_HELP).action(ArgAction::Append)
}

/// Returns `--board FILE`.
fn board<'a>(alloc: Global) -> Arg<'a>
    ensures rule { rule_of result ≡ spec.board }
    ensures local { result.global ≡ false }
{
    option(
        alloc,
        "board",
        "FILE",
        "The board: a TOML file of at most 16 MiB with the memory sizes, the interrupt lines and the events",
    )
    .required(true)
}

/// Returns `--steps N`, from 0 to 4294967296, which may be left out.
fn limit<'a>(alloc: Global, help: &'a str) -> Arg<'a>
    ensures rule { rule_of result ≡ spec.limit }
    ensures local { result.global ≡ false }
{
    option(alloc, "steps", "N", help).value_parser(ValueParser::unsigned(0, MAX_STEPS))
}

/// Returns `--steps N`, which has to be there.
fn steps<'a>(alloc: Global) -> Arg<'a>
    ensures rule { rule_of result ≡ spec.steps }
    ensures local { result.global ≡ false }
{
    limit(alloc, STEPS_HELP).required(true)
}

/// Returns the image's path.
fn image<'a>(alloc: Global) -> Arg<'a>
    ensures rule { rule_of result ≡ spec.image }
    ensures local { result.global ≡ false }
{
    Arg::new(alloc, "image")
        .value_name("IMAGE")
        .help("The image: an ELF file for ARM of at most 16 MiB, linked to run")
        .required(true)
        .action(ArgAction::Set)
}
