//! What the arguments ask for: a subcommand, with the values of its options.

ghost use Rattle.std.specs.Prelude.{◌≡◌, ◌⊎◌, ◌==◌, IfSome, None, codes, slice_index};
ghost use Rattle.clap.specs.Words.{first_of, found_of, rows_of, subcommand_rows_of};
ghost use Rattle.command_line.specs.Notices.{ReadsValue, memory, notice_of, usage};
ghost use Rattle.command_line.specs.Stops.{IsExpected};
ghost use Rattle.command_line.specs.Subcommands.{HasLimit, HasSlots, HasSteps, IsAsked, IsDebug, IsGdb, IsNamed};
ghost use Rattle.command_line.specs.Subcommands.{IsReport, IsRun, IsSelection};
ghost use Rattle.command_line.specs.Subcommands.{IsTasks, is_set};
ghost use Rattle.command_line.specs.Subcommands.{IsSteps, IsText, board_path, image_path, number_in, plus};
ghost use Rattle.command_line.specs.Subcommands.{selection_named, text_of, texts_in, texts_of};

use crate::allowed::spans_in;
use crate::commands::{MAX_SLOTS, MAX_STEPS};
use crate::dumps::{Dump, dumps_in};
use crate::stops::{stop_named, without_stop};
use crate::words::ArgsError;
use clap::ArgMatches;
use messages::Escaped;
use mpu::Span;
use platform::stop::Stop;
use std::alloc::Global;
use trace::selection::TraceSelection;

/// The options of `marm run`.
#[derive(Drop)]
pub struct RunOptions<'a> {
    /// The path of the board file.
    pub board: &'a str,
    /// The path of the image file.
    pub image: &'a str,
    /// The most steps to make, from 0 to 2^32.
    pub steps: u64,
    /// Which events are written.
    pub trace: TraceSelection,
    /// The stop that the run is expected to end with.
    pub expect: Option<Stop>,
    /// The path of the file for the state after the run.
    pub state: Option<&'a str>,
    /// The parts of memory that go to files after the run.
    pub dumps: Vec<Dump<'a>>,
}

/// The options of `marm report`.
#[derive(Clone, Copy)]
pub struct ReportOptions<'a> {
    /// The path of the board file.
    pub board: &'a str,
    /// The path of the image file.
    pub image: &'a str,
    /// The most steps to make, from 0 to 2^32.
    pub steps: u64,
}

/// The options of `marm tasks`.
#[derive(Drop)]
pub struct TasksOptions<'a> {
    /// The path of the board file.
    pub board: &'a str,
    /// The path of the image file.
    pub image: &'a str,
    /// The most steps to make, from 0 to 2^32.
    pub steps: u64,
    /// Whether the status says if all worlds are apart.
    pub expect_apart: bool,
    /// The addresses that worlds may share.
    pub allowed: Vec<Span>,
}

/// The options of `marm debug`.
#[derive(Clone, Copy)]
pub struct DebugOptions<'a> {
    /// The path of the board file.
    pub board: &'a str,
    /// The path of the image file.
    pub image: &'a str,
    /// How many states of the machine can be saved, from 0 to 8.
    pub slots: u8,
}

/// The options of `marm gdb`.
#[derive(Clone, Copy)]
pub struct GdbOptions<'a> {
    /// The path of the board file.
    pub board: &'a str,
    /// The path of the image file.
    pub image: &'a str,
    /// The most steps to make, from 0 to 2^32.
    pub steps: u64,
}

/// A subcommand with its options.
#[derive(Drop)]
pub enum Subcommand<'a> {
    /// Run an image and write its trace.
    Run(RunOptions<'a>),
    /// Run an image and write a page about the run.
    Report(ReportOptions<'a>),
    /// Run an image and write which memory its tasks may touch and share.
    Tasks(TasksOptions<'a>),
    /// Debug an image by the commands on standard input.
    Debug(DebugOptions<'a>),
    /// Debug an image by GDB, which sends packets on standard input.
    Gdb(GdbOptions<'a>),
}

impl<'a> Subcommand<'a> {
    /// Returns the path of the image file.
    pub fn image(&self) -> &'a str
        ensures { result.now ≡ image_path self.now }
    {
        match self {
            Subcommand::Run(options) => options.image,
            Subcommand::Report(options) => options.image,
            Subcommand::Tasks(options) => options.image,
            Subcommand::Debug(options) => options.image,
            Subcommand::Gdb(options) => options.image,
        }
    }

    /// Returns the path of the board file.
    pub fn board(&self) -> &'a str
        ensures { result.now ≡ board_path self.now }
    {
        match self {
            Subcommand::Run(options) => options.board,
            Subcommand::Report(options) => options.board,
            Subcommand::Tasks(options) => options.board,
            Subcommand::Debug(options) => options.board,
            Subcommand::Gdb(options) => options.board,
        }
    }
}

/// Returns the subcommand that the matches of the program have. `clap` has found one.
pub fn subcommand_in<'a>(
    alloc: Global,
    matches: &ArgMatches<'a>,
) -> Result<Subcommand<'a>, ArgsError>
    ensures { ReadsValue (IsAsked (subcommand_rows_of matches.now)) result }
{
    match matches.subcommand() {
        Some((name, matches)) => subcommand_named(alloc, name, matches),
        None => Err(ArgsError::Wrong(String::new(alloc))),
    }
}

/// Returns the subcommand of a name, with the values of its matches.
fn subcommand_named<'a>(
    alloc: Global,
    name: &str,
    matches: &ArgMatches<'a>,
) -> Result<Subcommand<'a>, ArgsError>
    ensures { ReadsValue (IsNamed name.now (rows_of (found_of matches.now))) result }
{
    if name == "run" {
        Ok(Subcommand::Run(run_options(alloc, matches)?))
    } else if name == "report" {
        Ok(Subcommand::Report(report_options(alloc, matches)?))
    } else if name == "tasks" {
        Ok(Subcommand::Tasks(tasks_options(alloc, matches)?))
    } else if name == "debug" {
        Ok(Subcommand::Debug(debug_options(alloc, matches)?))
    } else if name == "gdb" {
        Ok(Subcommand::Gdb(gdb_options(alloc, matches)?))
    } else {
        Err(ArgsError::Wrong(String::new(alloc)))
    }
}

/// Returns the options of `run`.
fn run_options<'a>(alloc: Global, run: &ArgMatches<'a>) -> Result<RunOptions<'a>, ArgsError>
    ensures { ReadsValue (IsRun (rows_of (found_of run.now))) result }
{
    Ok(RunOptions {
        board: text_in(alloc, value_of(run, "board"))?,
        image: text_in(alloc, value_of(run, "image"))?,
        steps: steps_in(alloc, value_of(run, "steps"))?,
        trace: selection_in(alloc, value_of(run, "trace"))?,
        expect: stop_in(alloc, value_of(run, "expect"))?,
        state: value_of(run, "state"),
        dumps: dumps_in(alloc, values_of(run, "dump"))?,
    })
}

/// Returns the options of `report`.
fn report_options<'a>(
    alloc: Global,
    report: &ArgMatches<'a>,
) -> Result<ReportOptions<'a>, ArgsError>
    ensures { ReadsValue (IsReport (rows_of (found_of report.now))) result }
{
    Ok(ReportOptions {
        board: text_in(alloc, value_of(report, "board"))?,
        image: text_in(alloc, value_of(report, "image"))?,
        steps: steps_in(alloc, value_of(report, "steps"))?,
    })
}

/// Returns the options of `tasks`.
fn tasks_options<'a>(alloc: Global, tasks: &ArgMatches<'a>) -> Result<TasksOptions<'a>, ArgsError>
    ensures { ReadsValue (IsTasks (rows_of (found_of tasks.now))) result }
{
    Ok(TasksOptions {
        board: text_in(alloc, value_of(tasks, "board"))?,
        image: text_in(alloc, value_of(tasks, "image"))?,
        steps: steps_in(alloc, value_of(tasks, "steps"))?,
        expect_apart: is_set(value_of(tasks, "expect-apart")),
        allowed: spans_in(alloc, values_of(tasks, "allow"))?,
    })
}

/// Returns the options of `debug`.
fn debug_options<'a>(alloc: Global, debug: &ArgMatches<'a>) -> Result<DebugOptions<'a>, ArgsError>
    ensures { ReadsValue (IsDebug (rows_of (found_of debug.now))) result }
{
    Ok(DebugOptions {
        board: text_in(alloc, value_of(debug, "board"))?,
        image: text_in(alloc, value_of(debug, "image"))?,
        slots: slots_in(alloc, value_of(debug, "slots"))?,
    })
}

/// Returns the options of `gdb`.
fn gdb_options<'a>(alloc: Global, gdb: &ArgMatches<'a>) -> Result<GdbOptions<'a>, ArgsError>
    ensures { ReadsValue (IsGdb (rows_of (found_of gdb.now))) result }
{
    Ok(GdbOptions {
        board: text_in(alloc, value_of(gdb, "board"))?,
        image: text_in(alloc, value_of(gdb, "image"))?,
        steps: limit_in(alloc, value_of(gdb, "steps"))?,
    })
}

/// Returns the value of an argument.
fn value_of<'a>(matches: &ArgMatches<'a>, id: &str) -> Option<&'a str>
    ensures { text_of result ≡ first_of id.entry.now (rows_of (found_of matches.entry.now)) }
{
    matches.get_str(id)
}

/// Returns whether an option without a value is there, by the value that `clap` gives it.
fn is_set(value: Option<&str>) -> bool
    ensures { result ≡ is_set (text_of value.entry) }
{
    match value {
        Some(value) => value == "true",
        None => false,
    }
}

/// Returns the values of an option that may be there several times.
fn values_of<'m, 'a>(matches: &'m ArgMatches<'a>, id: &str) -> Option<&'m [&'a str]>
    ensures { texts_in result ≡ texts_of id.entry.now (rows_of (found_of matches.entry.now)) }
{
    matches.get_raw(id)
}

/// Returns the text of an argument that `clap` has found.
fn text_in<'a>(alloc: Global, text: Option<&'a str>) -> Result<&'a str, ArgsError>
    ensures { ReadsValue (IsText (text_of text.entry)) result }
{
    match text {
        Some(text) => Ok(text),
        None => Err(ArgsError::Wrong(String::new(alloc))),
    }
}

/// Returns the number of steps in a text.
fn steps_in(alloc: Global, text: Option<&str>) -> Result<u64, ArgsError>
    ensures { ReadsValue (HasSteps (text_of text.entry)) result }
{
    let text = text_in(alloc, text)?;
    match number_in(text) {
        Some(steps) => Ok(steps),
        None => Err(wrong_value(alloc, text, "--steps <N>", STEPS_ADVICE)),
    }
}

/// Returns the number of steps in a text, 2^32 where there is none.
fn limit_in(alloc: Global, text: Option<&str>) -> Result<u64, ArgsError>
    ensures { ReadsValue (HasLimit (text_of text.entry)) result }
{
    match text {
        Some(_) => steps_in(alloc, text),
        None => Ok(MAX_STEPS),
    }
}

/// Returns the number of slots in a text, 0 where there is none.
fn slots_in(alloc: Global, text: Option<&str>) -> Result<u8, ArgsError>
    ensures { ReadsValue (HasSlots (text_of text.entry)) result }
{
    let Some(text) = text else {
        return Ok(0);
    };
    match number_in(text) {
        Some(slots) if slots <= MAX_SLOTS => Ok(slots as u8),
        _ => Err(wrong_value(alloc, text, "--slots <N>", SLOTS_ADVICE)),
    }
}

/// Returns the number in a text, if it is a number of steps.
#[tactic(auto, using(crate::proofs::Asking::asking))]
fn number_in(text: &str) -> Option<u64>
    ensures some { IfSome result (λ steps. IsSteps text.now × (steps ≡ number_in text.now)) }
    ensures none { result ≡ None → ¬ IsSteps text.now }
{
    if has_plus(text) {
        return None;
    }
    match text.parse::<u64>() {
        Ok(steps) if steps <= MAX_STEPS => Some(steps),
        _ => None,
    }
}

/// Returns whether a text begins with a plus sign.
fn has_plus(text: &str) -> bool
    ensures { result ≡ (slice_index text.now 0 == plus) }
{
    match text.as_bytes() {
        [b'+', ..] => true,
        _ => false,
    }
}

/// Returns the selection that is asked for: all events where none is named.
fn selection_in(alloc: Global, name: Option<&str>) -> Result<TraceSelection, ArgsError>
    ensures { ReadsValue (IsSelection (text_of name.entry)) result }
{
    let Some(name) = name else {
        return Ok(TraceSelection::All);
    };
    match selection_named(name) {
        Some(selection) => Ok(selection),
        None => Err(wrong_value(alloc, name, "--trace <WHICH>", TRACE_ADVICE)),
    }
}

/// Returns the selection of a name.
fn selection_named(name: &str) -> Option<TraceSelection>
    ensures { result ≡ selection_named name.entry.now }
{
    if name == "all" {
        Some(TraceSelection::All)
    } else if name == "refused" {
        Some(TraceSelection::Refused)
    } else if name == "faults" {
        Some(TraceSelection::Faults)
    } else if name == "exceptions" {
        Some(TraceSelection::Exceptions)
    } else if name == "console" {
        Some(TraceSelection::Console)
    } else if name == "none" {
        Some(TraceSelection::Nothing)
    } else {
        None
    }
}

/// Returns the stop that is expected.
fn stop_in(alloc: Global, words: Option<&str>) -> Result<Option<Stop>, ArgsError>
    ensures { ReadsValue (IsExpected (text_of words.entry)) result }
{
    let Some(words) = words else {
        return Ok(None);
    };
    match stop_named(without_stop(words)) {
        Some(stop) => Ok(Some(stop)),
        None => Err(wrong_value(alloc, words, "--expect <STOP>", EXPECT_ADVICE)),
    }
}

/// What `--steps` takes.
pub const STEPS_ADVICE: &str = "--steps takes a decimal number from 0 to 4294967296.\n";

/// What `--slots` takes.
const SLOTS_ADVICE: &str = "--slots takes a decimal number from 0 to 8.\n";

/// What `--trace` takes.
const TRACE_ADVICE: &str = "--trace takes all, refused, faults, exceptions, console or none.\n";

/// What `--expect` takes.
const EXPECT_ADVICE: &str = "\
--expect takes the words of a stop line, with or without `stop`: steps, breakpoint N (N from 0 to 255), reset,
lockup, or unpredictable or outofprofile and a name.
";

/// Returns the error of an option's value that isn't allowed, with what is.
pub fn wrong_value(alloc: Global, value: &str, option: &str, advice: &str) -> ArgsError
    ensures { (notice_of result ≡ usage) ⊎ (notice_of result ≡ memory) }
{
    let value = Escaped(value);
    match format!(in alloc; "error: invalid value '{value}' for '{option}'\n{advice}") {
        Ok(text) => ArgsError::Wrong(text),
        Err(_) => ArgsError::OutOfMemory,
    }
}
