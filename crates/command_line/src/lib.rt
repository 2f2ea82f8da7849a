//! The command line: `marm run --board FILE --steps N IMAGE`, `marm report --board FILE --steps N IMAGE`,
//! `marm tasks --board FILE --steps N IMAGE`, `marm debug --board FILE IMAGE` and `marm gdb --board FILE IMAGE`.
#![tactic(auto)]

mod allowed;
mod commands;
mod dumps;
mod refusals;
mod stops;
mod subcommands;
mod texts;
mod words;

pub use commands::{LIMIT_HELP, MAX_STEPS, STEPS_HELP};
pub use dumps::Dump;
pub use stops::{have_same_words, words_in};
pub use subcommands::{
    DebugOptions, GdbOptions, ReportOptions, RunOptions, STEPS_ADVICE, Subcommand, TasksOptions,
};
pub use texts::AFTER_DEBUG;
pub use words::{ArgsError, subcommand_of};
