//! The command `marm`: the files that its arguments name, a run from the bytes of an image and of a board to
//! the bytes of a trace, a page about such a run, the text about its worlds, a debug session, and a session with GDB.
//! Functions that take or return a machine by value, or write messages, are never inlined: so the stack holds only the
//! frames of those that are under way.
#![tactic(auto)]

mod commands;
mod debugging;
mod dumping;
mod error;
mod file_writer;
mod files;
mod gdb_session;
mod last_error;
mod opening;
mod reason;
mod reporting;
mod running;
mod sending;
mod streams;
mod tasks_command;

pub use command_line::{ArgsError, Subcommand};
pub use commands::{answer, program, refuse_args};
pub use debugging::debug;
pub use error::{Error, write_error};
pub use files::{FileError, InputFile, read_file, words};
pub use gdb_session::serve_gdb;
pub use opening::{Opened, open};
pub use reason::write_reason;
pub use reporting::report;
pub use running::{FinishedRun, run};
pub use tasks_command::{TasksResult, tasks};
