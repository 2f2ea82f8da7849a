//! The texts and words of a server for GDB that need no machine: replies, registers, memory, stop replies, console
//! text, the client's features, the actions of `vCont`, and breakpoints.
#![tactic(auto)]

mod actions;
mod bytes;
mod console;
mod features;
mod monitor;
mod points;
mod regions;
mod registers;
mod replies;
mod settings;
mod stops;
mod stretch;
mod stretches;
mod texts;
mod threads;
mod transfers;
mod watchpoints;

pub use actions::{Resume, read_actions};
pub use bytes::{byte_at, put_byte, put_bytes, put_first_bytes, put_text};
pub use console::{ConsoleText, MAX_TEXT, put_console};
pub use features::{Features, read_features};
pub use monitor::{Monitor, read_monitor};
pub use points::{Breakpoint, BreakpointKind, Breakpoints, MAX_BREAKPOINTS, WatchKind};
pub use regions::put_region_info;
pub use registers::{REGISTERS, put_registers, put_word, word_at, written_register};
pub use replies::{ErrorCode, Reply, refusal, reply_text};
pub use settings::{Settings, first_settings, max_steps, settings_after};
pub use stops::{Signal, StopReason, put_signal_reply, put_stop_reply, signal_of};
pub use texts::{explanation, monitor_help, why_text};
pub use threads::{Activity, put_thread};
pub use transfers::{description, put_hex_number, put_memory_map, put_piece};
pub use watchpoints::{MAX_WATCHPOINTS, WatchHit, Watchpoint, Watchpoints};
