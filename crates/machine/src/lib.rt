//! The machine: steps, runs and their traces.
#![tactic(auto)]

mod as_target;
mod at_once;
pub mod laws;
mod lists;
mod machine;
mod next_step;
mod on_bus;
mod peeking;
mod permit;
mod placing;
mod quick;
pub mod readers;
mod run;
mod saving;
mod start;
mod stepping;
mod task;

pub use access::{
    Decider, EagerSysTick, Exceptions, KeptCode, LazySysTick, PlainExceptions, Search, SysTick,
    SysTickState,
};
pub use board::{Board, InterruptNumber, ScriptedEvent, Signal};
pub use decode::{BoardDecodeTable, DecodeEachTime};
pub use machine::{Fast, Machine, RunError, Slow};
pub use mpu_table::{KeptDecisions, LazyTable};
pub use nvic_levels::{BitLevels, KeptPriorities};
pub use output::{Buffered, Cut, In, IoError, LineRoom, Out, Over, Paged};
pub use platform::access::{Decision, Kind, Rule};
pub use platform::board::{Layout, SMALL_BOARD};
pub use platform::error::{PlaceError, StartError};
pub use platform::event::{Event, MAX_EVENTS};
pub use platform::mpu::RegionCount;
pub use platform::stop::Stop;
pub use platform::system::StatusRegister;
pub use readers::Execution;
pub use reference::place::Place;
pub use saving::SavedState;
pub use target::{RegValues, Target, end_of_task, is_instruction};
pub use task_laws::{StepKind, TaskEnd};
pub use trace::lines::{LinePage, event_line, stop_line};
pub use trace::selection::TraceSelection;
pub use trace::sink::{Events, Sink};
