//! What a run did, counted: which accesses there were, by which rule and of which outcome; under which
//! settings regions decided; which faults were recorded; which memory was touched; what ran when; and what was printed.
#![tactic(auto)]

mod cells;
mod code_counts;
mod console;
mod counts;
mod fault;
mod faults;
pub mod laws;
mod mark;
mod setting;
mod settings;
mod step_start;
mod survey;
mod timeline;
mod touch;

pub use cells::{Cells, MARKS, MAX_CELLS};
pub use code_counts::CodeCounts;
pub use console::{Console, MAX_BYTES};
pub use counts::{COUNTERS, Counts, WAYS};
pub use fault::Fault;
pub use faults::{Faults, MAX_ROWS};
pub use mark::{MAX_LANES, Mark};
pub use setting::{RegionSetting, Setting};
pub use settings::{MAX_SETTINGS, Settings};
pub use step_start::{StepStart, writes_system};
pub use survey::Survey;
pub use timeline::{MAX_COLUMNS, Timeline};
pub use touch::Touch;
