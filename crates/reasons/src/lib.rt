//! Why a file is refused, for a person: the field or the key, its value, and what it takes.
#![tactic(auto)]

mod device_keys;
mod device_lines;
mod device_tables;
mod device_values;
mod events;
mod header;
mod image;
mod keys;
mod notes;
mod problem;
mod second_ram;
mod settings;
mod start;
mod text;

pub use image::write_image_reason;
pub use notes::write_notes;
pub use settings::write_board_reason;
pub use start::{write_second_ram, write_start_reason};
