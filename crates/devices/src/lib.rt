//! Devices that a board describes (profile): words that read as, and keep, what the board says of them.
#![tactic(auto)]

mod apart;
mod device;
mod devices;
pub mod laws;
mod level;
mod lines;
mod part;
mod pokes;
mod table;
mod word;

pub use device::{Device, Line, MAX_DEVICES, Poke, Stores};
pub use devices::Devices;
pub use instruction_set::size::Size;
pub use level::Level;
pub use pokes::{NoPokes, Pokes};
pub use table::device_at;
