//! Who may touch what: which bytes of a board unprivileged code may read, write and execute under a setting of the MPU,
//! and by which bytes one such world can influence another.
#![tactic(auto)]

mod apart;
mod board_place;
mod counting;
mod filling;
mod interval;
mod later;
pub mod laws;
mod lines;
mod map;
mod names;
mod notes;
mod settings;
mod sharing;
mod text;
mod world;
mod world_lines;

pub use apart::are_all_apart;
pub use board_place::{BoardPlace, PlaceKind};
pub use counting::{MAX_WORLDS, WorldSteps, Worlds};
pub use filling::board_places;
pub use interval::Interval;
pub use lines::{Line, map_text, pair_text};
pub use map::{AccessMap, PlaceMap};
pub use mpu::Span;
pub use notes::misaligned_text;
pub use sharing::{are_apart, shared};
pub use text::worlds_text;
pub use world::{Place, Rights, World, places};
pub use world_lines::{others_line, world_line};
