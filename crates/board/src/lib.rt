//! The reader of board files: the numbers of a board, its second RAM, its devices, and the script of what happens on
//! its
//! interrupts and to its devices, in TOML. README.md says what is proved.
#![tactic(auto)]

ghost use Rattle.std.specs.Prelude.{◌≡◌, ◌⊎◌, Err, IfOk};
ghost use Rattle.toml.specs.View.{table_view};
ghost use Rattle.platform.specs.Boards.{IsScript};
ghost use Rattle.platform.specs.SystemInvariant.{IsBoard};
ghost use Rattle.platform.specs.declared.error.BoardError.TheVariants.{OutOfMemory as Wanting};
ghost use Rattle.platform.specs.Wiring.{AreWired};
ghost use Rattle.board.specs.Texts.{board_in, board_of};
ghost use Rattle.board.specs.Reading.{Answers, described};

mod board;
mod device_effects;
mod device_parts;
pub mod device_ranges;
mod device_span;
mod device_tables;
mod device_values;
mod events;
mod found_devices;
pub mod keys;
mod layout;
pub mod ranges;
mod second_ram;
mod values;

pub use board::Board;
pub use device_effects::{effects_in, is_device_line, line_in};
pub use device_parts::{Effects, Span, Values};
pub use device_span::{
    DEFAULT_DEVICE_BYTES, is_device_word, is_driven, is_followed, is_in_device, is_named, span_in,
};
pub use device_tables::{devices_at, find_devices, goes_with, has_device_keys, listed_device};
pub use device_values::{DEFAULT_PLACES, PLACES, flag, stores_named, values_in};
pub use devices::{Device, Line, MAX_DEVICES, Poke, Stores};
pub use events::{MAX_SCRIPT_EVENTS, change, is_free_line, nmi};
use events::{script_of, tables};
pub use found_devices::FoundDevices;
use found_devices::copied;
use keys::{BOARD_KEYS, has_only};
pub use layout::{DEFAULT_REGIONS, layout_of, region_count};
pub use platform::board::{Layout, SecondRam};
pub use platform::error::BoardError;
pub use platform::script::{InterruptNumber, ScriptedEvent, Signal};
pub use second_ram::{MAX_SECOND_RAMS, with_second_ram};
use std::alloc::Global;
use toml::Table;
pub use values::{find, number, word};

/// Returns the board that a text describes, or why the machine doesn't take the text: the first
/// refusal in the order in which a text is read. `OutOfMemory` may be returned in place of any other
/// answer while the text is parsed, and after that only where nothing else is refused: see
/// `board_of_table`.
#[tactic(auto, unfolding(crate::specs::Texts::board_of))]
pub fn read_board(alloc: Global, text: &str) -> Result<Board, BoardError>
    ensures answer { Answers described result (board_of text.now) ⊎ (result ≡ Err Wanting) }
    ensures script { IfOk result (λ board. IsScript board.layout.interrupts board.events.items) }
    ensures board { IfOk result (λ board. IsBoard (described board)) }
    ensures wired { IfOk result (λ board. AreWired board.devices.items board.events.items) }
{
    let document = match toml::table_from_str(alloc, text) {
        Ok(document) => document,
        Err(error) if error.is_memory() => return Err(BoardError::OutOfMemory),
        Err(_) => return Err(BoardError::NotToml),
    };
    board_of_table(alloc, &document)
}

/// Returns the board that a parsed document describes, or the first refusal. `OutOfMemory` is
/// returned only where nothing is refused.
#[tactic(auto, using(crate::proofs::Taken::board_lemmas), unfolding(crate::specs::Texts::board_in))]
pub fn board_of_table(alloc: Global, document: &Table) -> Result<Board, BoardError>
    ensures answer { Answers described result (board_in (table_view document.now)) }
    ensures script { IfOk result (λ board. IsScript board.layout.interrupts board.events.items) }
    ensures board { IfOk result (λ board. IsBoard (described board)) }
    ensures wired { IfOk result (λ board. AreWired board.devices.items board.events.items) }
{
    let layout = layout_of(document)?;
    if !has_only(&BOARD_KEYS, document) {
        return Err(BoardError::UnknownKey);
    }
    let layout = with_second_ram(layout, document)?;
    let mut found = FoundDevices::new();
    find_devices(&layout, document, &mut found)?;
    let devices = found.devices();
    let values = tables(find(document, "event"), MAX_SCRIPT_EVENTS)?;
    let events = script_of(alloc, layout.interrupts, devices, values)?;
    let Ok(devices) = copied(alloc, devices) else {
        return Err(BoardError::OutOfMemory);
    };
    Ok(Board {
        layout,
        events,
        devices,
    })
}
