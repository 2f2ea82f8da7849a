//! The lines of devices (profile).

ghost use Rattle.std.specs.Prelude.{◌≡◌, ◌∷◌, ◌≤◌, length};
ghost use Rattle.devices.specs.Devices.{value_at};
ghost use Rattle.devices.specs.Lines.{drives, is_line_of, level_of, level_on, levels, levels_by};
ghost use Rattle.devices.specs.Pokes.{poked_all};

use crate::device::{Device, Line, MAX_DEVICES};
use crate::devices::Devices;
use crate::level::Level;
use crate::pokes::{NoPokes, Pokes};
use arrayvec::ArrayVec;

impl Devices {
    /// Returns whether a device drives an interrupt.
    pub fn drives(&self, interrupt: u8) -> bool
        ensures { result ≡ drives self.now interrupt }
    {
        'devices: for device in self.devices() {
            if is_line_of(device.device.line, interrupt) {
                return true;
            }
        }
        false
    }

    /// Returns the levels of all lines after this many ticks, in the order of the board.
    pub fn levels(&self, ticks: u64) -> ArrayVec<Level, MAX_DEVICES>
        ensures { result.items ≡ levels self.now ticks }
    {
        self.levels_after(ticks, &NoPokes)
    }

    /// Returns the levels of all lines after this many ticks and pokes of the last of them, in the order of the board.
    #[tactic(auto, using(crate::proofs::Foreseen::levels_stay))]
    pub fn levels_after<P: Pokes>(&self, ticks: u64, pokes: &P) -> ArrayVec<Level, MAX_DEVICES>
        ensures { result.items ≡ levels (poked_all self.now ticks (P.pokes pokes.now)) ticks }
    {
        let mut levels = ArrayVec::new();
        'devices: for device in self.devices() {
            if let Some(line) = device.device.line {
                levels.push(self.level_on(ticks, pokes, &device.device, line));
            }
        }
        levels
    }

    /// Returns the level of a device's line after this many ticks and pokes of the last of them.
    #[tactic(auto, unfolding(crate::specs::Lines::level_on))]
    fn level_on<P: Pokes>(&self, ticks: u64, pokes: &P, device: &Device, line: Line) -> Level
        ensures { result ≡ level_on (value_at (poked_all self.now ticks (P.pokes pokes.now)) ticks) device.now line }
    {
        let first = self.value_after(ticks, pokes, device.base).unwrap_or(0);
        let enabled = self.value_after(ticks, pokes, line.enable).unwrap_or(0);
        Level {
            number: line.number,
            is_high: first & enabled != 0,
        }
    }
}

/// Returns whether a line is that of an interrupt.
fn is_line_of(line: Option<Line>, interrupt: u8) -> bool
    ensures { result ≡ is_line_of line interrupt }
{
    match line {
        Some(line) => line.number == interrupt,
        None => false,
    }
}
