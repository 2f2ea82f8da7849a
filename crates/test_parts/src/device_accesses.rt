//! What words of devices hold and read as, access by access.

use crate::words::shown;
use devices::{Device, Devices, Line, Poke, Size, Stores};
use std::alloc::{AllocError, Global};
use std::io;
use test_tables::{Lines, Outcome, meaning, number, number_at, pair, part, run_lines, word};

/// Returns the outcome of a row: its devices, and then accesses to them.
pub fn outcome(alloc: Global, row: &str) -> io::Result<Outcome> {
    let mut table = Vec::new(alloc);
    'lines: for line in row.lines() {
        if word(line, 0) == "device" {
            let Some(device) = device_of(line) else {
                return Ok(Outcome::Unreadable);
            };
            table.push(device).map_err(AllocError::from)?;
        }
    }
    let first = table.len().saturating_add(1);
    let mut accesses = Accesses {
        devices: Devices::new(alloc, table.as_slice())?,
        copy: None,
    };
    run_lines(alloc, row, first, &mut accesses)
}

// ---- the devices of a row

const STORES: [(&str, Stores); 4] = [
    ("kept", Stores::Kept),
    ("ignored", Stores::Ignored),
    ("ones-clear", Stores::OnesClear),
    ("zeros-clear", Stores::ZerosClear),
];

/// Returns whether a word is a key of a device.
fn is_key(word: &str) -> bool {
    matches!(
        word,
        "size" | "start" | "ones" | "zeros" | "stores" | "follows" | "by" | "of" | "counts"
    ) || matches!(
        word,
        "console" | "load_poke" | "load_value" | "store_poke" | "store_value" | "line" | "enable"
    )
}

/// Returns whether each second word after the base is a key.
fn has_known_keys(line: &str) -> bool {
    'words: for (place, word) in line.split_whitespace().enumerate() {
        if place >= 2 && place % 2 == 0 && !is_key(word) {
            return false;
        }
    }
    true
}

/// The word after a key, if a line has the key.
fn word_of<'a>(line: &'a str, key: &str) -> Option<&'a str> {
    let mut is_next = false;
    'words: for word in line.split_whitespace() {
        if is_next {
            return Some(word);
        }
        is_next = word == key;
    }
    None
}

/// The number after a key, or another one where a line hasn't the key. None where the word is no number.
fn number_of(line: &str, key: &str, otherwise: u32) -> Option<u32> {
    match word_of(line, key) {
        Some(word) => number(word),
        None => Some(otherwise),
    }
}

/// What a device pokes, by the keys of the address and the value.
fn poke_of(line: &str, key: &str, value: &str) -> Option<Poke> {
    Some(Poke {
        address: number(word_of(line, key)?)?,
        value: number(word_of(line, value)?)?,
    })
}

/// The interrupt of a device.
fn interrupt_of(line: &str) -> Option<Line> {
    let number = number_of(line, "line", 240)?;
    if number >= 240 {
        return None;
    }
    Some(Line {
        number: number as u8,
        enable: number_of(line, "enable", 0)?,
    })
}

/// The device of a line.
fn device_of(line: &str) -> Option<Device> {
    let (base, size) = (number_at(line, 1)?, number_of(line, "size", 4)?);
    let by = number_of(line, "by", 1)?;
    let is_placed = base % 4 == 0 && size % 4 == 0 && size <= u32::MAX - base;
    if !has_known_keys(line) || !is_placed || by >= 32 {
        return None;
    }
    Some(Device {
        base,
        size,
        start: number_of(line, "start", 0)?,
        ones: number_of(line, "ones", 0)?,
        zeros: number_of(line, "zeros", 0)?,
        stores: meaning(&STORES, word_of(line, "stores").unwrap_or("kept"))?,
        follows: number_of(line, "follows", 0)?,
        by: by as u8,
        of: number(word_of(line, "of").unwrap_or("")),
        counts: word_of(line, "counts") == Some("yes"),
        console: word_of(line, "console") == Some("yes"),
        load_poke: poke_of(line, "load_poke", "load_value"),
        store_poke: poke_of(line, "store_poke", "store_value"),
        line: interrupt_of(line),
    })
}

// ---- accesses to them

const SIZES: [(&str, Size); 3] = [
    ("", Size::Word),
    ("halfword", Size::Halfword),
    ("byte", Size::Byte),
];

/// The pokes of words from the third on, each an address and a value.
fn pokes_of(alloc: Global, asked: &str) -> Option<Vec<Poke>> {
    let mut pokes = Vec::new(alloc);
    'words: for word in asked.split_whitespace().skip(2) {
        let (address, value) = pair(word)?;
        pokes.push(Poke { address, value }).ok()?;
    }
    Some(pokes)
}

/// The devices of a row, and a copy of them.
#[derive(Drop)]
struct Accesses {
    devices: Devices,
    copy: Option<Devices>,
}

impl Accesses {
    /// Loads a part of a word, if a device has it.
    fn load(&mut self, ticks: u64, address: u32, size: Size) -> Option<u32> {
        let at = self.devices.position(address)?;
        Some(self.devices.load_at(at, ticks, address, size))
    }

    /// Stores a part of a word, if a device has it. Returns the byte that goes to the console, if one does.
    fn store(&mut self, ticks: u64, address: u32, size: Size, value: u32) -> Option<u32> {
        let at = self.devices.position(address)?;
        match self.devices.store_at(at, ticks, address, size, value) {
            Some(byte) => Some(u32::from(byte)),
            None => None,
        }
    }

    /// What an access is answered.
    fn access(&mut self, asked: &str, ticks: u64) -> Option<Option<u32>> {
        let address = number_at(asked, 2)?;
        let answer = match word(asked, 0) {
            "load" => self.load(ticks, address, meaning(&SIZES, word(asked, 3))?),
            "store" => {
                let size = meaning(&SIZES, word(asked, 4))?;
                self.store(ticks, address, size, number_at(asked, 3)?)
            }
            "read" => {
                let size = meaning(&SIZES, word(asked, 3))?;
                self.devices.read(ticks, address, size)
            }
            "value" => self.devices.value(ticks, address),
            "copied" => match &self.copy {
                Some(copy) => copy.value(ticks, address),
                None => return None,
            },
            _ => return None,
        };
        Some(answer)
    }

    /// The number of the first line, and how it is.
    fn level(&self, alloc: Global, ticks: u64) -> Option<String> {
        let levels = self.devices.levels(ticks);
        let level = levels.as_slice().first()?;
        let (number, how) = (level.number, if level.is_high { "high" } else { "low" });
        format!(in alloc; "{number:X} {how}").ok()
    }

    /// Pokes all words of a line at once, or each by itself.
    fn poke(&mut self, alloc: Global, asked: &str, ticks: u64) -> Option<String> {
        let pokes = pokes_of(alloc, asked)?;
        if word(asked, 0) == "poke-all" {
            self.devices.poke_all(ticks, pokes.as_slice());
        } else {
            'pokes: for poke in pokes.as_slice() {
                self.devices.poke(ticks, *poke);
            }
        }
        Some(String::new(alloc))
    }
}

impl Lines for Accesses {
    fn answer(&mut self, alloc: Global, line: &str) -> Option<String> {
        let asked = part(line, 0);
        let ticks = u64::from(number_at(asked, 1)?);
        match word(asked, 0) {
            "poke" | "poke-all" => self.poke(alloc, asked, ticks),
            "level" => self.level(alloc, ticks),
            "there" => {
                let is_there = self.devices.has_device_at(number_at(asked, 2)?);
                let answer = if is_there { "yes" } else { "no" };
                answer.to_string(alloc).ok()
            }
            "copy" => {
                self.copy = Some(self.devices.copied(alloc).ok()?);
                Some(String::new(alloc))
            }
            _ => shown(alloc, self.access(asked, ticks)?),
        }
    }
}
