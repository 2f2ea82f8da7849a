//! The words of a board's devices (profile).

ghost use Rattle.std.specs.Prelude.{◌≡◌, ◌<◌, ◌≤◌, ◌^◌, ◌==◌, ℕ, Some, [], length, option_map, slice_index};
ghost use Rattle.std.specs.Prelude.{true, false, IfOk, IfSome};
ghost use Rattle.instruction_set.specs.Sizes.{bytes_in};
ghost use Rattle.devices.specs.Table.{has, place};
ghost use Rattle.devices.specs.Copies.{HaveSameDevices};
ghost use Rattle.devices.specs.Devices.{after_store_at, at_start, content_at, fresh, loaded, poked, poked_by};
ghost use Rattle.devices.specs.Devices.{position_from, read_at, sent_at, value_at, with_content, word_at};
ghost use Rattle.devices.specs.Lines.{has_lines, levels};
ghost use Rattle.devices.specs.Laws.{has_device_at};
ghost use Rattle.devices.specs.Pokes.{poked_all};

use crate::apart::are_apart;
use crate::device::{Device, MAX_DEVICES, Poke};
use crate::part::{covered, in_place, part, sent};
use crate::pokes::{NoPokes, Pokes};
use crate::word::{content_after, content_of, stored_for, value_of};
use instruction_set::size::Size;
use std::alloc::{AllocError, Global};
use std::marker::Model;

/// How many numbers of devices are kept: those at which an address was met last.
const NEAR: usize = 64;

/// A device, and what is stored for each of its words.
#[derive(Drop)]
pub(crate) struct DeviceWords {
    pub(crate) device: Device,
    words: Vec<u32>,
}

impl Model for DeviceWords {
    ghost use Rattle.std.specs.Prelude.{◌≡◌, ◌*◌, length};
    ghost use Rattle.devices.specs.Devices.{DeviceWords as State};

    ghost Value = { State };

    ghost view = { λ d. record { device = d.device; words = d.words.items } };

    ghost invariant = { λ d. length d.words.items * 4 ≡ d.device.size };
}

/// A board's devices with their words, in the order of the board. A contract sees the list of them.
#[derive(Drop)]
pub struct Devices {
    devices: Vec<DeviceWords>,
    /// Whether a device has a line.
    lined: bool,
    /// Whether no two devices have one address.
    apart: bool,
    /// Where the device of an address is looked for first, by a few bits of the address. Contracts don't see it.
    near: [u8; NEAR],
}

impl Model for Devices {
    ghost use Rattle.std.specs.Prelude.{List, ◌≡◌, ◌≤◌, length};
    ghost use Rattle.devices.specs.Devices.{DeviceWords as State};
    ghost use Rattle.devices.specs.Laws.{AreWhole};
    ghost use Rattle.devices.specs.Lines.{has_lines};
    ghost use Rattle.devices.specs.Apart.{are_apart};

    ghost Value = { List State };

    ghost view = { λ d. d.devices.items };

    ghost invariant = { λ d. (length d.devices.items ≤ 256) × AreWhole d.devices.items
        × (d.lined ≡ has_lines d.devices.items) × (d.apart ≡ are_apart d.devices.items) };
}

impl Devices {
    /// Returns the devices of a board at the start. Fails where memory can't be allocated, and where there are more
    /// than 256.
    #[tactic(auto, using(crate::proofs::Foreseen::made_whole))]
    pub fn new(alloc: Global, table: &[Device]) -> Result<Self, AllocError>
        ensures { IfOk result (λ devices. devices ≡ fresh table.now) }
    {
        if table.len() > MAX_DEVICES {
            return Err(AllocError);
        }
        let mut devices = Vec::with_capacity(alloc, table.len())?;
        'devices: for device in table {
            devices.push(DeviceWords::at_start(alloc, device)?)?;
        }
        let lined = has_lines(devices.as_slice());
        let apart = are_apart(devices.as_slice());
        Ok(Devices {
            devices,
            lined,
            apart,
            near: [0; NEAR],
        })
    }

    /// Returns a copy. Fails where memory can't be allocated.
    pub fn copied(&self, alloc: Global) -> Result<Self, AllocError>
        ensures { IfOk result (λ devices. devices ≡ self.now) }
    {
        let mut devices = Vec::with_capacity(alloc, self.devices.len())?;
        'devices: for device in self.devices.as_slice() {
            devices.push(device.copied(alloc)?)?;
        }
        Ok(Devices {
            devices,
            lined: self.lined,
            apart: self.apart,
            near: [0; NEAR],
        })
    }

    /// Takes the words of the same devices, without an allocation.
    pub fn copy_from(&mut self, other: &Devices)
        requires { HaveSameDevices self.old other.now }
        ensures { self.new ≡ other.now }
    {
        copy_words(self.devices.as_mut_slice(), other.devices.as_slice());
        self.lined = other.lined;
        self.apart = other.apart;
    }

    /// Returns the devices, in the order of the board.
    pub(crate) fn devices(&self) -> &[DeviceWords]
        ensures value { result.now ≡ self.now }
        ensures few { length result.now ≤ 256 }
    {
        self.devices.as_slice()
    }

    /// Returns whether there is no device.
    #[inline]
    pub fn is_empty(&self) -> bool
        ensures { result ≡ (length self.now == 0) }
    {
        self.devices.is_empty()
    }

    /// Returns whether a device has a line. Where none has, there are no levels.
    #[inline]
    #[tactic(auto, using(crate::proofs::Lined::none_lined))]
    pub fn has_lines(&self) -> bool
        ensures value { result ≡ has_lines self.now }
        ensures none { (ticks : ℕ) → result ≡ false → levels self.now ticks ≡ [] }
    {
        self.lined
    }

    /// Returns whether a device has an address.
    #[tactic(auto, using(crate::proofs::Positions::some_position))]
    pub fn has_device_at(&self, address: u32) -> bool
        ensures { result ≡ has_device_at self.now address }
    {
        self.position(address).is_some()
    }

    /// Returns the device that has an address, with what is stored in the word there.
    #[tactic(auto, using(crate::proofs::Positions::none_word))]
    pub(crate) fn word(&self, address: u32) -> Option<(&Device, u32)>
        ensures { option_map (λ w. record { device = w.0.now; stored = w.1 }) result ≡ word_at self.now address }
    {
        match self.position(address) {
            Some(at) => Some(self.word_of(at, address)),
            None => None,
        }
    }

    /// Returns the device of this number, which is the first that has an address, with what is stored in the word
    /// there.
    #[inline]
    #[tactic(auto, using(crate::proofs::Positions::word_lemmas))]
    fn word_of(&self, at: usize, address: u32) -> (&Device, u32)
        requires { position_from 0 self.now address ≡ Some at }
        ensures { word_at self.now address ≡ Some (record { device = result.0.now; stored = result.1 }) }
    {
        let words = &self.devices[at];
        (&words.device, words.stored(address))
    }

    /// Returns the device that has an address, with what is stored in the word there after pokes of that tick.
    #[tactic(auto, using(crate::proofs::Foreseen::foreseen))]
    fn word_after<P: Pokes>(&self, ticks: u64, pokes: &P, address: u32) -> Option<(&Device, u32)>
        ensures { option_map (λ w. record { device = w.0.now; stored = w.1 }) result
            ≡ word_at (poked_all self.now ticks (P.pokes pokes.now)) address }
    {
        let _ = &self.devices;
        let (device, stored) = self.word(address)?;
        match pokes.last(address) {
            Some(content) => Some((device, stored_for(device, ticks, content))),
            None => Some((device, stored)),
        }
    }

    /// Returns the content of the word at an address after pokes, 0 where no device has it.
    fn content_after<P: Pokes>(&self, ticks: u64, pokes: &P, address: u32) -> u32
        ensures { result ≡ content_at (poked_all self.now ticks (P.pokes pokes.now)) ticks address }
    {
        match self.word_after(ticks, pokes, address) {
            Some((device, stored)) => content_of(device, ticks, stored),
            None => 0,
        }
    }

    /// Returns the value of the word at an address after this many ticks and pokes of the last of them, if a device has
    /// it.
    pub(crate) fn value_after<P: Pokes>(&self, ticks: u64, pokes: &P, address: u32) -> Option<u32>
        ensures { result ≡ value_at (poked_all self.now ticks (P.pokes pokes.now)) ticks address }
    {
        let (device, stored) = self.word_after(ticks, pokes, address)?;
        Some(self.value_in(ticks, pokes, address, device, stored))
    }

    /// Returns the value of the word at an address after this many ticks and pokes of the last of them, from its device
    /// and what is stored in it then.
    #[inline]
    fn value_in<P: Pokes>(
        &self,
        ticks: u64,
        pokes: &P,
        address: u32,
        device: &Device,
        stored: u32,
    ) -> u32
        requires { word_at (poked_all self.now ticks (P.pokes pokes.now)) address
            ≡ Some (record { device = device.now; stored = stored }) }
        ensures { value_at (poked_all self.now ticks (P.pokes pokes.now)) ticks address ≡ Some result }
    {
        let content = content_of(device, ticks, stored);
        let followed = match device.of {
            Some(of) => self.content_after(ticks, pokes, of),
            None => content,
        };
        value_of(device, content, followed)
    }

    /// Returns the value of the word at an address after this many ticks, if a device has it.
    pub fn value(&self, ticks: u64, address: u32) -> Option<u32>
        ensures { result ≡ value_at self.now ticks address }
    {
        self.value_after(ticks, &NoPokes, address)
    }

    /// Returns what a load of this size would read at an address, if a device has it.
    pub fn read(&self, ticks: u64, address: u32, size: Size) -> Option<u32>
        ensures value { result ≡ read_at self.now ticks address size }
        ensures small { IfSome result (λ value. value < 256 ^ bytes_in size) }
    {
        match self.value(ticks, address) {
            Some(value) => Some(part(address, size, value)),
            None => None,
        }
    }

    /// Loads from an address that the device of this number has, the first that has it, and then pokes what its load
    /// pokes.
    #[tactic(auto, using(crate::proofs::Positions::first_below))]
    pub fn load_at(&mut self, at: usize, ticks: u64, address: u32, size: Size) -> u32
        requires { position_from 0 self.old address ≡ Some at }
        ensures value { read_at self.old ticks address size ≡ Some result }
        ensures small { result < 256 ^ bytes_in size }
        ensures after { self.new ≡ loaded self.old ticks address }
    {
        let (device, stored) = self.word_of(at, address);
        let poke = device.load_poke;
        let value = self.value_in(ticks, &NoPokes, address, device, stored);
        self.keep_near(at, address);
        self.poke_by(ticks, poke);
        part(address, size, value)
    }

    /// Stores to an address that the device of this number has, the first that has it, and then pokes what its store
    /// pokes. Returns the byte that goes to the console, if one does.
    #[tactic(auto, using(crate::proofs::Positions::first_below))]
    pub fn store_at(
        &mut self,
        at: usize,
        ticks: u64,
        address: u32,
        size: Size,
        value: u32,
    ) -> Option<u8>
        requires { position_from 0 self.old address ≡ Some at }
        ensures sent { sent_at self.old address value ≡ Some result }
        ensures after { self.new ≡ after_store_at self.old ticks address size value }
    {
        let (device, stored) = self.word_of(at, address);
        let before = content_of(device, ticks, stored);
        let content = content_after(
            device,
            before,
            covered(address, size),
            in_place(address, value),
        );
        let store_poke = device.store_poke;
        let sent = sent(device, address, value);
        self.keep_near(at, address);
        self.put_at(at, ticks, address, content);
        self.poke_by(ticks, store_poke);
        sent
    }

    /// Pokes words one after another, each where a device has it.
    pub fn poke_all(&mut self, ticks: u64, pokes: &[Poke])
        ensures { self.new ≡ poked_all self.old ticks pokes.now }
    {
        for poke in pokes {
            self.poke(ticks, *poke);
        }
    }

    /// Pokes a word, if a device has it.
    pub fn poke(&mut self, ticks: u64, poke: Poke)
        ensures { self.new ≡ poked self.old ticks poke.address poke.value }
    {
        self.put(ticks, poke.address, poke.value);
    }

    /// Makes a poke, if there is one.
    fn poke_by(&mut self, ticks: u64, poke: Option<Poke>)
        ensures { self.new ≡ poked_by self.old ticks poke }
    {
        if let Some(poke) = poke {
            self.poke(ticks, poke);
        }
    }

    /// Gives the word at an address a content, if a device has it.
    #[tactic(auto, using(crate::proofs::Positions::position_lemmas))]
    fn put(&mut self, ticks: u64, address: u32, content: u32)
        ensures { self.new ≡ poked self.old ticks address content }
    {
        if let Some(at) = self.position(address) {
            self.put_at(at, ticks, address, content);
        }
    }

    /// Gives the word at an address of the device of this number, the first that has it, a content.
    #[inline]
    #[tactic(auto, using(crate::proofs::Positions::position_lemmas))]
    fn put_at(&mut self, at: usize, ticks: u64, address: u32, content: u32)
        requires { position_from 0 self.old address ≡ Some at }
        ensures { self.new ≡ poked self.old ticks address content }
    {
        self.devices[at].put(ticks, address, content);
    }

    /// Returns the number of the first device that has an address.
    #[tactic(auto, using(crate::proofs::Separate::near_is_first))]
    pub fn position(&self, address: u32) -> Option<usize>
        ensures { result ≡ position_from 0 self.now address }
    {
        let near = usize::from(self.near[place_near(address)]);
        if self.apart && near < self.devices.len() && self.devices[near].device.has(address) {
            return Some(near);
        }
        self.search(address)
    }

    /// Notes where the device of an address is.
    #[inline]
    fn keep_near(&mut self, at: usize, address: u32)
        requires { at < length self.old }
        ensures { self.new ≡ self.old }
    {
        let place = place_near(address);
        let near = &mut self.near;
        near[place] = at as u8;
    }

    /// Returns the same, device by device.
    fn search(&self, address: u32) -> Option<usize>
        ensures { result ≡ position_from 0 self.now address }
    {
        'devices: for (at, device) in self.devices.as_slice().iter().enumerate() {
            if device.device.has(address) {
                return Some(at);
            }
        }
        None
    }
}

/// Returns the place at which the device of an address is noted.
#[inline]
fn place_near(address: u32) -> usize
    ensures { result < 64 }
{
    ((address / 4 ^ address / 1024) % 64) as usize
}

/// Returns whether one of some devices has a line.
fn has_lines(devices: &[DeviceWords]) -> bool
    ensures { result ≡ has_lines devices.now }
{
    'devices: for device in devices {
        if device.device.line.is_some() {
            return true;
        }
    }
    false
}

/// Takes the words of the same devices.
#[tactic(auto, using(crate::proofs::Copying::copying_lemmas))]
fn copy_words(to: &mut [DeviceWords], from: &[DeviceWords])
    requires { HaveSameDevices to.old from.now }
    ensures { to.new ≡ from.now }
{
    'devices: for (at, device) in from.iter().enumerate() {
        to[at].copy_from(device);
    }
}

impl DeviceWords {
    /// Returns a device at the start.
    fn at_start(alloc: Global, device: &Device) -> Result<Self, AllocError>
        ensures { IfOk result (λ d. d ≡ at_start device.now) }
    {
        let words = vec![in alloc; device.start; device.size as usize / 4]?;
        Ok(DeviceWords {
            device: *device,
            words,
        })
    }

    /// Returns a copy.
    fn copied(&self, alloc: Global) -> Result<Self, AllocError>
        ensures { IfOk result (λ d. d ≡ self.now) }
    {
        let words = Vec::from_slice(alloc, self.words.as_slice())?;
        Ok(DeviceWords {
            device: self.device,
            words,
        })
    }

    /// Takes the words of the same device.
    fn copy_from(&mut self, other: &DeviceWords)
        requires { self.old.device ≡ other.now.device }
        ensures { self.new ≡ other.now }
    {
        self.words
            .as_mut_slice()
            .copy_from_slice(other.words.as_slice());
    }

    /// Returns what is stored in the word at an address.
    #[inline]
    fn stored(&self, address: u32) -> u32
        requires { has self.now.device address ≡ true }
        ensures { result ≡ slice_index self.now.words (place self.now.device address) }
    {
        self.words[self.device.place(address)]
    }

    /// Gives the word at an address a content.
    fn put(&mut self, ticks: u64, address: u32, content: u32)
        requires { has self.old.device address ≡ true }
        ensures { self.new ≡ with_content self.old ticks address content }
    {
        let place = self.device.place(address);
        self.words[place] = stored_for(&self.device, ticks, content);
    }
}
