//! The data of replies.

ghost use Rattle.std.specs.Prelude.{◌≡◌, ◌≤◌, ◌==◌, [], length};
ghost use Rattle.gdb.specs.MemoryReads.{memory_read};
ghost use Rattle.gdb.specs.Targets.{target_values};
ghost use Rattle.gdb_server.specs.Replies.{bytes_in, constant_text, server_features};
ghost use Rattle.gdb_texts.specs.Bytes.{bytes_text};
ghost use Rattle.gdb_texts.specs.Regions.{region_at};
ghost use Rattle.gdb_texts.specs.Registers.{registers_text, word_digits};
ghost use Rattle.gdb_texts.specs.Stops.{signal_reply};
ghost use Rattle.gdb_texts.specs.Threads.{thread_reply};
ghost use Rattle.gdb_texts.specs.Transfers.{piece_text};
ghost use Rattle.platform.specs.Boards.{numbers_of};

use crate::purposes::Constant;
use arrayvec::ArrayVec;
use devices::Device;
use gdb::{put_memory, register_values};
use gdb_texts::{
    Activity, Signal, put_first_bytes, put_piece, put_region_info, put_registers, put_signal_reply,
    put_text, put_thread, put_word,
};
use machine::{Decider, Exceptions, KeptCode, Layout, Machine, SysTickState};
use std::marker::Model;

/// The most bytes of a reply's data.
pub const MAX_DATA: usize = 4096;

/// The features of the server.
const FEATURES: &str = "\
PacketSize=1000;QStartNoAckMode+;qXfer:features:read+;qXfer:memory-map:read+;vContSupported+;\
ReverseStep+;ReverseContinue+;swbreak+;hwbreak+";

/// The data of a reply.
#[derive(Drop)]
pub struct Data {
    bytes: ArrayVec<u8, MAX_DATA>,
}

impl Model for Data {
    ghost use Rattle.std.specs.Prelude.{ℕ, List};

    ghost Value = { List ℕ };

    ghost view = { λ d. d.bytes.items };
}

impl Data {
    fn new() -> Self
        ensures { result ≡ [] }
    {
        Data {
            bytes: ArrayVec::new(),
        }
    }

    /// Returns the data of a text.
    pub fn of(text: &[u8]) -> Self
        requires { length text.now ≤ 4096 }
        ensures { result ≡ text.now }
    {
        let mut data = Data::new();
        put_text(&mut data.bytes, text);
        data
    }

    /// Returns the data.
    pub fn as_slice(&self) -> &[u8]
        ensures text { result.now ≡ self.now }
        ensures short { length result.now ≤ 4096 }
    {
        self.bytes.as_slice()
    }

    /// Returns whether there is no data.
    pub fn is_empty(&self) -> bool
        ensures { result ≡ (length self.now == 0) }
    {
        self.bytes.len() == 0
    }

    /// Returns the last signal, with all registers.
    #[inline(never)]
    pub fn of_signal<D: Decider, C: KeptCode, L: Exceptions, U: SysTickState>(
        signal: Signal,
        machine: &Machine<D, C, L, U>,
    ) -> Self
        ensures { result ≡ signal_reply signal (target_values machine.now.state) }
    {
        let mut data = Data::new();
        put_signal_reply(&mut data.bytes, signal, &register_values(machine));
        data
    }

    /// Returns the digits of all registers.
    #[inline(never)]
    pub fn of_registers<D: Decider, C: KeptCode, L: Exceptions, U: SysTickState>(
        machine: &Machine<D, C, L, U>,
    ) -> Self
        ensures { result ≡ registers_text (target_values machine.now.state) }
    {
        let mut data = Data::new();
        put_registers(&mut data.bytes, &register_values(machine));
        data
    }

    /// Returns the digits of a word.
    pub fn of_word(word: u32) -> Self
        ensures { result ≡ word_digits word }
    {
        let mut data = Data::new();
        put_word(&mut data.bytes, word);
        data
    }

    /// Returns the digits of the bytes of memory from an address on.
    pub fn of_memory<D: Decider, C: KeptCode, L: Exceptions, U: SysTickState>(
        machine: &Machine<D, C, L, U>,
        address: u32,
        count: u32,
    ) -> Self
        ensures { result ≡ bytes_text (memory_read machine.now.state address count) }
    {
        let mut data = Data::new();
        put_memory(machine, address, count, &mut data.bytes);
        data
    }

    /// Returns a piece of a text.
    pub fn of_piece(text: &[u8], offset: u32, count: u32) -> Self
        ensures { result ≡ piece_text text.now offset count }
    {
        let mut data = Data::new();
        put_piece(&mut data.bytes, text, offset, count);
        data
    }

    /// Returns the region of an address on a board with these devices.
    #[inline(never)]
    pub fn of_region(board: &Layout, devices: &[Device], address: u32) -> Self
        requires { length devices.now ≤ 256 }
        ensures { result ≡ region_at (numbers_of board.now) devices.now address }
    {
        let mut data = Data::new();
        put_region_info(&mut data.bytes, board, devices, address);
        data
    }

    /// Returns what the thread is at.
    #[inline(never)]
    pub fn of_thread(activity: Activity, sleeps: bool) -> Self
        ensures { result ≡ thread_reply activity sleeps }
    {
        let mut data = Data::new();
        put_thread(&mut data.bytes, activity, sleeps);
        data
    }

    /// Returns the bytes of some digits, two for each, at most 4,096.
    pub fn of_digits(digits: &[u8]) -> Self
        ensures { result ≡ bytes_in digits.now }
    {
        let mut data = Data::new();
        let count = (digits.len() / 2).min(MAX_DATA);
        put_first_bytes(&mut data.bytes, digits, count as u32);
        data
    }
}

/// Returns the features of the server.
pub fn features() -> &'static [u8]
    ensures text { result.now ≡ server_features }
    ensures short { length result.now ≤ 4096 }
{
    FEATURES.as_bytes()
}

/// Returns a reply that is always the same.
pub fn constant_text(what: Constant) -> &'static [u8]
    ensures text { result.now ≡ constant_text what }
    ensures short { length result.now ≤ 4096 }
{
    match what {
        Constant::Empty => b"",
        Constant::Done => b"OK",
        Constant::ResumeActions => b"vCont;c;C;s;S;r",
        Constant::Attached => b"1",
        Constant::CurrentThread => b"QC1",
        Constant::FirstThreads => b"m1",
        Constant::MoreThreads => b"l",
    }
}
