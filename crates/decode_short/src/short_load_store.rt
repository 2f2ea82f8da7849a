//! The rows of 16 bits that load and store: "Load from Literal Pool", "Load/store single data
//! item", "Store multiple registers" and "Load multiple registers" (ARM DDI 0403, "16-bit Thumb
//! instruction encoding").

ghost use Rattle.std.specs.Prelude.{◌≡◌, ◌≢◌, ◌==◌, ◌<◌, ◌≤◌, ◌+◌, ◌-◌, ◌*◌, ◌^◌, ◌&&◌, ◌||◌, not, true, false, nat_lt};
ghost use Rattle.encodings.specs.Masks.{by_masks};
ghost use Rattle.instruction_set.specs.ShortLoadStore.{load_list_row, load_literal_word_row, load_number_row};
ghost use Rattle.instruction_set.specs.ShortLoadStore.{load_register_row, immediate_and_list_rows};
ghost use Rattle.instruction_set.specs.ShortLoadStore.{literal_and_register_rows, store_list_row, store_number_row};
ghost use Rattle.instruction_set.specs.ShortLoadStore.{store_register_row};

use encodings::operands::{at_offset, is_above_lowest, is_in_list};
use encodings::outcomes::{short, unless};
use encodings::rows;
use instruction_set::instruction::{Decoded, Instruction, ItPosition};
use instruction_set::load_store::{
    ListOrder, LoadForm, LoadImmediate, LoadLiteral, LoadMultiple, LoadRegister, LoadStore,
    LoadStoreMultiple, RegisterAddress, StoreImmediate, StoreMultiple, StoreRegister,
};
use instruction_set::registers::{Register, RegisterList};
use instruction_set::size::Size;
use instruction_set::size::Size::{Byte, Halfword, Word};
use instruction_set::unpredictable::UnpredictableCase;

/// Decodes a halfword by these rows.
#[tactic(auto, unfolding(encodings::specs::Masks::by_masks))]
pub fn literal_and_register_rows(x: u32) -> Option<Decoded>
    ensures { result ≡ by_masks literal_and_register_rows x }
{
    rows! { x;
        [01001 ttt iiiiiiii] => |f| load_literal_word(f.register(b't'), f.byte(b'i')),
        [0101 000 mmm nnn ttt]
            => |f| store_register(Word, f.register(b't'), f.register(b'n'), f.register(b'm')),
        [0101 001 mmm nnn ttt]
            => |f| store_register(Halfword, f.register(b't'), f.register(b'n'), f.register(b'm')),
        [0101 010 mmm nnn ttt]
            => |f| store_register(Byte, f.register(b't'), f.register(b'n'), f.register(b'm')),
        [0101 011 mmm nnn ttt]
            => |f| load_register(Byte, true, f.register(b't'), f.register(b'n'), f.register(b'm')),
        [0101 100 mmm nnn ttt]
            => |f| load_register(Word, false, f.register(b't'), f.register(b'n'), f.register(b'm')),
        [0101 101 mmm nnn ttt]
            => |f| load_register(
                Halfword, false, f.register(b't'), f.register(b'n'), f.register(b'm')
            ),
        [0101 110 mmm nnn ttt]
            => |f| load_register(Byte, false, f.register(b't'), f.register(b'n'), f.register(b'm')),
        [0101 111 mmm nnn ttt]
            => |f| load_register(
                Halfword, true, f.register(b't'), f.register(b'n'), f.register(b'm')
            ),
    }
}

/// Decodes a halfword by these rows.
#[tactic(auto, unfolding(encodings::specs::Masks::by_masks))]
pub fn immediate_and_list_rows(x: u32) -> Option<Decoded>
    ensures { result ≡ by_masks immediate_and_list_rows x }
{
    rows! { x;
        [0110 0 iiiii nnn ttt]
            => |f| store_number(Word, f.register(b't'), f.register(b'n'), f.number(b'i') * 4),
        [0110 1 iiiii nnn ttt]
            => |f| load_number(Word, f.register(b't'), f.register(b'n'), f.number(b'i') * 4),
        [0111 0 iiiii nnn ttt]
            => |f| store_number(Byte, f.register(b't'), f.register(b'n'), f.number(b'i')),
        [0111 1 iiiii nnn ttt]
            => |f| load_number(Byte, f.register(b't'), f.register(b'n'), f.number(b'i')),
        [1000 0 iiiii nnn ttt]
            => |f| store_number(Halfword, f.register(b't'), f.register(b'n'), f.number(b'i') * 2),
        [1000 1 iiiii nnn ttt]
            => |f| load_number(Halfword, f.register(b't'), f.register(b'n'), f.number(b'i') * 2),
        [1001 0 ttt iiiiiiii]
            => |f| store_number(Word, f.register(b't'), Register::SP, f.number(b'i') * 4),
        [1001 1 ttt iiiiiiii]
            => |f| load_number(Word, f.register(b't'), Register::SP, f.number(b'i') * 4),
        [11000 nnn llllllll] => |f| store_list(f.register(b'n'), f.byte(b'l')),
        [11001 nnn llllllll] => |f| load_list(f.register(b'n'), f.byte(b'l')),
    }
}

/// Returns LDR at the PC and an offset, which counts words.
#[tactic(auto, unfolding(instruction_set::specs::ShortLoadStore::load_literal_word_row))]
fn load_literal_word(t: Register, words: u8) -> Decoded
    ensures { result ≡ load_literal_word_row t words }
{
    short(Instruction::LoadStore(LoadStore::LoadLiteral(LoadLiteral {
        form: LoadForm {
            size: Size::Word,
            signed: false,
        },
        target: t,
        offset: words as u32 * 4,
    })))
}

/// Returns a store at two registers.
#[tactic(auto, unfolding(instruction_set::specs::ShortLoadStore::store_register_row))]
fn store_register(size: Size, t: Register, n: Register, m: Register) -> Decoded
    ensures { result ≡ store_register_row size t n m }
{
    short(Instruction::LoadStore(LoadStore::StoreRegister(StoreRegister {
        size,
        target: t,
        address: RegisterAddress {
            base: n,
            index: m,
            shift: 0,
        },
    })))
}

/// Returns a load at two registers.
#[tactic(auto, unfolding(instruction_set::specs::ShortLoadStore::load_register_row))]
fn load_register(size: Size, signed: bool, t: Register, n: Register, m: Register) -> Decoded
    ensures { result ≡ load_register_row size signed t n m }
{
    short(Instruction::LoadStore(LoadStore::LoadRegister(LoadRegister {
        form: LoadForm { size, signed },
        target: t,
        address: RegisterAddress {
            base: n,
            index: m,
            shift: 0,
        },
    })))
}

/// Returns a store at a register and an offset.
#[tactic(auto, unfolding(instruction_set::specs::ShortLoadStore::store_number_row))]
fn store_number(size: Size, t: Register, n: Register, offset: u32) -> Decoded
    ensures { result ≡ store_number_row size t n offset }
{
    short(Instruction::LoadStore(LoadStore::StoreImmediate(StoreImmediate {
        size,
        target: t,
        address: at_offset(n, offset),
        unprivileged: false,
    })))
}

/// Returns a load at a register and an offset.
#[tactic(auto, unfolding(instruction_set::specs::ShortLoadStore::load_number_row))]
fn load_number(size: Size, t: Register, n: Register, offset: u32) -> Decoded
    ensures { result ≡ load_number_row size t n offset }
{
    short(Instruction::LoadStore(LoadStore::LoadImmediate(LoadImmediate {
        form: LoadForm {
            size,
            signed: false,
        },
        target: t,
        address: at_offset(n, offset),
        unprivileged: false,
    })))
}

/// Returns STM, which writes back always.
#[tactic(auto, unfolding(instruction_set::specs::ShortLoadStore::store_list_row))]
fn store_list(n: Register, list: u8) -> Decoded
    ensures { result ≡ store_list_row n list }
{
    let instruction = Instruction::LoadStoreMultiple(LoadStoreMultiple::StoreMultiple(
        StoreMultiple {
            base: n,
            list: RegisterList::new(list as u16),
            order: ListOrder::IncrementAfter,
            write_back: true,
        },
    ));
    unless(
        list == 0,
        ItPosition::Anywhere,
        UnpredictableCase::FewRegisters,
        unless(
            is_above_lowest(n, list as u16),
            ItPosition::Anywhere,
            UnpredictableCase::StoredBase,
            short(instruction),
        ),
    )
}

/// Returns LDM, which writes back where the base isn't in the list.
#[tactic(auto, unfolding(instruction_set::specs::ShortLoadStore::load_list_row))]
fn load_list(n: Register, list: u8) -> Decoded
    ensures { result ≡ load_list_row n list }
{
    let instruction = Instruction::LoadStoreMultiple(LoadStoreMultiple::LoadMultiple(
        LoadMultiple {
            base: n,
            list: RegisterList::new(list as u16),
            order: ListOrder::IncrementAfter,
            write_back: !is_in_list(n, list as u16),
        },
    ));
    unless(
        list == 0,
        ItPosition::Anywhere,
        UnpredictableCase::FewRegisters,
        short(instruction),
    )
}
