//! The rows of 32 bits in "Store single data item" (ARM DDI 0403, "32-bit Thumb instruction
//! encoding"). The size 11 and the base 1111 are UNDEFINED.

ghost use Rattle.std.specs.Prelude.{◌≡◌, ◌≢◌, ◌==◌, ◌<◌, ◌≤◌, ◌+◌, ◌-◌, ◌*◌, ◌^◌, ◌&&◌, ◌||◌, not, true, false, nat_lt};
ghost use Rattle.encodings.specs.Masks.{by_masks};
ghost use Rattle.instruction_set.specs.LongStore.{is_refused_store, size_of, store_at_row, store_indexed_row};
ghost use Rattle.instruction_set.specs.LongStore.{store_rows, store_unprivileged_row};

use encodings::operands::{at_offset, indexed, indexing_of, signed_offset, writes_back};
use encodings::outcomes::{is_bad, long_unless};
use encodings::rows;
use instruction_set::instruction::{Decoded, Instruction};
use instruction_set::load_store::{
    ImmediateAddress, LoadStore, RegisterAddress, StoreImmediate, StoreRegister,
};
use instruction_set::registers::Register;
use instruction_set::size::Size;

/// Decodes two halfwords by these rows.
#[tactic(auto, unfolding(encodings::specs::Masks::by_masks))]
pub fn store_rows(x: u32) -> Option<Decoded>
    ensures { result ≡ by_masks store_rows x }
{
    rows! { x;
        [11111000 1 ss 0 nnnn tttt iiiiiiiiiiii]
 except [xxxxxxxx x xx x 1111 xxxx xxxxxxxxxxxx]
 except [xxxxxxxx x 11 x xxxx xxxx xxxxxxxxxxxx]
            => |f| store_at(
                size_of(f.number(b's')), f.register(b't'),
                at_offset(f.register(b'n'), f.number(b'i'))
            ),
        [11111000 0 ss 0 nnnn tttt 0 00000 ii mmmm]
 except [xxxxxxxx x xx x 1111 xxxx x xxxxx xx xxxx]
 except [xxxxxxxx x 11 x xxxx xxxx x xxxxx xx xxxx]
            => |f| store_indexed(
                size_of(f.number(b's')), f.register(b't'), f.register(b'n'), f.register(b'm'),
                f.byte(b'i')
            ),
        [11111000 0 ss 0 nnnn tttt 1 1 1 0 iiiiiiii]
 except [xxxxxxxx x xx x 1111 xxxx x x x x xxxxxxxx]
 except [xxxxxxxx x 11 x xxxx xxxx x x x x xxxxxxxx]
            => |f| store_unprivileged(
                size_of(f.number(b's')), f.register(b't'),
                at_offset(f.register(b'n'), f.number(b'i'))
            ),
        [11111000 0 ss 0 nnnn tttt 1 P U W iiiiiiii]
 except [xxxxxxxx x xx x 1111 xxxx x x x x xxxxxxxx]
 except [xxxxxxxx x 11 x xxxx xxxx x x x x xxxxxxxx]
 except [xxxxxxxx x xx x xxxx xxxx x 1 1 0 xxxxxxxx]
 except [xxxxxxxx x xx x xxxx xxxx x 0 x 0 xxxxxxxx]
            => |f| store_at(
                size_of(f.number(b's')), f.register(b't'),
                indexed(
                    f.register(b'n'), signed_offset(f.number(b'U'), f.number(b'i')),
                    indexing_of(f.number(b'P'), f.number(b'W'))
                )
            ),
    }
}

/// Returns the size of the two bits 00, 01 and 10.
fn size_of(bits: u32) -> Size
    ensures { result ≡ size_of bits }
{
    match bits {
        0 => Size::Byte,
        1 => Size::Halfword,
        _ => Size::Word,
    }
}

/// Returns whether a store refuses its target: PC always, and SP unless a word is stored.
fn is_refused_store(size: Size, t: Register) -> bool
    ensures { result ≡ is_refused_store size t }
{
    t.number() == 15 || t.number() == 13 && !size.is_word()
}

/// Returns a store at a register and an offset: a base that is written isn't the target.
#[tactic(auto, unfolding(instruction_set::specs::LongStore::store_at_row))]
fn store_at(size: Size, t: Register, address: ImmediateAddress) -> Decoded
    ensures { result ≡ store_at_row size t address }
{
    let is_base = writes_back(address.indexing) && address.base.number() == t.number();
    let refused = is_refused_store(size, t) || is_base;
    let instruction = Instruction::LoadStore(LoadStore::StoreImmediate(StoreImmediate {
        size,
        target: t,
        address,
        unprivileged: false,
    }));
    long_unless(refused, instruction)
}

/// Returns an unprivileged store, which stores neither SP nor PC.
#[tactic(auto, unfolding(instruction_set::specs::LongStore::store_unprivileged_row))]
fn store_unprivileged(size: Size, t: Register, address: ImmediateAddress) -> Decoded
    ensures { result ≡ store_unprivileged_row size t address }
{
    let instruction = Instruction::LoadStore(LoadStore::StoreImmediate(StoreImmediate {
        size,
        target: t,
        address,
        unprivileged: true,
    }));
    long_unless(is_bad(t), instruction)
}

/// Returns a store at two registers.
#[tactic(auto, unfolding(instruction_set::specs::LongStore::store_indexed_row))]
fn store_indexed(size: Size, t: Register, n: Register, m: Register, shift: u8) -> Decoded
    ensures { result ≡ store_indexed_row
        (record { size = size; target = t; address = record { base = n; index = m; shift = shift } }) }
{
    let refused = is_bad(m) || is_refused_store(size, t);
    let instruction = Instruction::LoadStore(LoadStore::StoreRegister(StoreRegister {
        size,
        target: t,
        address: RegisterAddress {
            base: n,
            index: m,
            shift,
        },
    }));
    long_unless(refused, instruction)
}
