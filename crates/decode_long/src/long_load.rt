//! The rows of 32 bits in "Load byte, memory hints", "Load halfword, memory hints" and "Load word"
//! (ARM DDI 0403, "32-bit Thumb instruction encoding").

ghost use Rattle.std.specs.Prelude.{◌≡◌, ◌≢◌, ◌==◌, ◌<◌, ◌≤◌, ◌+◌, ◌-◌, ◌*◌, ◌^◌, ◌&&◌, ◌||◌, not, true, false, nat_lt};
ghost use Rattle.encodings.specs.Masks.{by_masks};
ghost use Rattle.instruction_set.specs.LongLoad.{is_refused_load, load_at_row, load_indexed_row, load_literal_row};
ghost use Rattle.instruction_set.specs.LongLoad.{load_unprivileged_row, memory_hint_indexed_row, memory_hint_row};
ghost use Rattle.instruction_set.specs.LongLoad.{narrow_form, narrow_load_rows, place_of_load, word_form};
ghost use Rattle.instruction_set.specs.LongLoad.{word_load_rows};

use encodings::operands::{
    at_offset, byte_or_halfword, indexed, indexing_of, signed_offset, writes_back,
};
use encodings::outcomes::{is_bad, last_only_if, long, long_unless, placed_unless, unless_refused};
use encodings::rows;
use instruction_set::instruction::{Decoded, Instruction, InstructionLength, ItPosition};
use instruction_set::load_store::{
    ImmediateAddress, LoadForm, LoadImmediate, LoadLiteral, LoadRegister, LoadStore,
    RegisterAddress,
};
use instruction_set::registers::Register;
use instruction_set::size::Size;
use instruction_set::system::{Hint, System};

/// Returns the size of a byte or halfword, and whether it is signed.
macro_rules! form {
    ($f:ident) => {
        narrow_form($f.number(b'X'), $f.number(b's'))
    };
}

/// Returns an address of which the base register may be written.
macro_rules! address {
    ($f:ident) => {
        indexed(
            $f.register(b'n'),
            signed_offset($f.number(b'U'), $f.number(b'i')),
            indexing_of($f.number(b'P'), $f.number(b'W')),
        )
    };
}

/// Decodes two halfwords by these rows.
#[tactic(auto, unfolding(encodings::specs::Masks::by_masks))]
pub fn narrow_load_rows(x: u32) -> Option<Decoded>
    ensures { result ≡ by_masks narrow_load_rows x }
{
    rows! { x;
        [1111100 x x 0s 1 1111 1111 xxxxxxxxxxxx] => |f| memory_hint(f.number(b's')),
        [1111100 X U 0s 1 1111 tttt iiiiiiiiiiii]
 except [xxxxxxx x x xx x xxxx 1111 xxxxxxxxxxxx]
            => |f| load_literal(
                form!(f), f.register(b't'), signed_offset(f.number(b'U'), f.number(b'i'))
            ),
        [1111100 x 1 0s 1 xxxx 1111 xxxxxxxxxxxx]
 except [xxxxxxx x x xx x 1111 xxxx xxxxxxxxxxxx]
            => |f| memory_hint(f.number(b's')),
        [1111100 X 1 0s 1 nnnn tttt iiiiiiiiiiii]
 except [xxxxxxx x x xx x 1111 xxxx xxxxxxxxxxxx]
 except [xxxxxxx x x xx x xxxx 1111 xxxxxxxxxxxx]
            => |f| load_at(form!(f), f.register(b't'), at_offset(f.register(b'n'), f.number(b'i'))),
        [1111100 x 0 0s 1 xxxx 1111 0 00000 xx mmmm]
 except [xxxxxxx x x xx x 1111 xxxx x xxxxx xx xxxx]
            => |f| memory_hint_indexed(f.number(b's'), f.register(b'm')),
        [1111100 X 0 0s 1 nnnn tttt 0 00000 ii mmmm]
 except [xxxxxxx x x xx x 1111 xxxx x xxxxx xx xxxx]
 except [xxxxxxx x x xx x xxxx 1111 x xxxxx xx xxxx]
            => |f| load_indexed(
                form!(f), f.register(b't'), f.register(b'n'), f.register(b'm'), f.byte(b'i')
            ),
        [1111100 x 0 0s 1 xxxx 1111 1 1 0 0 xxxxxxxx]
 except [xxxxxxx x x xx x 1111 xxxx x x x x xxxxxxxx]
            => |f| memory_hint(f.number(b's')),
        [1111100 X 0 0s 1 nnnn tttt 1 1 1 0 iiiiiiii]
 except [xxxxxxx x x xx x 1111 xxxx x x x x xxxxxxxx]
            => |f| load_unprivileged(
                form!(f), f.register(b't'), at_offset(f.register(b'n'), f.number(b'i'))
            ),
        [1111100 X 0 0s 1 nnnn tttt 1 P U W iiiiiiii]
 except [xxxxxxx x x xx x 1111 xxxx x x x x xxxxxxxx]
 except [xxxxxxx x x xx x xxxx 1111 x 1 0 0 xxxxxxxx]
 except [xxxxxxx x x xx x xxxx xxxx x 1 1 0 xxxxxxxx]
 except [xxxxxxx x x xx x xxxx xxxx x 0 x 0 xxxxxxxx]
            => |f| load_at(form!(f), f.register(b't'), address!(f)),
    }
}

/// Decodes two halfwords by these rows.
#[tactic(auto, unfolding(encodings::specs::Masks::by_masks))]
pub fn word_load_rows(x: u32) -> Option<Decoded>
    ensures { result ≡ by_masks word_load_rows x }
{
    rows! { x;
        [11111000 U 10 1 1111 tttt iiiiiiiiiiii]
            => |f| load_literal(
                word_form(), f.register(b't'), signed_offset(f.number(b'U'), f.number(b'i'))
            ),
        [11111000 1 10 1 nnnn tttt iiiiiiiiiiii]
 except [xxxxxxxx x xx x 1111 xxxx xxxxxxxxxxxx]
            => |f| load_at(
                word_form(), f.register(b't'), at_offset(f.register(b'n'), f.number(b'i'))
            ),
        [11111000 0 10 1 nnnn tttt 0 00000 ii mmmm]
 except [xxxxxxxx x xx x 1111 xxxx x xxxxx xx xxxx]
            => |f| load_indexed(
                word_form(), f.register(b't'), f.register(b'n'), f.register(b'm'), f.byte(b'i')
            ),
        [11111000 0 10 1 nnnn tttt 1 1 1 0 iiiiiiii]
 except [xxxxxxxx x xx x 1111 xxxx x x x x xxxxxxxx]
            => |f| load_unprivileged(
                word_form(), f.register(b't'), at_offset(f.register(b'n'), f.number(b'i'))
            ),
        [11111000 0 10 1 nnnn tttt 1 P U W iiiiiiii]
 except [xxxxxxxx x xx x 1111 xxxx x x x x xxxxxxxx]
 except [xxxxxxxx x xx x xxxx xxxx x 1 1 0 xxxxxxxx]
 except [xxxxxxxx x xx x xxxx xxxx x 0 x 0 xxxxxxxx]
            => |f| load_at(word_form(), f.register(b't'), address!(f)),
    }
}

/// Returns how a byte or a halfword is loaded.
fn narrow_form(signed: u32, half: u32) -> LoadForm
    ensures { result ≡ narrow_form signed half }
{
    LoadForm {
        size: byte_or_halfword(half),
        signed: signed == 1,
    }
}

/// Returns how a word is loaded.
fn word_form() -> LoadForm
    ensures { result ≡ word_form }
{
    LoadForm {
        size: Size::Word,
        signed: false,
    }
}

/// Returns where a load may be in an IT block: a word that is loaded to PC branches.
fn place_of_load(size: Size, t: Register) -> ItPosition
    ensures { result ≡ place_of_load size t }
{
    last_only_if(size.is_word() && t.number() == 15)
}

/// Returns whether a load refuses its target: a byte or a halfword goes neither to SP nor to PC.
fn is_refused_load(size: Size, t: Register) -> bool
    ensures { result ≡ is_refused_load size t }
{
    !size.is_word() && is_bad(t)
}

/// Returns a load at the PC and an offset.
#[tactic(auto, unfolding(instruction_set::specs::LongLoad::load_literal_row))]
fn load_literal(form: LoadForm, t: Register, offset: u32) -> Decoded
    ensures { result ≡ load_literal_row form t offset }
{
    let refused = is_refused_load(form.size, t);
    let place = place_of_load(form.size, t);
    let instruction = Instruction::LoadStore(LoadStore::LoadLiteral(LoadLiteral {
        form,
        target: t,
        offset,
    }));
    placed_unless(refused, InstructionLength::Long, place, instruction)
}

/// Returns a load at a register and an offset: a base that is written isn't the target.
#[tactic(auto, unfolding(instruction_set::specs::LongLoad::load_at_row))]
fn load_at(form: LoadForm, t: Register, address: ImmediateAddress) -> Decoded
    ensures { result ≡ load_at_row form t address }
{
    let is_base = writes_back(address.indexing) && address.base.number() == t.number();
    let refused = is_refused_load(form.size, t) || is_base;
    let place = place_of_load(form.size, t);
    let instruction = Instruction::LoadStore(LoadStore::LoadImmediate(LoadImmediate {
        form,
        target: t,
        address,
        unprivileged: false,
    }));
    placed_unless(refused, InstructionLength::Long, place, instruction)
}

/// Returns an unprivileged load, which goes neither to SP nor to PC.
#[tactic(auto, unfolding(instruction_set::specs::LongLoad::load_unprivileged_row))]
fn load_unprivileged(form: LoadForm, t: Register, address: ImmediateAddress) -> Decoded
    ensures { result ≡ load_unprivileged_row form t address }
{
    let instruction = Instruction::LoadStore(LoadStore::LoadImmediate(LoadImmediate {
        form,
        target: t,
        address,
        unprivileged: true,
    }));
    long_unless(is_bad(t), instruction)
}

/// Returns a load at two registers.
#[tactic(auto, unfolding(instruction_set::specs::LongLoad::load_indexed_row))]
fn load_indexed(form: LoadForm, t: Register, n: Register, m: Register, shift: u8) -> Decoded
    ensures { result ≡ load_indexed_row
        (record { form = form; target = t; address = record { base = n; index = m; shift = shift } }) }
{
    let refused = is_bad(m) || is_refused_load(form.size, t);
    let place = place_of_load(form.size, t);
    let instruction = Instruction::LoadStore(LoadStore::LoadRegister(LoadRegister {
        form,
        target: t,
        address: RegisterAddress {
            base: n,
            index: m,
            shift,
        },
    }));
    placed_unless(refused, InstructionLength::Long, place, instruction)
}

/// Returns PLD or PLI, where a byte would be loaded to PC; where a halfword would be, the hint is
/// unallocated.
#[tactic(auto, unfolding(instruction_set::specs::LongLoad::memory_hint_row))]
fn memory_hint(half: u32) -> Decoded
    ensures { result ≡ memory_hint_row half }
{
    let hint = if half == 1 {
        Hint::Unallocated
    } else {
        Hint::Preload
    };
    long(Instruction::System(System::Hint(hint)))
}

/// Returns PLD or PLI at two registers, likewise.
#[tactic(auto, unfolding(instruction_set::specs::LongLoad::memory_hint_indexed_row))]
fn memory_hint_indexed(half: u32, m: Register) -> Decoded
    ensures { result ≡ memory_hint_indexed_row half m }
{
    unless_refused(is_bad(m), memory_hint(half))
}
