//! The rows of 32 bits in "Load/store dual or exclusive, table branch" (ARM DDI 0403, "32-bit Thumb
//! instruction encoding").

ghost use Rattle.std.specs.Prelude.{◌≡◌, ◌≢◌, ◌==◌, ◌<◌, ◌≤◌, ◌+◌, ◌-◌, ◌*◌, ◌^◌, ◌&&◌, ◌||◌, not, true, false, nat_lt};
ghost use Rattle.encodings.specs.Masks.{by_masks};
ghost use Rattle.instruction_set.specs.LongDual.{dual_rows, is_refused_pair, load_dual_literal_row, load_dual_row};
ghost use Rattle.instruction_set.specs.LongDual.{load_exclusive_row, store_dual_row, store_exclusive_row};
ghost use Rattle.instruction_set.specs.LongDual.{table_branch_row};
ghost use Rattle.instruction_set.specs.RowOperands.{indexing_of};

use encodings::operands::{byte_or_halfword, indexed, indexing_of, signed_offset, writes_back};
use encodings::outcomes::{is_bad, long_unless, placed_unless};
use encodings::rows;
use instruction_set::branch::{Branch, TableBranch};
use instruction_set::instruction::{Decoded, Instruction, InstructionLength, ItPosition};
use instruction_set::load_store::{
    Exclusive, ImmediateAddress, Indexing, LoadDual, LoadDualLiteral, LoadExclusive,
    LoadStoreMultiple, StoreDual, StoreExclusive,
};
use instruction_set::registers::Register;
use instruction_set::size::Size;
use instruction_set::size::Size::Word;

/// Returns the address of LDRD and STRD.
macro_rules! address {
    ($f:ident) => {
        dual_address(
            $f.register(b'n'),
            $f.number(b'P'),
            $f.number(b'W'),
            signed_offset($f.number(b'U'), $f.number(b'i') * 4),
        )
    };
}

/// Decodes two halfwords by these rows.
#[tactic(auto, unfolding(encodings::specs::Masks::by_masks))]
pub fn dual_rows(x: u32) -> Option<Decoded>
    ensures { result ≡ by_masks dual_rows x }
{
    rows! { x;
        [1110100 00100 nnnn tttt dddd iiiiiiii]
            => |f| store_exclusive(
                Word, f.register(b'd'), f.register(b't'), f.register(b'n'), f.number(b'i') * 4
            ),
        [1110100 00101 nnnn tttt oooo iiiiiiii]
            => |f| load_exclusive(Word, f.register(b't'), f.register(b'n'), f.number(b'i') * 4),
        [1110100 01100 nnnn tttt oooo 010 H dddd]
            => |f| store_exclusive(
                byte_or_halfword(f.number(b'H')), f.register(b'd'), f.register(b't'),
                f.register(b'n'), 0
            ),
        [1110100 01101 nnnn tttt oooo 010 H oooo]
            => |f| load_exclusive(
                byte_or_halfword(f.number(b'H')), f.register(b't'), f.register(b'n'), 0
            ),
        [1110100 01101 nnnn oooo zzzz 000 H mmmm]
            => |f| table_branch(
                byte_or_halfword(f.number(b'H')), f.register(b'n'), f.register(b'm')
            ),
        [1110100 P U 1 W 1 1111 tttt uuuu iiiiiiii]
 except [xxxxxxx 0 x x 0 x xxxx xxxx xxxx xxxxxxxx]
            => |f| load_dual_literal(
                f.is_set(b'W'), f.register(b't'), f.register(b'u'),
                signed_offset(f.number(b'U'), f.number(b'i') * 4)
            ),
        [1110100 P U 1 W 1 nnnn tttt uuuu iiiiiiii]
 except [xxxxxxx 0 x x 0 x xxxx xxxx xxxx xxxxxxxx]
 except [xxxxxxx x x x x x 1111 xxxx xxxx xxxxxxxx]
            => |f| load_dual(f.register(b't'), f.register(b'u'), address!(f)),
        [1110100 P U 1 W 0 nnnn tttt uuuu iiiiiiii]
 except [xxxxxxx 0 x x 0 x xxxx xxxx xxxx xxxxxxxx]
            => |f| store_dual(f.register(b't'), f.register(b'u'), address!(f)),
    }
}

/// Returns STREX, STREXB or STREXH: R[d] is neither the base nor the register that is stored.
#[tactic(auto, unfolding(instruction_set::specs::LongDual::store_exclusive_row))]
fn store_exclusive(size: Size, d: Register, t: Register, n: Register, offset: u32) -> Decoded
    ensures { result ≡ store_exclusive_row (record { size = size; status = d; target = t; base = n; offset = offset }) }
{
    let is_other = d.number() == n.number() || d.number() == t.number();
    let refused = is_bad(d) || is_bad(t) || n.number() == 15 || is_other;
    let instruction = Instruction::Exclusive(Exclusive::Store(StoreExclusive {
        size,
        status: d,
        target: t,
        base: n,
        offset,
    }));
    long_unless(refused, instruction)
}

#[tactic(auto, unfolding(instruction_set::specs::LongDual::load_exclusive_row))]
fn load_exclusive(size: Size, t: Register, n: Register, offset: u32) -> Decoded
    ensures { result ≡ load_exclusive_row (record { size = size; target = t; base = n; offset = offset }) }
{
    let refused = is_bad(t) || n.number() == 15;
    let instruction = Instruction::Exclusive(Exclusive::Load(LoadExclusive {
        size,
        target: t,
        base: n,
        offset,
    }));
    long_unless(refused, instruction)
}

#[tactic(auto, unfolding(instruction_set::specs::LongDual::table_branch_row))]
fn table_branch(size: Size, n: Register, m: Register) -> Decoded
    ensures { result ≡ table_branch_row size n m }
{
    let instruction = Instruction::Branch(Branch::Table(TableBranch {
        size,
        base: n,
        index: m,
    }));
    let refused = n.number() == 13 || is_bad(m);
    placed_unless(
        refused,
        InstructionLength::Long,
        ItPosition::LastOnly,
        instruction,
    )
}

/// Returns the address of LDRD and STRD.
fn dual_address(n: Register, p: u32, w: u32, offset: u32) -> ImmediateAddress
    ensures { result ≡ record { base = n; offset = offset; indexing = indexing_of p w } }
{
    indexed(n, offset, indexing_of(p, w))
}

/// Returns whether two registers are refused: SP, PC, and a base that is written.
fn is_refused_pair(t: Register, u: Register, n: Register, indexing: Indexing) -> bool
    ensures { result ≡ is_refused_pair t u n indexing }
{
    let is_base = n.number() == t.number() || n.number() == u.number();
    is_bad(t) || is_bad(u) || writes_back(indexing) && is_base
}

/// Returns LDRD: the two registers differ.
#[tactic(auto, unfolding(instruction_set::specs::LongDual::load_dual_row))]
fn load_dual(t: Register, u: Register, address: ImmediateAddress) -> Decoded
    ensures { result ≡ load_dual_row (record { first = t; second = u; address = address }) }
{
    let refused = is_refused_pair(t, u, address.base, address.indexing) || t.number() == u.number();
    let instruction = Instruction::LoadStoreMultiple(LoadStoreMultiple::LoadDual(LoadDual {
        first: t,
        second: u,
        address,
    }));
    long_unless(refused, instruction)
}

/// Returns LDRD (literal): W = 1 is UNPREDICTABLE.
#[tactic(auto, unfolding(instruction_set::specs::LongDual::load_dual_literal_row))]
fn load_dual_literal(write_back: bool, t: Register, u: Register, offset: u32) -> Decoded
    ensures { result ≡ load_dual_literal_row write_back (record { first = t; second = u; offset = offset }) }
{
    let refused = is_bad(t) || is_bad(u) || t.number() == u.number() || write_back;
    let instruction = Instruction::LoadStoreMultiple(LoadStoreMultiple::LoadDualLiteral(
        LoadDualLiteral {
            first: t,
            second: u,
            offset,
        },
    ));
    long_unless(refused, instruction)
}

/// Returns STRD: PC isn't a base.
#[tactic(auto, unfolding(instruction_set::specs::LongDual::store_dual_row))]
fn store_dual(t: Register, u: Register, address: ImmediateAddress) -> Decoded
    ensures { result ≡ store_dual_row (record { first = t; second = u; address = address }) }
{
    let refused = is_refused_pair(t, u, address.base, address.indexing)
        || address.base.number() == 15;
    let instruction = Instruction::LoadStoreMultiple(LoadStoreMultiple::StoreDual(StoreDual {
        first: t,
        second: u,
        address,
    }));
    long_unless(refused, instruction)
}
