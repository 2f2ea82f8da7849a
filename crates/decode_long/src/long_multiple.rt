//! The rows of 32 bits in "Load Multiple and Store Multiple" (ARM DDI 0403, "32-bit Thumb
//! instruction encoding").

ghost use Rattle.std.specs.Prelude.{◌≡◌, ◌≢◌, ◌==◌, ◌<◌, ◌≤◌, ◌+◌, ◌-◌, ◌*◌, ◌^◌, ◌&&◌, ◌||◌, not, true, false, nat_lt};
ghost use Rattle.encodings.specs.Masks.{by_masks};
ghost use Rattle.instruction_set.specs.LongMultiple.{has_few, load_list_wide_row, multiple_rows, store_list_wide_row};

use encodings::operands::is_in_list;
use encodings::outcomes::{last_only_if, long_unless, placed_unless, unless};
use encodings::rows;
use instruction_set::instruction::{Decoded, Instruction, InstructionLength, ItPosition};
use instruction_set::load_store::ListOrder::{DecrementBefore, IncrementAfter};
use instruction_set::load_store::{ListOrder, LoadMultiple, LoadStoreMultiple, StoreMultiple};
use instruction_set::registers::{Register, RegisterList};
use instruction_set::unpredictable::UnpredictableCase;

/// Decodes two halfwords by these rows.
#[tactic(auto, unfolding(encodings::specs::Masks::by_masks))]
pub fn multiple_rows(x: u32) -> Option<Decoded>
    ensures { result ≡ by_masks multiple_rows x }
{
    rows! { x;
        [11101 00 01 0 W 0 nnnn z M z lllllllllllll]
            => |f| store_list_wide(
                f.register(b'n'), f.half(b'M') * 0x4000 + f.half(b'l'), IncrementAfter,
                f.is_set(b'W')
            ),
        [11101 00 01 0 W 1 nnnn P M z lllllllllllll]
            => |f| load_list_wide(
                f.register(b'n'), f.half(b'P') * 0x8000 + f.half(b'M') * 0x4000 + f.half(b'l'),
                IncrementAfter, f.is_set(b'W')
            ),
        [11101 00 10 0 W 0 nnnn z M z lllllllllllll]
            => |f| store_list_wide(
                f.register(b'n'), f.half(b'M') * 0x4000 + f.half(b'l'), DecrementBefore,
                f.is_set(b'W')
            ),
        [11101 00 10 0 W 1 nnnn P M z lllllllllllll]
            => |f| load_list_wide(
                f.register(b'n'), f.half(b'P') * 0x8000 + f.half(b'M') * 0x4000 + f.half(b'l'),
                DecrementBefore, f.is_set(b'W')
            ),
    }
}

/// Returns whether fewer than two bits are set: `BitCount(registers) < 2`.
fn has_few(list: u16) -> bool
    ensures { result ≡ has_few list }
{
    list.count_ones() < 2
}

/// Returns STM or STMDB: PC isn't a base, and a base that is stored isn't written back.
#[tactic(auto, unfolding(instruction_set::specs::LongMultiple::store_list_wide_row))]
fn store_list_wide(n: Register, list: u16, order: ListOrder, write_back: bool) -> Decoded
    ensures { result ≡ store_list_wide_row (record { base = n; list = list; order = order; write_back = write_back }) }
{
    let refused = n.number() == 15 || write_back && is_in_list(n, list);
    let instruction = Instruction::LoadStoreMultiple(LoadStoreMultiple::StoreMultiple(
        StoreMultiple {
            base: n,
            list: RegisterList::new(list),
            order,
            write_back,
        },
    ));
    unless(
        has_few(list),
        ItPosition::Anywhere,
        UnpredictableCase::FewRegisters,
        long_unless(refused, instruction),
    )
}

/// Returns LDM or LDMDB: PC isn't a base, LR and PC aren't both loaded, and a base that is loaded
/// isn't written back.
#[tactic(auto, unfolding(instruction_set::specs::LongMultiple::load_list_wide_row))]
fn load_list_wide(n: Register, list: u16, order: ListOrder, write_back: bool) -> Decoded
    ensures { result ≡ load_list_wide_row (record { base = n; list = list; order = order; write_back = write_back }) }
{
    let place = last_only_if(is_in_list(Register::PC, list));
    let both = is_in_list(Register::PC, list) && is_in_list(Register::new(14), list);
    let refused = n.number() == 15 || both || write_back && is_in_list(n, list);
    let instruction = Instruction::LoadStoreMultiple(LoadStoreMultiple::LoadMultiple(
        LoadMultiple {
            base: n,
            list: RegisterList::new(list),
            order,
            write_back,
        },
    ));
    let allowed = placed_unless(refused, InstructionLength::Long, place, instruction);
    unless(
        has_few(list),
        place,
        UnpredictableCase::FewRegisters,
        allowed,
    )
}
