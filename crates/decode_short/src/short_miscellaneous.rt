//! The rows of 16 bits in "Miscellaneous 16-bit instructions", and ADR and ADD of SP beside them
//! (ARM DDI 0403, "16-bit Thumb instruction encoding").

ghost use Rattle.std.specs.Prelude.{◌≡◌, ◌≢◌, ◌==◌, ◌<◌, ◌≤◌, ◌+◌, ◌-◌, ◌*◌, ◌^◌, ◌&&◌, ◌||◌, not, true, false, nat_lt};
ghost use Rattle.encodings.specs.Masks.{by_masks};
ghost use Rattle.instruction_set.specs.RowOperands.{plain_immediate};
ghost use Rattle.instruction_set.specs.ShortMiscellaneous.{address_row, adjusting_rows, breakpoint_row};
ghost use Rattle.instruction_set.specs.ShortMiscellaneous.{change_state_row, compare_and_branch_row, controlling_rows};
ghost use Rattle.instruction_set.specs.ShortMiscellaneous.{extend_row, if_then_row, is_one_bit, pop_row, push_row};
ghost use Rattle.instruction_set.specs.ShortMiscellaneous.{rearrange_row, sp_number_row};

use encodings::operands::{hint, plain_immediate};
use encodings::outcomes::{last_only_if, placed, placed_unless, short, unless};
use encodings::rows;
use instruction_set::branch::{Branch, CompareAndBranch, IfThen};
use instruction_set::data_processing::DataOperation::{Add, Subtract};
use instruction_set::data_processing::Rearrangement::{
    ReverseHalfwords, ReverseSignedHalfword, ReverseWord,
};
use instruction_set::data_processing::{
    Address, DataImmediate, DataOperation, DataProcessing, Extend, FlagSetting, Rearrange,
    Rearrangement,
};
use instruction_set::instruction::{Decoded, Instruction, InstructionLength, ItPosition};
use instruction_set::load_store::{ListOrder, LoadMultiple, LoadStoreMultiple, StoreMultiple};
use instruction_set::registers::{Register, RegisterList};
use instruction_set::size::Size;
use instruction_set::size::Size::{Byte, Halfword};
use instruction_set::system::{ChangeProcessorState, System};
use instruction_set::unpredictable::UnpredictableCase;

/// Decodes a halfword by these rows.
#[tactic(auto, unfolding(encodings::specs::Masks::by_masks))]
pub fn adjusting_rows(x: u32) -> Option<Decoded>
    ensures { result ≡ by_masks adjusting_rows x }
{
    rows! { x;
        [10100 ddd iiiiiiii] => |f| address(f.register(b'd'), f.byte(b'i')),
        [10101 ddd iiiiiiii] => |f| sp_number(Add, f.register(b'd'), f.byte(b'i')),
        [1011 0000 0 iiiiiii] => |f| sp_number(Add, Register::SP, f.byte(b'i')),
        [1011 0000 1 iiiiiii] => |f| sp_number(Subtract, Register::SP, f.byte(b'i')),
        [1011 0010 00 mmm ddd] => |f| extend(true, Halfword, f.register(b'd'), f.register(b'm')),
        [1011 0010 01 mmm ddd] => |f| extend(true, Byte, f.register(b'd'), f.register(b'm')),
        [1011 0010 10 mmm ddd] => |f| extend(false, Halfword, f.register(b'd'), f.register(b'm')),
        [1011 0010 11 mmm ddd] => |f| extend(false, Byte, f.register(b'd'), f.register(b'm')),
        [1011 1010 00 mmm ddd] => |f| rearrange(ReverseWord, f.register(b'd'), f.register(b'm')),
        [1011 1010 01 mmm ddd]
            => |f| rearrange(ReverseHalfwords, f.register(b'd'), f.register(b'm')),
        [1011 1010 11 mmm ddd]
            => |f| rearrange(ReverseSignedHalfword, f.register(b'd'), f.register(b'm')),
    }
}

/// Decodes a halfword by these rows.
#[tactic(auto, unfolding(encodings::specs::Masks::by_masks))]
pub fn controlling_rows(x: u32) -> Option<Decoded>
    ensures { result ≡ by_masks controlling_rows x }
{
    rows! { x;
        [1011 p 0 i 1 iiiii nnn]
            => |f| compare_and_branch(f.is_set(b'p'), f.number(b'i'), f.register(b'n')),
        [1011 0 10 M llllllll] => |f| push(f.half(b'M'), f.byte(b'l')),
        [1011 1 10 P llllllll] => |f| pop(f.half(b'P'), f.byte(b'l')),
        [1011 0110 011 e z z I F]
            => |f| change_state(f.is_set(b'e'), f.is_set(b'I'), f.is_set(b'F')),
        [1011 1110 iiiiiiii] => |f| breakpoint(f.byte(b'i')),
        [1011 1111 hhhh 0000] => |f| short(Instruction::System(System::Hint(hint(f.byte(b'h'))))),
        [1011 1111 cccc kkkk]
 except [xxxx xxxx xxxx 0000]
            => |f| if_then(f.byte(b'c'), f.byte(b'k')),
    }
}

/// Returns ADR: the offset counts words.
#[tactic(auto, unfolding(instruction_set::specs::ShortMiscellaneous::address_row))]
fn address(d: Register, words: u8) -> Decoded
    ensures { result ≡ address_row d words }
{
    short(Instruction::DataProcessing(DataProcessing::Address(Address {
        destination: d,
        offset: words as u32 * 4,
    })))
}

/// Returns ADD or SUB of SP and a number, which counts words; no flags.
#[tactic(auto, unfolding(instruction_set::specs::ShortMiscellaneous::sp_number_row))]
fn sp_number(operation: DataOperation, d: Register, words: u8) -> Decoded
    ensures { result ≡ sp_number_row operation d words }
{
    short(Instruction::DataProcessing(DataProcessing::DataImmediate(DataImmediate {
        operation,
        flags: FlagSetting::Never,
        destination: d,
        first: Register::SP,
        second: plain_immediate(words as u32 * 4),
    })))
}

/// Returns SXTB, SXTH, UXTB or UXTH.
#[tactic(auto, unfolding(instruction_set::specs::ShortMiscellaneous::extend_row))]
fn extend(signed: bool, size: Size, d: Register, m: Register) -> Decoded
    ensures { result ≡ extend_row signed size d m }
{
    short(Instruction::DataProcessing(DataProcessing::Extend(Extend {
        signed,
        size,
        destination: d,
        source: m,
        rotation: 0,
    })))
}

#[tactic(auto, unfolding(instruction_set::specs::ShortMiscellaneous::rearrange_row))]
fn rearrange(operation: Rearrangement, d: Register, m: Register) -> Decoded
    ensures { result ≡ rearrange_row operation d m }
{
    short(Instruction::DataProcessing(DataProcessing::Rearrange(Rearrange {
        operation,
        destination: d,
        source: m,
    })))
}

/// Returns PUSH of registers from R0 to R7, and of LR.
#[tactic(auto, unfolding(instruction_set::specs::ShortMiscellaneous::push_row))]
fn push(lr: u16, list: u8) -> Decoded
    requires { lr < 2 }
    ensures { result ≡ push_row lr list }
{
    let list = lr * 0x4000 + list as u16;
    let instruction = Instruction::LoadStoreMultiple(LoadStoreMultiple::StoreMultiple(
        StoreMultiple {
            base: Register::SP,
            list: RegisterList::new(list),
            order: ListOrder::DecrementBefore,
            write_back: true,
        },
    ));
    unless(
        list == 0,
        ItPosition::Anywhere,
        UnpredictableCase::FewRegisters,
        short(instruction),
    )
}

/// Returns POP of registers from R0 to R7, and of PC.
#[tactic(auto, unfolding(instruction_set::specs::ShortMiscellaneous::pop_row))]
fn pop(pc: u16, list: u8) -> Decoded
    requires { pc < 2 }
    ensures { result ≡ pop_row pc list }
{
    let place = last_only_if(pc == 1);
    let list = pc * 0x8000 + list as u16;
    let instruction = Instruction::LoadStoreMultiple(LoadStoreMultiple::LoadMultiple(
        LoadMultiple {
            base: Register::SP,
            list: RegisterList::new(list),
            order: ListOrder::IncrementAfter,
            write_back: true,
        },
    ));
    unless(
        list == 0,
        place,
        UnpredictableCase::FewRegisters,
        placed(InstructionLength::Short, place, instruction),
    )
}

/// Returns CBZ or CBNZ: the offset counts halfwords.
#[tactic(auto, unfolding(instruction_set::specs::ShortMiscellaneous::compare_and_branch_row))]
fn compare_and_branch(nonzero: bool, halfwords: u32, n: Register) -> Decoded
    requires { halfwords < 64 }
    ensures { result ≡ compare_and_branch_row nonzero halfwords n }
{
    let instruction = Instruction::Branch(Branch::CompareAndBranch(CompareAndBranch {
        nonzero,
        register: n,
        offset: halfwords * 2,
    }));
    placed(InstructionLength::Short, ItPosition::Never, instruction)
}

#[tactic(auto, unfolding(instruction_set::specs::ShortMiscellaneous::change_state_row))]
fn change_state(disables: bool, primask: bool, faultmask: bool) -> Decoded
    ensures { result ≡ change_state_row disables primask faultmask }
{
    let instruction = Instruction::System(System::ChangeProcessorState(ChangeProcessorState {
        disables,
        primask,
        faultmask,
    }));
    placed_unless(
        !primask && !faultmask,
        InstructionLength::Short,
        ItPosition::Never,
        instruction,
    )
}

#[tactic(auto, unfolding(instruction_set::specs::ShortMiscellaneous::breakpoint_row))]
fn breakpoint(number: u8) -> Decoded
    ensures { result ≡ breakpoint_row number }
{
    short(Instruction::System(System::Breakpoint(number)))
}

/// Returns whether exactly one of four bits is set: `BitCount(mask) == 1`.
fn is_one_bit(mask: u8) -> bool
    ensures { result ≡ is_one_bit mask }
{
    mask == 1 || mask == 2 || mask == 4 || mask == 8
}

/// Returns IT: the condition 1111, and 1110 with more than one bit in the mask, are UNPREDICTABLE.
#[tactic(auto, unfolding(instruction_set::specs::ShortMiscellaneous::if_then_row))]
fn if_then(condition: u8, mask: u8) -> Decoded
    ensures { result ≡ if_then_row condition mask }
{
    unless(
        condition == 15 || condition == 14 && !is_one_bit(mask),
        ItPosition::Never,
        UnpredictableCase::ItBlock,
        placed(
            InstructionLength::Short,
            ItPosition::Never,
            Instruction::Branch(Branch::IfThen(IfThen { condition, mask })),
        ),
    )
}
