//! The rows of 32 bits in "Data processing (register)" and "Miscellaneous operations" (ARM DDI
//! 0403, "32-bit Thumb instruction encoding").

ghost use Rattle.std.specs.Prelude.{◌≡◌, ◌≢◌, ◌==◌, ◌<◌, ◌≤◌, ◌+◌, ◌-◌, ◌*◌, ◌^◌, ◌&&◌, ◌||◌, not, true, false, nat_lt};
ghost use Rattle.encodings.specs.Masks.{by_masks};
ghost use Rattle.instruction_set.specs.LongRegister.{extend_wide_row, extended_size, rearrange_wide_row, register_rows};
ghost use Rattle.instruction_set.specs.LongRegister.{shift_by_register_row, shift_type_of};
ghost use Rattle.instruction_set.specs.RowOperands.{flags_if};

use encodings::operands::flags_if;
use encodings::outcomes::{is_bad, long_unless};
use encodings::rows;
use instruction_set::data_processing::Rearrangement::{
    CountLeadingZeros, ReverseBits, ReverseHalfwords, ReverseSignedHalfword, ReverseWord,
};
use instruction_set::data_processing::{
    DataProcessing, Extend, Rearrange, Rearrangement, ShiftByRegister,
};
use instruction_set::instruction::{Decoded, Instruction};
use instruction_set::registers::Register;
use instruction_set::shift::ShiftType;
use instruction_set::size::Size;
use instruction_set::size::Size::Halfword;

/// Decodes two halfwords by these rows.
#[tactic(auto, unfolding(encodings::specs::Masks::by_masks))]
pub fn register_rows(x: u32) -> Option<Decoded>
    ensures { result ≡ by_masks register_rows x }
{
    rows! { x;
        [11111010 0 tt S nnnn 1111 dddd 0000 mmmm]
            => |f| shift_by_register(
                f.number(b't'), f.is_set(b'S'), f.register(b'n'), f.register(b'd'),
                f.register(b'm')
            ),
        [11111010 0 b 0 u 1111 1111 dddd 1 z rr mmmm]
            => |f| extend_wide(
                f.number(b'u') == 0, extended_size(f.number(b'b')), f.register(b'd'),
                f.register(b'm'), f.byte(b'r') * 8
            ),
        [11111010 1 001 nnnn 1111 dddd 1 0 00 mmmm]
            => |f| rearrange_wide(
                ReverseWord, f.register(b'n'), f.register(b'd'), f.register(b'm')
            ),
        [11111010 1 001 nnnn 1111 dddd 1 0 01 mmmm]
            => |f| rearrange_wide(
                ReverseHalfwords, f.register(b'n'), f.register(b'd'), f.register(b'm')
            ),
        [11111010 1 001 nnnn 1111 dddd 1 0 10 mmmm]
            => |f| rearrange_wide(
                ReverseBits, f.register(b'n'), f.register(b'd'), f.register(b'm')
            ),
        [11111010 1 001 nnnn 1111 dddd 1 0 11 mmmm]
            => |f| rearrange_wide(
                ReverseSignedHalfword, f.register(b'n'), f.register(b'd'), f.register(b'm')
            ),
        [11111010 1 011 nnnn 1111 dddd 1 0 00 mmmm]
            => |f| rearrange_wide(
                CountLeadingZeros, f.register(b'n'), f.register(b'd'), f.register(b'm')
            ),
    }
}

/// Returns LSL, LSR, ASR or ROR by their two bits.
fn shift_type_of(bits: u32) -> ShiftType
    ensures { result ≡ shift_type_of bits }
{
    match bits {
        0 => ShiftType::Lsl,
        1 => ShiftType::Lsr,
        2 => ShiftType::Asr,
        _ => ShiftType::Ror,
    }
}

/// Returns a shift by a register.
#[tactic(auto, unfolding(instruction_set::specs::LongRegister::shift_by_register_row))]
fn shift_by_register(kind: u32, s: bool, n: Register, d: Register, m: Register) -> Decoded
    ensures { result ≡ shift_by_register_row
        (record { shift_type = shift_type_of kind; flags = flags_if s; destination = d; source = n; amount = m }) }
{
    let instruction = Instruction::DataProcessing(DataProcessing::ShiftByRegister(
        ShiftByRegister {
            shift_type: shift_type_of(kind),
            flags: flags_if(s),
            destination: d,
            source: n,
            amount: m,
        },
    ));
    long_unless(is_bad(n) || is_bad(d) || is_bad(m), instruction)
}

/// Returns the size halfword, or byte where the bit is 1.
fn extended_size(bit: u32) -> Size
    ensures { result ≡ extended_size bit }
{
    if bit == 1 { Size::Byte } else { Size::Halfword }
}

/// Returns SXTB, SXTH, UXTB or UXTH, after a rotation.
#[tactic(auto, unfolding(instruction_set::specs::LongRegister::extend_wide_row))]
fn extend_wide(signed: bool, size: Size, d: Register, m: Register, rotation: u8) -> Decoded
    ensures { result ≡ extend_wide_row
        (record { signed = signed; size = size; destination = d; source = m; rotation = rotation }) }
{
    let instruction = Instruction::DataProcessing(DataProcessing::Extend(Extend {
        signed,
        size,
        destination: d,
        source: m,
        rotation,
    }));
    long_unless(is_bad(d) || is_bad(m), instruction)
}

/// Returns REV, REV16, RBIT, REVSH or CLZ, in which the source is encoded twice.
#[tactic(auto, unfolding(instruction_set::specs::LongRegister::rearrange_wide_row))]
fn rearrange_wide(operation: Rearrangement, again: Register, d: Register, m: Register) -> Decoded
    ensures { result ≡ rearrange_wide_row operation again d m }
{
    let instruction = Instruction::DataProcessing(DataProcessing::Rearrange(Rearrange {
        operation,
        destination: d,
        source: m,
    }));
    long_unless(
        is_bad(d) || is_bad(m) || again.number() != m.number(),
        instruction,
    )
}
