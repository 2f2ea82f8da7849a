//! The rows of 32 bits in "Multiply, multiply accumulate, and absolute difference" and "Long
//! multiply, long multiply accumulate, and divide", and the coprocessors' (ARM DDI 0403, "32-bit
//! Thumb instruction encoding").

ghost use Rattle.std.specs.Prelude.{◌≡◌, ◌≢◌, ◌==◌, ◌<◌, ◌≤◌, ◌+◌, ◌-◌, ◌*◌, ◌^◌, ◌&&◌, ◌||◌, not, true, false, nat_lt};
ghost use Rattle.encodings.specs.Masks.{by_masks};
ghost use Rattle.instruction_set.specs.LongMultiply.{divide_row, multiply_accumulate_row, multiply_long_row};
ghost use Rattle.instruction_set.specs.LongMultiply.{multiply_wide_row, product_rows};

use encodings::outcomes::{is_bad, long_unless};
use encodings::rows;
use instruction_set::data_processing::{
    Accumulation, DataProcessing, Divide, FlagSetting, Multiply, MultiplyAccumulate, MultiplyLong,
};
use instruction_set::instruction::{Decoded, Instruction};
use instruction_set::registers::Register;

/// Decodes two halfwords by these rows.
#[tactic(auto, unfolding(encodings::specs::Masks::by_masks))]
pub fn product_rows(x: u32) -> Option<Decoded>
    ensures { result ≡ by_masks product_rows x }
{
    rows! { x;
        [111110110 000 nnnn 1111 dddd 0000 mmmm]
            => |f| multiply_wide(f.register(b'n'), f.register(b'd'), f.register(b'm')),
        [111110110 000 nnnn aaaa dddd 0000 mmmm]
 except [xxxxxxxxx xxx xxxx 1111 xxxx xxxx xxxx]
            => |f| multiply_accumulate(
                Accumulation::Add, f.register(b'n'), f.register(b'a'), f.register(b'd'),
                f.register(b'm')
            ),
        [111110110 000 nnnn aaaa dddd 0001 mmmm]
            => |f| multiply_accumulate(
                Accumulation::Subtract, f.register(b'n'), f.register(b'a'), f.register(b'd'),
                f.register(b'm')
            ),
        [111110111 A u 0 nnnn llll hhhh 0000 mmmm]
            => |f| multiply_long(
                f.number(b'u') == 0, f.is_set(b'A'), f.register(b'n'), f.register(b'l'),
                f.register(b'h'), f.register(b'm')
            ),
        [111110111 0 u 1 nnnn oooo dddd 1111 mmmm]
            => |f| divide(
                f.number(b'u') == 0, f.register(b'n'), f.register(b'd'), f.register(b'm')
            ),
        [111 x 11 xx xxxxxxxx xxxxxxxxxxxxxxxx] => |f| Decoded::NoCoprocessor,
    }
}

#[tactic(auto, unfolding(instruction_set::specs::LongMultiply::multiply_wide_row))]
fn multiply_wide(n: Register, d: Register, m: Register) -> Decoded
    ensures { result ≡ multiply_wide_row n d m }
{
    let instruction = Instruction::DataProcessing(DataProcessing::Multiply(Multiply {
        flags: FlagSetting::Never,
        destination: d,
        first: n,
        second: m,
    }));
    long_unless(is_bad(n) || is_bad(d) || is_bad(m), instruction)
}

#[tactic(auto, unfolding(instruction_set::specs::LongMultiply::multiply_accumulate_row))]
fn multiply_accumulate(
    operation: Accumulation,
    n: Register,
    a: Register,
    d: Register,
    m: Register,
) -> Decoded
    ensures { result ≡ multiply_accumulate_row
        (record { operation = operation; destination = d; first = n; second = m; addend = a }) }
{
    let refused = is_bad(n) || is_bad(a) || is_bad(d) || is_bad(m);
    let instruction = Instruction::DataProcessing(DataProcessing::MultiplyAccumulate(
        MultiplyAccumulate {
            operation,
            destination: d,
            first: n,
            second: m,
            addend: a,
        },
    ));
    long_unless(refused, instruction)
}

/// Returns SMULL, UMULL, SMLAL or UMLAL: the two destinations differ.
#[tactic(auto, unfolding(instruction_set::specs::LongMultiply::multiply_long_row))]
fn multiply_long(
    signed: bool,
    accumulates: bool,
    n: Register,
    low: Register,
    high: Register,
    m: Register,
) -> Decoded
    ensures { result ≡ multiply_long_row
        (record { signed = signed; accumulates = accumulates; low = low; high = high; first = n; second = m }) }
{
    let same = low.number() == high.number();
    let refused = is_bad(n) || is_bad(low) || is_bad(high) || is_bad(m) || same;
    let instruction = Instruction::DataProcessing(DataProcessing::MultiplyLong(MultiplyLong {
        signed,
        accumulates,
        low,
        high,
        first: n,
        second: m,
    }));
    long_unless(refused, instruction)
}

#[tactic(auto, unfolding(instruction_set::specs::LongMultiply::divide_row))]
fn divide(signed: bool, n: Register, d: Register, m: Register) -> Decoded
    ensures { result ≡ divide_row (record { signed = signed; destination = d; dividend = n; divisor = m }) }
{
    let instruction = Instruction::DataProcessing(DataProcessing::Divide(Divide {
        signed,
        destination: d,
        dividend: n,
        divisor: m,
    }));
    long_unless(is_bad(n) || is_bad(d) || is_bad(m), instruction)
}
