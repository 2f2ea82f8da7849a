//! Division: SDIV and UDIV. Whether a division by zero traps isn't decided here.

ghost use Rattle.std.specs.Prelude.{◌≡◌};
ghost use Rattle.instruction_set.specs.Products.{quotient, divide};

use instruction_set::data_processing::Divide;
use regs::Regs;

/// Returns the quotient, rounded towards zero. By zero it is 0.
#[inline]
#[tactic(auto, unfolding(instruction_set::specs::Products::quotient))]
fn quotient(signed: bool, x: u32, y: u32) -> u32
    ensures { result ≡ quotient signed x y }
{
    if y == 0 {
        0
    } else if signed {
        x.cast_signed()
            .wrapping_div(y.cast_signed())
            .cast_unsigned()
    } else {
        x / y
    }
}

/// SDIV and UDIV.
#[inline]
pub(crate) fn divide(operands: &Divide, regs: &mut Regs)
    ensures { regs.new ≡ divide operands.now regs.old }
{
    let (x, y) = (regs.get(operands.dividend), regs.get(operands.divisor));
    regs.set(operands.destination, quotient(operands.signed, x, y));
}
