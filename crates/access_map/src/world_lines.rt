//! The lines of worlds.

ghost use Rattle.std.specs.Prelude.{◌≡◌, ◌+◌, ◌≤◌, ◌++◌, length, IfOk};
ghost use Rattle.access_map.specs.Lines.{code_text, others_text, steps_text, world_line};

use crate::counting::WorldSteps;
use crate::lines::{Line, put_addresses, put_spaced};
use std::alloc::{AllocError, Global};

/// Returns the line of world `number`. `name` is that of the symbol that has the PC of the first step, without a space.
#[tactic(auto, unfolding(crate::specs::Lines::world_line))]
pub fn world_line(
    alloc: Global,
    number: u8,
    row: &WorldSteps,
    name: &[u8],
) -> Result<Vec<u8>, AllocError>
    ensures { IfOk result (λ text. text.items ≡ world_line number row.now name.now) }
{
    let mut text = Vec::new(alloc);
    text.extend_from_slice(steps_text(number, row).as_slice())?;
    text.extend_from_slice(code_text(row).as_slice())?;
    if !name.is_empty() {
        text.push(b' ')?;
        text.extend_from_slice(name)?;
    }
    text.push(b'\n')?;
    Ok(text)
}

/// Returns the line of steps in worlds that have no number.
pub fn others_line(steps: u64) -> Line
    ensures { result ≡ others_text steps }
{
    let mut line = Line::new();
    line.put(b"others ");
    line.put_decimal(steps);
    line.put(b"\n");
    line
}

/// Returns a world's number, its steps, and the tick of the first.
#[tactic(auto, unfolding(crate::specs::Lines::steps_text))]
fn steps_text(number: u8, row: &WorldSteps) -> Line
    ensures { result ≡ steps_text number row.now }
{
    let mut line = Line::new();
    line.put(b"world ");
    line.put_decimal(u64::from(number));
    line.put(b" steps ");
    line.put_decimal(row.steps);
    line.put(b" tick ");
    line.put_decimal(row.tick);
    line
}

/// Returns the PC of a world's first step, and the lowest and the highest PC.
#[tactic(auto, unfolding(crate::specs::Lines::code_text))]
fn code_text(row: &WorldSteps) -> Line
    ensures { result ≡ code_text row.now }
{
    let mut line = Line::new();
    line.put(b" pc");
    put_spaced(&mut line, row.pc);
    line.put(b" code");
    put_addresses(&mut line, row.lowest, row.highest);
    line
}
