//! Why the second RAM of a board is refused.

ghost use Rattle.std.specs.Prelude.{◌≡◌, ◌<◌, ◌^◌, codes, option_map, IfOk};
ghost use Rattle.toml.specs.Data.{get_member};
ghost use Rattle.toml.specs.View.{table_view};
ghost use Rattle.board.specs.Texts.{second_ram_in, with_second_ram};
ghost use Rattle.board.specs.Values.{number, where_ok};
ghost use Rattle.platform.specs.Boards.{is_second_ram, numbers_of};
ghost use Rattle.reasons.specs.Problems.{Explained, Finds, Passes};

use crate::events::tables_problem;
use crate::keys::{RAM, RAM_TABLE, SECOND_BASE, SECOND_RAM_KEY_NAMES, SECOND_SIZE};
use crate::problem::{Part, PartProblem, Problem};
use crate::settings::{check_number, unknown};
use board::keys::SECOND_RAM_KEYS;
use board::ranges::is_second_ram;
use board::{Layout, MAX_SECOND_RAMS, find};
use toml::Table;

/// Returns the first problem of the second RAM of a document, on a board with this layout.
#[tactic(auto, using(board::proofs::Scripts::count_is), unfolding(board::specs::Texts::with_second_ram))]
pub fn second_ram_problem<'a>(document: &'a Table, layout: &Layout) -> Option<PartProblem<'a>>
    ensures { Finds (option_map (λ p. p.problem) result)
        (with_second_ram (numbers_of layout.now) (table_view document.now)) }
{
    let value = find(document, RAM.name)?;
    let Some(values) = value.as_array() else {
        return Some(of_board(Problem::Kind(RAM, value)));
    };
    let values = values.as_slice();
    if let Some(found) = tables_problem(values, RAM_TABLE) {
        return Some(of_board(found.problem));
    }
    if values.len() > MAX_SECOND_RAMS {
        return Some(of_board(Problem::Count(RAM, values.len())));
    }
    let [value, ..] = values else {
        return None;
    };
    let table = value.as_table()?;
    match check_second_ram(table, layout) {
        Ok(()) => None,
        Err(problem) => Some(PartProblem {
            part: Part::SecondRam,
            problem,
        }),
    }
}

/// Returns a problem of the board itself.
pub fn of_board(problem: Problem<'_>) -> PartProblem<'_>
    ensures { result.problem ≡ problem.entry }
{
    PartProblem {
        part: Part::Board,
        problem,
    }
}

/// Checks the table of a second RAM.
#[tactic(auto, unfolding(board::specs::Texts::second_ram_in))]
fn check_second_ram<'a>(table: &'a Table, layout: &Layout) -> Result<(), Problem<'a>>
    ensures { Passes result (second_ram_in (numbers_of layout.now) (table_view table.now)) }
{
    let base = check_number(table, SECOND_BASE)?;
    check_second_size(table, layout, base)?;
    match unknown(table, &SECOND_RAM_KEYS) {
        None => Ok(()),
        Some(name) => Err(Problem::Unknown(name, SECOND_RAM_KEY_NAMES)),
    }
}

/// Returns the size of a second RAM at a base, or what is wrong with it.
fn check_second_size<'a>(table: &'a Table, layout: &Layout, base: u64) -> Result<u64, Problem<'a>>
    requires { base < 2 ^ 63 }
    ensures { Explained result (where_ok
        (λ size. is_second_ram (numbers_of layout.now) (record { base = base; size = size }))
        (number (get_member (codes "size") (table_view table.now)))) }
{
    let size = check_number(table, SECOND_SIZE)?;
    if !is_second_ram(layout, base, size) {
        return Err(Problem::RamSpan(base, size));
    }
    Ok(size)
}
