//! Memory: which parts of flash and RAM were touched, by whom and how, and what the regions grant at the end.

use crate::page::{Part, Report, write_part};
use machine::Fast;
use page_text::cells::{CELLS_OF_ROW, CellState, CellWords, Strip, cells_in, is_refused, state_of};
use page_text::grid::{Area, write_area};
use page_text::numbers::ByteCount;
use page_text::rows::Rows;
use std::io;
use std::io::Write;
use survey::Cells;

const CAPTION: &str =
    "Addresses go from left to right and then down; each cell has six strips, from above: \
<span class='u'>unprivileged</span> code read, wrote, executed, and <span class='p'>privileged</span> code \
read, wrote, executed. A faint strip is what the MPU would grant to unprivileged code at the end of the run, and \
a full one is what was done. An outline is round each cell in which an access was \
<span class='refused'>✕ refused</span>. Rows that nothing touched are folded: ⋮ says how many. Addresses outside \
of flash and RAM have no cell.";

/// How high the part of a row is that has strips.
const STRIPS_HEIGHT: usize = 26;

/// A part of each row: where it begins in its row, and how high it is.
#[derive(Clone, Copy)]
struct Band {
    top: usize,
    height: usize,
}

/// The part of a row that has strips.
const GROUND: Band = Band {
    top: 0,
    height: STRIPS_HEIGHT,
};

/// Writes the part.
pub fn write_memory<W: Write>(out: &mut W, report: &Report<'_>) -> io::Result<()> {
    write_part(out, Part::Memory, CAPTION)?;
    write_legend(out)?;
    write_cells(out, "flash", &report.survey.flash, report.machine)?;
    write_cells(out, "RAM", &report.survey.ram, report.machine)?;
    writeln!(out, "</section>")
}

/// Writes what each strip of a cell is, and what a faint strip and an outline are.
fn write_legend<W: Write>(out: &mut W) -> io::Result<()> {
    writeln!(
        out,
        "<div class='legend'><div><svg viewBox='0 0 14 26' preserveAspectRatio='none' aria-hidden='true'>"
    )?;
    'strips: for strip in Strip::ALL {
        let class = strip.class();
        let top = strip.top();
        let height = Strip::HEIGHT;
        writeln!(
            out,
            "<rect class='{class}' x='0' y='{top}' width='14' height='{height}'/>"
        )?;
    }
    writeln!(
        out,
        "</svg><ol><li class='u'>unprivileged read</li><li class='u'>unprivileged wrote</li>\
         <li class='u'>unprivileged executed</li><li class='p'>privileged read</li>\
         <li class='p'>privileged wrote</li><li class='p'>privileged executed</li></ol></div>"
    )?;
    writeln!(
        out,
        "<div><svg viewBox='0 0 14 26' preserveAspectRatio='none' aria-hidden='true'>\
         <rect class='may' x='0' y='0' width='14' height='12'/>\
         <rect class='outline' x='1' y='15' width='12' height='10'/></svg>\
         <ol><li class='u'>faint: granted to unprivileged</li><li class='u'>code at the end</li>\
         <li>&nbsp;</li><li class='refused'>✕ outline: an access</li>\
         <li class='refused'>was refused</li></ol></div></div>"
    )
}

/// Writes the drawing of a memory, with the addresses of its rows.
fn write_cells<W: Write>(out: &mut W, name: &str, cells: &Cells, machine: &Fast) -> io::Result<()> {
    let count = cells_in(cells);
    let rows = Rows::of(cells);
    let size = ByteCount(u64::from(cells.cell_bytes()));
    let height = rows.top(rows.count);
    write!(
        out,
        "<h3>{name}, {size} a cell</h3>\n<div class='cells' id='cells-{name}' data-cells='{count}'>\
         <div class='addresses'>"
    )?;
    write_addresses(out, cells, &rows)?;
    writeln!(
        out,
        "</div>\n<svg viewBox='0 0 {CELLS_OF_ROW} {height}' height='{height}' preserveAspectRatio='none' \
         role='img' aria-label='{name}'>"
    )?;
    write_ground(out, &rows, count)?;
    'strips: for strip in Strip::ALL {
        write_granted(out, cells, &rows, machine, strip)?;
        write_touched(out, cells, &rows, strip)?;
    }
    write_refused(out, cells, &rows)?;
    write_states(out, cells, &rows, machine)?;
    writeln!(out, "</svg></div>")
}

/// Writes the address at which each row begins that is drawn, and how many rows are folded.
fn write_addresses<W: Write>(out: &mut W, cells: &Cells, rows: &Rows) -> io::Result<()> {
    'rows: for row in 0..rows.count {
        if rows.is_drawn(row) {
            let address = address_of(cells, row.saturating_mul(CELLS_OF_ROW));
            write!(out, "<code>{address:08X}</code>")?;
        } else if rows.begins_fold(row) {
            let folded = rows.folded_from(row);
            let word = if folded == 1 { "row" } else { "rows" };
            write!(out, "<code class='fold'>⋮ {folded} {word}</code>")?;
        }
    }
    Ok(())
}

/// Returns the address of the first byte of a cell.
fn address_of(cells: &Cells, cell: usize) -> u32 {
    let (base, _) = cells.span();
    let cell = u32::try_from(cell).unwrap_or(u32::MAX);
    base.wrapping_add(cells.cell_bytes().wrapping_mul(cell))
}

/// Writes the ground of each row that is drawn.
fn write_ground<W: Write>(out: &mut W, rows: &Rows, count: usize) -> io::Result<()> {
    write!(out, "<path class='ground' d='")?;
    let mut begin = None;
    'cells: for cell in 0..count {
        begin = write_step(out, rows, begin, cell, true, GROUND)?;
    }
    write_rest(out, rows, begin, count, GROUND)?;
    writeln!(out, "'/>")
}

/// Writes where a strip is granted to unprivileged code at the end.
fn write_granted<W: Write>(
    out: &mut W,
    cells: &Cells,
    rows: &Rows,
    machine: &Fast,
    strip: Strip,
) -> io::Result<()> {
    if !strip.is_of_unprivileged() {
        return Ok(());
    }
    write!(out, "<path class='may' d='")?;
    let mut begin = None;
    let count = cells_in(cells);
    'cells: for cell in 0..count {
        let granted = strip.is_granted(machine, address_of(cells, cell));
        begin = write_step(out, rows, begin, cell, granted, band_of(strip))?;
    }
    write_rest(out, rows, begin, count, band_of(strip))?;
    writeln!(out, "'/>")
}

/// Writes where a strip was touched.
fn write_touched<W: Write>(
    out: &mut W,
    cells: &Cells,
    rows: &Rows,
    strip: Strip,
) -> io::Result<()> {
    let class = strip.class();
    write!(out, "<path class='{class}' d='")?;
    let mut begin = None;
    let count = cells_in(cells);
    'cells: for cell in 0..count {
        let touched = strip.is_touched(cells, cell);
        begin = write_step(out, rows, begin, cell, touched, band_of(strip))?;
    }
    write_rest(out, rows, begin, count, band_of(strip))?;
    writeln!(out, "'/>")
}

/// Returns the part of a row that a strip has.
fn band_of(strip: Strip) -> Band {
    Band {
        top: strip.top(),
        height: Strip::HEIGHT,
    }
}

/// Goes on at a cell: writes the run of cells before it where it ends, and returns where the run at the cell
/// began, if it belongs to one.
fn write_step<W: Write>(
    out: &mut W,
    rows: &Rows,
    begin: Option<usize>,
    cell: usize,
    belongs: bool,
    band: Band,
) -> io::Result<Option<usize>> {
    let is_row_begin = cell % CELLS_OF_ROW == 0;
    if belongs && !is_row_begin {
        return Ok(begin.or(Some(cell)));
    }
    write_rest(out, rows, begin, cell, band)?;
    Ok(if belongs { Some(cell) } else { None })
}

/// Writes the cells of one row from `begin` to the one before `end`, if a run has begun and the row is drawn.
fn write_rest<W: Write>(
    out: &mut W,
    rows: &Rows,
    begin: Option<usize>,
    end: usize,
    band: Band,
) -> io::Result<()> {
    let Some(first) = begin else {
        return Ok(());
    };
    let row = first / CELLS_OF_ROW;
    if !rows.is_drawn(row) {
        return Ok(());
    }
    write_area(
        out,
        Area {
            left: first % CELLS_OF_ROW,
            top: rows.top(row).saturating_add(band.top),
            width: end.saturating_sub(first),
            height: band.height,
        },
    )
}

/// Writes an outline round each cell in which an access was refused.
fn write_refused<W: Write>(out: &mut W, cells: &Cells, rows: &Rows) -> io::Result<()> {
    write!(out, "<path class='outline' d='")?;
    'cells: for cell in 0..cells_in(cells) {
        if is_refused(cells, cell) {
            write_rest(out, rows, Some(cell), cell.saturating_add(1), GROUND)?;
        }
    }
    writeln!(out, "'/>")
}

/// Writes the addresses and the marks of each run of equal cells in a row, as texts that a pointer shows.
fn write_states<W: Write>(
    out: &mut W,
    cells: &Cells,
    rows: &Rows,
    machine: &Fast,
) -> io::Result<()> {
    let count = cells_in(cells);
    let mut begin = 0;
    let mut state = CellState::BLANK;
    'cells: for cell in 0..count {
        let next = state_of(cells, machine, cell, address_of(cells, cell));
        if next != state || cell % CELLS_OF_ROW == 0 {
            write_state(out, cells, rows, state, begin, cell)?;
            begin = cell;
            state = next;
        }
    }
    write_state(out, cells, rows, state, begin, count)
}

/// Writes the text of the equal cells from `begin` to the one before `end`, if they are touched or granted, in a row
/// that is drawn.
fn write_state<W: Write>(
    out: &mut W,
    cells: &Cells,
    rows: &Rows,
    state: CellState,
    begin: usize,
    end: usize,
) -> io::Result<()> {
    let row = begin / CELLS_OF_ROW;
    if state == CellState::BLANK || begin >= end || !rows.is_drawn(row) {
        return Ok(());
    }
    let first = address_of(cells, begin);
    let last = address_of(cells, end).wrapping_sub(1);
    let left = begin % CELLS_OF_ROW;
    let top = rows.top(row);
    let width = end - begin;
    let words = CellWords(state);
    writeln!(
        out,
        "<rect x='{left}' y='{top}' width='{width}' height='{STRIPS_HEIGHT}' data-first='{first:08X}'\
         {state}<title>{first:08X} to {last:08X}: {words}</title></rect>"
    )
}
