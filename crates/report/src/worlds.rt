//! Who may touch what: a column for each world, a row for neighbouring addresses.

ghost use Rattle.std.specs.Prelude.{◌≤◌, ◌<◌};

use crate::page::{Part, write_part};
use access_map::{WorldSteps, Worlds};
use page_text::access_table::{AccessRow, AccessTable, MAX_COLUMNS, Share, columns_of};
use page_text::names::Place;
use page_text::numbers::{ByteCount, Thousands};
use page_text::words::{RightsLetters, place_word, rights_class};
use std::io;
use std::io::Write;
use symbols::Symbols;

const CAPTION: &str =
    "A world is a setting of the MPU under which <span class='u'>unprivileged</span> code ran. \
Each row says what each world may do with its addresses, used or not: read (<code>r</code>), write \
(<code>w</code>), execute (<code>x</code>). <b>→ 2</b> is where the world may write what world 2 may read, and \
<b>← 1</b> where it may read what world 1 may write; all of these are below the table.";

/// Returns the number of the world of a place among the rows: the first is 1.
fn number_of(place: usize) -> usize {
    place.saturating_add(1)
}

/// Writes the part.
pub fn write_worlds<W: Write>(
    out: &mut W,
    worlds: &Worlds,
    table: &AccessTable,
    symbols: &Symbols<'_>,
) -> io::Result<()> {
    let columns = columns_of(worlds.rows());
    write_part(out, Part::Worlds, CAPTION)?;
    writeln!(out, "<div class='scroll'><table class='cards may'>")?;
    write_heading(out, columns, symbols)?;
    writeln!(out, "<tbody>")?;
    'rows: for (place, row) in table.rows().iter().enumerate() {
        write_row(out, place, row, columns.len())?;
    }
    writeln!(out, "</tbody></table></div>")?;
    write_rest(out, worlds, table)?;
    write_shares(out, worlds, table)?;
    writeln!(out, "</section>")
}

/// Writes the heading: the worlds that have a column.
fn write_heading<W: Write>(
    out: &mut W,
    columns: &[WorldSteps],
    symbols: &Symbols<'_>,
) -> io::Result<()> {
    write!(out, "<thead><tr><th scope='col'>addresses</th>")?;
    'columns: for (column, world) in columns.iter().enumerate() {
        write_world(out, number_of(column), world, symbols)?;
    }
    writeln!(out, "</tr></thead>")
}

/// Writes the heading of a world: its number, the address of its first step, and how many it made.
fn write_world<W: Write>(
    out: &mut W,
    number: usize,
    world: &WorldSteps,
    symbols: &Symbols<'_>,
) -> io::Result<()> {
    let steps = world.steps;
    let shown = Thousands(steps);
    let word = if steps == 1 { "step" } else { "steps" };
    let tick = world.tick;
    let pc = world.pc;
    let lowest = world.lowest;
    let highest = world.highest;
    let begins = Place {
        address: pc,
        symbols,
    };
    write!(
        out,
        "<th class='u' scope='col' id='world-{number}' data-number='{steps}' data-tick='{tick}' \
         data-pc='{pc:08X}' data-lowest='{lowest:08X}' data-highest='{highest:08X}'>world {number} \
         <small>{begins}<br>{shown} {word}</small></th>"
    )
}

/// Writes a row.
fn write_row<W: Write>(
    out: &mut W,
    place: usize,
    row: &AccessRow,
    columns: usize,
) -> io::Result<()> {
    let first = row.first;
    let last = row.last;
    let word = place_word(row.place);
    let size = ByteCount(u64::from(last.saturating_sub(first)).saturating_add(1));
    write!(
        out,
        "<tr id='may-{place}' data-first='{first:08X}' data-last='{last:08X}'><th scope='row'>\
         <code>{first:08X}</code> to <code>{last:08X}</code> <small>{word}, {size}</small></th>"
    )?;
    'columns: for column in 0..columns.min(MAX_COLUMNS) {
        write_cell(out, row, column, columns.min(MAX_COLUMNS))?;
    }
    writeln!(out, "</tr>")
}

/// Writes what the world of a column may do in a row, and with which others it shares the bytes.
fn write_cell<W: Write>(
    out: &mut W,
    row: &AccessRow,
    column: usize,
    columns: usize,
) -> io::Result<()>
    requires column { column < MAX_COLUMNS }
    requires columns { columns ≤ MAX_COLUMNS }
{
    let number = number_of(column);
    let rights = row.rights[column];
    let class = rights_class(rights);
    let letters = RightsLetters(rights);
    write!(
        out,
        "<td class='{class}' data-label='world {number}'><code>{letters}</code>"
    )?;
    let mut to = Numbers::after("→");
    'readers: for reader in 0..columns {
        to.write_if(out, row.is_shared(column, reader), number_of(reader))?;
    }
    to.end(out)?;
    let mut from = Numbers::after("←");
    'writers: for writer in 0..columns {
        from.write_if(out, row.is_shared(writer, column), number_of(writer))?;
    }
    from.end(out)?;
    write!(out, "</td>")
}

/// The numbers of worlds after a sign; nothing where there are none.
#[derive(Clone, Copy)]
struct Numbers {
    sign: &'static str,
    is_empty: bool,
}

impl Numbers {
    /// Returns an empty list that a sign begins.
    fn after(sign: &'static str) -> Self {
        Numbers {
            sign,
            is_empty: true,
        }
    }

    /// Writes a number of the list, if it is in it.
    fn write_if<W: Write>(&mut self, out: &mut W, is_in: bool, number: usize) -> io::Result<()> {
        if !is_in {
            return Ok(());
        }
        if self.is_empty {
            let sign = self.sign;
            write!(out, " <b>{sign}")?;
        }
        self.is_empty = false;
        write!(out, " {number}")
    }

    /// Ends the list.
    fn end<W: Write>(&self, out: &mut W) -> io::Result<()> {
        if self.is_empty {
            Ok(())
        } else {
            write!(out, "</b>")
        }
    }
}

/// Writes how many rows, worlds and steps the table leaves out.
fn write_rest<W: Write>(out: &mut W, worlds: &Worlds, table: &AccessTable) -> io::Result<()> {
    write_left(out, "other-rows", "Further rows", table.other_rows())?;
    let all = worlds.rows();
    let others = all.len().saturating_sub(columns_of(all).len()) as u64;
    write_left(
        out,
        "other-worlds",
        "Further worlds, which have no column",
        others,
    )?;
    write_left(
        out,
        "other-world-steps",
        "Steps in worlds that have no number",
        worlds.others(),
    )
}

/// Writes how much of something is left out, unless it is nothing.
fn write_left<W: Write>(out: &mut W, id: &str, words: &str, number: u64) -> io::Result<()> {
    if number == 0 {
        return Ok(());
    }
    let shown = Thousands(number);
    writeln!(
        out,
        "<p id='{id}' data-number='{number}'>{words}: {shown}.</p>"
    )
}

/// Writes the bytes that worlds share, or that there are none.
fn write_shares<W: Write>(out: &mut W, worlds: &Worlds, table: &AccessTable) -> io::Result<()> {
    if table.shares().is_empty() {
        let words = if worlds.rows().len() == 1 {
            "There is one world, so it shares no byte with another."
        } else {
            "All worlds are apart: none may write a byte of RAM that another may read or execute."
        };
        return writeln!(out, "<p id='apart'>{words}</p>");
    }
    writeln!(out, "<ul class='shares'>")?;
    'shares: for (place, share) in table.shares().iter().enumerate() {
        write_share(out, place, share)?;
    }
    writeln!(out, "</ul>")?;
    write_left(
        out,
        "other-shares",
        "Further bytes that worlds share, in intervals",
        table.other_shares(),
    )
}

/// Writes a sentence about bytes that one world may write and another may read or execute.
fn write_share<W: Write>(out: &mut W, place: usize, share: &Share) -> io::Result<()> {
    let writer = number_of(share.writer);
    let reader = number_of(share.reader);
    let first = share.span.first;
    let last = share.span.last;
    writeln!(
        out,
        "<li id='shares-{place}' data-writer='{writer}' data-reader='{reader}' data-first='{first:08X}' \
         data-last='{last:08X}'>World {writer} may write <code>{first:08X}</code> to <code>{last:08X}</code>, \
         which world {reader} may read.</li>"
    )
}
