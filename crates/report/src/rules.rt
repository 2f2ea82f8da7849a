//! Who touched what: a row for each rule, a column for each privilege and kind of access.

use crate::page::{Part, Report, write_part};
use machine::Rule;
use page_text::numbers::Thousands;
use page_text::sums;
use page_text::sums::Column;
use page_text::words::{
    KINDS, OUTCOMES, RULE_ROWS, RuleMeaning, RuleWord, cause_word, kind_word, outcome_sign,
    privilege_letter, privilege_word, rule_of_row,
};
use platform::access::Cause;
use std::io;
use std::io::Write;
use survey::Counts;

const CAPTION: &str =
    "Each row is a rule that decided accesses, under its word in the trace; each number \
counts accesses of one privilege and kind. A fetch is of one halfword, so a 32-bit instruction makes two. \
<span class='refused'>✕ refused by the MPU</span> and \
<span class='bus'>⊘ refused by the bus</span> stand below those that were granted. Columns in which nothing \
was counted are left out.";

/// Writes the part.
pub fn write_rules<W: Write>(out: &mut W, report: &Report<'_>) -> io::Result<()> {
    let counts = &report.survey.counts;
    write_part(out, Part::Rules, CAPTION)?;
    writeln!(out, "<div class='scroll'><table class='cards numbers'>")?;
    write_heading(out, counts)?;
    writeln!(out, "<tbody>")?;
    'rows: for row in 0..RULE_ROWS {
        write_row(out, counts, rule_of_row(row))?;
    }
    writeln!(out, "</tbody>\n</table></div>\n</section>")
}

/// Writes the two rows of the heading.
fn write_heading<W: Write>(out: &mut W, counts: &Counts) -> io::Result<()> {
    write!(out, "<thead><tr><td></td>")?;
    'privileges: for privileged in [false, true] {
        let span = columns_used(counts, privileged);
        let letter = privilege_letter(privileged);
        let word = privilege_word(privileged);
        if span > 0 {
            write!(
                out,
                "<th class='{letter}' colspan='{span}' scope='colgroup'>{word}</th>"
            )?;
        }
    }
    write!(out, "<td></td></tr>\n<tr><th scope='col'>rule</th>")?;
    write_kinds(out, counts, false)?;
    write_kinds(out, counts, true)?;
    writeln!(out, "<th scope='col'>all</th></tr></thead>")
}

/// Returns how many columns of a privilege have accesses.
fn columns_used(counts: &Counts, privileged: bool) -> u8 {
    let mut used = 0u8;
    'kinds: for kind in KINDS {
        if sums::of_column(counts, Column { privileged, kind }) > 0 {
            used = used.saturating_add(1);
        }
    }
    used
}

/// Writes the headings of the columns of a privilege that have accesses.
fn write_kinds<W: Write>(out: &mut W, counts: &Counts, privileged: bool) -> io::Result<()> {
    let letter = privilege_letter(privileged);
    'kinds: for kind in KINDS {
        if sums::of_column(counts, Column { privileged, kind }) > 0 {
            let word = kind_word(kind);
            write!(out, "<th class='{letter}' scope='col'>{word}</th>")?;
        }
    }
    Ok(())
}

/// Writes the row of a rule, if it decided an access.
fn write_row<W: Write>(out: &mut W, counts: &Counts, rule: Rule) -> io::Result<()> {
    let all = sums::of_rule(counts, rule);
    if all == 0 {
        return Ok(());
    }
    let word = RuleWord(rule);
    let meaning = RuleMeaning(rule);
    let shown = Thousands(all);
    write!(
        out,
        "<tr><th scope='row'><code>{word}</code> <small>{meaning}</small></th>"
    )?;
    write_cells(out, counts, rule, false)?;
    write_cells(out, counts, rule, true)?;
    writeln!(
        out,
        "<td id='{word}-all' data-label='all' data-number='{all}'>{shown}</td></tr>"
    )
}

/// Writes the cells of a rule in the columns of a privilege.
fn write_cells<W: Write>(
    out: &mut W,
    counts: &Counts,
    rule: Rule,
    privileged: bool,
) -> io::Result<()> {
    'kinds: for kind in KINDS {
        write_cell(out, counts, rule, Column { privileged, kind })?;
    }
    Ok(())
}

/// Writes the cell of a rule in a column, if the column has accesses.
fn write_cell<W: Write>(
    out: &mut W,
    counts: &Counts,
    rule: Rule,
    column: Column,
) -> io::Result<()> {
    if sums::of_column(counts, column) == 0 {
        return Ok(());
    }
    let letter = privilege_letter(column.privileged);
    if sums::of_cell(counts, rule, column) == 0 {
        return write!(out, "<td class='{letter} zero'>·</td>");
    }
    let privilege = privilege_word(column.privileged);
    let kind = kind_word(column.kind);
    write!(out, "<td class='{letter}' data-label='{privilege} {kind}'>")?;
    'outcomes: for refused in OUTCOMES {
        write_number(out, counts, rule, column, refused)?;
    }
    write!(out, "</td>")
}

/// Writes how many accesses of an outcome a rule decided in a column, if there are any.
fn write_number<W: Write>(
    out: &mut W,
    counts: &Counts,
    rule: Rule,
    column: Column,
    refused: Option<Cause>,
) -> io::Result<()> {
    let number = counts.number(rule, column.privileged, column.kind, refused);
    if number == 0 {
        return Ok(());
    }
    let word = RuleWord(rule);
    let letter = privilege_letter(column.privileged);
    let kind = kind_word(column.kind);
    write!(out, "<span id='{word}-{letter}-{kind}-")?;
    write_outcome(out, refused, number)
}

/// Writes the rest of an id, and a number with the sign of its outcome.
pub fn write_outcome<W: Write>(out: &mut W, refused: Option<Cause>, number: u64) -> io::Result<()> {
    let shown = Thousands(number);
    match refused {
        None => write!(out, "granted' data-number='{number}'>{shown}</span>"),
        Some(cause) => {
            let word = cause_word(cause);
            let (class, sign) = outcome_sign(cause);
            write!(
                out,
                "{word}' class='{class}' data-number='{number}'>{sign} {shown} {word}</span>"
            )
        }
    }
}
