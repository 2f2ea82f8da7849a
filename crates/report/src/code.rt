//! Where the steps went: the instructions that were carried out for each symbol of the image.

use crate::page::{Part, Report, write_part};
use page_text::escape::Escaped;
use page_text::numbers::{ByteCount, Thousands};
use std::io;
use std::io::Write;
use symbol_steps::{Ranking, Share, SymbolSteps, Totals};
use symbols::Symbols;

const CAPTION: &str =
    "Each row is a symbol of the image, with its size and the instructions that were carried out in \
it: the 20 symbols with the most. An instruction counts where it begins, once its first halfword is fetched, also \
where it then faults. A bar has a part for <span class='u'>unprivileged</span> and one for \
<span class='p'>privileged</span> code.";

/// Writes the part.
pub fn write_code<W: Write>(out: &mut W, report: &Report<'_>) -> io::Result<()> {
    write_part(out, Part::Code, CAPTION)?;
    let all = Totals::of_all(report.survey);
    let ranking = Ranking::of(report.survey, report.symbols);
    writeln!(
        out,
        "<div class='scroll'><table class='cards code'><thead><tr><th scope='col'>symbol</th>\
         <th class='n' scope='col'>size</th><th class='bars' scope='col'></th>\
         <th class='u n' scope='col'>unprivileged</th><th class='p n' scope='col'>privileged</th>\
         <th class='n' scope='col'>all</th></tr></thead>\n<tbody>"
    )?;
    'rows: for (place, row) in ranking.rows().iter().enumerate() {
        write_symbol(out, place, row, report.symbols, all)?;
    }
    let others = all.less(ranking.shown());
    if others.sum() > 0 {
        let label = if ranking.rows().is_empty() {
            "addresses without a symbol"
        } else {
            "all other addresses"
        };
        write!(
            out,
            "<tr id='code-others'><th scope='row'>{label}</th><td class='zero'></td>"
        )?;
        write_totals(out, others, all)?;
    }
    writeln!(out, "</tbody></table></div>")?;
    write_rest(out, report.survey.steps, all)?;
    writeln!(out, "</section>")
}

/// Writes how many instructions there are in all, and how many steps had none.
fn write_rest<W: Write>(out: &mut W, steps: u64, all: Totals) -> io::Result<()> {
    let number = all.sum();
    let shown = Thousands(number);
    let rest = steps.saturating_sub(number);
    let others = Thousands(rest);
    writeln!(
        out,
        "<p id='instructions' data-number='{number}'>Instructions in all: {shown}. Steps without one (exception \
         entry, sleep, a fetch that was refused): {others}.</p>"
    )
}

/// Writes the row of a symbol.
fn write_symbol<W: Write>(
    out: &mut W,
    place: usize,
    row: &SymbolSteps,
    symbols: &Symbols<'_>,
    all: Totals,
) -> io::Result<()> {
    let address = row.symbol.address;
    write!(
        out,
        "<tr id='code-{place}' data-first='{address:08X}'><th scope='row'>"
    )?;
    match symbols.name_at(address) {
        None => write!(out, "<code>{address:08X}</code>")?,
        Some((name, _)) => {
            let name = Escaped(name);
            write!(out, "{name} <small><code>{address:08X}</code></small>")?;
        }
    }
    write!(out, "</th>")?;
    if row.symbol.size == 0 {
        write!(out, "<td class='zero'></td>")?;
    } else {
        let size = ByteCount(u64::from(row.symbol.size));
        write!(out, "<td class='n' data-label='size'>{size}</td>")?;
    }
    write_totals(out, row.totals, all)
}

/// Writes the bar of some instructions, and their numbers, of all that there are.
fn write_totals<W: Write>(out: &mut W, totals: Totals, all: Totals) -> io::Result<()> {
    let unprivileged = Share::of(totals.unprivileged, all.sum());
    let privileged = Share::of(totals.privileged, all.sum());
    write!(
        out,
        "<td class='bars'><div class='bar'><i class='u' style='width:{unprivileged}%'></i>\
         <i class='p' style='width:{privileged}%'></i></div></td>"
    )?;
    write_number(out, "u", "unprivileged", totals.unprivileged)?;
    write_number(out, "p", "privileged", totals.privileged)?;
    let number = totals.sum();
    let shown = Thousands(number);
    let share = Share::of(number, all.sum());
    writeln!(
        out,
        "<td class='n' data-label='all' data-number='{number}'>{shown} <small>{share}&#8239;%</small></td></tr>"
    )
}

/// Writes the cell of the instructions of code of a privilege.
fn write_number<W: Write>(out: &mut W, class: &str, label: &str, number: u64) -> io::Result<()> {
    if number == 0 {
        return write!(out, "<td class='{class} n zero'>·</td>");
    }
    let shown = Thousands(number);
    write!(
        out,
        "<td class='{class} n' data-label='{label}' data-number='{number}'>{shown}</td>"
    )
}
