//! Faults: the instruction that faulted, what was refused and by which rule, and what was recorded.

use crate::page::{Part, Report, write_part};
use page_text::fault_bits::FaultNames;
use page_text::names::Place;
use page_text::numbers::Thousands;
use page_text::sums::refused;
use page_text::words::{AccessWords, ExceptionName, RefusedBy, RuleWord, outcome_sign};
use platform::access::{Cause, DecidedAccess};
use platform::event::RecordedFault;
use std::io;
use std::io::Write;
use survey::Fault;
use symbols::Symbols;

const CAPTION: &str =
    "Each row is a fault: the instruction that was executed, the access that was refused and by \
what, if one was, the bits of CFSR and HFSR after it (they stay set until the program clears them), and the \
exception that became pending for it. A fault that came again at once is one row, with how often it came.";

/// Writes the part.
pub fn write_faults<W: Write>(out: &mut W, report: &Report<'_>) -> io::Result<()> {
    let faults = &report.survey.faults;
    let number = faults.number();
    write_part(out, Part::Faults, CAPTION)?;
    writeln!(
        out,
        "<div class='scroll'><table class='cards'><thead><tr>\
         <th class='n' scope='col'>tick</th><th scope='col'>instruction</th>\
         <th scope='col'>access</th><th scope='col'>refused by</th>\
         <th scope='col'>fault</th><th scope='col'>taken as</th>\
         <th class='n' scope='col'>times</th></tr></thead>\n<tbody>"
    )?;
    let mut shown = 0u64;
    'rows: for (place, fault) in faults.rows().iter().enumerate() {
        write_row(out, place, fault, report.symbols)?;
        shown = shown.saturating_add(fault.times);
    }
    writeln!(out, "</tbody></table></div>")?;
    write_number(out, report, number.saturating_sub(shown))?;
    writeln!(out, "</section>")
}

/// Writes how many faults there are, how many are in no row, and how many accesses were refused.
fn write_number<W: Write>(out: &mut W, report: &Report<'_>, others: u64) -> io::Result<()> {
    let counts = &report.survey.counts;
    let number = report.survey.faults.number();
    let all = Thousands(number);
    let mpu = Thousands(refused(counts, Cause::Mpu));
    let bus = Thousands(refused(counts, Cause::Bus));
    write!(out, "<p>Faults in all: {all}.")?;
    if others > 0 {
        let rest = Thousands(others);
        write!(out, " {rest} of them have no row here.")?;
    }
    writeln!(
        out,
        " Accesses refused: {mpu} by the MPU and {bus} by the bus.</p>"
    )
}

/// Writes the row of a fault.
fn write_row<W: Write>(
    out: &mut W,
    place: usize,
    fault: &Fault,
    symbols: &Symbols<'_>,
) -> io::Result<()> {
    let number = fault.tick;
    let tick = Thousands(number);
    let address = fault.pc;
    let instruction = Place { address, symbols };
    write!(
        out,
        "<tr id='fault-{place}' data-tick='{number}' data-pc='{address:08X}'>\
         <th class='n' scope='row'>{tick}</th><td data-label='instruction'>{instruction}</td>"
    )?;
    write_refused(out, &fault.refused, symbols)?;
    write_record(out, &fault.recorded)?;
    let times = fault.times;
    let shown = Thousands(times);
    writeln!(
        out,
        "<td class='n' data-label='times' data-number='{times}'>{shown}</td></tr>"
    )
}

/// Writes the cells of the access that was refused, if there is one, and of what refused it.
fn write_refused<W: Write>(
    out: &mut W,
    refused: &Option<DecidedAccess>,
    symbols: &Symbols<'_>,
) -> io::Result<()> {
    let Some(decided) = refused else {
        return write!(
            out,
            "<td class='zero' data-label='access'>none</td><td class='zero' data-label='refused by'></td>"
        );
    };
    let access = AccessWords(decided.access);
    let address = Place {
        address: decided.access.address,
        symbols,
    };
    write!(out, "<td data-label='access'>{access} {address}</td>")?;
    write_cause(out, decided)
}

/// Writes the cell of what refused an access.
fn write_cause<W: Write>(out: &mut W, decided: &DecidedAccess) -> io::Result<()> {
    let word = RuleWord(decided.rule);
    let meaning = RefusedBy(decided);
    let (class, sign) = match decided.refused {
        None => ("", ""),
        Some(cause) => outcome_sign(cause),
    };
    let by = decided.refused.map_or("", by_word);
    write!(
        out,
        "<td data-label='refused by'><strong class='{class}'>{sign} {by}</strong> \
         <code>{word}</code> <small>{meaning}</small></td>"
    )
}

/// Returns the word for what refused an access.
fn by_word(cause: Cause) -> &'static str {
    match cause {
        Cause::Mpu => "MPU",
        Cause::Bus => "bus",
    }
}

/// Writes the cells of what was recorded, and of the exception that became pending for it.
fn write_record<W: Write>(out: &mut W, recorded: &RecordedFault) -> io::Result<()> {
    let cfsr = recorded.cfsr;
    let hfsr = recorded.hfsr;
    let names = FaultNames { cfsr, hfsr };
    write!(
        out,
        "<td data-label='fault' data-cfsr='{cfsr:08X}' data-hfsr='{hfsr:08X}'>{names}</td>"
    )?;
    if recorded.exception == 0 {
        write!(out, "<td data-label='taken as'>lockup</td>")
    } else {
        let name = ExceptionName(recorded.exception);
        write!(out, "<td data-label='taken as'>{name}</td>")
    }
}
