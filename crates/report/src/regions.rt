//! The settings of regions: what each says, and what it decided.

use crate::page::{Part, Report, write_part};
use crate::rules::write_outcome;
use machine::Kind;
use page_text::names::Place;
use page_text::numbers::{ByteCount, Thousands};
use page_text::settings::{RegionWords, SubregionsOff};
use page_text::words::{KINDS, OUTCOMES, kind_word, privilege_letter};
use platform::mpu::MAX_REGIONS;
use std::io;
use std::io::Write;
use survey::{Setting, Settings};
use symbols::Symbols;

const CAPTION: &str =
    "Each row is one setting of a region (RBAR and RASR) under which the region decided \
accesses, and how many of each kind. A region that was set anew has a row for each setting, in the order in \
which they first decided.";

/// Writes the part.
pub fn write_regions<W: Write>(out: &mut W, report: &Report<'_>) -> io::Result<()> {
    let settings = &report.survey.settings;
    write_part(out, Part::Settings, CAPTION)?;
    write_table(out, settings, report.symbols)?;
    writeln!(out, "</section>")
}

/// Writes the table of the settings, and how many accesses are in no row.
fn write_table<W: Write>(
    out: &mut W,
    settings: &Settings,
    symbols: &Symbols<'_>,
) -> io::Result<()> {
    writeln!(
        out,
        "<div class='scroll'><table class='cards'><thead><tr><th scope='col'>region</th><th scope='col'>addresses</th>\
         <th scope='col'>size</th><th class='u' scope='col'>unprivileged may</th>\
         <th class='p' scope='col'>privileged may</th><th scope='col'>fetches</th>\
         <th scope='col'>subregions off</th>\
         <th class='u' scope='col'>unprivileged did</th><th class='p' scope='col'>privileged did</th>\
         </tr></thead>\n<tbody>"
    )?;
    'regions: for number in 0..MAX_REGIONS {
        write_region(out, settings, number, symbols)?;
    }
    writeln!(out, "</tbody></table></div>")?;
    let others = settings.others();
    if others > 0 {
        let shown = Thousands(others);
        writeln!(
            out,
            "<p id='other-settings' data-number='{others}'>Accesses that further settings decided: {shown}.</p>"
        )?;
    }
    Ok(())
}

/// Writes the rows of the settings of a region.
fn write_region<W: Write>(
    out: &mut W,
    settings: &Settings,
    number: u8,
    symbols: &Symbols<'_>,
) -> io::Result<()> {
    'settings: for (place, setting) in settings.rows().iter().enumerate() {
        if setting.region.number == number {
            write_setting(out, place, setting, symbols)?;
        }
    }
    Ok(())
}

/// Writes the row of a setting.
fn write_setting<W: Write>(
    out: &mut W,
    place: usize,
    setting: &Setting,
    symbols: &Symbols<'_>,
) -> io::Result<()> {
    let number = setting.region.number;
    let base = setting.region.base;
    let attributes = setting.region.attributes;
    write!(
        out,
        "<tr id='s{place}' data-region='{number}' data-rbar='{base:08X}' data-rasr='{attributes:08X}'>\
         <th scope='row'><code>r{number}</code> \
         <small>RBAR {base:08X}<br>RASR {attributes:08X}</small></th>"
    )?;
    write_words(out, RegionWords { base, attributes }, symbols)?;
    write_ways(out, place, setting, false)?;
    write_ways(out, place, setting, true)?;
    writeln!(out, "</tr>")
}

/// Writes a setting in words: the cells for its addresses, its size, what it grants, whether instructions are
/// fetched from it, and its subregions.
pub fn write_words<W: Write>(
    out: &mut W,
    words: RegionWords,
    symbols: &Symbols<'_>,
) -> io::Result<()> {
    let first = Place {
        address: words.first(),
        symbols,
    };
    let last = words.last();
    let size = ByteCount(words.bytes());
    let unprivileged = words.permission(false);
    let privileged = words.permission(true);
    let executed = if words.is_execute_never() {
        "never executed"
    } else {
        "where it may be read"
    };
    let off = SubregionsOff(words);
    write!(
        out,
        "<td data-label='addresses'>{first} to <code>{last:08X}</code></td>\
         <td class='n' data-label='size'>{size}</td>\
         <td class='u' data-label='unprivileged may'>{unprivileged}</td>\
         <td class='p' data-label='privileged may'>{privileged}</td>\
         <td data-label='fetches'>{executed}</td>\
         <td data-label='subregions off'>{off}</td>"
    )
}

/// Writes the cell of what a setting decided for code of a privilege.
fn write_ways<W: Write>(
    out: &mut W,
    place: usize,
    setting: &Setting,
    privileged: bool,
) -> io::Result<()> {
    let letter = privilege_letter(privileged);
    let label = if privileged {
        "privileged did"
    } else {
        "unprivileged did"
    };
    write!(out, "<td class='{letter}' data-label='{label}'>")?;
    'kinds: for kind in KINDS {
        write_way(out, place, setting, privileged, kind)?;
    }
    write!(out, "</td>")
}

/// Writes how many accesses of a privilege and kind a setting decided, if there are any.
fn write_way<W: Write>(
    out: &mut W,
    place: usize,
    setting: &Setting,
    privileged: bool,
    kind: Kind,
) -> io::Result<()> {
    let letter = privilege_letter(privileged);
    let word = kind_word(kind);
    'outcomes: for refused in OUTCOMES {
        let number = setting.number(privileged, kind, refused);
        if number > 0 {
            write!(out, "<div>{word} <span id='s{place}-{letter}-{word}-")?;
            write_outcome(out, refused, number)?;
            write!(out, "</div>")?;
        }
    }
    Ok(())
}
