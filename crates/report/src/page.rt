//! The page: its head, its figures, and its parts one after another.

use crate::code::write_code;
use crate::console::write_console;
use crate::end::write_end;
use crate::faults::write_faults;
use crate::memory::write_memory;
use crate::regions::write_regions;
use crate::rules::write_rules;
use crate::style::STYLE;
use crate::timeline::write_timeline;
use crate::worlds::write_worlds;
use access_map::Worlds;
use machine::{Fast, Stop, stop_line};
use page_text::access_table::AccessTable;
use page_text::escape::Escaped;
use page_text::numbers::Thousands;
use page_text::sums::{accesses, handlers, refused};
use platform::access::Cause;
use std::io::Write;
use std::{io, str};
use survey::Survey;
use symbol_steps::Totals;
use symbols::Symbols;

/// What a page is made of.
#[derive(Clone, Copy)]
pub struct Report<'a> {
    /// The name of the image's file.
    pub image: &'a str,
    /// The name of the board's file.
    pub board: &'a str,
    /// How many steps the run could make.
    pub limit: u64,
    /// Why the run ended.
    pub stop: Stop,
    /// What the run did.
    pub survey: &'a Survey,
    /// The machine after the run.
    pub machine: &'a Fast,
    /// The names of addresses.
    pub symbols: &'a Symbols<'a>,
    /// The settings of the MPU under which unprivileged code ran.
    pub worlds: &'a Worlds,
    /// What it could touch under them.
    pub access_table: &'a AccessTable,
}

/// A part of the page.
#[derive(Clone, Copy)]
pub enum Part {
    Rules,
    Settings,
    Worlds,
    Faults,
    Code,
    Time,
    Memory,
    End,
    Console,
}

impl Part {
    /// The parts, in their order.
    const ALL: [Part; 9] = [
        Part::Rules,
        Part::Settings,
        Part::Worlds,
        Part::Faults,
        Part::Code,
        Part::Time,
        Part::Memory,
        Part::End,
        Part::Console,
    ];

    /// Returns its id.
    fn id(self) -> &'static str {
        match self {
            Part::Rules => "rules",
            Part::Settings => "settings",
            Part::Worlds => "worlds",
            Part::Faults => "faults",
            Part::Code => "code",
            Part::Time => "time",
            Part::Memory => "memory",
            Part::End => "end",
            Part::Console => "console",
        }
    }

    /// Returns its heading.
    fn heading(self) -> &'static str {
        match self {
            Part::Rules => "Who touched what",
            Part::Settings => "Settings of regions",
            Part::Worlds => "Who may touch what",
            Part::Faults => "Faults",
            Part::Code => "Where the steps went",
            Part::Time => "Time",
            Part::Memory => "Memory",
            Part::End => "At the end",
            Part::Console => "Console",
        }
    }

    /// Returns whether a report has anything to show in it.
    fn is_shown(self, report: &Report<'_>) -> bool {
        let survey = report.survey;
        match self {
            Part::Rules => accesses(&survey.counts) > 0,
            Part::Settings => !survey.settings.rows().is_empty(),
            Part::Worlds => !report.worlds.rows().is_empty(),
            Part::Faults => survey.faults.number() > 0,
            Part::Code => !report.symbols.list.is_empty() && Totals::of_all(survey).sum() > 0,
            Part::Time => survey.timeline.used() > 0,
            Part::Memory => true,
            Part::End => true,
            Part::Console => survey.console.number() > 0,
        }
    }

    /// Writes it.
    fn write<W: Write>(self, out: &mut W, report: &Report<'_>) -> io::Result<()> {
        match self {
            Part::Rules => write_rules(out, report),
            Part::Settings => write_regions(out, report),
            Part::Worlds => {
                write_worlds(out, report.worlds, report.access_table, report.symbols)
            }
            Part::Faults => write_faults(out, report),
            Part::Code => write_code(out, report),
            Part::Time => write_timeline(out, report),
            Part::Memory => write_memory(out, report),
            Part::End => write_end(out, report),
            Part::Console => write_console(out, report),
        }
    }
}

/// Writes a report as one HTML page, complete in itself. The page has less than 2 MiB for every report. It is
/// written in small pieces: give a writer that gathers them.
pub fn write_page<W: Write>(out: &mut W, report: &Report<'_>) -> io::Result<()> {
    write_head(out, report)?;
    write_figures(out, report)?;
    write_contents(out, report)?;
    'parts: for part in Part::ALL {
        if part.is_shown(report) {
            part.write(out, report)?;
        }
    }
    writeln!(out, "</main>\n</body>")
}

/// Writes the head of the page, and its title.
fn write_head<W: Write>(out: &mut W, report: &Report<'_>) -> io::Result<()> {
    let image = Escaped(file_name(report.image));
    let board = Escaped(file_name(report.board));
    writeln!(out, "<html lang='en'>\n<head>")?;
    writeln!(out, "<meta charset='utf-8'>")?;
    writeln!(
        out,
        "<meta name='viewport' content='width=device-width, initial-scale=1'>"
    )?;
    writeln!(out, "<meta name='color-scheme' content='light dark'>")?;
    writeln!(out, "<title>{image}</title>\n<style>")?;
    out.write_all(STYLE.as_bytes())?;
    writeln!(out, "</style>\n</head>\n<body>\n<main>")?;
    writeln!(
        out,
        "<h1><span id='image'>{image}</span> on <span id='board'>{board}</span></h1>"
    )
}

/// Writes how the run ended, and its figures.
fn write_figures<W: Write>(out: &mut W, report: &Report<'_>) -> io::Result<()> {
    let limit = Thousands(report.limit);
    let made = Thousands(report.survey.steps);
    let line = stop_line(&report.stop);
    let words = str::from_utf8(line.as_slice()).unwrap_or("stop");
    let words = Escaped(words.trim_end());
    let class = stop_class(&report.stop);
    writeln!(
        out,
        "<p class='ending'>Ended with <strong id='stop' class='{class}'>{words}</strong>, \
         after {made} of at most <span id='limit'>{limit}</span> steps.</p>\n<dl class='figures'>"
    )?;
    let survey = report.survey;
    let counts = &survey.counts;
    let refused = refused(counts, Cause::Mpu).saturating_add(refused(counts, Cause::Bus));
    write_figure(out, "steps", survey.steps, "step", "steps")?;
    write_figure(out, "accesses", accesses(counts), "access", "accesses")?;
    write_figure(
        out,
        "refused",
        refused,
        "access refused",
        "accesses refused",
    )?;
    write_figure(out, "all-faults", survey.faults.number(), "fault", "faults")?;
    write_figure(
        out,
        "handlers",
        handlers(counts),
        "handler entered",
        "handlers entered",
    )?;
    writeln!(out, "</dl>")?;
    write_damage(out, report.symbols)
}

/// Writes that the image has no names, where its symbol table is damaged.
fn write_damage<W: Write>(out: &mut W, symbols: &Symbols<'_>) -> io::Result<()> {
    if symbols.damaged {
        writeln!(
            out,
            "<p id='damaged'>The symbol table of the image is damaged: addresses have no names.</p>"
        )
    } else {
        Ok(())
    }
}

/// Writes a figure: its number and what it counts, in the singular or the plural.
fn write_figure<W: Write>(
    out: &mut W,
    id: &str,
    number: u64,
    one: &str,
    many: &str,
) -> io::Result<()> {
    let shown = Thousands(number);
    let label = if number == 1 { one } else { many };
    writeln!(
        out,
        "<div><dd id='{id}' data-number='{number}'>{shown}</dd><dt>{label}</dt></div>"
    )
}

/// Returns the name of a file, without its folder.
fn file_name(path: &str) -> &str {
    match path.rsplit_once('/') {
        Some((_, name)) => name,
        None => path,
    }
}

/// Returns the class of a stop: whether a run should end so.
fn stop_class(stop: &Stop) -> &'static str {
    match stop {
        Stop::StepLimit | Stop::Breakpoint(0) => "ended",
        Stop::Breakpoint(_)
        | Stop::Lockup
        | Stop::Unpredictable(_)
        | Stop::OutOfProfile(_)
        | Stop::ResetRequested => "stopped",
    }
}

/// Writes links to the parts.
fn write_contents<W: Write>(out: &mut W, report: &Report<'_>) -> io::Result<()> {
    write!(out, "<nav>")?;
    'parts: for part in Part::ALL {
        if part.is_shown(report) {
            let id = part.id();
            let heading = part.heading();
            write!(out, "<a href='#{id}'>{heading}</a> ")?;
        }
    }
    writeln!(out, "</nav>")
}

/// Writes the beginning of a part: its heading, and a sentence on how to read it.
pub fn write_part<W: Write>(out: &mut W, part: Part, caption: &str) -> io::Result<()> {
    let id = part.id();
    let heading = part.heading();
    writeln!(
        out,
        "<section id='{id}'>\n<h2>{heading}</h2>\n<p class='caption'>{caption}</p>"
    )
}
