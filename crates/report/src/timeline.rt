//! Time: what ran when, a lane for each thing that ran.

use crate::page::{Part, Report, write_part};
use page_text::grid::{Area, write_area};
use page_text::lanes::{Lane, LaneId};
use page_text::numbers::Thousands;
use std::io;
use std::io::Write;
use survey::{Mark, Timeline};

const CAPTION: &str =
    "A lane is marked where its code ran, from the first tick at the left to the last at the \
right. <span class='u'>Unprivileged</span> code and <span class='p'>privileged</span> code have lanes of their \
own; a handler is always privileged. <span class='refused'>✕ Refused accesses</span> go as a line through all \
lanes, and <span class='mpu'>▲ writes to the MPU</span> have a lane.";

/// How high a lane is, in units of its drawing.
const LANE_HEIGHT: usize = 10;

/// Writes the part.
pub fn write_timeline<W: Write>(out: &mut W, report: &Report<'_>) -> io::Result<()> {
    let timeline = &report.survey.timeline;
    write_part(out, Part::Time, CAPTION)?;
    let ticks = timeline.column_ticks();
    let used = timeline.used();
    writeln!(
        out,
        "<div class='lanes' data-columns='{used}' data-column-ticks='{ticks}'>"
    )?;
    write_used_lane(out, timeline, Lane::Unprivileged, Mark::Unprivileged)?;
    write_used_lane(out, timeline, Lane::Privileged, Mark::Privileged)?;
    write_handlers(out, timeline)?;
    write_used_lane(out, timeline, Lane::OtherHandlers, Mark::OtherHandler)?;
    write_used_lane(out, timeline, Lane::Sleep, Mark::Sleep)?;
    write_used_lane(out, timeline, Lane::Refused, Mark::Refused)?;
    write_used_lane(out, timeline, Lane::MpuWritten, Mark::MpuWritten)?;
    write_axis(out, timeline, report.survey.steps)?;
    writeln!(out, "</div>\n</section>")
}

/// Writes the lanes of the handlers that ran.
fn write_handlers<W: Write>(out: &mut W, timeline: &Timeline) -> io::Result<()> {
    'handlers: for (place, exception) in timeline.handlers().iter().enumerate() {
        if let Ok(number) = u8::try_from(place) {
            write_lane(
                out,
                timeline,
                Lane::Handler(*exception),
                Mark::Handler(number),
            )?;
        }
    }
    Ok(())
}

/// Writes a lane, if a column has its mark.
fn write_used_lane<W: Write>(
    out: &mut W,
    timeline: &Timeline,
    lane: Lane,
    mark: Mark,
) -> io::Result<()> {
    if columns_marked(timeline, mark) > 0 {
        write_lane(out, timeline, lane, mark)
    } else {
        Ok(())
    }
}

/// Returns how many columns have a mark.
fn columns_marked(timeline: &Timeline, mark: Mark) -> u64 {
    let mut count = 0u64;
    'columns: for column in 0..timeline.used() {
        if timeline.is_marked(column, mark) {
            count = count.saturating_add(1);
        }
    }
    count
}

/// Writes a lane.
fn write_lane<W: Write>(
    out: &mut W,
    timeline: &Timeline,
    lane: Lane,
    mark: Mark,
) -> io::Result<()> {
    let id = LaneId(lane);
    let class = lane.class();
    let count = columns_marked(timeline, mark);
    let used = timeline.used();
    write!(
        out,
        "<div class='lane' id='{id}' data-columns='{count}'><span class='label'>{lane}</span>\
         <svg class='{class}' viewBox='0 0 {used} {LANE_HEIGHT}' preserveAspectRatio='none' role='img'>\
         <title>{lane}</title><path d='"
    )?;
    write_columns(out, timeline, mark)?;
    write!(out, "'/>")?;
    match lane {
        Lane::Unprivileged
        | Lane::Privileged
        | Lane::Handler(_)
        | Lane::OtherHandlers
        | Lane::Sleep => write_use(out, timeline)?,
        Lane::Refused => write_refused_lines(out, timeline)?,
        Lane::MpuWritten => {}
    }
    writeln!(out, "</svg></div>")
}

/// Writes the path of the columns that have a mark: a box for each run of them.
fn write_columns<W: Write>(out: &mut W, timeline: &Timeline, mark: Mark) -> io::Result<()> {
    let used = timeline.used();
    let mut begin = None;
    'columns: for column in 0..used {
        if timeline.is_marked(column, mark) {
            begin = begin.or(Some(column));
        } else if let Some(first) = begin {
            write_run(out, first, column)?;
            begin = None;
        }
    }
    match begin {
        Some(first) => write_run(out, first, used),
        None => Ok(()),
    }
}

/// Writes the box of the columns from `first` to the one before `end`.
fn write_run<W: Write>(out: &mut W, first: usize, end: usize) -> io::Result<()> {
    write_area(
        out,
        Area {
            left: first,
            top: 0,
            width: end.saturating_sub(first),
            height: LANE_HEIGHT,
        },
    )
}

/// Writes the lines of refused accesses through a lane, if there are any.
fn write_use<W: Write>(out: &mut W, timeline: &Timeline) -> io::Result<()> {
    if columns_marked(timeline, Mark::Refused) > 0 {
        write!(out, "<use href='#refused-lines'/>")
    } else {
        Ok(())
    }
}

/// Writes the lines of refused accesses, which the other lanes use.
fn write_refused_lines<W: Write>(out: &mut W, timeline: &Timeline) -> io::Result<()> {
    write!(out, "<defs><path id='refused-lines' class='through' d='")?;
    'columns: for column in 0..timeline.used() {
        if timeline.is_marked(column, Mark::Refused) {
            write!(out, "M{column}.5 0v{LANE_HEIGHT}")?;
        }
    }
    write!(out, "'/></defs>")
}

/// Writes the ticks below the lanes, and how many a column has.
fn write_axis<W: Write>(out: &mut W, timeline: &Timeline, last: u64) -> io::Result<()> {
    write!(
        out,
        "<div class='lane'><span class='label'>tick</span><div class='axis'>"
    )?;
    let mut before = None;
    'quarters: for quarter in 0..=4usize {
        let column = timeline.used().saturating_sub(1).saturating_mul(quarter) / 4;
        if before != Some(column) {
            write_tick(out, timeline, column, last)?;
        }
        before = Some(column);
    }
    writeln!(out, "</div></div>")?;
    let ticks = timeline.column_ticks();
    if ticks == 1 {
        writeln!(
            out,
            "<p class='scale'>A column of the drawing is a tick.</p>"
        )
    } else {
        let ticks = Thousands(ticks);
        writeln!(
            out,
            "<p class='scale'>A column of the drawing is {ticks} ticks, and is marked in each lane of \
             which one of them was.</p>"
        )
    }
}

/// Writes the first tick of a column below it; of the last column, if it isn't the first too, the last tick.
fn write_tick<W: Write>(
    out: &mut W,
    timeline: &Timeline,
    column: usize,
    last: u64,
) -> io::Result<()> {
    let used = timeline.used();
    let before = (column as u64).saturating_mul(timeline.column_ticks());
    let tick = Thousands(before.saturating_add(1));
    if column == 0 {
        write!(out, "<span class='first'>{tick}</span>")
    } else if column.saturating_add(1) == used {
        let last = Thousands(last);
        write!(out, "<span class='last'>{last}</span>")
    } else {
        let middle = column.saturating_mul(2).saturating_add(1);
        let tenths = middle.saturating_mul(500).checked_div(used).unwrap_or(0);
        let percent = tenths / 10;
        let tenth = tenths % 10;
        write!(out, "<span style='left:{percent}.{tenth}%'>{tick}</span>")
    }
}
