//! The page of a run of two steps, and a page in memory.

use access_map::Worlds;
use elf::load;
use machine::{Board, Events, Fast, Layout, SMALL_BOARD, Stop};
use page_text::access_table::AccessTable;
use page_text::html_page::HtmlPage;
use report::{Report, write_page};
use std::io::Write;
use std::test::*;
use std::{io, str};
use survey::{StepStart, Survey};
use symbols::{Symbol, Symbols};

/// MOV R0, #5 and BKPT 0 at address 8: `examples/first.elf`.
pub(super) const IMAGE: [u8; 96] = [
    0x7F, b'E', b'L', b'F', 1, 1, 1, 0, 0, 0, 0, 0, 0, 0, 0, 0, 2, 0, 40, 0, 1, 0, 0, 0, 0, 0, 0,
    0, 52, 0, 0, 0, 0, 0, 0, 0, 0, 0, 0, 5, 52, 0, 32, 0, 1, 0, 0, 0, 0, 0, 0, 0, 1, 0, 0, 0, 84,
    0, 0, 0, 0, 0, 0, 0, 0, 0, 0, 0, 12, 0, 0, 0, 12, 0, 0, 0, 5, 0, 0, 0, 4, 0, 0, 0, 0, 0x10, 0,
    0x20, 9, 0, 0, 0, 0x05, 0x20, 0x00, 0xBE,
];

/// A writer that takes a number of bytes, and then fails.
#[derive(Drop)]
struct Room {
    bytes: Vec<u8>,
    left: usize,
}

impl Write for Room {
    fn write(&mut self, buf: &[u8]) -> io::Result<usize> {
        if buf.len() > self.left {
            return Err(io::Error::from(io::ErrorKind::StorageFull));
        }
        self.left -= buf.len();
        self.bytes.write(buf)
    }

    fn flush(&mut self) -> io::Result<()> {
        Ok(())
    }
}

/// Makes a step of a machine, and adds it to a survey.
fn survey_step(machine: &mut Fast, survey: &mut Survey) -> Option<Stop> {
    let mut events = Events::new();
    let moment = StepStart {
        pc: machine.regs().pc,
        exception: 0,
        privileged: true,
        asleep: false,
        mpu: *machine.mpu(),
    };
    survey.begin_step(&moment);
    let stop = machine.step(&mut events);
    survey.take_events(&moment, events.as_slice());
    survey.end_step();
    stop
}

/// Writes the page of two steps of the image into a writer. Returns whether all of it was written.
fn write_to(rt: &HostRuntime, room: &mut Room, symbols: &Symbols<'_>) -> Result<bool, Fail> {
    write_with(rt, room, symbols, &Worlds::new(rt.alloc())?, &SMALL_BOARD)
}

/// Returns the page of two steps of the image, with the worlds of a run on a board.
pub(super) fn page_with(
    rt: &HostRuntime,
    symbols: &Symbols<'_>,
    worlds: &Worlds,
    board: &Layout,
) -> Result<Vec<u8>, Fail> {
    let mut page = Vec::new(rt.alloc());
    if write_with(rt, &mut page, symbols, worlds, board)? {
        Ok(page)
    } else {
        Err(Fail::new("a page that is written"))
    }
}

/// Writes the page of two steps of the image, with the worlds of a run on a board, into a writer. Returns whether all
/// of it was written.
fn write_with<W: Write>(
    rt: &HostRuntime,
    out: &mut W,
    symbols: &Symbols<'_>,
    worlds: &Worlds,
    board: &Layout,
) -> Result<bool, Fail> {
    let alloc = rt.alloc();
    let small = Board {
        layout: SMALL_BOARD,
        events: Vec::new(alloc),
        devices: Vec::new(alloc),
    };
    let image = load(&IMAGE)?;
    let mut machine = Fast::new(alloc, &image, &small)?;
    let mut survey = Survey::new(alloc, &SMALL_BOARD)?;
    let _ = survey_step(&mut machine, &mut survey);
    let stop = survey_step(&mut machine, &mut survey);
    let access_table = AccessTable::of(alloc, worlds, board)?;
    let report = Report {
        image: "images/<first>.elf",
        board: "small.toml",
        limit: 10,
        stop: stop.unwrap_or(Stop::StepLimit),
        survey: &survey,
        machine: &machine,
        symbols,
        worlds,
        access_table: &access_table,
    };
    Ok(write_page(out, &report).is_ok())
}

/// Returns a writer with room for a number of bytes.
fn room_for(rt: &HostRuntime, left: usize) -> Room {
    Room {
        bytes: Vec::new(rt.alloc()),
        left,
    }
}

/// Returns the symbols of a table in which `start` is at 8, of 4 bytes.
pub(super) fn start_symbol(rt: &HostRuntime) -> Result<Symbols<'static>, Fail> {
    let mut list = Vec::new(rt.alloc());
    list.push(Symbol {
        address: 8,
        size: 4,
        name: 1,
    })?;
    Ok(Symbols {
        strings: b"\0start\0",
        list,
        damaged: false,
    })
}

/// Texts that the page of the run has: its names, its end, and its numbers. A breakpoint leaves the PC at its
/// own address.
const PARTS: [&str; 9] = [
    "<title>&lt;first&gt;.elf</title>",
    "<strong id='stop' class='ended'>stop breakpoint 0</strong>",
    "<dd id='steps' data-number='2'>2</dd>",
    "<dd id='accesses' data-number='2'>2</dd>",
    "<dd id='refused' data-number='0'>0</dd>",
    "<span id='off-p-fetch-granted' data-number='2'>2</span>",
    "<dd id='R0'><code>00000005</code></dd>",
    "<dd id='PC'><code>0000000A</code> <span class='name'>start + 0x2</span></dd>",
    "data-first='00000000' data-u='-' data-p='x' data-may='rwx'>",
];

#[test]
fn a_run_has_a_page(rt: HostRuntime) -> Result<(), Fail> {
    let mut room = room_for(&rt, 0x20_0000);
    let symbols = start_symbol(&rt)?;
    assert!(rt; write_to(&rt, &mut room, &symbols)?);
    let text = str::from_utf8(room.bytes.as_slice())?;
    assert!(rt; text.starts_with("<html lang='en'>\n"));
    assert!(rt; text.ends_with("</body>\n"));
    assert!(rt; !text.contains("id='damaged'"));
    'parts: for part in &PARTS {
        assert!(rt; text.contains(part), "{part}");
    }
    Ok(())
}

#[test]
fn a_damaged_symbol_table_has_a_line(rt: HostRuntime) -> Result<(), Fail> {
    let mut room = room_for(&rt, 0x20_0000);
    let symbols = Symbols::read(rt.alloc(), b"no ELF file")?;
    assert!(rt; write_to(&rt, &mut room, &symbols)?);
    let text = str::from_utf8(room.bytes.as_slice())?;
    assert!(rt; text.contains("<p id='damaged'>The symbol table of the image is damaged"));
    assert!(rt; text.contains("<dd id='PC'><code>0000000A</code></dd>"));
    Ok(())
}

#[test]
fn a_writer_that_fails_is_an_error(rt: HostRuntime) -> Result<(), Fail> {
    let symbols = start_symbol(&rt)?;
    'rooms: for left in [0usize, 1, 100, 5000, 10_000, 15_000] {
        let mut room = room_for(&rt, left);
        assert!(rt; !write_to(&rt, &mut room, &symbols)?, "{left} bytes");
        assert!(rt; room.bytes.len() <= left);
    }
    Ok(())
}

#[test]
fn a_page_has_its_first_and_its_last_line(rt: HostRuntime) -> Result<(), Fail> {
    let mut page = HtmlPage::new(rt.alloc(), 64)?;
    page.write_all(b"<html>\n")?;
    let bytes = page.end()?;
    assert!(rt; bytes.as_slice() == b"<!DOCTYPE html>\n<html>\n</html>\n".as_slice());
    Ok(())
}
