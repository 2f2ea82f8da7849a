//! A report from the bytes of an image and of a board.

ghost use Rattle.std.specs.Prelude.{◌≡◌};
ghost use Rattle.command.specs.Opening.{board_in_file};
ghost use Rattle.command.specs.Reports.{PutsPage, ReportsTo, Surveys};
ghost use Rattle.platform.specs.Images.{image_of};

use crate::error::{Error, stop_status};
use crate::files::InputFile;
use crate::opening::{Opened, open};
use crate::reason::refuse;
use crate::sending::send;
use access_map::Worlds;
use machine::{Out, StartError, Stop};
use page_text::access_table::AccessTable;
use page_text::html_page::HtmlPage;
use report::{Report, write_page};
use std::alloc::Global;
use std::io::Write;
use survey::Survey;
use survey_run::{WorldCount, survey_run};
use symbols::Symbols;

/// The most bytes of a page: 2 MiB.
const PAGE_BYTES: usize = 0x20_0000;

/// Runs an image on a board for at most `steps` steps, and writes a page about the run to `out`, or the
/// refusal to `err`, the error first and then its reason. Returns the exit status: 0 after all steps or at a
/// breakpoint, 3 for a refused image, board or start, or where memory runs out, 4 at another stop, 5 where `out`
/// failed.
#[inline(never)]
pub fn report<O: Out, E: Write>(
    alloc: Global,
    image: InputFile<'_>,
    board: InputFile<'_>,
    steps: u64,
    out: &mut O,
    err: &mut E,
) -> u8
    ensures { ReportsTo (image_of image.entry.bytes.now) (board_in_file board.entry.bytes.now) steps
        (O.writing out.old) (O.writing out.new) result }
{
    let opened = match open(alloc, image.bytes, board.bytes) {
        Ok(opened) => opened,
        Err(error) => return refuse(alloc, error, image, board, err),
    };
    match survey_machine(alloc, opened, image, board, steps, out) {
        Ok(stop) => stop_status(stop),
        Err(error) => refuse(alloc, error, image, board, err),
    }
}

/// Makes the steps of a machine, and writes the page about them. Memory for what is counted and for the page
/// is taken before the first step, and memory for what the worlds of the run may touch before the page is written.
fn survey_machine<O: Out>(
    alloc: Global,
    opened: Opened,
    image: InputFile<'_>,
    board: InputFile<'_>,
    steps: u64,
    out: &mut O,
) -> Result<Stop, Error>
    ensures { Surveys steps opened.machine.state (O.writing out.old) (O.writing out.new) result }
{
    let Ok(mut survey) = Survey::new(alloc, &opened.layout) else {
        return Err(Error::Start(StartError::NoMemory));
    };
    let Ok(worlds) = Worlds::new(alloc) else {
        return Err(Error::Start(StartError::NoMemory));
    };
    let Ok(symbols) = Symbols::read(alloc, image.bytes) else {
        return Err(Error::Start(StartError::NoMemory));
    };
    let Ok(page) = HtmlPage::new(alloc, PAGE_BYTES) else {
        return Err(Error::Start(StartError::NoMemory));
    };
    let layout = opened.layout;
    let mut machine = opened.machine;
    let mut count = WorldCount::new(worlds);
    let stop = survey_run(&mut machine, steps, &mut survey, &mut count);
    let Ok(access_table) = AccessTable::of(alloc, count.worlds(), &layout) else {
        return Err(Error::Start(StartError::NoMemory));
    };
    let run = Report {
        image: image.path,
        board: board.path,
        limit: steps,
        stop,
        survey: &survey,
        machine: &machine,
        symbols: &symbols,
        worlds: count.worlds(),
        access_table: &access_table,
    };
    put_page(&run, page, out)?;
    Ok(stop)
}

/// Makes a page whole, and then sends it.
fn put_page<O: Out>(run: &Report<'_>, page: HtmlPage, out: &mut O) -> Result<(), Error>
    ensures { PutsPage (O.writing out.old) (O.writing out.new) result }
{
    let mut page = page;
    if write_page(&mut page, run).is_err() {
        return Err(Error::Start(StartError::NoMemory));
    }
    let Ok(page) = page.end() else {
        return Err(Error::Start(StartError::NoMemory));
    };
    match send(page.as_slice(), out) {
        Ok(()) => Ok(()),
        Err(_) => Err(Error::Io),
    }
}
