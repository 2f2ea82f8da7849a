//! Runs images on a board, on `Slow` and on `Fast` step by step, and prints what each of them writes to its
//! console, and why its run ended. CI runs it over the firmware and the kernels of `examples` and compares
//! what it prints. Before that it writes the trace of an image on `Slow`, holds a debug session over two images, and
//! prints which answers differ.
#![tactic(auto)]

mod alike;
mod slow;

use alike::{Named, write_unlike};
use board::{Board, read_board};
use elf::{Image, load};
use machine::{Event, Events, Fast, Slow, Stop, event_line, stop_line};
use platform::event::EventKind;
use slow::run_image;
use std::alloc::Global;
use std::io::Write;
use std::{env, fs, io};

/// What is printed for words that don't fit.
const USAGE: &str =
    "usage: test_firmware [--slow BOARD STEPS IMAGE] [--fast | --alike COMMANDS IMAGE OTHER] BOARD IMAGE..";

/// How many steps an image has at most.
const MAX_STEPS: u32 = 20_000_000;

fn main(rt: HostRuntime) -> io::Result<()> {
    let mut words = Vec::new(rt.alloc());
    for word in env::args(&rt)? {
        words.push(word)?;
    }
    match words.as_slice() {
        [_, option, board, steps, image, rest @ ..] if option.as_str() == "--slow" => {
            print_slow(&rt, board.as_str(), steps.as_str(), image.as_str())?;
            if rest.is_empty() {
                return Ok(());
            }
            run_words(&rt, rest)
        }
        [_, rest @ ..] => run_words(&rt, rest),
        [] => rt.println(USAGE),
    }
}

/// Does what the words after those of `--slow` ask for.
fn run_words(rt: &HostRuntime, words: &[String]) -> io::Result<()> {
    let (asked, is_alone, rest) = match words {
        [option, commands, one, other, rest @ ..] if option.as_str() == "--alike" => {
            (Some((commands, one, other)), false, rest)
        }
        [option, rest @ ..] if option.as_str() == "--fast" => (None, true, rest),
        _ => (None, false, words),
    };
    let [path, images @ ..] = rest else {
        return rt.println(USAGE);
    };
    let text = fs::read_to_string(rt, path.as_str())?;
    let Ok(board) = read_board(rt.alloc(), text.as_str()) else {
        return println!(rt; "{path} is refused");
    };
    if let Some((commands, one, other)) = asked {
        print_unlike(rt, &board, commands.as_str(), one.as_str(), other.as_str())?;
    }
    for path in images {
        println!(rt; "{path}:")?;
        let image = fs::read(rt, path.as_str())?;
        let out = &mut io::writer(rt);
        match load(image.as_slice()) {
            Ok(image) if is_alone => run_fast(rt.alloc(), &board, &image, out)?,
            Ok(image) => run_both(rt.alloc(), &board, &image, out)?,
            Err(_) => out.write_all(b"the image is refused\n")?,
        }
    }
    Ok(())
}

/// Writes the trace of an image on a board on `Slow`.
fn print_slow(rt: &HostRuntime, board: &str, steps: &str, image: &str) -> io::Result<()> {
    let Ok(steps) = steps.parse::<u64>() else {
        return rt.println(USAGE);
    };
    let image = fs::read(rt, image)?;
    let text = fs::read_to_string(rt, board)?;
    let Ok(board) = read_board(rt.alloc(), text.as_str()) else {
        return rt.println("the board is refused");
    };
    run_image(rt.alloc(), image.as_slice(), &board, steps, io::writer(rt))
}

/// Holds the debug session of a file of commands over two images, and prints which answers differ, and how
/// each run of a task ended.
fn print_unlike(
    rt: &HostRuntime,
    board: &Board,
    commands: &str,
    one: &str,
    other: &str,
) -> io::Result<()> {
    println!(rt; "{one} and {other}:")?;
    let commands = fs::read(rt, commands)?;
    let image = fs::read(rt, one)?;
    let other_image = fs::read(rt, other)?;
    write_unlike(
        rt.alloc(),
        board,
        commands.as_slice(),
        Named {
            path: one,
            image: image.as_slice(),
        },
        Named {
            path: other,
            image: other_image.as_slice(),
        },
        &mut io::writer(rt),
    )
}

/// Runs an image on `Fast` alone, and writes its console bytes and the line of its stop.
fn run_fast<W: Write>(
    alloc: Global,
    board: &Board,
    image: &Image<'_>,
    out: &mut W,
) -> io::Result<()> {
    let Ok(mut machine) = Fast::new(alloc, image, board) else {
        return out.write_all(b"the machine doesn't start\n");
    };
    let mut events = Events::new();
    for _ in 0..MAX_STEPS {
        let stop = machine.step(&mut events);
        write_console(events.as_slice(), out)?;
        if let Some(stop) = stop {
            return out.write_all(stop_line(&stop).as_slice());
        }
    }
    out.write_all(stop_line(&Stop::StepLimit).as_slice())
}

/// Runs an image on both machines, and writes its console bytes and the line of its stop.
fn run_both<W: Write>(
    alloc: Global,
    board: &Board,
    image: &Image<'_>,
    out: &mut W,
) -> io::Result<()> {
    let (Ok(mut slow), Ok(mut fast)) = (
        Slow::new(alloc, image, board),
        Fast::new(alloc, image, board),
    ) else {
        return out.write_all(b"the machine doesn't start\n");
    };
    match run_machines(&mut slow, &mut fast, out)? {
        Some(stop) => out.write_all(stop_line(&stop).as_slice()),
        None => out.write_all(b"the two machines differ\n"),
    }
}

/// Steps both machines up to the first stop. Returns None where a step of one isn't that of the other.
fn run_machines<W: Write>(
    slow: &mut Slow,
    fast: &mut Fast,
    out: &mut W,
) -> io::Result<Option<Stop>> {
    let mut events = Events::new();
    let mut others = Events::new();
    for _ in 0..MAX_STEPS {
        let stop = slow.step(&mut events);
        let other = fast.step(&mut others);
        write_console(events.as_slice(), out)?;
        if !are_alike(events.as_slice(), others.as_slice()) || !stop_alike(stop, other) {
            return Ok(None);
        }
        if stop.is_some() {
            return Ok(stop);
        }
    }
    Ok(Some(Stop::StepLimit))
}

/// Returns whether the lines of two lists of events are the same.
fn are_alike(events: &[Event], others: &[Event]) -> bool {
    if events.len() != others.len() {
        return false;
    }
    for (event, other) in events.iter().zip(others) {
        if event_line(event).as_slice() != event_line(other).as_slice() {
            return false;
        }
    }
    true
}

/// Returns whether both machines stopped, with the same line, or neither did.
fn stop_alike(stop: Option<Stop>, other: Option<Stop>) -> bool {
    match (stop, other) {
        (None, None) => true,
        (Some(stop), Some(other)) => stop_line(&stop).as_slice() == stop_line(&other).as_slice(),
        (None, Some(_)) | (Some(_), None) => false,
    }
}

/// Writes the console bytes among the events of a step.
fn write_console<W: Write>(events: &[Event], out: &mut W) -> io::Result<()> {
    for event in events {
        if let EventKind::ConsoleByte(byte) = event.what {
            out.write_all(&[byte])?;
        }
    }
    Ok(())
}
