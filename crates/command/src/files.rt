//! The arguments, and the files that they name.

ghost use Rattle.std.specs.Prelude.{◌≤◌, IfOk, vec_len};
ghost use Rattle.command.specs.Statuses.{max_bytes};

use std::io::Read;
use std::rt::{Env, Files};
use std::{env, fs, io, str};

/// The most bytes of a file: 16 MiB.
const LIMIT: u64 = 0x100_0000;

/// The most bytes of an argument whose place is found: 128 KiB, as Linux passes at most.
const MAX_ARGUMENT_BYTES: usize = 0x2_0000;

/// Returns all arguments, the program's name among them. The error for an argument that isn't a text says
/// which one it is.
pub fn words<R: Env + AllocGlobal>(rt: &R) -> io::Result<Vec<String>> {
    let mut words = Vec::new(rt.alloc());
    let args = match env::args(rt) {
        Ok(args) => args,
        Err(error) => return Err(with_position(rt, error)),
    };
    for word in args {
        words.push(word)?;
    }
    Ok(words)
}

/// Returns the error of arguments that can't be read, with the place of the one that isn't a text.
fn with_position<R: Env + AllocGlobal>(rt: &R, error: io::Error) -> io::Error {
    if !matches!(error.kind(), io::ErrorKind::InvalidData) {
        return error;
    }
    let message = match non_utf8_argument(rt) {
        Some(place) => {
            format!(in rt.alloc();
                "argument {place} isn't a text in UTF-8 (the program's name is argument 0)"
            )
        }
        None => "an argument isn't a text in UTF-8".to_string(rt.alloc()),
    };
    match message {
        Ok(text) => io::Error::new(io::ErrorKind::InvalidData, text.as_str()),
        Err(_) => error,
    }
}

/// Returns the place of the first argument that isn't a text: 0 for the program's name.
fn non_utf8_argument<R: Env + AllocGlobal>(rt: &R) -> Option<usize> {
    let mut room = Vec::new(rt.alloc());
    if room.resize(MAX_ARGUMENT_BYTES, 0u8).is_err() {
        return None;
    }
    'words: for place in 0..usize::MAX {
        let Ok(length) = rt.arg(place, room.as_mut_slice()) else {
            return None;
        };
        if str::from_utf8(room.as_slice().get(..length)?).is_err() {
            return Some(place);
        }
    }
    None
}

/// A file that was read.
#[derive(Clone, Copy)]
pub struct InputFile<'a> {
    pub path: &'a str,
    pub bytes: &'a [u8],
}

/// Why a file isn't read.
#[derive(Drop)]
pub enum FileError {
    /// It has more than 16 MiB.
    Size,
    /// The system refuses, or memory ran out.
    Read(io::Error),
}

/// Returns the bytes of a file, at most 16 MiB.
pub fn read_file<R: Files + AllocGlobal>(rt: &R, path: &str) -> Result<Vec<u8>, FileError>
    ensures { IfOk result (λ bytes. vec_len bytes ≤ max_bytes) }
{
    let mut bytes = Vec::new(rt.alloc());
    let file = match fs::open(rt, path) {
        Ok(file) => file,
        Err(error) => return Err(FileError::Read(error)),
    };
    match file.take(LIMIT + 1).read_to_end(&mut bytes) {
        Ok(_) => {}
        Err(error) => return Err(FileError::Read(error)),
    }
    if bytes.len() as u64 > LIMIT {
        return Err(FileError::Size);
    }
    Ok(bytes)
}
