//! A file system whose files take few bytes a write.

use super::cut::Cut;
use super::files::{FIRST, NO_INPUT, SMALL};
use command::program;
use std::alloc::Allocator;
use std::fs::{File, Metadata, OpenFile, OpenOptions};
use std::io::{Read, Seek, SeekFrom, Write};
use std::rt::Files;
use std::test::*;
use std::{fs, io};

/// The most bytes that a file takes in a write.
const MAX_WRITTEN: usize = 7;

/// The files of the system, each of which takes at most 7 bytes a write.
#[derive(Clone, Copy)]
struct ShortFiles<'a> {
    rt: &'a HostRuntime,
}

/// A file that takes at most 7 bytes a write.
#[derive(Drop)]
struct ShortFile {
    file: File,
}

impl Read for ShortFile {
    fn read(&mut self, buf: &mut [u8]) -> io::Result<usize> {
        self.file.read(buf)
    }
}

impl Write for ShortFile {
    fn write(&mut self, buf: &[u8]) -> io::Result<usize> {
        let taken = buf.len().min(MAX_WRITTEN);
        self.file.write(&buf[..taken])
    }

    fn flush(&mut self) -> io::Result<()> {
        self.file.flush()
    }
}

impl Seek for ShortFile {
    fn seek(&mut self, to: SeekFrom) -> io::Result<u64> {
        self.file.seek(to)
    }
}

impl OpenFile for ShortFile {
    fn metadata(&self) -> io::Result<Metadata> {
        self.file.metadata()
    }

    fn set_len(&self, size: u64) -> io::Result<()> {
        self.file.set_len(size)
    }

    fn sync_all(&self) -> io::Result<()> {
        self.file.sync_all()
    }

    fn sync_data(&self) -> io::Result<()> {
        self.file.sync_data()
    }
}

/// Returns the error of what no test needs.
fn unsupported() -> io::Error {
    io::Error::from(io::ErrorKind::Unsupported)
}

impl Files for ShortFiles<'_> {
    type File = ShortFile;

    type Dir = <HostRuntime as Files>::Dir;

    fn open_file(&self, how: &OpenOptions, path: &str) -> io::Result<ShortFile> {
        let file = self.rt.open_file(how, path)?;
        Ok(ShortFile { file })
    }

    fn open_dir(&self, _path: &str) -> io::Result<<HostRuntime as Files>::Dir> {
        Err(unsupported())
    }

    fn metadata(&self, _path: &str) -> io::Result<Metadata> {
        Err(unsupported())
    }

    fn symlink_metadata(&self, _path: &str) -> io::Result<Metadata> {
        Err(unsupported())
    }

    fn copy(&self, _from: &str, _to: &str) -> io::Result<u64> {
        Err(unsupported())
    }

    fn rename(&self, _from: &str, _to: &str) -> io::Result<()> {
        Err(unsupported())
    }

    fn remove_file(&self, _path: &str) -> io::Result<()> {
        Err(unsupported())
    }

    fn create_dir(&self, _path: &str) -> io::Result<()> {
        Err(unsupported())
    }

    fn remove_dir(&self, _path: &str) -> io::Result<()> {
        Err(unsupported())
    }

    fn remove_dir_all<B: Allocator>(&self, _alloc: B, _path: &str) -> io::Result<()> {
        Err(unsupported())
    }
}

/// The paths of the files of a run.
const IMAGE: &str = "short.elf";

const BOARD: &str = "short.toml";

const STATE: &str = "short.txt";

/// The state after the first image's run: R0 is 5, PC is at the BKPT, and two ticks have gone by. The other values
/// are those of a reset (B1.5.5, B3.2), with the first word of the image as MSP.
const LAST_STATE: &str = "\
R0 00000005
R1 00000000
R2 00000000
R3 00000000
R4 00000000
R5 00000000
R6 00000000
R7 00000000
R8 00000000
R9 00000000
R10 00000000
R11 00000000
R12 00000000
MSP 20001000
PSP 00000000
LR FFFFFFFF
PC 0000000A
XPSR 01000000
CONTROL 00000000
PRIMASK 00000000
FAULTMASK 00000000
BASEPRI 00000000
CLOCK 2
CFSR 00000000
HFSR 00000000
MMFAR 00000000
BFAR 00000000
VTOR 00000000
CCR 00000200
r0 00000000 00000000
r1 00000001 00000000
r2 00000002 00000000
r3 00000003 00000000
r4 00000004 00000000
r5 00000005 00000000
r6 00000006 00000000
r7 00000007 00000000
PENDING
ACTIVE
";

/// Runs the first image with `--state`, and returns whether the status is 0 and nothing is on standard error.
fn is_written(rt: &HostRuntime) -> io::Result<bool> {
    let mut words = Vec::new(rt.alloc());
    let given = [
        "marm", "run", "--board", BOARD, "--steps", "10", "--state", STATE, IMAGE,
    ];
    'words: for word in given.iter() {
        words.push(word.to_string(rt.alloc())?)?;
    }
    fs::write(rt, IMAGE, FIRST.as_slice())?;
    fs::write(rt, BOARD, SMALL.as_bytes())?;
    let files = (ShortFiles { rt }, rt.alloc());
    let mut out = Cut::whole();
    let mut err = Cut::whole();
    let status = program(&files, words.as_slice(), NO_INPUT, &mut out, &mut err);
    fs::remove_file(rt, IMAGE)?;
    fs::remove_file(rt, BOARD)?;
    Ok(status == 0 && err.text.is_empty())
}

/// A file that takes few bytes a write has the whole state: it is created once.
#[test]
fn a_file_that_takes_few_bytes_has_the_whole_state(rt: HostRuntime) -> Result<(), Fail> {
    assert!(rt; is_written(&rt)?);
    let state = fs::read(&rt, STATE)?;
    fs::remove_file(&rt, STATE)?;
    assert!(rt; state.as_slice() == LAST_STATE.as_bytes());
    Ok(())
}
