//! The bytes of memory that go to files after a run.

ghost use Rattle.std.specs.Prelude.{◌≡◌, IfOk, is_ok};
ghost use Rattle.command.specs.Dumping.{Dumps, DumpsAll, are_in_memory, bytes_from, are_all_in_memory};

use crate::file_writer::FileOut;
use command_line::Dump;
use machine::{Fast, Out};
use std::alloc::{AllocError, Global};
use std::io;

/// A dump whose file isn't written: its path, and what the system said, or None where memory ran out.
#[derive(Drop)]
pub struct FailedDump<'a> {
    pub path: &'a str,
    pub error: Option<io::Error>,
}

/// Returns whether all bytes of these dumps are in memory.
pub fn are_all_in_memory(machine: &Fast, dumps: &[Dump<'_>]) -> bool
    ensures { result ≡ are_all_in_memory machine.now.state.bus.memory dumps.now }
{
    'dumps: for dump in dumps {
        if !are_in_memory(machine, dump) {
            return false;
        }
    }
    true
}

/// Returns whether all bytes of a dump are in memory. Looks at no byte after the first that isn't.
#[tactic(auto, using(crate::proofs::Missing::byte_is_missing), unfolding(crate::specs::Dumping::are_in_memory))]
pub fn are_in_memory(machine: &Fast, dump: &Dump<'_>) -> bool
    ensures { result ≡ are_in_memory machine.now.state.bus.memory dump.now.address dump.now.length }
{
    'bytes: for index in 0..dump.length {
        if machine.byte(dump.address.wrapping_add(index)).is_none() {
            return false;
        }
    }
    true
}

/// Returns the bytes of a dump.
#[tactic(auto, unfolding(crate::specs::Dumping::bytes_from))]
fn bytes_from(alloc: Global, machine: &Fast, dump: &Dump<'_>) -> Result<Vec<u8>, AllocError>
    ensures { IfOk result
        (λ bytes. bytes.items ≡ bytes_from machine.now.state.bus.memory dump.now.address dump.now.length) }
{
    let mut bytes = Vec::new(alloc);
    'bytes: for index in 0..dump.length {
        match machine.byte(dump.address.wrapping_add(index)) {
            Some(byte) => bytes.push(byte)?,
            None => {}
        }
    }
    Ok(bytes)
}

/// Puts the bytes of a dump. Returns whether all of them were put.
fn put_dump<S: Out>(alloc: Global, machine: &Fast, dump: &Dump<'_>, out: &mut S) -> bool
    ensures { Dumps dump.now machine.now.state (S.writing out.old) (S.writing out.new) result }
{
    let Ok(bytes) = bytes_from(alloc, machine, dump) else {
        return false;
    };
    match out.put_all(bytes.as_slice()) {
        Ok(()) => true,
        Err(_) => false,
    }
}

/// Writes the bytes of a dump to its file.
fn write_dump<'a, F: FileOut<'a>>(
    alloc: Global,
    machine: &Fast,
    dump: &Dump<'a>,
    files: &mut F,
) -> Result<(), FailedDump<'a>>
    ensures { Dumps dump.now machine.now.state (F.writing files.old) (F.writing files.new) (is_ok result) }
{
    files.begin(dump.path);
    let done = put_dump(alloc, machine, dump, files);
    let error = files.end();
    if done {
        Ok(())
    } else {
        Err(FailedDump {
            path: dump.path,
            error,
        })
    }
}

/// Writes the bytes of each dump to its file, in their order, up to the first that fails.
#[tactic(auto, using(crate::proofs::Dumped::dumped))]
#[inline(never)]
pub fn write_dumps<'a, F: FileOut<'a>>(
    alloc: Global,
    machine: &Fast,
    dumps: &[Dump<'a>],
    files: &mut F,
) -> Result<(), FailedDump<'a>>
    ensures { DumpsAll dumps.now machine.now.state (F.writing files.old) (F.writing files.new) (is_ok result) }
{
    'dumps: for dump in dumps {
        match write_dump(alloc, machine, dump, files) {
            Ok(()) => {}
            Err(failed) => return Err(failed),
        }
    }
    Ok(())
}
