//! A session with GDB from the bytes of an image and of a board.

ghost use Rattle.std.specs.Prelude.{◌≡◌};
ghost use Rattle.command.specs.Gdb.{GdbTo, ServesOf, gdb_session};
ghost use Rattle.command.specs.Opening.{board_in_file};
ghost use Rattle.gdb_server.specs.Conduct.{first};
ghost use Rattle.platform.specs.Boards.{numbers_of};
ghost use Rattle.platform.specs.Images.{image_of};
ghost use Rattle.serving.specs.Sessions.{NothingWaits, Sessions};

use crate::error::Error;
use crate::files::InputFile;
use crate::opening::{Opened, open};
use crate::reason::refuse;
use gdb_server::Server;
use machine::{Decider, Exceptions, In, KeptCode, Layout, Machine, Out, StartError, SysTickState};
use serving::{SessionError, serve};
use std::alloc::Global;
use std::io::Write;

/// Debugs an image on a board by the packets of `input`, which GDB sends, in at most `steps` steps, and writes the
/// answers to `out`, or the refusal to `err`. Returns the exit status: 0 where the session ended, 3 for a refused
/// image, board or start or where memory runs out, 5 where `input` or `out` failed. No answer waits to be sent at the
/// end, unless `out` failed.
#[inline(never)]
pub fn serve_gdb<I: In, O: Out, E: Write>(
    alloc: Global,
    image: InputFile<'_>,
    board: InputFile<'_>,
    steps: u64,
    input: &mut I,
    out: &mut O,
    err: &mut E,
) -> u8
    ensures serves { GdbTo (image_of image.entry.bytes.now) (board_in_file board.entry.bytes.now) steps
        (I.reading input.old) (I.reading input.new) (O.writing out.old) (O.writing out.new) result }
    ensures quiet { result ≡ 0 → err.new ≡ err.old }
{
    let opened = match open(alloc, image.bytes, board.bytes) {
        Ok(opened) => opened,
        Err(error) => return refuse(alloc, error, image, board, err),
    };
    match hold_gdb_session(alloc, opened, steps, input, out) {
        Ok(()) => 0,
        Err(error) => refuse(alloc, error, image, board, err),
    }
}

/// Holds a session with GDB of a machine before its first step, or fails where memory can't be allocated for the states
/// to which it can go back.
#[inline(never)]
fn hold_gdb_session<I: In, O: Out>(
    alloc: Global,
    opened: Opened,
    steps: u64,
    input: &mut I,
    out: &mut O,
) -> Result<(), Error>
    ensures { ServesOf opened steps (I.reading input.old) (I.reading input.new)
        (O.writing out.old) (O.writing out.new) result }
{
    let Opened {
        mut machine,
        layout,
        devices,
    } = opened;
    let Ok(server) = Server::new(alloc, steps, layout, devices, &machine) else {
        return Err(Error::Start(StartError::NoMemory));
    };
    match serve_machine(server, &mut machine, layout, steps, input, out) {
        Ok(()) => Ok(()),
        Err(_) => Err(Error::Io),
    }
}

/// Holds a session with GDB of a machine of a board, by a server before its first byte.
#[tactic(auto, unfolding(crate::specs::Gdb::gdb_session))]
#[inline(never)]
fn serve_machine<D: Decider, C: KeptCode, L: Exceptions, U: SysTickState, I: In, O: Out>(
    server: Server<L, U>,
    machine: &mut Machine<D, C, L, U>,
    layout: Layout,
    steps: u64,
    input: &mut I,
    out: &mut O,
) -> Result<(), SessionError>
    requires { server ≡ first steps (numbers_of layout) server.session.devices machine.old.state }
    ensures held { Sessions (gdb_session (numbers_of layout) server.session.devices steps machine.old.state)
        machine.old machine.new
        (I.reading input.old) (I.reading input.new) (O.writing out.old) (O.writing out.new) result }
    ensures sent { NothingWaits (O.writing out.new) result }
{
    let _ = layout;
    let _ = steps;
    let mut server = server;
    serve(&mut server, machine, input, out)
}
