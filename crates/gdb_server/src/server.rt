//! The protocol: what each byte of the input makes.

ghost use Rattle.std.specs.Prelude.{◌≡◌, IfOk, OnOk};
ghost use Rattle.gdb_server.specs.Conduct.{conduct, first};
ghost use Rattle.platform.specs.Boards.{numbers_of};
ghost use Rattle.serving.specs.Pieces.{Delivers};

use crate::session::Session;
use devices::Device;
use gdb_packets::Framer;
use machine::{Decider, Exceptions, IoError, KeptCode, Layout, Machine, Out, SysTickState};
use serving::Protocol;
use std::alloc::{AllocError, Global};
use std::marker::Model;

/// A server between two bytes of its input.
#[derive(Drop)]
pub struct Server<L: Exceptions, U: SysTickState> {
    framer: Framer,
    session: Session<L, U>,
}

impl<L: Exceptions, U: SysTickState> Model for Server<L, U> {
    ghost use Rattle.gdb_server.specs.Conduct.{Server as ServerView};

    ghost Value = { ServerView };

    ghost view = { λ s. record { framing = s.framer; session = s.session } };
}

impl<L: Exceptions, U: SysTickState> Server<L, U> {
    /// Returns a server of a machine of a board with these devices before its first byte. Runs go to the tick `limit`
    /// at most. Fails where memory can't be allocated, and where there are more than 256 devices.
    #[inline(never)]
    pub fn new<D: Decider, C: KeptCode>(
        alloc: Global,
        limit: u64,
        board: Layout,
        devices: Vec<Device>,
        machine: &Machine<D, C, L, U>,
    ) -> Result<Self, AllocError>
        ensures { IfOk result (λ server.
            server ≡ first limit (numbers_of board) devices.items machine.now.state) }
    {
        Ok(Server {
            framer: Framer::new(),
            session: Session::new(alloc, limit, board, devices, machine)?,
        })
    }
}

impl<D: Decider, C: KeptCode, L: Exceptions, U: SysTickState> Protocol<Machine<D, C, L, U>>
    for Server<L, U> {
    ghost use Rattle.gdb_past.specs.Ways.{IsAfterMark};
    ghost use Rattle.gdb_server.specs.Conduct.{conduct};

    ghost conduct = { conduct };

    ghost ready = { λ server s. IsAfterMark server.session.past s };

    fn is_open(&self) -> bool {
        self.session.is_open()
    }

    fn answer_byte<W: Out>(
        &mut self,
        machine: &mut Machine<D, C, L, U>,
        byte: u8,
        out: &mut W,
    ) -> Result<(), IoError> {
        let event = self.framer.push(byte);
        self.session
            .take(machine, event, self.framer.content(), out)
    }

    fn finish<W: Out>(
        &mut self,
        machine: &mut Machine<D, C, L, U>,
        out: &mut W,
    ) -> Result<(), IoError> {
        let _ = machine;
        let _ = out;
        Ok(())
    }
}
