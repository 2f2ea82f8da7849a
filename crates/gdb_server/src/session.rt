//! What a session keeps between two packets, and what a packet makes.

ghost use Rattle.std.specs.Prelude.{◌≡◌, ◌≤◌, IfOk, OnOk, Some, false, length};
ghost use Rattle.gdb_packets.specs.Replies.{packet_of};
ghost use Rattle.gdb_past.specs.Places.{AreOfOneMachine};
ghost use Rattle.gdb_past.specs.Ways.{IsAfterMark};
ghost use Rattle.gdb_packets.specs.Views.{packet_view};
ghost use Rattle.gdb_server.specs.Commands.{command_of, placed_by, settings_with};
ghost use Rattle.gdb_server.specs.Conduct.{acknowledgement, answered, begun, commanded, gone_on, event_answered};
ghost use Rattle.gdb_server.specs.Conduct.{interrupted, long_answered, packet_answered, past_after, past_by};
ghost use Rattle.gdb_server.specs.Conduct.{replied, reply_answered, restarted, resumed, searched, sent_again, reported};
ghost use Rattle.gdb_server.specs.Conduct.{too_long, whole_answered, with_return, with_turn, wrote};
ghost use Rattle.gdb_server.specs.Replies.{data_read};
ghost use Rattle.gdb_server.specs.Sessions.{data_of_reply, data_of_write, left, opened, reply_packet, session_after};
ghost use Rattle.gdb_server.specs.Sessions.{set_data, with_reply};
ghost use Rattle.gdb_server.specs.Writes.{Writes, writes, written};
ghost use Rattle.output.specs.Output.{Put};
ghost use Rattle.platform.specs.Boards.{numbers_of};
ghost use Rattle.serving.specs.Pieces.{Delivers};

use crate::commands::{place_by, read_command, report_command, settings_with};
use crate::content::{Data, constant_text, features};
use crate::purposes::{MachineChange, Purpose, Reading, SessionChange, purpose_of};
use crate::reading::read;
use crate::waiting::{Waiting, first_turn, interrupted_if, is_file_reply, is_interrupt};
use crate::writes::{write, writes};
use debugger_commands::LineError;
use devices::{Device, MAX_DEVICES};
use gdb::{
    Points, Return, Run, RunContext, Search, SentPacket, Turn, first_search, go_back, run_turn,
    send_packet,
};
use gdb_packets::{Event, Packet, read_packet};
use gdb_past::{Past, Position, room_of};
use gdb_texts::{
    Breakpoints, ErrorCode, Features, Monitor, Reply, Settings, Signal, Watchpoints,
    first_settings, read_features, refusal, reply_text,
};
use machine::{
    Decider, Exceptions, IoError, KeptCode, Layout, Machine, Out, PlaceError, SysTickState,
};
use std::alloc::{AllocError, Global};
use std::marker::Model;

/// What a session keeps between two packets, beside the machine.
#[derive(Drop)]
pub struct Session<L: Exceptions, U: SysTickState> {
    points: Points,
    settings: Settings,
    /// The signal of the last run's end.
    signal: Signal,
    features: Features,
    /// Whether packets are acknowledged.
    acknowledges: bool,
    /// The last packet that was sent.
    sent: SentPacket,
    /// What GDB has been asked about.
    running: Option<Waiting>,
    /// Why the last packet was refused that was.
    refused: Option<ErrorCode>,
    is_open: bool,
    /// Whether it goes on after the program was killed, or the client left.
    is_extended: bool,
    /// The tick to which runs go at most.
    limit: u64,
    board: Layout,
    /// The devices of the board.
    devices: Vec<Device>,
    past: Past<L, U>,
    /// Room for a state to go back to, which contracts don't see.
    position: Position<L, U>,
}

impl<L: Exceptions, U: SysTickState> Model for Session<L, U> {
    ghost use Rattle.std.specs.Prelude.{◌≤◌, length};
    ghost use Rattle.gdb_past.specs.Places.{AreOfOneMachine};
    ghost use Rattle.gdb_server.specs.Sessions.{Session as SessionView};
    ghost use Rattle.platform.specs.Boards.{numbers_of};

    ghost Value = { SessionView };

    ghost view = { λ k. record {
      points = k.points;
      settings = k.settings;
      signal = k.signal;
      features = k.features;
      acknowledges = k.acknowledges;
      sent = k.sent.items;
      running = k.running;
      refused = k.refused;
      is_open = k.is_open;
      is_extended = k.is_extended;
      limit = k.limit;
      board = numbers_of k.board;
      devices = k.devices.items;
      past = k.past;
    } };

    ghost invariant = { λ k. AreOfOneMachine k.past.start k.position × (length k.devices.items ≤ 256) };
}

/// Returns the data of a reply that is one word.
fn data_of_reply(reply: Reply) -> Result<Data, ErrorCode>
    ensures { result ≡ data_of_reply reply }
{
    match reply {
        Reply::Error(error) => Err(error),
        Reply::Empty | Reply::Done => Ok(Data::of(reply_text(reply))),
    }
}

/// Returns the data of the reply to a write.
fn data_of_write(refused: Option<PlaceError>) -> Result<Data, ErrorCode>
    ensures { result ≡ data_of_write refused }
{
    match refused {
        Some(error) => Err(refusal(error)),
        None => data_of_reply(Reply::Done),
    }
}

impl<L: Exceptions, U: SysTickState> Session<L, U> {
    /// Returns a session of a machine before its first packet, whose runs go to the tick `limit` at most. Fails where
    /// memory can't be allocated, and where there are more than 256 devices.
    #[inline(never)]
    pub fn new<D: Decider, C: KeptCode>(
        alloc: Global,
        limit: u64,
        board: Layout,
        devices: Vec<Device>,
        machine: &Machine<D, C, L, U>,
    ) -> Result<Self, AllocError>
        ensures { IfOk result (λ session.
            session ≡ opened limit (numbers_of board) devices.items machine.now.state) }
    {
        if devices.len() > MAX_DEVICES {
            return Err(AllocError);
        }
        Ok(Session {
            points: Points {
                breakpoints: Breakpoints::new(),
                watchpoints: Watchpoints::new(),
            },
            settings: first_settings(),
            signal: Signal::Trap,
            features: Features {
                is_gdb: false,
                takes_swbreak: false,
                takes_hwbreak: false,
            },
            acknowledges: true,
            sent: SentPacket::new(),
            running: None,
            refused: None,
            is_open: true,
            is_extended: false,
            limit,
            board,
            devices,
            past: Past::new(alloc, room_of(&board), machine)?,
            position: Position::new(alloc, machine)?,
        })
    }

    /// Returns whether the session reads on.
    pub fn is_open(&self) -> bool
        ensures { result ≡ self.now.is_open }
    {
        self.is_open
    }

    /// Returns why the last packet was refused that was.
    fn last_refusal(&self) -> Option<ErrorCode>
        ensures { result ≡ self.now.refused }
    {
        self.refused
    }

    /// Returns what waits for the reply to its question, if something does.
    fn waiting(&self) -> Option<Waiting>
        ensures { result ≡ self.now.running }
    {
        self.running
    }

    fn acknowledges(&self) -> bool
        ensures { result ≡ self.now.acknowledges }
    {
        self.acknowledges
    }

    /// Returns the last packet that was sent.
    fn last_sent(&self) -> &[u8]
        ensures { result.now ≡ self.now.sent }
    {
        self.sent.as_slice()
    }

    fn read<D: Decider, C: KeptCode>(
        &self,
        machine: &Machine<D, C, L, U>,
        what: Reading,
    ) -> Result<Data, ErrorCode>
        ensures { result ≡ data_read self.now.signal self.now.board self.now.devices machine.now.state what }
    {
        read(
            self.signal,
            &self.board,
            self.devices.as_slice(),
            machine,
            what,
        )
    }

    /// Ends the session, unless it is an extended one.
    fn leave(&mut self)
        ensures { self.new ≡ left self.old }
    {
        self.is_open = self.is_extended;
    }

    /// Takes the machine back to its first state.
    fn restart<D: Decider, C: KeptCode>(&mut self, machine: &mut Machine<D, C, L, U>)
        requires { AreOfOneMachine self.old.past.start machine.old.state }
        ensures machine { machine.new ≡ record machine.old { state = self.old.past.start } }
        ensures kept { self.new ≡ restarted self.old }
    {
        self.past.restart(machine);
    }

    /// Makes the change of the settings that a command asks for.
    fn change_settings(&mut self, asked: Result<Monitor, LineError>)
        ensures { self.new ≡ record self.old { settings = settings_with self.old.settings asked } }
    {
        self.settings = settings_with(self.settings, asked);
    }

    /// Keeps why a packet is refused.
    fn keep_refusal(&mut self, error: ErrorCode)
        ensures { self.new ≡ record self.old { refused = Some error } }
    {
        self.refused = Some(error);
    }

    /// Writes a packet, and keeps it.
    fn send<W: Out>(&mut self, content: &[u8], out: &mut W) -> Result<(), IoError>
        requires { length content.now ≤ 4096 }
        ensures put { Put (W.writing out.old) (W.writing out.new) (packet_of content.now) result }
        ensures kept { self.new ≡ record self.old { sent = packet_of content.now } }
    {
        send_packet(content, &mut self.sent, out)
    }

    /// Writes the reply to a packet, and keeps why the packet was refused, if it was.
    fn put_reply<W: Out>(
        &mut self,
        answer: Result<Data, ErrorCode>,
        out: &mut W,
    ) -> Result<(), IoError>
        ensures put { Put (W.writing out.old) (W.writing out.new) (reply_packet answer) result }
        ensures kept { self.new ≡ with_reply self.old answer }
    {
        match answer {
            Ok(data) => self.send(data.as_slice(), out),
            Err(error) => {
                self.keep_refusal(error);
                self.send(reply_text(Reply::Error(error)), out)
            }
        }
    }

    /// Writes the reply to a packet, and keeps why the packet was refused, if it was. Nothing of the machine changes.
    fn reply<D: Decider, C: KeptCode, W: Out>(
        &mut self,
        machine: &Machine<D, C, L, U>,
        answer: Result<Data, ErrorCode>,
        out: &mut W,
    ) -> Result<(), IoError>
        ensures delivers { Delivers (replied self.old machine.now.state answer).pieces machine.now machine.now
            (W.writing out.old) (W.writing out.new) result }
        ensures kept { self.new ≡ (replied self.old machine.now.state answer).session }
    {
        let _ = machine;
        self.put_reply(answer, out)
    }

    /// Makes a change of the session. Returns the data of the reply.
    #[inline(never)]
    fn set(&mut self, change: SessionChange, tail: &[u8]) -> Result<Data, ErrorCode>
        ensures answer { result ≡ set_data self.old change }
        ensures kept { self.new ≡ session_after self.old change tail.now }
    {
        match change {
            SessionChange::Features => {
                self.features = read_features(tail);
                Ok(Data::of(features()))
            }
            SessionChange::NoAcknowledgement => {
                self.acknowledges = false;
                data_of_reply(Reply::Done)
            }
            SessionChange::Insert(breakpoint) => {
                data_of_reply(self.points.breakpoints.insert(breakpoint))
            }
            SessionChange::Remove(breakpoint) => {
                self.points.breakpoints.remove(breakpoint);
                data_of_reply(Reply::Done)
            }
            SessionChange::Watch(watchpoint) => {
                data_of_reply(self.points.watchpoints.insert(watchpoint))
            }
            SessionChange::Unwatch(watchpoint) => {
                self.points.watchpoints.remove(watchpoint);
                data_of_reply(Reply::Done)
            }
            SessionChange::Extended => {
                self.is_extended = true;
                data_of_reply(Reply::Done)
            }
            SessionChange::End => {
                self.leave();
                data_of_reply(Reply::Done)
            }
        }
    }

    /// Marks the machine's state after a write, unless it was refused or wrote nothing.
    fn mark_after<D: Decider, C: KeptCode>(
        &mut self,
        something: bool,
        machine: &Machine<D, C, L, U>,
        refused: Option<PlaceError>,
    )
        requires { AreOfOneMachine self.old.past.start machine.now.state }
        ensures { self.new ≡ record self.old {
          past = past_after self.old.past something machine.now.state refused;
        } }
    {
        match refused {
            Some(_) => {}
            None => {
                if something {
                    self.past.mark(machine);
                }
            }
        }
    }

    /// Writes to the machine, and answers.
    #[inline(never)]
    fn write<D: Decider, C: KeptCode, W: Out>(
        &mut self,
        machine: &mut Machine<D, C, L, U>,
        change: MachineChange,
        tail: &[u8],
        out: &mut W,
    ) -> Result<(), IoError>
        requires { IsAfterMark self.old.past machine.old.state }
        ensures delivers { Delivers
            (wrote self.old (writes change tail.now) (written machine.old.state change tail.now)).pieces
            machine.old machine.new (W.writing out.old) (W.writing out.new) result }
        ensures kept { self.new
            ≡ (wrote self.old (writes change tail.now) (written machine.old.state change tail.now)).session }
        ensures ahead { OnOk result (IsAfterMark self.new.past machine.new.state) }
    {
        let refused = write(machine, change, tail);
        self.mark_after(writes(change, tail), machine, refused);
        self.put_reply(data_of_write(refused), out)
    }

    /// Writes the text of a command that was carried out, and then the reply.
    fn report<D: Decider, C: KeptCode, W: Out>(
        &mut self,
        machine: &Machine<D, C, L, U>,
        refused: Option<PlaceError>,
        asked: Result<Monitor, LineError>,
        out: &mut W,
    ) -> Result<(), IoError>
        ensures delivers { Delivers (reported self.old machine.now.state refused asked).pieces machine.now machine.now
            (W.writing out.old) (W.writing out.new) result }
        ensures kept { OnOk result (self.new ≡ (reported self.old machine.now.state refused asked).session) }
    {
        match report_command(
            machine,
            &self.past,
            self.last_refusal(),
            refused,
            asked,
            out,
        ) {
            Ok(()) => {}
            Err(error) => return Err(error),
        }
        self.put_reply(data_of_reply(Reply::Done), out)
    }

    /// Puts the value of a command into its place, where the command has one, or begins anew. Returns why the value was
    /// refused, if it was.
    fn place_by<D: Decider, C: KeptCode>(
        &mut self,
        machine: &mut Machine<D, C, L, U>,
        asked: Result<Monitor, LineError>,
    ) -> Option<PlaceError>
        requires { AreOfOneMachine self.old.past.start machine.old.state }
        ensures writes { Writes (placed_by self.old.past.start machine.old.state asked) machine.old machine.new result }
        ensures kept { self.new ≡ record self.old {
          past = past_by self.old.past (placed_by self.old.past.start machine.old.state asked) asked;
        } }
    {
        place_by(machine, &mut self.past, asked)
    }

    /// Carries out a command of `monitor`, and answers.
    #[inline(never)]
    fn command<D: Decider, C: KeptCode, W: Out>(
        &mut self,
        machine: &mut Machine<D, C, L, U>,
        digits: &[u8],
        out: &mut W,
    ) -> Result<(), IoError>
        requires { IsAfterMark self.old.past machine.old.state }
        ensures delivers { Delivers (commanded self.old machine.old.state (command_of digits.now)).pieces machine.old
            machine.new (W.writing out.old) (W.writing out.new) result }
        ensures kept { OnOk result
            (self.new ≡ (commanded self.old machine.old.state (command_of digits.now)).session) }
        ensures ahead { OnOk result (IsAfterMark self.new.past machine.new.state) }
    {
        let asked = read_command(digits);
        let refused = self.place_by(machine, asked);
        self.change_settings(asked);
        self.report(machine, refused, asked, out)
    }

    /// Keeps how a turn of a run ended.
    fn keep_turn(&mut self, turn: Turn)
        ensures { self.new ≡ with_turn self.old turn }
    {
        match turn {
            Turn::Asks(run) => self.running = Some(Waiting::Running(run)),
            Turn::Ends(signal) => {
                self.running = None;
                self.signal = signal;
            }
        }
    }

    /// Makes the next turn of a run.
    fn resume<D: Decider, C: KeptCode, W: Out>(
        &mut self,
        machine: &mut Machine<D, C, L, U>,
        run: Run,
        out: &mut W,
    ) -> Result<(), IoError>
        requires { IsAfterMark self.old.past machine.old.state }
        ensures delivers { Delivers (resumed self.old machine.old.state run).pieces machine.old machine.new
            (W.writing out.old) (W.writing out.new) result }
        ensures kept { OnOk result (self.new ≡ (resumed self.old machine.old.state run).session) }
        ensures ahead { OnOk result (IsAfterMark self.new.past machine.new.state) }
    {
        let context = RunContext {
            points: &self.points,
            settings: self.settings,
            features: self.features,
            limit: self.limit,
        };
        match run_turn(
            run,
            &context,
            &mut self.past,
            &mut self.position,
            &mut self.sent,
            machine,
            out,
        ) {
            Ok(turn) => {
                self.keep_turn(turn);
                Ok(())
            }
            Err(error) => Err(error),
        }
    }

    /// Keeps how a turn of a search ended.
    fn keep_return(&mut self, end: Return)
        ensures { self.new ≡ with_return self.old end }
    {
        match end {
            Return::Asks(search) => self.running = Some(Waiting::Searching(search)),
            Return::Ends(signal) => {
                self.running = None;
                self.signal = signal;
            }
        }
    }

    /// Makes the next turn of a search.
    fn search<D: Decider, C: KeptCode, W: Out>(
        &mut self,
        machine: &mut Machine<D, C, L, U>,
        search: Search,
        out: &mut W,
    ) -> Result<(), IoError>
        requires { IsAfterMark self.old.past machine.old.state }
        ensures delivers { Delivers (searched self.old machine.old.state search).pieces machine.old machine.new
            (W.writing out.old) (W.writing out.new) result }
        ensures kept { OnOk result (self.new ≡ (searched self.old machine.old.state search).session) }
        ensures ahead { OnOk result (IsAfterMark self.new.past machine.new.state) }
    {
        let context = RunContext {
            points: &self.points,
            settings: self.settings,
            features: self.features,
            limit: self.limit,
        };
        match go_back(
            search,
            &context,
            &mut self.past,
            &mut self.position,
            &mut self.sent,
            machine,
            out,
        ) {
            Ok(end) => {
                self.keep_return(end);
                Ok(())
            }
            Err(error) => Err(error),
        }
    }

    /// Makes the next turn of what waited.
    fn run_turn<D: Decider, C: KeptCode, W: Out>(
        &mut self,
        machine: &mut Machine<D, C, L, U>,
        waiting: Waiting,
        out: &mut W,
    ) -> Result<(), IoError>
        requires { IsAfterMark self.old.past machine.old.state }
        ensures delivers { Delivers (gone_on self.old machine.old.state waiting).pieces machine.old machine.new
            (W.writing out.old) (W.writing out.new) result }
        ensures kept { OnOk result (self.new ≡ (gone_on self.old machine.old.state waiting).session) }
        ensures ahead { OnOk result (IsAfterMark self.new.past machine.new.state) }
    {
        match waiting {
            Waiting::Running(run) => self.resume(machine, run, out),
            Waiting::Searching(search) => self.search(machine, search, out),
        }
    }

    /// Takes the machine back to its first state, and answers as to `?`.
    #[inline(never)]
    fn begin<D: Decider, C: KeptCode, W: Out>(
        &mut self,
        machine: &mut Machine<D, C, L, U>,
        out: &mut W,
    ) -> Result<(), IoError>
        requires { IsAfterMark self.old.past machine.old.state }
        ensures delivers { Delivers (begun self.old).pieces machine.old machine.new (W.writing out.old)
            (W.writing out.new)
            result }
        ensures kept { self.new ≡ (begun self.old).session }
        ensures ahead { OnOk result (IsAfterMark self.new.past machine.new.state) }
    {
        self.restart(machine);
        let data = self.read(machine, Reading::StopReason);
        self.put_reply(data, out)
    }

    /// Does at rest what a packet asks for.
    fn answer<D: Decider, C: KeptCode, W: Out>(
        &mut self,
        machine: &mut Machine<D, C, L, U>,
        purpose: Purpose,
        tail: &[u8],
        out: &mut W,
    ) -> Result<(), IoError>
        requires { IsAfterMark self.old.past machine.old.state }
        ensures delivers { Delivers (answered self.old machine.old.state purpose tail.now).pieces machine.old
            machine.new
            (W.writing out.old) (W.writing out.new) result }
        ensures kept { OnOk result (self.new ≡ (answered self.old machine.old.state purpose tail.now).session) }
        ensures ahead { OnOk result (IsAfterMark self.new.past machine.new.state) }
    {
        match purpose {
            Purpose::Nothing => Ok(()),
            Purpose::Say(what) => self.reply(machine, Ok(Data::of(constant_text(what))), out),
            Purpose::Refuse(error) => self.reply(machine, Err(error), out),
            Purpose::Read(reading) => {
                let data = self.read(machine, reading);
                self.reply(machine, data, out)
            }
            Purpose::Write(change) => self.write(machine, change, tail, out),
            Purpose::Set(change) => {
                let data = self.set(change, tail);
                self.reply(machine, data, out)
            }
            Purpose::Kill => {
                self.leave();
                Ok(())
            }
            Purpose::Resume(how) => self.resume(machine, first_turn(how), out),
            Purpose::Back(way) => self.search(machine, first_search(way, machine.ticks()), out),
            Purpose::Run => self.begin(machine, out),
            Purpose::Restart => {
                self.restart(machine);
                Ok(())
            }
            Purpose::Command => self.command(machine, tail, out),
        }
    }

    /// Takes a packet while something waits for the reply to a question: any other packet is skipped.
    fn take_reply<D: Decider, C: KeptCode, W: Out>(
        &mut self,
        machine: &mut Machine<D, C, L, U>,
        waiting: Waiting,
        packet: Packet<'_>,
        out: &mut W,
    ) -> Result<(), IoError>
        requires { IsAfterMark self.old.past machine.old.state }
        ensures delivers { Delivers
            (reply_answered self.old machine.old.state waiting (packet_view packet.entry)).pieces machine.old
            machine.new (W.writing out.old) (W.writing out.new) result }
        ensures kept { OnOk result
            (self.new ≡ (reply_answered self.old machine.old.state waiting (packet_view packet.entry)).session) }
        ensures ahead { OnOk result (IsAfterMark self.new.past machine.new.state) }
    {
        if is_file_reply(packet.request) {
            let waiting = interrupted_if(is_interrupt(packet.tail), waiting);
            self.run_turn(machine, waiting, out)
        } else {
            Ok(())
        }
    }

    /// Takes a packet.
    fn take_packet<D: Decider, C: KeptCode, W: Out>(
        &mut self,
        machine: &mut Machine<D, C, L, U>,
        packet: Packet<'_>,
        out: &mut W,
    ) -> Result<(), IoError>
        requires { IsAfterMark self.old.past machine.old.state }
        ensures delivers { Delivers (packet_answered self.old machine.old.state (packet_view packet.entry)).pieces
            machine.old
            machine.new (W.writing out.old) (W.writing out.new) result }
        ensures kept { OnOk result
            (self.new ≡ (packet_answered self.old machine.old.state (packet_view packet.entry)).session) }
        ensures ahead { OnOk result (IsAfterMark self.new.past machine.new.state) }
    {
        match self.waiting() {
            Some(waiting) => self.take_reply(machine, waiting, packet, out),
            None => {
                let purpose = purpose_of(packet.request, packet.tail);
                self.answer(machine, purpose, packet.tail, out)
            }
        }
    }

    /// Writes a byte of acknowledgement, where packets are acknowledged.
    fn acknowledge<D: Decider, C: KeptCode, W: Out>(
        &self,
        machine: &Machine<D, C, L, U>,
        byte: u8,
        out: &mut W,
    ) -> Result<(), IoError>
        ensures { Delivers (acknowledgement self.now machine.now.state byte) machine.now machine.now
            (W.writing out.old) (W.writing out.new) result }
    {
        let _ = machine;
        if self.acknowledges() {
            out.put_byte(byte)
        } else {
            Ok(())
        }
    }

    /// Writes the last packet that was sent once more, where packets are acknowledged.
    fn send_again<D: Decider, C: KeptCode, W: Out>(
        &self,
        machine: &Machine<D, C, L, U>,
        out: &mut W,
    ) -> Result<(), IoError>
        ensures { Delivers (sent_again self.now machine.now.state) machine.now machine.now
            (W.writing out.old) (W.writing out.new) result }
    {
        let _ = machine;
        if self.acknowledges() {
            out.put_all(self.last_sent())
        } else {
            Ok(())
        }
    }

    /// Interrupts what waits. At rest nothing changes.
    fn interrupt(&mut self)
        ensures { self.new ≡ interrupted self.old }
    {
        match self.running {
            Some(waiting) => self.running = Some(interrupted_if(true, waiting)),
            None => {}
        }
    }

    /// Refuses a packet of too many bytes. While something waits it is skipped.
    fn refuse_long<D: Decider, C: KeptCode, W: Out>(
        &mut self,
        machine: &Machine<D, C, L, U>,
        out: &mut W,
    ) -> Result<(), IoError>
        ensures delivers { Delivers (too_long self.old machine.now.state).pieces machine.now machine.now
            (W.writing out.old) (W.writing out.new) result }
        ensures kept { self.new ≡ (too_long self.old machine.now.state).session }
    {
        match self.waiting() {
            Some(_) => Ok(()),
            None => self.reply(machine, Err(ErrorCode::TooLong), out),
        }
    }

    /// Acknowledges a packet, and takes it.
    fn take_whole<D: Decider, C: KeptCode, W: Out>(
        &mut self,
        machine: &mut Machine<D, C, L, U>,
        content: &[u8],
        out: &mut W,
    ) -> Result<(), IoError>
        requires { IsAfterMark self.old.past machine.old.state }
        ensures delivers { Delivers (whole_answered self.old machine.old.state content.now).pieces machine.old
            machine.new
            (W.writing out.old) (W.writing out.new) result }
        ensures kept { OnOk result (self.new ≡ (whole_answered self.old machine.old.state content.now).session) }
        ensures ahead { OnOk result (IsAfterMark self.new.past machine.new.state) }
    {
        match self.acknowledge(machine, b'+', out) {
            Ok(()) => {}
            Err(error) => return Err(error),
        }
        self.take_packet(machine, read_packet(content), out)
    }

    /// Acknowledges a packet of too many bytes, and refuses it.
    fn take_long<D: Decider, C: KeptCode, W: Out>(
        &mut self,
        machine: &Machine<D, C, L, U>,
        out: &mut W,
    ) -> Result<(), IoError>
        ensures delivers { Delivers (long_answered self.old machine.now.state).pieces machine.now machine.now
            (W.writing out.old) (W.writing out.new) result }
        ensures kept { OnOk result (self.new ≡ (long_answered self.old machine.now.state).session) }
    {
        match self.acknowledge(machine, b'+', out) {
            Ok(()) => {}
            Err(error) => return Err(error),
        }
        self.refuse_long(machine, out)
    }

    /// Takes what a byte made. `content` is the data of the last packet.
    pub fn take<D: Decider, C: KeptCode, W: Out>(
        &mut self,
        machine: &mut Machine<D, C, L, U>,
        event: Event,
        content: &[u8],
        out: &mut W,
    ) -> Result<(), IoError>
        requires { IsAfterMark self.old.past machine.old.state }
        ensures delivers { Delivers (event_answered self.old machine.old.state event content.now).pieces machine.old
            machine.new
            (W.writing out.old) (W.writing out.new) result }
        ensures kept { OnOk result (self.new ≡ (event_answered self.old machine.old.state event content.now).session) }
        ensures ahead { OnOk result (IsAfterMark self.new.past machine.new.state) }
    {
        match event {
            Event::Nothing | Event::Acknowledgement => Ok(()),
            Event::Rejection => self.send_again(machine, out),
            Event::Interrupt => {
                self.interrupt();
                Ok(())
            }
            Event::WrongChecksum => self.acknowledge(machine, b'-', out),
            Event::TooLong => self.take_long(machine, out),
            Event::Packet => self.take_whole(machine, content, out),
        }
    }
}
