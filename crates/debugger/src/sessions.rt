//! A session: lines are read byte by byte, and each is answered before the reader may wait for the next one.

ghost use Rattle.std.specs.Prelude.{◌≡◌, ◌&&◌, [], ◌∷◌, not, OnOk};
ghost use Rattle.debugger.specs.Answers.{answer, answer_by, change_piece, closing_piece, reply_text};
ghost use Rattle.debugger.specs.Held.{held_after_line, held_first, holding, data_of};
ghost use Rattle.debugger.specs.Sessions.{line_answered, session_of};
ghost use Rattle.debugger.specs.Slots.{HaveRoom, saved_in, slots_after, slots_by};
ghost use Rattle.debugger_commands.specs.Commands.{change_of, quits, steps_of, task_steps_of};
ghost use Rattle.debugger_commands.specs.Settings.{settings_after};
ghost use Rattle.output.specs.Output.{Put};
ghost use Rattle.platform.specs.Boards.{numbers_of};
ghost use Rattle.serving.specs.Pieces.{Delivers};
ghost use Rattle.serving.specs.Sessions.{NothingWaits, Sessions};

use crate::changes::change;
use crate::runs::run;
use crate::slots::Slots;
use crate::tasks::run_task;
use crate::texts::{closing_text, put_part};
use debugger_commands::{
    Change, Command, LineBuffer, LineError, Settings, change_of, part_of, quits, read_line,
    steps_of, task_steps_of,
};
use output::{In, IoError, Out};
use platform::board::Layout;
use serving::{Protocol, SessionError, serve};
use std::marker::Model;
use target::Target;

/// What a session keeps between two bytes, beside the machine.
#[derive(Drop)]
struct Debugger<T: Target> {
    settings: Settings,
    line_buffer: LineBuffer,
    slots: Slots<T>,
    // Whether no `quit` was read.
    is_open: bool,
}

impl<T: Target> Model for Debugger<T> {
    ghost use Rattle.debugger.specs.Held.{Held};

    ghost Value = { Held };

    ghost view = { λ d. record {
      settings = d.settings;
      line = d.line_buffer;
      slots = d.slots;
      is_open = d.is_open;
    } };
}

impl<T: Target> Debugger<T> {
    /// Returns what is kept before the first byte of a session on a board.
    fn new(layout: Layout, slots: Slots<T>) -> Self
        ensures { result ≡ held_first (numbers_of layout) slots }
    {
        Debugger {
            settings: Settings::new(layout, slots.count()),
            line_buffer: LineBuffer::new(),
            slots,
            is_open: true,
        }
    }

    /// Answers a command that changes the machine, or saves its state.
    fn change<W: Out>(&mut self, machine: &mut T, what: Change, out: &mut W) -> Result<(), IoError>
        requires { HaveRoom self.old.slots (T.model machine.old).state.bus }
        ensures delivers { Delivers (change_piece (T.model machine.old).state (saved_in self.old.slots) what ∷ [])
            (T.model machine.old) (T.model machine.new) (W.writing out.old) (W.writing out.new) result }
        ensures kept { self.new ≡ record self.old {
          slots = slots_by (T.model machine.old).state self.old.slots what;
        } }
    {
        let page = change(machine, &mut self.slots, what);
        out.put_all(page.as_slice())
    }

    /// Answers a line that neither makes a step nor changes the machine.
    fn reply<W: Out>(
        &mut self,
        machine: &T,
        asked: Result<Command, LineError>,
        out: &mut W,
    ) -> Result<(), IoError>
        ensures text { Put (W.writing out.old) (W.writing out.new)
            (reply_text (T.model machine.now).state self.old.settings asked) result }
        ensures kept { self.new ≡ record self.old { settings = settings_after self.old.settings asked } }
    {
        let page = self.settings.take(asked);
        match part_of(asked) {
            Some(part) => put_part(machine, part, out),
            None => out.put_all(page.as_slice()),
        }
    }

    /// Answers a line, up to the line after an answer.
    fn answer_command<W: Out>(
        &mut self,
        machine: &mut T,
        asked: Result<Command, LineError>,
        out: &mut W,
    ) -> Result<(), IoError>
        requires { HaveRoom self.old.slots (T.model machine.old).state.bus }
        ensures delivers { Delivers (answer_by (T.model machine.old).state self.old.settings (saved_in self.old.slots)
            asked (steps_of asked) (task_steps_of asked)) (T.model machine.old) (T.model machine.new)
            (W.writing out.old) (W.writing out.new) result }
        ensures kept { self.new ≡ record self.old {
          settings = settings_after self.old.settings asked;
          slots = slots_after (T.model machine.old).state self.old.slots (change_of asked);
        } }
    {
        match steps_of(asked) {
            Some(steps) => return run(machine, &self.settings, steps, out),
            None => {}
        }
        match task_steps_of(asked) {
            Some(steps) => return run_task(machine, &self.settings, steps, out),
            None => {}
        }
        match change_of(asked) {
            Some(what) => self.change(machine, what, out),
            None => self.reply(machine, asked, out),
        }
    }

    /// Returns whether an answer ends with a line of where the machine is.
    fn closes(&self, asked: Result<Command, LineError>) -> bool
        ensures { result ≡ (self.now.settings.is_script && not (quits asked)) }
    {
        self.settings.is_script() && !quits(asked)
    }

    /// Answers a line.
    fn answer<W: Out>(
        &mut self,
        machine: &mut T,
        asked: Result<Command, LineError>,
        out: &mut W,
    ) -> Result<(), IoError>
        requires { HaveRoom self.old.slots (T.model machine.old).state.bus }
        ensures delivers { Delivers
            (answer (T.model machine.old).state self.old.settings (saved_in self.old.slots) asked)
            (T.model machine.old) (T.model machine.new) (W.writing out.old) (W.writing out.new) result }
        ensures kept { self.new ≡ record self.old {
          settings = settings_after self.old.settings asked;
          slots = slots_after (T.model machine.old).state self.old.slots (change_of asked);
        } }
    {
        match self.answer_command(machine, asked, out) {
            Ok(()) => {}
            Err(error) => return Err(error),
        }
        if self.closes(asked) {
            return close(machine, out);
        }
        Ok(())
    }

    /// Answers the line that was read, and begins the next one. `quit` closes the session.
    fn answer_line<W: Out>(&mut self, machine: &mut T, out: &mut W) -> Result<(), IoError>
        requires { HaveRoom self.old.slots (T.model machine.old).state.bus }
        ensures delivers { Delivers (line_answered (data_of self.old) (T.model machine.old).state)
            (T.model machine.old) (T.model machine.new) (W.writing out.old) (W.writing out.new) result }
        ensures kept { OnOk result (self.new ≡ held_after_line self.old (T.model machine.old).state) }
        ensures room { OnOk result (HaveRoom self.new.slots (T.model machine.new).state.bus) }
    {
        let asked = read_line(self.settings.slots(), self.line_buffer.line());
        self.line_buffer.clear();
        self.is_open = !quits(asked);
        match self.answer(machine, asked, out) {
            Ok(()) => Ok(()),
            Err(error) => Err(error),
        }
    }
}

impl<T: Target> Protocol<T> for Debugger<T> {
    ghost conduct = { holding };

    ghost ready = { λ d s. HaveRoom d.slots s.bus };

    fn is_open(&self) -> bool {
        self.is_open
    }

    fn answer_byte<W: Out>(
        &mut self,
        machine: &mut T,
        byte: u8,
        out: &mut W,
    ) -> Result<(), IoError> {
        if byte == b'\n' {
            return self.answer_line(machine, out);
        }
        self.line_buffer.push(byte);
        Ok(())
    }

    /// Answers a last line without a line feed, if it has a byte.
    fn finish<W: Out>(&mut self, machine: &mut T, out: &mut W) -> Result<(), IoError> {
        if self.line_buffer.is_empty() {
            return Ok(());
        }
        self.answer_line(machine, out)
    }
}

/// Writes the line after an answer.
fn close<T: Target, W: Out>(machine: &T, out: &mut W) -> Result<(), IoError>
    ensures { Delivers (closing_piece (T.model machine.now).state ∷ [])
        (T.model machine.now) (T.model machine.now) (W.writing out.old) (W.writing out.new) result }
{
    let page = closing_text(machine);
    out.put_all(page.as_slice())
}

/// Reads commands, one a line, and writes their answers, up to `quit` or the end of the input. `layout` has the
/// numbers of the machine's board, which `script 1` answers, and `slots` has room for states of the machine. What waits
/// to be sent is sent before a call of the reader that may wait, and at the end. Where the reader or the writer fails,
/// the machine is in its state after the steps and the changes that were made.
pub fn session<T: Target, I: In, W: Out>(
    machine: &mut T,
    layout: Layout,
    slots: Slots<T>,
    reader: &mut I,
    out: &mut W,
) -> Result<(), SessionError>
    requires { HaveRoom slots (T.model machine.old).state.bus }
    ensures held { Sessions (session_of (numbers_of layout) (saved_in slots) (T.model machine.old).state)
        (T.model machine.old) (T.model machine.new) (I.reading reader.old) (I.reading reader.new)
        (W.writing out.old) (W.writing out.new) result }
    ensures sent { NothingWaits (W.writing out.new) result }
{
    let mut debugger = Debugger::new(layout, slots);
    serve(&mut debugger, machine, reader, out)
}
