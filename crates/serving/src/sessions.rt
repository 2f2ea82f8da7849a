//! A session: bytes are read one after another, and each is answered before the reader may wait for the next one.

ghost use Rattle.std.specs.Prelude.{◌≡◌, [], true, OnErr};
ghost use Rattle.serving.specs.Conduct.{course_of};
ghost use Rattle.serving.specs.Sessions.{GivesByte, NothingWaits, SendsBefore, SendsRest, Sessions, TakesNext};

use crate::protocol::Protocol;
use output::{In, IoError, Out};
use target::Target;

/// Why a session ends before its input does.
#[derive(Clone, Copy)]
pub enum SessionError {
    /// The reader failed.
    Read,
    /// The writer failed.
    Write,
}

/// Reads bytes, and writes what a protocol answers to each of them, to the end of the input, or until the protocol
/// reads no further. What waits to be sent is sent before a call of the reader that may wait, and at the end. Where
/// the reader or the writer fails, the machine is in its state after the steps and the changes that were made.
pub fn serve<P: Protocol<T>, T: Target, I: In, W: Out>(
    protocol: &mut P,
    machine: &mut T,
    reader: &mut I,
    out: &mut W,
) -> Result<(), SessionError>
    requires open { (P.conduct).is_open protocol.old ≡ true }
    requires ready { P.ready protocol.old (T.model machine.old).state }
    ensures held { Sessions (course_of P.conduct protocol.old (T.model machine.old).state)
        (T.model machine.old) (T.model machine.new) (I.reading reader.old) (I.reading reader.new)
        (W.writing out.old) (W.writing out.new) result }
    ensures sent { NothingWaits (W.writing out.new) result }
{
    'calls: for call in 0..u64::MAX {
        let _ = call;
        let byte = match take_next(reader, out) {
            Ok(Some(byte)) => byte,
            Ok(None) => {
                match protocol.finish(machine, out) {
                    Ok(()) => return send_rest(out),
                    Err(_) => return Err(SessionError::Write),
                }
            }
            Err(error) => return Err(error),
        };
        match protocol.answer_byte(machine, byte, out) {
            Ok(()) => {}
            Err(_) => return Err(SessionError::Write),
        }
        if !protocol.is_open() {
            return send_rest(out);
        }
    }
    send_rest(out)
}

/// Sends what waits, before a session ends.
fn send_rest<W: Out>(out: &mut W) -> Result<(), SessionError>
    ensures { SendsRest (W.writing out.old) (W.writing out.new) result }
{
    match out.flush_all() {
        Ok(()) => Ok(()),
        Err(_) => Err(SessionError::Write),
    }
}

/// Sends what waits, if the next call of the reader may wait.
fn send_before<I: In, W: Out>(reader: &I, out: &mut W) -> Result<(), IoError>
    ensures { SendsBefore (I.reading reader.now) (W.writing out.old) (W.writing out.new) result }
{
    if reader.may_wait() {
        return out.flush_all();
    }
    Ok(())
}

/// Returns the next byte of the input, None at its end. Sends what waits before a call of the reader that may wait.
fn take_next<I: In, W: Out>(reader: &mut I, out: &mut W) -> Result<Option<u8>, SessionError>
    ensures { TakesNext (I.reading reader.old) (I.reading reader.new) (W.writing out.old) (W.writing out.new) result }
{
    match send_before(reader, out) {
        Ok(()) => {}
        Err(_) => return Err(SessionError::Write),
    }
    match take_byte(reader) {
        Ok(byte) => Ok(byte),
        Err(_) => Err(SessionError::Read),
    }
}

/// Returns the next byte of the input, None at its end.
fn take_byte<I: In>(reader: &mut I) -> Result<Option<u8>, IoError>
    ensures given { GivesByte (I.reading reader.old) (I.reading reader.new) result }
    ensures failed { OnErr result ((I.reading reader.old).may_wait ≡ true) }
{
    let mut room = [0; 1];
    match reader.take(&mut room) {
        Ok(0) => Ok(None),
        Ok(_) => Ok(Some(room[0])),
        Err(error) => Err(error),
    }
}
