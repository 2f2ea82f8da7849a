//! Replies that are one word, and the codes of errors.

ghost use Rattle.std.specs.Prelude.{◌≡◌, ◌≤◌, length};
ghost use Rattle.gdb_texts.specs.Replies.{error_text, refusal, reply_text};

use platform::error::PlaceError;

/// Why a packet isn't carried out.
#[derive(Clone, Copy)]
pub enum ErrorCode {
    /// `E00`: there is no such annex of the target description.
    NoAnnex,
    /// `E01`: an address isn't a multiple of 4, or a length isn't 4.
    NotAligned,
    /// `E02`: there is no such register or address.
    NoSuchPlace,
    /// `E03`: the machine has stopped, is in the entry phase, or is in Handler mode.
    Stopped,
    /// `E04`: the store would stop the machine.
    Refused,
    /// `E05`: a packet hasn't the form of its name.
    Malformed,
    /// `E06`: there is no room for another breakpoint or watchpoint.
    NoRoom,
    /// `E07`: a packet has more than 4,096 bytes.
    TooLong,
    /// `E08`: no byte can be read at an address.
    NotReadable,
}

/// A reply that is one word.
#[derive(Clone, Copy)]
pub enum Reply {
    /// The packet isn't known.
    Empty,
    /// `OK`.
    Done,
    /// `E` and two digits.
    Error(ErrorCode),
}

/// Returns the text of an error.
pub fn error_text(error: ErrorCode) -> &'static [u8]
    ensures text { result.now ≡ error_text error }
    ensures short { length result.now ≤ 3 }
{
    match error {
        ErrorCode::NoAnnex => b"E00",
        ErrorCode::NotAligned => b"E01",
        ErrorCode::NoSuchPlace => b"E02",
        ErrorCode::Stopped => b"E03",
        ErrorCode::Refused => b"E04",
        ErrorCode::Malformed => b"E05",
        ErrorCode::NoRoom => b"E06",
        ErrorCode::TooLong => b"E07",
        ErrorCode::NotReadable => b"E08",
    }
}

/// Returns the text of a reply.
pub fn reply_text(reply: Reply) -> &'static [u8]
    ensures text { result.now ≡ reply_text reply }
    ensures short { length result.now ≤ 3 }
{
    match reply {
        Reply::Empty => b"",
        Reply::Done => b"OK",
        Reply::Error(error) => error_text(error),
    }
}

/// Returns the code of a write that the machine refused.
pub fn refusal(error: PlaceError) -> ErrorCode
    ensures { result ≡ refusal error }
{
    match error {
        PlaceError::NotAligned => ErrorCode::NotAligned,
        PlaceError::NoSuchPlace => ErrorCode::NoSuchPlace,
        PlaceError::Stopped => ErrorCode::Stopped,
        PlaceError::Refused(_) => ErrorCode::Refused,
    }
}
