//! The lanes of the drawing of time: one for each thing that ran.

use crate::words::ExceptionName;
use std::fmt;

/// A lane of the drawing.
#[derive(Clone, Copy)]
pub enum Lane {
    Unprivileged,
    Privileged,
    Handler(u16),
    OtherHandlers,
    Sleep,
    Refused,
    MpuWritten,
}

impl Lane {
    /// Returns the class of the lane: its colour.
    pub fn class(self) -> &'static str {
        match self {
            Lane::Unprivileged => "u",
            Lane::Privileged => "p",
            Lane::Handler(_) => "p",
            Lane::OtherHandlers => "p",
            Lane::Sleep => "sleep",
            Lane::Refused => "refused",
            Lane::MpuWritten => "mpu",
        }
    }
}

impl fmt::Display for Lane {
    /// Writes what the lane is called.
    fn fmt<W: fmt::Write>(&self, f: &mut fmt::Formatter<W>) -> fmt::Result {
        match *self {
            Lane::Unprivileged => write!(f, "Thread, unprivileged"),
            Lane::Privileged => write!(f, "Thread, privileged"),
            Lane::Handler(exception) => {
                let name = ExceptionName(exception);
                write!(f, "{name}")
            }
            Lane::OtherHandlers => write!(f, "other handlers"),
            Lane::Sleep => write!(f, "asleep"),
            Lane::Refused => write!(f, "✕ access refused"),
            Lane::MpuWritten => write!(f, "▲ MPU written"),
        }
    }
}

/// The id of a lane.
#[derive(Clone, Copy)]
pub struct LaneId(pub Lane);

impl fmt::Display for LaneId {
    fn fmt<W: fmt::Write>(&self, f: &mut fmt::Formatter<W>) -> fmt::Result {
        match self.0 {
            Lane::Unprivileged => write!(f, "lane-unprivileged"),
            Lane::Privileged => write!(f, "lane-privileged"),
            Lane::Handler(exception) => write!(f, "lane-exception-{exception}"),
            Lane::OtherHandlers => write!(f, "lane-other-handlers"),
            Lane::Sleep => write!(f, "lane-sleep"),
            Lane::Refused => write!(f, "lane-refused"),
            Lane::MpuWritten => write!(f, "lane-mpu"),
        }
    }
}
