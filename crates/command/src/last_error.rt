//! A writer or a reader that keeps why it failed.

ghost use Rattle.std.specs.Prelude.{◌≡◌};

use std::io;
use std::io::{Read, Write};

/// A writer or a reader over another that keeps the last error, for a message.
#[derive(Drop)]
pub struct LastError<T: Drop> {
    inner: T,
    error: Option<io::Error>,
}

impl<T: Drop> LastError<T> {
    /// Returns a writer or a reader over another, with no error.
    pub fn new(inner: T) -> Self
        ensures { result.inner ≡ inner }
    {
        LastError { inner, error: None }
    }

    /// Lends the last error.
    pub fn error(&self) -> Option<&io::Error> {
        self.error.as_ref()
    }

    /// Returns the last error.
    pub fn into_error(self) -> Option<io::Error> {
        let LastError { inner: _, error } = self;
        error
    }
}

impl<W: Write + Drop> Write for LastError<W> {
    ghost contents = { λ w. W.contents w.inner };

    fn write(&mut self, buf: &[u8]) -> io::Result<usize> {
        match self.inner.write(buf) {
            Ok(taken) => {
                if taken == 0 && !buf.is_empty() {
                    self.error = Some(io::Error::from(io::ErrorKind::WriteZero));
                }
                Ok(taken)
            }
            Err(error) => {
                let kind = error.kind();
                self.error = Some(error);
                Err(io::Error::from(kind))
            }
        }
    }

    fn flush(&mut self) -> io::Result<()> {
        self.inner.flush()
    }
}

impl<R: Read + Drop> Read for LastError<R> {
    ghost remaining = { λ r. R.remaining r.inner };

    fn read(&mut self, buf: &mut [u8]) -> io::Result<usize> {
        match self.inner.read(buf) {
            Ok(given) => Ok(given),
            Err(error) => {
                let kind = error.kind();
                self.error = Some(error);
                Err(io::Error::from(kind))
            }
        }
    }
}
