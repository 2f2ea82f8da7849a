//! A page in memory.

ghost use Rattle.std.specs.Prelude.{◌≡◌, IfOk, take};
ghost use Rattle.page_text.specs.Edges.{page_start};
ghost use Rattle.page_text.specs.Pages.{IsPage};

use std::alloc::{AllocError, Global};
use std::io;
use std::io::Write;

/// What each page begins with.
const PAGE_START: &[u8; 16] = b"<!DOCTYPE html>\n";

/// What each page ends with.
const PAGE_END: &[u8; 8] = b"</html>\n";

/// A page in memory, up to its last line. It begins with the line of its document type, and what is written to it
/// comes after that.
#[derive(Drop)]
pub struct HtmlPage {
    bytes: Vec<u8>,
    ghost begins: { take 16 bytes.items ≡ page_start },
}

impl HtmlPage {
    /// Returns a page with its first line, and room for `capacity` bytes.
    pub fn new(alloc: Global, capacity: usize) -> Result<Self, AllocError> {
        let mut bytes = Vec::new(alloc);
        bytes.reserve(capacity)?;
        bytes.extend_from_slice(PAGE_START)?;
        Ok(HtmlPage { bytes })
    }

    /// Writes the last line, and returns the bytes of the page.
    pub fn end(self) -> Result<Vec<u8>, AllocError>
        ensures { IfOk result (λ page. IsPage page.items) }
    {
        let HtmlPage { bytes } = self;
        let mut bytes = bytes;
        bytes.extend_from_slice(PAGE_END)?;
        Ok(bytes)
    }
}

impl Write for HtmlPage {
    fn write(&mut self, buf: &[u8]) -> io::Result<usize> {
        self.bytes.extend_from_slice(buf)?;
        Ok(buf.len())
    }

    fn flush(&mut self) -> io::Result<()> {
        Ok(())
    }
}
