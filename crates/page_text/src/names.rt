//! Addresses with the names of the image's symbols.

use crate::escape::Escaped;
use std::fmt;
use symbols::Symbols;

/// An address, and the name that it has in the image, if it has one: `task_c + 0x1C`.
#[derive(Clone, Copy)]
pub struct Place<'a> {
    pub address: u32,
    pub symbols: &'a Symbols<'a>,
}

impl fmt::Display for Place<'_> {
    fn fmt<W: fmt::Write>(&self, f: &mut fmt::Formatter<W>) -> fmt::Result {
        let address = self.address;
        write!(f, "<code>{address:08X}</code>")?;
        match self.symbols.name_at(address) {
            None => Ok(()),
            Some((name, offset)) => {
                let name = Escaped(name);
                write!(f, " <span class='name'>{name}")?;
                if offset > 0 {
                    write!(f, " + 0x{offset:X}")?;
                }
                write!(f, "</span>")
            }
        }
    }
}
