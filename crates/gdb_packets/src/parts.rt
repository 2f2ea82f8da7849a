//! Texts in two parts.

ghost use Rattle.std.specs.Prelude.{◌≡◌, ◌==◌, ◌<◌, length, position, option_map, IfSome};
ghost use Rattle.gdb_packets.specs.Views.{parts_view};
ghost use Rattle.gdb_packets.specs.Numbers.{parted};

/// The parts of a text before and after a separator.
#[derive(Clone, Copy)]
pub struct Parts<'a> {
    pub front: &'a [u8],
    pub rest: &'a [u8],
}

/// Returns the place of the first separator.
fn place_of(separator: u8, text: &[u8]) -> Option<usize>
    ensures value { result ≡ position (λ byte. byte == separator) text.now }
    ensures within { IfSome result (λ at. at < length text.now) }
{
    text.iter().position(|byte| *byte == separator)
}

/// Returns the parts of a text before and after the first separator, if there is one.
pub fn parted(separator: u8, text: &[u8]) -> Option<Parts<'_>>
    ensures { option_map parts_view result ≡ parted separator text.now }
{
    match place_of(separator, text) {
        None => None,
        Some(at) => Some(Parts {
            front: &text[..at],
            rest: &text[at + 1..],
        }),
    }
}
