//! The name that a world's line has.

ghost use Rattle.std.specs.Prelude.{◌≡◌};
ghost use Rattle.std.specs.List.{list_all};
ghost use Rattle.access_map.specs.Names.{is_visible, shown_name, visible_name};

use symbols::Symbols;

/// Returns the name of the symbol that names an address, or none where a byte of it isn't a visible character of ASCII.
#[tactic(auto, unfolding(crate::specs::Names::shown_name), using(crate::proofs::Visible::shown_lemmas))]
pub fn shown_name<'a>(symbols: &Symbols<'a>, address: u32) -> &'a [u8]
    ensures { result.now ≡ shown_name symbols.now.strings.now symbols.now.list.items address }
{
    match symbols.name_at(address) {
        Some((name, _)) => visible_name(name.as_bytes()),
        None => &[],
    }
}

/// Returns a name, or none where a byte of it isn't visible.
fn visible_name(name: &[u8]) -> &[u8]
    ensures { result.now ≡ visible_name name.now }
{
    if are_visible(name) { name } else { &[] }
}

/// Returns whether each byte is visible.
fn are_visible(bytes: &[u8]) -> bool
    ensures { result ≡ list_all is_visible bytes.now }
{
    bytes.iter().all(|byte| is_visible(*byte))
}

/// Returns whether a byte is a visible character of ASCII.
fn is_visible(byte: u8) -> bool
    ensures { result ≡ is_visible byte }
{
    0x21 <= byte && byte <= 0x7E
}
