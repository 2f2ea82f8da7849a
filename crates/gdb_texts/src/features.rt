//! The features of a client.

ghost use Rattle.std.specs.Prelude.{◌≡◌, bytes_eq};
ghost use Rattle.gdb_texts.specs.Features.{features_of, has_feature};

/// What a client takes, from its `qSupported`.
#[derive(Clone, Copy)]
pub struct Features {
    /// Whether the client is GDB: it says `vContSupported+`.
    pub is_gdb: bool,
    /// Whether a stop reply may tell of a software breakpoint.
    pub takes_swbreak: bool,
    /// Whether a stop reply may tell of a hardware breakpoint.
    pub takes_hwbreak: bool,
}

/// Returns whether two texts are equal.
fn is_same(text: &[u8], other: &[u8]) -> bool
    ensures { result ≡ bytes_eq text.now other.now }
{
    text == other
}

/// Returns whether a feature is in a list of features, parted by `;`.
#[tactic(auto)]
fn has_feature(name: &[u8], text: &[u8]) -> bool
    ensures { result ≡ has_feature name.now text.now }
{
    let mut start = 0;
    'bytes: for (index, byte) in text.iter().enumerate() {
        if *byte == b';' {
            if is_same(&text[start..index], name) {
                return true;
            }
            start = index + 1;
        }
    }
    is_same(&text[start..], name)
}

/// Returns the features in the text after `qSupported:`.
#[tactic(auto, unfolding(crate::specs::Features::features_of))]
pub fn read_features(tail: &[u8]) -> Features
    ensures { result ≡ features_of tail.now }
{
    Features {
        is_gdb: has_feature(b"vContSupported+", tail),
        takes_swbreak: has_feature(b"swbreak+", tail),
        takes_hwbreak: has_feature(b"hwbreak+", tail),
    }
}
