//! Hexadecimal digits, in upper case.

ghost use Rattle.std.specs.Prelude.{◌≡◌};
ghost use Rattle.platform.specs.Text.{hex_byte, hex_word};

/// The two digits of each byte, one pair after another: to look a pair up takes one load.
static PAIRS: [u8; 512] = *b"\
    000102030405060708090A0B0C0D0E0F101112131415161718191A1B1C1D1E1F\
    202122232425262728292A2B2C2D2E2F303132333435363738393A3B3C3D3E3F\
    404142434445464748494A4B4C4D4E4F505152535455565758595A5B5C5D5E5F\
    606162636465666768696A6B6C6D6E6F707172737475767778797A7B7C7D7E7F\
    808182838485868788898A8B8C8D8E8F909192939495969798999A9B9C9D9E9F\
    A0A1A2A3A4A5A6A7A8A9AAABACADAEAFB0B1B2B3B4B5B6B7B8B9BABBBCBDBEBF\
    C0C1C2C3C4C5C6C7C8C9CACBCCCDCECFD0D1D2D3D4D5D6D7D8D9DADBDCDDDEDF\
    E0E1E2E3E4E5E6E7E8E9EAEBECEDEEEFF0F1F2F3F4F5F6F7F8F9FAFBFCFDFEFF\
    ";

/// Returns the two digits of a byte.
#[inline(always)]
#[tactic(auto, using(crate::proofs::Pairs::pair_at))]
pub(crate) fn pair(byte: u8) -> [u8; 2]
    ensures { result ≡ hex_byte byte }
{
    let from = byte as usize * 2;
    [PAIRS[from], PAIRS[from + 1]]
}

/// Returns the eight digits of a word.
#[inline(always)]
pub fn word(value: u32) -> [u8; 8]
    ensures { result ≡ hex_word value }
{
    let a = pair((value / 0x100_0000) as u8);
    let b = pair((value / 0x1_0000 % 256) as u8);
    let c = pair((value / 0x100 % 256) as u8);
    let d = pair((value % 256) as u8);
    [a[0], a[1], b[0], b[1], c[0], c[1], d[0], d[1]]
}
