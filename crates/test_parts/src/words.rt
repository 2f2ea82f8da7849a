//! The words of the rows: what an access is for, how wide it is, and what decided it.

use instruction_set::size::Size;
use platform::access::{Access, Kind, Request, Rule};
use std::alloc::Global;
use test_tables::{byte_at, is_first, meaning, number_at, word};

/// The kinds of accesses.
pub const ALL_KINDS: [Kind; 7] = [
    Kind::Fetch,
    Kind::Load,
    Kind::Store,
    Kind::Push,
    Kind::Pop,
    Kind::Vector,
    Kind::Probe,
];

const KINDS: [(&str, Kind); 7] = [
    ("F", Kind::Fetch),
    ("L", Kind::Load),
    ("S", Kind::Store),
    ("push", Kind::Push),
    ("pop", Kind::Pop),
    ("V", Kind::Vector),
    ("P", Kind::Probe),
];

const SIZES: [(&str, Size); 3] = [
    ("byte", Size::Byte),
    ("halfword", Size::Halfword),
    ("word", Size::Word),
];

/// The rules but for those of regions.
const RULES: [Rule; 7] = [
    Rule::ExecuteNever,
    Rule::VectorRead,
    Rule::PrivatePeripheralBus,
    Rule::MpuOff,
    Rule::NegativePriority,
    Rule::Background,
    Rule::NoRegion,
];

/// The words of regions, by their numbers.
const REGIONS: &str = "r0 r1 r2 r3 r4 r5 r6 r7 r8 r9 rA rB rC rD rE rF";

/// The word of a rule.
pub fn rule_word(rule: Rule) -> &'static str {
    match rule {
        Rule::ExecuteNever => "xn",
        Rule::VectorRead => "vec",
        Rule::PrivatePeripheralBus => "ppb",
        Rule::MpuOff => "off",
        Rule::NegativePriority => "neg",
        Rule::Region(number) => word(REGIONS, usize::from(number)),
        Rule::Background => "bg",
        Rule::NoRegion => "none",
    }
}

/// The rule of a word, which is `r` and the number for that of a region.
pub fn rule(word: &str) -> Option<Rule> {
    if let Some(number) = word.strip_prefix("r") {
        return Some(Rule::Region(byte_at(number, 0)?));
    }
    'rules: for rule in RULES {
        if rule_word(rule) == word {
            return Some(rule);
        }
    }
    None
}

/// What an access is for, by its word.
pub fn kind(word: &str) -> Option<Kind> {
    meaning(&KINDS, word)
}

/// The access of a part: its kind and width, its address, what it writes, and `p` or `u` for the
/// privilege of the code.
pub fn request(part: &str) -> Option<Request> {
    Some(Request {
        access: Access {
            kind: kind(word(part, 0))?,
            size: meaning(&SIZES, word(part, 1))?,
            address: number_at(part, 2)?,
            privileged: is_first(word(part, 4), "p", "u")?,
        },
        value: number_at(part, 3)?,
    })
}

/// The word of a number, or `none`.
pub fn shown(alloc: Global, number: Option<u32>) -> Option<String> {
    match number {
        Some(number) => format!(in alloc; "{number:X}").ok(),
        None => "none".to_string(alloc).ok(),
    }
}

/// A word for whether it is so.
pub fn yes_if(is_so: bool) -> &'static str {
    if is_so { "yes" } else { "no" }
}
