//! The ends that lines have in common with earlier ones.

ghost use Rattle.std.specs.Prelude.{◌≡◌, ◌≤◌, ◌++◌, true, codes, take, IfSome};
ghost use Rattle.std.specs.Bool.{OnTrue};
ghost use Rattle.platform.specs.Rules.{rank};
ghost use Rattle.platform.specs.Text.{privilege_text};
ghost use Rattle.platform.specs.declared.access.Rule.TheVariants.{MpuOff};
ghost use Rattle.trace.specs.Ends.{end_text, fetch_end, fits_number, rule_of};

use platform::access::Rule;

/// The end of the line of an access that was done: `ok`, the rule and the line feed. One rule decides most accesses of
/// a program. This is only a cache, as a `Tick` is: whichever end it holds, the next line is right.
#[derive(Drop)]
pub(crate) struct LineEnd {
    /// The end, in the first `count` bytes. All eight are copied at once.
    pub(crate) text: [u8; 8],
    pub(crate) count: usize,
    /// The rank of the rule, and the number of its region if it has one.
    rank: u8,
    number: u8,
    ghost few: { count ≤ 8 },
    ghost right: { take count text ≡ end_text (rule_of rank number) },
}

impl LineEnd {
    /// Returns the end for accesses while the MPU is off.
    pub(crate) fn new() -> Self {
        LineEnd {
            text: *b" ok off\n",
            count: 8,
            rank: rank_of(Rule::MpuOff),
            number: 0,
        }
    }

    /// Makes the end that of a rule, unless it is. Returns false if the end of that rule is longer than 8 bytes.
    #[inline(always)]
    pub(crate) fn hold(&mut self, rule: Rule) -> bool
        ensures { OnTrue result (rule_of self.new.rank self.new.number ≡ rule) }
    {
        self.is_of(rule) || self.reset(rule)
    }

    /// Returns whether the end is that of a rule.
    #[inline(always)]
    #[tactic(auto, using(crate::proofs::Ends::same_rule))]
    fn is_of(&self, rule: Rule) -> bool
        ensures { OnTrue result (rule_of self.now.rank self.now.number ≡ rule) }
    {
        self.rank == rank_of(rule) && fits_number(self.number, rule)
    }

    /// Makes the end that of another rule. Returns false, and changes nothing, if it is longer than 8 bytes.
    #[cold]
    #[inline(never)]
    #[tactic(auto, using(crate::proofs::Ends::same_rule))]
    fn reset(&mut self, rule: Rule) -> bool
        ensures { OnTrue result (rule_of self.new.rank self.new.number ≡ rule) }
    {
        let Some(end) = end_of(rule) else {
            return false;
        };
        let text = end.0;
        self.text = text;
        self.count = end.1;
        self.rank = rank_of(rule);
        self.number = number_of(rule);
        true
    }
}

/// The end of the line of a fetch that was done, from the space after its address on. It is kept for fetches by code of
/// one privilege that one rule grants.
#[derive(Clone, Copy)]
pub struct FetchEnd {
    /// The end, in the first `count` bytes. All 16 are copied at once.
    pub(crate) text: [u8; 16],
    pub(crate) count: usize,
    pub rule: Rule,
    pub privileged: bool,
    ghost few: { count ≤ 16 },
    ghost right: { take count text ≡ fetch_end privileged rule },
}

impl FetchEnd {
    /// Returns the end for privileged code while the MPU is off.
    pub fn new() -> Self
        ensures { (result.rule ≡ MpuOff) × (result.privileged ≡ true) }
    {
        FetchEnd {
            text: *b" 2 p ok off\n    ",
            count: 12,
            rule: Rule::MpuOff,
            privileged: true,
        }
    }

    /// Returns the end for code of one privilege and one rule; None if the part of it from ` ok` on is longer than 8
    /// bytes.
    #[cold]
    #[inline(never)]
    #[tactic(auto, using(crate::proofs::Ends::after_address))]
    pub fn of(rule: Rule, privileged: bool) -> Option<Self>
        ensures { IfSome result (λ end. (end.rule ≡ rule) × (end.privileged ≡ privileged)) }
    {
        let end = end_of(rule)?;
        Some(FetchEnd {
            text: after_address(&end.0, privileged),
            count: 4 + end.1,
            rule,
            privileged,
        })
    }
}

/// Returns the size of a fetch and the privilege before the end of its line, and 4 bytes that don't count.
fn after_address(end: &[u8; 8], privileged: bool) -> [u8; 16]
    ensures { result ≡ codes " 2 " ++ (privilege_text privileged ++ (end.now ++ codes "    ")) }
{
    let mut text = before_end(privileged);
    text[4..12].copy_from_slice(end);
    text
}

/// Returns the size of a fetch and the privilege, and 12 bytes that don't count.
fn before_end(privileged: bool) -> [u8; 16]
    ensures { result ≡ codes " 2 " ++ (privilege_text privileged ++ codes "            ") }
{
    if privileged {
        *b" 2 p            "
    } else {
        *b" 2 u            "
    }
}

/// Returns the end of the line of an access that was done, and its length; None if it is longer than 8 bytes. Regions
/// of the MPU have numbers below 16.
#[tactic(auto, using(std::proofs::lemmas::Fmt::decimal_digit, crate::proofs::Ticks::from_ten))]
fn end_of(rule: Rule) -> Option<([u8; 8], usize)>
    ensures few { IfSome result (λ e. e.1 ≤ 8) }
    ensures text { IfSome result (λ e. take e.1 e.0 ≡ end_text rule) }
{
    match rule {
        Rule::ExecuteNever => Some((*b" ok xn\n ", 7)),
        Rule::VectorRead => Some((*b" ok vec\n", 8)),
        Rule::PrivatePeripheralBus => Some((*b" ok ppb\n", 8)),
        Rule::MpuOff => Some((*b" ok off\n", 8)),
        Rule::NegativePriority => Some((*b" ok neg\n", 8)),
        Rule::Region(number) if number < 10 => {
            Some((
                [b' ', b'o', b'k', b' ', b'r', b'0' + number, b'\n', b' '],
                7,
            ))
        }
        Rule::Region(number) if number < 20 => {
            Some((
                [
                    b' ',
                    b'o',
                    b'k',
                    b' ',
                    b'r',
                    b'1',
                    b'0' + (number - 10),
                    b'\n',
                ],
                8,
            ))
        }
        Rule::Region(_) => None,
        Rule::Background => Some((*b" ok bg\n ", 7)),
        Rule::NoRegion => None,
    }
}

/// Returns the rank of a rule.
#[inline(always)]
fn rank_of(rule: Rule) -> u8
    ensures { result ≡ rank rule }
{
    match rule {
        Rule::ExecuteNever => 0,
        Rule::VectorRead => 1,
        Rule::PrivatePeripheralBus => 2,
        Rule::MpuOff => 3,
        Rule::NegativePriority => 4,
        Rule::Region(_) => 5,
        Rule::Background => 6,
        Rule::NoRegion => 7,
    }
}

/// Returns whether a rule is that of the region with a number, or of no region. It is a test of its own, after that of
/// the rank, so that the compiler doesn't make a jump of each rule.
#[inline(always)]
fn fits_number(number: u8, rule: Rule) -> bool
    ensures { result ≡ fits_number number rule }
{
    match rule {
        Rule::Region(its) => number == its,
        _ => true,
    }
}

/// Returns the number of the region whose rule this is, and 0 for another rule.
#[inline(always)]
fn number_of(rule: Rule) -> u8
    ensures { fits_number result rule ≡ true }
{
    match rule {
        Rule::Region(number) => number,
        _ => 0,
    }
}
