//! The words for what the trace writes as letters, and for other values.

ghost use Rattle.std.specs.Prelude.{◌<◌};

use access_map::{Place, Rights};
use machine::{Kind, LinePage, Rule};
use platform::access::{Access, Cause, DecidedAccess};
use platform::mpu::MAX_REGIONS;
use std::{fmt, str};

/// The kinds of access, in the order of the columns.
pub const KINDS: [Kind; 7] = [
    Kind::Fetch,
    Kind::Load,
    Kind::Store,
    Kind::Push,
    Kind::Pop,
    Kind::Vector,
    Kind::Probe,
];

/// What becomes of an access.
pub const OUTCOMES: [Option<Cause>; 3] = [None, Some(Cause::Mpu), Some(Cause::Bus)];

/// How many rows a table of the rules has.
pub const RULE_ROWS: usize = MAX_REGIONS as usize + OTHER_RULES.len();

/// The rules that are no region, in the order of their rows, which follow those of the regions.
const OTHER_RULES: [Rule; 7] = [
    Rule::Background,
    Rule::NoRegion,
    Rule::MpuOff,
    Rule::NegativePriority,
    Rule::PrivatePeripheralBus,
    Rule::VectorRead,
    Rule::ExecuteNever,
];

/// Returns the rule of a row: the regions that an MPU can have, and then those that are no region.
pub fn rule_of_row(row: usize) -> Rule
    requires { row < RULE_ROWS }
{
    match row.checked_sub(MAX_REGIONS as usize) {
        None => Rule::Region(row as u8),
        Some(other) => OTHER_RULES[other],
    }
}

/// Returns the word for a kind of access.
pub fn kind_word(kind: Kind) -> &'static str {
    match kind {
        Kind::Fetch => "fetch",
        Kind::Load => "load",
        Kind::Store => "store",
        Kind::Push => "push",
        Kind::Pop => "pop",
        Kind::Vector => "vector",
        Kind::Probe => "probe",
    }
}

/// Returns the word for a privilege.
pub fn privilege_word(privileged: bool) -> &'static str {
    if privileged {
        "privileged"
    } else {
        "unprivileged"
    }
}

/// Returns the letter of a privilege in the trace and in ids.
pub fn privilege_letter(privileged: bool) -> &'static str {
    if privileged { "p" } else { "u" }
}

/// Returns the word for what refused an access, as the trace has it.
pub fn cause_word(cause: Cause) -> &'static str {
    match cause {
        Cause::Mpu => "mpu",
        Cause::Bus => "bus",
    }
}

/// Returns the class and the sign of an access that was refused.
pub fn outcome_sign(cause: Cause) -> (&'static str, &'static str) {
    match cause {
        Cause::Mpu => ("refused", "✕"),
        Cause::Bus => ("bus", "⊘"),
    }
}

/// The word of a rule in the trace.
#[derive(Clone, Copy)]
pub struct RuleWord(pub Rule);

impl fmt::Display for RuleWord {
    fn fmt<W: fmt::Write>(&self, f: &mut fmt::Formatter<W>) -> fmt::Result {
        let mut word = LinePage::new();
        word.put_rule_word(self.0);
        f.write_str(str::from_utf8(word.as_slice()).unwrap_or(""))
    }
}

/// What a rule says, in words.
#[derive(Clone, Copy)]
pub struct RuleMeaning(pub Rule);

impl fmt::Display for RuleMeaning {
    fn fmt<W: fmt::Write>(&self, f: &mut fmt::Formatter<W>) -> fmt::Result {
        match self.0 {
            Rule::ExecuteNever => write!(f, "fetch at or above E0000000"),
            Rule::VectorRead => write!(f, "vector read"),
            Rule::PrivatePeripheralBus => write!(f, "Private Peripheral Bus"),
            Rule::MpuOff => write!(f, "MPU off: default map"),
            Rule::NegativePriority => write!(f, "priority below 0: default map"),
            Rule::Region(number) => write!(f, "region {number}"),
            Rule::Background => write!(f, "no region: default map"),
            Rule::NoRegion => write!(f, "no region: refused"),
        }
    }
}

/// An access in words, with its address.
#[derive(Clone, Copy)]
pub struct AccessWords(pub Access);

impl fmt::Display for AccessWords {
    fn fmt<W: fmt::Write>(&self, f: &mut fmt::Formatter<W>) -> fmt::Result {
        let bytes = self.0.size.bytes();
        let plural = if bytes == 1 { "" } else { "s" };
        let (name, joint) = match self.0.kind {
            Kind::Fetch => ("fetch", "from"),
            Kind::Load => ("load", "from"),
            Kind::Store => ("store", "to"),
            Kind::Push => ("push of exception entry,", "to"),
            Kind::Pop => ("pop of exception return,", "from"),
            Kind::Vector => ("vector read", "from"),
            Kind::Probe => ("probe of a store", "to"),
        };
        let privilege = privilege_word(self.0.privileged);
        let of = match self.0.kind {
            Kind::Push | Kind::Pop => "",
            Kind::Fetch | Kind::Load | Kind::Store | Kind::Vector | Kind::Probe => "of ",
        };
        write!(f, "{privilege} {name} {of}{bytes} byte{plural} {joint}")
    }
}

/// What refused an access, in words.
#[derive(Clone, Copy)]
pub struct RefusedBy<'a>(pub &'a DecidedAccess);

impl fmt::Display for RefusedBy<'_> {
    fn fmt<W: fmt::Write>(&self, f: &mut fmt::Formatter<W>) -> fmt::Result {
        match self.0.refused {
            None => write!(f, "not refused"),
            Some(Cause::Mpu) => write_refusing(f, self.0.rule),
            Some(Cause::Bus) => write_granting(f, self.0.rule),
        }
    }
}

/// Writes why a rule refused an access.
fn write_refusing<W: fmt::Write>(f: &mut fmt::Formatter<W>, rule: Rule) -> fmt::Result {
    match rule {
        Rule::ExecuteNever => write!(f, "never executed from here"),
        Rule::VectorRead => write!(f, "vector read"),
        Rule::PrivatePeripheralBus => write!(f, "Private Peripheral Bus"),
        Rule::MpuOff | Rule::NegativePriority | Rule::Background => {
            write!(f, "the default map doesn't grant it")
        }
        Rule::Region(number) => write!(f, "region {number} doesn't grant it"),
        Rule::NoRegion => write!(f, "no region matches"),
    }
}

/// Writes which rule granted an access that the bus refused.
fn write_granting<W: fmt::Write>(f: &mut fmt::Formatter<W>, rule: Rule) -> fmt::Result {
    match rule {
        Rule::VectorRead | Rule::PrivatePeripheralBus => write!(f, "no rule of the MPU refused it"),
        Rule::MpuOff | Rule::NegativePriority | Rule::Background => {
            write!(f, "the default map had granted it")
        }
        Rule::Region(number) => write!(f, "region {number} had granted it"),
        Rule::ExecuteNever | Rule::NoRegion => write!(f, "refused by the rule too"),
    }
}

/// The name of the exception of a number.
#[derive(Clone, Copy)]
pub struct ExceptionName(pub u16);

impl fmt::Display for ExceptionName {
    fn fmt<W: fmt::Write>(&self, f: &mut fmt::Formatter<W>) -> fmt::Result {
        match self.0 {
            1 => write!(f, "Reset"),
            2 => write!(f, "NMI"),
            3 => write!(f, "HardFault"),
            4 => write!(f, "MemManage"),
            5 => write!(f, "BusFault"),
            6 => write!(f, "UsageFault"),
            11 => write!(f, "SVCall"),
            12 => write!(f, "DebugMonitor"),
            14 => write!(f, "PendSV"),
            15 => write!(f, "SysTick"),
            number if number >= 16 => {
                let line = number - 16;
                write!(f, "IRQ {line}")
            }
            number => write!(f, "exception {number}"),
        }
    }
}

/// The letters of rights, and `-` for each that isn't granted.
#[derive(Clone, Copy)]
pub struct RightsLetters(pub Rights);

impl fmt::Display for RightsLetters {
    fn fmt<W: fmt::Write>(&self, f: &mut fmt::Formatter<W>) -> fmt::Result {
        let read = if self.0.read { "r" } else { "-" };
        let write = if self.0.write { "w" } else { "-" };
        let execute = if self.0.execute { "x" } else { "-" };
        write!(f, "{read}{write}{execute}")
    }
}

/// Returns the class of rights: their colour.
pub fn rights_class(rights: Rights) -> &'static str {
    if rights.write {
        "changes"
    } else if rights.read || rights.execute {
        "sees"
    } else {
        "zero"
    }
}

/// Returns the word for a place.
pub fn place_word(place: Place) -> &'static str {
    match place {
        Place::Flash => "flash",
        Place::Ram => "RAM",
        Place::SecondRam => "second RAM",
        Place::Window => "window",
    }
}
