//! Two machines beside each other, which may differ in one word: what they write, and whether they agree afterwards.

use super::boards::scripted;
use super::machines::{Run, both};
use super::seen::shown;
use super::words::{push_line, split_line};
use machine::{Decider, Exceptions, Fast, KeptCode, Machine, Place, RegValues, Slow, SysTickState};
use std::alloc::Global;
use test_tables::{Outcome, numbers};

/// Runs two machines of each kind, as a row says.
pub fn check(alloc: Global, row: &str) -> Option<Outcome> {
    let (one, two): (Slow, Slow) = (scripted(alloc, row)?, scripted(alloc, row)?);
    let slow = Pair::new(alloc, one, two).goes(row)?;
    let (one, two): (Fast, Fast) = (scripted(alloc, row)?, scripted(alloc, row)?);
    let fast = Pair::new(alloc, one, two).goes(row)?;
    both(alloc, slow, fast)
}

/// The other registers than R0 to R12.
fn others(values: &RegValues) -> [u32; 9] {
    [
        values.msp,
        values.psp,
        values.lr,
        values.pc,
        values.xpsr,
        values.control,
        values.primask,
        values.faultmask,
        values.basepri,
    ]
}

/// Returns whether two machines have the same registers and regions.
fn registers_agree<D: Decider, C: KeptCode, L: Exceptions, U: SysTickState>(
    one: &Machine<D, C, L, U>,
    two: &Machine<D, C, L, U>,
) -> bool {
    let (first, second) = (one.regs(), two.regs());
    'regions: for number in 0..8_u8 {
        if one.region(number) != two.region(number) {
            return false;
        }
    }
    first.general == second.general && others(&first) == others(&second)
}

/// Returns whether two machines have the same bytes in a range of addresses, but for the word at `hidden`.
fn bytes_agree<D: Decider, C: KeptCode, L: Exceptions, U: SysTickState>(
    one: &Machine<D, C, L, U>,
    two: &Machine<D, C, L, U>,
    hidden: Option<u32>,
    base: u32,
) -> bool {
    'bytes: for place in 0..0x2000_u32 {
        let address = base | place;
        if Some(address & !3) != hidden && one.byte(address) != two.byte(address) {
            return false;
        }
    }
    true
}

/// Returns whether two machines of the small board agree, but for the word at `hidden`.
fn agree<D: Decider, C: KeptCode, L: Exceptions, U: SysTickState>(
    one: &Machine<D, C, L, U>,
    two: &Machine<D, C, L, U>,
    hidden: Option<u32>,
) -> bool {
    registers_agree(one, two)
        && bytes_agree(one, two, hidden, 0)
        && bytes_agree(one, two, hidden, 0x2000_0000)
}

/// Runs of two machines, which may differ in the word at an address.
#[derive(Drop)]
struct Pair<D: Decider, C: KeptCode, L: Exceptions, U: SysTickState> {
    alloc: Global,
    one: Run<D, C, L, U>,
    two: Run<D, C, L, U>,
    /// The address, the word of the first machine and that of the second, where they differ.
    words: Option<[u32; 3]>,
    is_visible: bool,
    /// Whether the first machine alone runs tasks.
    is_alone: bool,
}

impl<D: Decider, C: KeptCode, L: Exceptions, U: SysTickState> Pair<D, C, L, U> {
    fn new(alloc: Global, one: Machine<D, C, L, U>, two: Machine<D, C, L, U>) -> Self {
        Pair {
            alloc,
            one: Run::new(alloc, one),
            two: Run::new(alloc, two),
            words: None,
            is_visible: false,
            is_alone: false,
        }
    }

    /// Returns how both machines go as a row says.
    fn goes(mut self, row: &str) -> Option<Outcome> {
        'lines: for line in row.lines().skip(1) {
            let Some(outcome) = self.follow(line) else {
                return Outcome::unreadable(self.alloc, line).ok();
            };
            if !outcome.holds() {
                return Some(outcome);
            }
        }
        self.ends()
    }

    /// Follows a line with both machines, as `machines` does. Besides, `hidden` and `visible` have an address, the word
    /// that is placed there in the first machine, and that in the second; `first` and `second` a line that the first or
    /// the second machine alone writes; and after `alone` the first machine alone runs tasks.
    fn follow(&mut self, line: &str) -> Option<Outcome> {
        let (name, rest) = split_line(line);
        match name {
            "hidden" | "visible" => {
                self.is_visible = name == "visible";
                self.place_words(numbers(rest)?)?;
            }
            "alone" => self.is_alone = true,
            "first" => push_line(&mut self.one.wanted, rest)?,
            "second" => push_line(&mut self.two.wanted, rest)?,
            _ => return self.follow_both(name, line),
        }
        Some(Outcome::Holds)
    }

    /// Follows a line with both machines, or a line `task` with the first one where it alone runs tasks.
    fn follow_both(&mut self, name: &str, line: &str) -> Option<Outcome> {
        let outcome = self.one.follow(line)?;
        if !outcome.holds() || name == "task" && self.is_alone {
            return Some(outcome);
        }
        self.two.follow(line)
    }

    /// Places both words.
    fn place_words(&mut self, words: [u32; 3]) -> Option<()> {
        let [address, first, second] = words;
        self.words = Some(words);
        self.one.machine.place(Place::Word(address, first)).ok()?;
        self.two.machine.place(Place::Word(address, second)).ok()
    }

    /// Returns whether the machines agree, but for the words, which are as they were placed.
    fn agrees(&self) -> bool {
        let (one, two) = (&self.one.machine, &self.two.machine);
        match self.words {
            Some(words) => {
                let [address, first, second] = words;
                agree(one, two, Some(address))
                    && shown(one, address) == Some(first)
                    && shown(two, address) == Some(second)
            }
            None => agree(one, two, None),
        }
    }

    /// Compares what both machines wrote with what they are to write: the same, and then the machines agree; or not the
    /// same, where the word is visible.
    fn ends(&self) -> Option<Outcome> {
        let outcome = self.one.wrote()?;
        if !outcome.holds() {
            return Some(outcome);
        }
        let outcome = self.two.wrote()?;
        if !outcome.holds() {
            return Some(outcome);
        }
        let alike = self.one.out.text.as_slice() == self.two.out.text.as_slice();
        match (self.is_visible, alike, self.agrees()) {
            (true, false, _) | (false, true, true) => Some(Outcome::Holds),
            (true, true, _) => self.differs("both machines write the same"),
            (false, false, _) => self.differs("the machines write different lines"),
            (false, true, false) => self.differs("the machines disagree after the run"),
        }
    }

    /// Returns what is different of two machines.
    fn differs(&self, came: &str) -> Option<Outcome> {
        let wanted = if self.is_visible {
            "the machines write different lines"
        } else {
            "both machines write the same, and agree after the run"
        };
        Outcome::differs(self.alloc, wanted, came).ok()
    }
}
