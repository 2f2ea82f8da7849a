//! The rows of rankings. Expected numbers are worked out by hand.

use instruction_set::size::Size;
use platform::access::{Access, DecidedAccess, Kind, Rule};
use platform::board::SMALL_BOARD;
use std::test::*;
use survey::Survey;
use symbol_steps::{MAX_ROWS, Ranking, Totals};
use symbols::{Symbol, Symbols};

/// A symbol: its address, its size and the place of its name.
type Named = (u32, u32, u32);

/// Instructions: their address, whether code was privileged, and how many there were.
type Counted = (u32, bool, u32);

/// A row: the symbol's address and the place of its name, and the numbers of unprivileged and privileged code.
type Row = (u32, u32, u64, u64);

/// A ranking.
#[derive(Clone, Copy)]
struct Case<'a> {
    name: &'a str,
    symbols: &'a [Named],
    counted: &'a [Counted],
    rows: &'a [Row],
}

const CASES: [Case<'static>; 13] = [
    Case {
        name: "a symbol without instructions has no row",
        symbols: &[(0x100, 4, 1), (0x104, 4, 2)],
        counted: &[(0x104, false, 1)],
        rows: &[(0x104, 2, 1, 0)],
    },
    Case {
        name: "rows go from the most instructions on",
        symbols: &[(0x100, 4, 1), (0x200, 4, 2), (0x300, 4, 3)],
        counted: &[(0x102, false, 2), (0x200, true, 1), (0x302, true, 3)],
        rows: &[(0x300, 3, 0, 3), (0x100, 1, 2, 0), (0x200, 2, 0, 1)],
    },
    Case {
        name: "of two with as many the first of the list is first",
        symbols: &[(0x200, 4, 1), (0x100, 4, 2)],
        counted: &[(0x100, true, 2), (0x200, false, 2)],
        rows: &[(0x200, 1, 2, 0), (0x100, 2, 0, 2)],
    },
    Case {
        name: "each halfword of a symbol counts, and none beside it",
        symbols: &[(0x100, 6, 1)],
        counted: &[
            (0x0FE, true, 100),
            (0x100, false, 1),
            (0x102, true, 2),
            (0x104, false, 4),
            (0x106, true, 100),
        ],
        rows: &[(0x100, 1, 5, 2)],
    },
    Case {
        name: "symbols of RAM, up to its last halfword",
        symbols: &[(0x2000_0000, 4, 1), (0x2000_1FFC, 4, 2)],
        counted: &[(0x2000_0002, false, 3), (0x2000_1FFE, true, 4)],
        rows: &[(0x2000_1FFC, 2, 0, 4), (0x2000_0000, 1, 3, 0)],
    },
    Case {
        name: "a symbol that ends beyond its memory",
        symbols: &[(0x0FFC, 0xFFFF_FFFF, 1)],
        counted: &[(0x0FFE, false, 1), (0x2000_0000, true, 2)],
        rows: &[(0x0FFC, 1, 1, 2)],
    },
    Case {
        name: "a symbol without a size covers what is below the next",
        symbols: &[(0x100, 0, 1), (0x110, 4, 2)],
        counted: &[(0x100, false, 1), (0x10E, true, 2), (0x110, true, 1)],
        rows: &[(0x100, 1, 1, 2), (0x110, 2, 0, 1)],
    },
    Case {
        name: "the last symbol without a size covers its own address",
        symbols: &[(0x110, 0, 1), (0x100, 4, 2)],
        counted: &[(0x110, true, 1), (0x112, true, 100)],
        rows: &[(0x110, 1, 0, 1)],
    },
    Case {
        name: "a symbol in another takes its halfwords from it",
        symbols: &[(0x100, 0x10, 1), (0x108, 4, 2)],
        counted: &[
            (0x100, false, 1),
            (0x108, false, 2),
            (0x10A, true, 4),
            (0x10C, true, 8),
        ],
        rows: &[(0x100, 1, 1, 8), (0x108, 2, 2, 4)],
    },
    Case {
        name: "a symbol over the end of another takes its halfwords too",
        symbols: &[(0x108, 0x10, 1), (0x100, 0x0C, 2)],
        counted: &[(0x106, true, 1), (0x108, true, 2), (0x116, true, 4)],
        rows: &[(0x108, 1, 0, 6), (0x100, 2, 0, 1)],
    },
    Case {
        name: "of two names of a function the first has the row",
        symbols: &[(0x100, 4, 1), (0x100, 4, 2)],
        counted: &[(0x100, false, 1), (0x102, true, 1)],
        rows: &[(0x100, 1, 1, 1)],
    },
    Case {
        name: "a symbol that is listed twice has one row",
        symbols: &[(0x100, 4, 1), (0x100, 4, 1)],
        counted: &[(0x100, false, 1), (0x102, true, 1)],
        rows: &[(0x100, 1, 1, 1)],
    },
    Case {
        name: "a second symbol of a name has no row where it is longer",
        symbols: &[(0x100, 4, 1), (0x100, 8, 1)],
        counted: &[(0x102, false, 1), (0x106, true, 2)],
        rows: &[(0x100, 1, 1, 0)],
    },
];

/// Counts instructions in a survey: each fetch is that of the step that begins at its address.
fn count(survey: &mut Survey, address: u32, privileged: bool, times: u32) {
    let fetch = DecidedAccess {
        access: Access {
            address,
            kind: Kind::Fetch,
            size: Size::Halfword,
            privileged,
        },
        rule: Rule::MpuOff,
        refused: None,
    };
    'times: for _ in 0..times {
        survey.flash_code.take_access(address, &fetch);
        survey.ram_code.take_access(address, &fetch);
    }
}

/// Returns the symbols of a list.
fn symbols_of(rt: &HostRuntime, named: &[Named]) -> Result<Symbols<'static>, Fail> {
    let mut list = Vec::new(rt.alloc());
    'named: for (address, size, name) in named {
        list.push(Symbol {
            address: *address,
            size: *size,
            name: *name,
        })?;
    }
    Ok(Symbols {
        strings: &[],
        list,
        damaged: false,
    })
}

#[test]
fn rankings_have_their_rows(rt: HostRuntime) -> Result<(), Fail> {
    'cases: for case in &CASES {
        let name = case.name;
        let mut survey = Survey::new(rt.alloc(), &SMALL_BOARD)?;
        'counted: for (address, privileged, times) in case.counted {
            count(&mut survey, *address, *privileged, *times);
        }
        let symbols = symbols_of(&rt, case.symbols)?;
        let ranking = Ranking::of(&survey, &symbols);
        assert_eq!(rt; ranking.rows().len(), case.rows.len(), "{name}");
        'rows: for (row, expected) in ranking.rows().iter().zip(case.rows) {
            assert_eq!(rt; row.symbol.address, expected.0, "{name}");
            assert_eq!(rt; row.symbol.name, expected.1, "{name}");
            assert_eq!(rt; row.totals.unprivileged, expected.2, "{name}");
            assert_eq!(rt; row.totals.privileged, expected.3, "{name}");
        }
    }
    Ok(())
}

/// 21 symbols, of which the one at 4 times k has k instructions, from 1 to 21. So the first is cut, and the rows have
/// the sum of 2 to 21, which is 230.
#[test]
fn a_ranking_has_twenty_rows(rt: HostRuntime) -> Result<(), Fail> {
    let mut survey = Survey::new(rt.alloc(), &SMALL_BOARD)?;
    let mut list = Vec::new(rt.alloc());
    'symbols: for k in 1..=21 {
        let address = 4 * k;
        count(&mut survey, address, true, k);
        list.push(Symbol {
            address,
            size: 4,
            name: k,
        })?;
    }
    let symbols = Symbols {
        strings: &[],
        list,
        damaged: false,
    };
    let ranking = Ranking::of(&survey, &symbols);
    let all = Totals::of_all(&survey);
    assert_eq!(rt; ranking.rows().len(), MAX_ROWS);
    assert_eq!(rt; ranking.rows()[0].totals.privileged, 21);
    assert_eq!(rt; ranking.rows()[19].totals.privileged, 2);
    assert_eq!(rt; ranking.shown().sum(), 230);
    assert_eq!(rt; all.sum(), 231);
    assert_eq!(rt; all.less(ranking.shown()).privileged, 1);
    Ok(())
}
