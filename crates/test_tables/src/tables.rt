//! Tables of rows in files. The table KIND/NAME is the file NAME.txt of the folder KIND. Rows have a blank line between
//! them, or each line is a row, and the first line of a row is its name. The lines after `before each row` stand after
//! the name of each row that follows. A line that begins with `# ` is a comment.

use super::outcome::Outcome;
use std::process::ExitCode;
use std::{env, fs, io};

/// What is printed for words that don't fit.
const USAGE: &str = "usage: TABLE.. | one TABLE NAME";

/// The first line of what has the lines that stand after the name of each row.
const BEFORE: &str = "before each row";

/// What checks the rows of each kind of table.
pub trait Kinds {
    /// Returns whether each line of a table, KIND/NAME, is a row.
    fn has_line_rows(&self, _table: &str) -> bool {
        false
    }

    /// Compares what a row of a table, KIND/NAME, wants with what comes. The row has its name in its first line, and a
    /// line feed after each line.
    fn check(&mut self, table: &str, row: &str) -> io::Result<Outcome>;
}

/// Returns the kind and the name of a table, KIND/NAME.
pub fn kind_of(table: &str) -> (&str, &str) {
    table.split_once('/').unwrap_or(("", table))
}

/// Runs the tables that the program's arguments name, or by `one TABLE NAME` the rows whose names begin so, and prints
/// the rows that fail and how many hold. The status is 1 where a row fails or a table has none, and 2 where a call of
/// the system fails.
pub fn run_tables<K: Kinds>(rt: &HostRuntime, kinds: &mut K) -> ExitCode {
    match run_words(rt, kinds) {
        Ok(true) => ExitCode::SUCCESS,
        Ok(false) => ExitCode::from(1),
        Err(error) => {
            let _ = rt.println(error);
            ExitCode::from(2)
        }
    }
}

/// Returns whether all rows hold that the program's arguments name.
fn run_words<K: Kinds>(rt: &HostRuntime, kinds: &mut K) -> io::Result<bool> {
    let mut words = env::args(rt)?;
    let (Some(_), Some(first)) = (words.next(), words.next()) else {
        rt.println(USAGE)?;
        return Ok(false);
    };
    if first.as_str() == "one" {
        let (Some(table), Some(name)) = (words.next(), words.next()) else {
            rt.println(USAGE)?;
            return Ok(false);
        };
        return Table::new(table.as_str(), Some(name.as_str())).run(rt, kinds);
    }
    let mut all = Table::new(first.as_str(), None).run(rt, kinds)?;
    'tables: for table in words {
        all &= Table::new(table.as_str(), None).run(rt, kinds)?;
    }
    Ok(all)
}

/// A table, and how many of its rows hold and fail.
#[derive(Drop)]
struct Table<'a> {
    table: &'a str,
    /// The name of the rows that are run, where not all are.
    only: Option<&'a str>,
    hold: u64,
    fail: u64,
}

impl<'a> Table<'a> {
    fn new(table: &'a str, only: Option<&'a str>) -> Self {
        Table {
            table,
            only,
            hold: 0,
            fail: 0,
        }
    }

    /// Runs its rows, and returns whether all hold.
    fn run<K: Kinds>(mut self, rt: &HostRuntime, kinds: &mut K) -> io::Result<bool> {
        let table = self.table;
        let path = format!(in rt.alloc(); "{table}.txt")?;
        match fs::read_to_string(rt, path.as_str()) {
            Ok(text) => self.run_rows(rt, text.as_str(), kinds)?,
            Err(error) => {
                println!(rt; "{path}: {error}")?;
                return Ok(false);
            }
        }
        self.print(rt)?;
        Ok(self.fail == 0 && self.hold > 0)
    }

    /// Runs the rows of a text.
    fn run_rows<K: Kinds>(
        &mut self,
        rt: &HostRuntime,
        text: &str,
        kinds: &mut K,
    ) -> io::Result<()> {
        let has_line_rows = kinds.has_line_rows(self.table);
        let mut before = String::new(rt.alloc());
        let mut row = String::new(rt.alloc());
        'lines: for line in text.lines() {
            if !line.is_empty() && !is_comment(line) {
                let is_first = row.is_empty();
                row.push_str(line)?;
                row.push('\n')?;
                if is_first && line != BEFORE {
                    row.push_str(before.as_str())?;
                }
            }
            if line.is_empty() || has_line_rows {
                self.end_row(rt, &mut before, &mut row, kinds)?;
            }
        }
        self.end_row(rt, &mut before, &mut row, kinds)
    }

    /// Runs a row, or keeps its lines as those before each row, and empties it.
    fn end_row<K: Kinds>(
        &mut self,
        rt: &HostRuntime,
        before: &mut String,
        row: &mut String,
        kinds: &mut K,
    ) -> io::Result<()> {
        match row.as_str().split_once('\n') {
            Some((BEFORE, lines)) => {
                before.clear();
                before.push_str(lines)?;
            }
            Some((name, _)) => self.run_row(rt, name, row.as_str(), kinds)?,
            None => {}
        }
        row.clear();
        Ok(())
    }

    /// Runs a row, where it is one of those that are run.
    fn run_row<K: Kinds>(
        &mut self,
        rt: &HostRuntime,
        name: &str,
        row: &str,
        kinds: &mut K,
    ) -> io::Result<()> {
        if let Some(only) = self.only
            && !name.starts_with(only)
        {
            return Ok(());
        }
        let outcome = if name.trim().is_empty() {
            Outcome::Unreadable
        } else {
            kinds.check(self.table, row)?
        };
        if outcome.holds() {
            self.hold = self.hold.saturating_add(1);
        } else {
            self.fail = self.fail.saturating_add(1);
        }
        print_failure(rt, name, &outcome)
    }

    /// Prints how many rows hold, and how many fail.
    fn print(&self, rt: &HostRuntime) -> io::Result<()> {
        let (table, hold, fail) = (self.table, self.hold, self.fail);
        match (self.only, fail) {
            (Some(name), 0) if hold == 0 => println!(rt; "{table}: no row has the name {name}"),
            (_, 0) if hold == 0 => println!(rt; "{table}: no row"),
            (_, 0) if hold == 1 => println!(rt; "{table}: 1 row holds"),
            (_, 0) => println!(rt; "{table}: {hold} rows hold"),
            (_, _) => println!(rt; "{table}: {hold} rows hold, {fail} fail"),
        }
    }
}

/// Prints the name of a row that fails, and the first line that differs.
fn print_failure(rt: &HostRuntime, name: &str, outcome: &Outcome) -> io::Result<()> {
    match outcome {
        Outcome::Holds => Ok(()),
        Outcome::Differs { wanted, came } => {
            println!(rt; "{name}\n  wanted: {wanted}\n  came: {came}")
        }
        Outcome::Unreadable => println!(rt; "{name}\n  the row can't be read"),
    }
}

/// Returns whether a line of a table is a comment.
fn is_comment(line: &str) -> bool {
    line == "#" || line.starts_with("# ")
}
