//! The tests of crates whose work is to count and to write: what a survey counts, and the pages that `report` writes
//! about one; who may touch what, rankings of symbols, messages, what a command line asks for, and gdb's packets and
//! texts. Their values are counted by hand, or come from recorded sessions or from a machine in another language.
#![tactic(auto)]

#[cfg(test)]
mod tests;
