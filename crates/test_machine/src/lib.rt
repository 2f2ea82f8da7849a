//! Runs of whole machines: what they write, and the state afterwards; and parts of machines. Tests alone, over public
//! functions; the values come from the manual (ARM DDI 0403).
#![tactic(auto)]

#[cfg(test)]
mod tests;
