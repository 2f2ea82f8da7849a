//! The rows of 32 bits (ARM DDI 0403, "32-bit Thumb instruction encoding"), table by table. The crate `decode` puts the
//! tables together.
#![tactic(auto)]

mod long_control;
mod long_dual;
mod long_immediate;
mod long_load;
mod long_multiple;
mod long_multiply;
mod long_plain;
mod long_register;
mod long_shifted;
mod long_store;

pub use long_control::long_control_rows;
pub use long_dual::dual_rows;
pub use long_immediate::{logical_immediate_rows, sum_immediate_rows};
pub use long_load::{narrow_load_rows, word_load_rows};
pub use long_multiple::multiple_rows;
pub use long_multiply::product_rows;
pub use long_plain::plain_rows;
pub use long_register::register_rows;
pub use long_shifted::{logical_shifted_rows, sum_shifted_rows};
pub use long_store::store_rows;
