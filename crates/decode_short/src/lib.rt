//! The rows of 16 bits (ARM DDI 0403, "16-bit Thumb instruction encoding"), table by table. The crate
//! `decode` puts the tables together.
#![tactic(auto)]

mod short_branches;
mod short_data;
mod short_load_store;
mod short_miscellaneous;
mod short_shifts;
mod short_special;

pub use short_branches::branch_rows;
pub use short_data::{data_high_rows, data_low_rows};
pub use short_load_store::{immediate_and_list_rows, literal_and_register_rows};
pub use short_miscellaneous::{adjusting_rows, controlling_rows};
pub use short_shifts::shifts_and_moves;
pub use short_special::special_rows;
