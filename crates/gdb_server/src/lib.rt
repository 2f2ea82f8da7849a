//! A server of GDB's remote serial protocol: what it keeps between two bytes of its input, and what each byte makes.
#![tactic(auto)]

mod commands;
mod content;
mod purposes;
mod reading;
mod server;
mod session;
mod waiting;
mod writes;

pub use server::Server;
