//! The program `marm`: it runs an image and writes the trace to standard output, or debugs it by the
//! commands on standard input.
#![tactic(auto)]

use command::{program, refuse_args, words};
use std::io;
use std::process::ExitCode;

fn main(rt: HostRuntime) -> ExitCode {
    let mut err = rt.stderr();
    let status = match words(&rt) {
        Ok(words) => program(&rt, words.as_slice(), rt.stdin(), io::writer(&rt), &mut err),
        Err(error) => refuse_args(&error, &mut err),
    };
    ExitCode::from(status)
}
