//! Reads a capture from standard input, and writes it in as few runs as there can be.
#![tactic(auto)]

use formats::compact;
use std::process::ExitCode;

fn main(rt: HostRuntime) -> ExitCode {
    pipe::run(&rt, |text| compact(rt.alloc(), text))
}
