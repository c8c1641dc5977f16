//! Reads a header and a capture from standard input, and lists what is read of it.
#![tactic(auto)]

use readout::decode_text;
use std::process::ExitCode;

fn main(rt: HostRuntime) -> ExitCode {
    pipe::run(&rt, |text| decode_text(rt.alloc(), text))
}
