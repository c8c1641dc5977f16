//! What a program does that makes one text of another: it reads all, and then it writes all.
#![tactic(auto)]

ghost use Rattle.std.specs.Prelude.{◌≤◌, Ok, OnOk, IfSome};
ghost use Rattle.std.specs.Fn.{FnOnceReturnsAt};
ghost use Rattle.std.specs.Io.KnownBytes.{Appends};
ghost use Rattle.std.specs.Process.{exit_status};

use anyhow::Result;
use std::alloc::Global;
use std::error::Error;
use std::io;
use std::io::{AsBytes, Read, Write};
use std::process::ExitCode;

/// Writes what `make` gives for all that a reader has left. That it may be called is asked by each function that calls it or hands it on, as the language wants it.
pub fn pass<R: Read, W: Write, T: AsBytes + Drop, E: Error, F: FnOnce(&[u8]) -> Result<T, E>>(
    alloc: Global,
    input: &mut R,
    output: &mut W,
    make: F,
) -> Result<()>
    requires { F.IsAlwaysCallable make }
    ensures { OnOk result (IfSome (R.remaining input.old) (λ text. (made : T) × FnOnceReturnsAt F.FnOnce make text (Ok made) × IfSome (T.bytes made) (Appends (W.contents output.old) (W.contents output.new)))) }
{
    let mut text = Vec::new(alloc);
    input.read_to_end(&mut text)?;
    let made = make(text.as_slice())?;
    output.write_all(made.as_byte_slice())?;
    Ok(())
}

/// Runs a program that passes what `make` gives for standard input on to standard output. A failure is one line on standard error, and status 1.
/// What is read and written is not stated here: no clause knows the bytes of the standard streams.
pub fn run<
    R: Input + Print + Eprint + AllocGlobal,
    T: AsBytes + Drop,
    E: Error,
    F: FnOnce(&[u8]) -> Result<T, E>,
>(rt: &R, make: F) -> ExitCode
    requires { F.IsAlwaysCallable make }
    ensures { exit_status result ≤ 1 }
{
    match pass(rt.alloc(), &mut rt.reader(), &mut io::writer(rt), make) {
        Ok(()) => ExitCode::SUCCESS,
        Err(e) => {
            let _ = eprintln!(rt; "{e}");
            ExitCode::FAILURE
        },
    }
}

#[cfg(test)]
mod tests {
    use super::pass;
    use std::test::Fail;

    #[test]
    fn what_is_made_is_written(rt: HostRuntime) -> Result<(), Fail> {
        let alloc = rt.alloc();
        let mut input: &[u8] = b"some text";
        let mut output = Vec::from_slice(alloc, b"> ")?;
        let passed = pass(
            alloc,
            &mut input,
            &mut output,
            |text| Vec::from_slice(alloc, text),
        );
        assert!(rt; passed.is_ok());
        assert!(rt; output.as_slice() == b"> some text".as_slice());
        Ok(())
    }

    #[test]
    fn nothing_is_written_where_nothing_is_made(rt: HostRuntime) -> Result<(), Fail> {
        let alloc = rt.alloc();
        let mut input: &[u8] = b"some text";
        let mut output = Vec::new(alloc);
        let passed = pass(
            alloc,
            &mut input,
            &mut output,
            |_| "no number".parse::<u8>().map(|_| String::new(alloc)),
        );
        assert!(rt; passed.is_err());
        assert!(rt; output.is_empty());
        Ok(())
    }
}
