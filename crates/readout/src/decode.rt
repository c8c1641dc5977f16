//! From the text of a capture below a header to the text of what is read.
ghost use Rattle.std.specs.Prelude.{string_bytes, MatchResult};
ghost use Rattle.readout.specs.Decode.{Decodes, DecodeFails, DecodesSerial, FailsSerial};

use crate::header::{Settings, read_header};
use crate::listing::list;
use formats::{Failure, read_capture};
use samples::Refusal;
use std::alloc::Global;
use uart::Reader;

/// Lists what is read of a capture by the header that its text begins with, a line for each word.
pub fn decode_text(alloc: Global, text: &[u8]) -> Result<String, Failure>
    ensures { MatchResult result (λ out. Decodes text.now (string_bytes out)) (λ e. DecodeFails e text.now) }
{
    let (settings, lines) = read_header(text).ok_or(Refusal::Text(0))?;
    match settings {
        Settings::Serial { line, bit } => decode_serial(alloc, line, bit, lines),
    }
}

/// Lists what is read of a serial line; the first of the lines counts as line 1.
fn decode_serial(alloc: Global, line: u32, bit: u32, lines: &[u8]) -> Result<String, Failure>
    ensures { MatchResult result (λ out. DecodesSerial line bit lines.now (string_bytes out)) (λ e. FailsSerial e line bit lines.now) }
{
    let reader = Reader::new(u64::from(bit), u64::from(line))?;
    let runs = read_capture(alloc, 1, lines)?;
    Ok(list(alloc, reader, runs.as_slice())?)
}
