//! Captures as text.
use crate::random::Random;
use formats::{Failure, compact, read_capture, write_capture};
use samples::{Refusal, Run, Runs};
use std::alloc::{AllocError, Global};
use std::test::Fail;

/// Whether a text is compacted to another.
fn becomes(alloc: Global, text: &[u8], out: &str) -> bool {
    compact(alloc, text).is_ok_and(|written| written.as_str() == out)
}

#[test]
fn texts_are_compacted(rt: HostRuntime) {
    let alloc = rt.alloc();
    assert!(rt; becomes(alloc, b"", ""));
    assert!(rt; becomes(alloc, b"7 3", "7 3\n"));
    assert!(rt; becomes(alloc, b"7 1\n7 2\n2 2\n7 1\n", "7 3\n2 2\n7 1\n"));
    assert!(rt; becomes(alloc, b"007 0003\n", "7 3\n"));
    assert!(rt; becomes(alloc, b"0 1\n65535 65535\n", "0 1\n65535 65535\n"));
    assert!(rt; becomes(alloc, b"7 65535\n7 65535\n7 1\n", "7 65535\n7 65535\n7 1\n"));
    assert!(rt; becomes(alloc, b"7 40000\n7 40000\n", "7 65535\n7 14465\n"));
}

#[test]
fn runs_are_written_and_read_back(rt: HostRuntime) -> Result<(), Fail> {
    let alloc = rt.alloc();
    let mut runs = Runs::new(alloc);
    let none = write_capture(alloc, &runs)?;
    assert!(rt; none.as_str() == "");
    for (sample, count) in [
        (0, 1),
        (9, 10),
        (99, 100),
        (999, 1000),
        (9999, 10000),
        (65535, 65535),
    ] {
        runs.push(Run { sample, count })?;
    }
    let text = write_capture(alloc, &runs)?;
    assert!(rt; text.as_str() == "0 1\n9 10\n99 100\n999 1000\n9999 10000\n65535 65535\n");
    let back = read_capture(alloc, 0, text.as_bytes())?;
    assert!(rt; back.as_slice() == runs.as_slice());
    Ok(())
}

/// Whether a text is refused so.
fn refuses(alloc: Global, text: &[u8], refusal: Refusal) -> bool {
    compact(alloc, text).is_err_and(|failure| failure == Failure::Refused(refusal))
}

#[test]
fn lines_that_are_none_are_refused(rt: HostRuntime) -> Result<(), Fail> {
    let alloc = rt.alloc();
    let lines: [&[u8]; 22] = [
        b"\n",
        b" \n",
        b"7",
        b"7 ",
        b" 7",
        b"7  3",
        b"7 3 ",
        b" 7 3",
        b"7 3 1",
        b"7\t3",
        b"7 3\r\n",
        b"+7 3",
        b"7 +3",
        b"-7 3",
        b"7,3",
        b"0x7 3",
        b"7 3a",
        b"\xff 3",
        b"7 0",
        b"7 65536",
        b"7 99999999999999999999999999",
        b"65536 0",
    ];
    for line in lines {
        assert!(rt; refuses(alloc, line, Refusal::Text(0)));
        let mut text = Vec::from_slice(alloc, b"1 1\n2 2\n")?;
        text.extend_from_slice(line)?;
        assert!(rt; refuses(alloc, text.as_slice(), Refusal::Text(2)));
        text.extend_from_slice(b"\n70000 1\n")?;
        assert!(rt; refuses(alloc, text.as_slice(), Refusal::Text(2)));
    }
    Ok(())
}

#[test]
fn lines_below_a_header_are_counted_from_1(rt: HostRuntime) {
    let alloc = rt.alloc();
    let read = read_capture(alloc, 1, b"7 3\nx\n");
    assert!(rt; read.is_err_and(|failure| failure == Failure::Refused(Refusal::Text(2))));
}

#[test]
fn samples_above_65535_are_refused_by_their_place(rt: HostRuntime) {
    let alloc = rt.alloc();
    assert!(rt; refuses(alloc, b"65536 1", Refusal::Samples(0)));
    assert!(rt;
        refuses(
            alloc,
            b"1 5\n2 65535\n70000 3\nx\n",
            Refusal::Samples(65540)
        )
    );
    assert!(rt;
        refuses(
            alloc,
            b"1 5\n340282366920938463463374607431768211456 3\n",
            Refusal::Samples(5),
        )
    );
}

#[test]
fn the_longest_failure_has_120_bytes_at_most(rt: HostRuntime) -> Result<(), Fail> {
    let longest = Failure::Refused(Refusal::Text(u64::MAX)).to_string(rt.alloc())?;
    assert!(rt; longest.as_str().len() <= 120);
    Ok(())
}

#[test]
fn failures_say_number_place_and_meaning(rt: HostRuntime) -> Result<(), Fail> {
    let alloc = rt.alloc();
    let text = Failure::Refused(Refusal::Text(3)).to_string(alloc)?;
    assert!(rt;
        text.as_str()
            == "refused 5 at 3: this line is not SAMPLE COUNT with a count of 1 to 65535; the first is line 0"
    );
    let sample = Failure::Refused(Refusal::Samples(70)).to_string(alloc)?;
    assert!(rt;
        sample.as_str() == "refused 3 at 70: this sample is above 65535; the first is sample 0"
    );
    let memory = Failure::Memory.to_string(alloc)?;
    assert!(rt; memory.as_str() == "out of memory");
    Ok(())
}

/// The text of a stream, a line for each sample or for some equal ones, and that of its fewest runs.
fn two_texts(alloc: Global, random: &mut Random) -> Result<(String, String), AllocError> {
    let mut text = String::new(alloc);
    let mut fewest = String::new(alloc);
    for _ in 0..random.up_to(30) {
        // Even and odd samples by turns, so that neighbours differ.
        let even = 2 * random.up_to(32767);
        for sample in [even, even + 1] {
            let mut sum = 0u32;
            for _ in 0..=random.up_to(2) {
                let count = u32::from(random.up_to(999)) + 1;
                text.push_str(format!(in alloc; "{sample} {count}\n")?.as_str())?;
                sum = sum.saturating_add(count);
            }
            fewest.push_str(format!(in alloc; "{sample} {sum}\n")?.as_str())?;
        }
    }
    Ok((text, fewest))
}

#[test]
fn random_texts_are_compacted(rt: HostRuntime) -> Result<(), Fail> {
    let alloc = rt.alloc();
    let mut random = Random(4);
    for _ in 0..200 {
        let (text, fewest) = two_texts(alloc, &mut random)?;
        assert!(rt; becomes(alloc, text.as_bytes(), fewest.as_str()));
        assert!(rt; becomes(alloc, fewest.as_bytes(), fewest.as_str()));
    }
    Ok(())
}
