//! Serial lines, read from a lent memory into a lent room.
use samples::Refusal;
use std::alloc::{AllocError, Global};
use std::test::Fail;

/// What a reader that has read nothing remembers, written out so that no test hangs on `fresh_memory`.
const FRESH: [u64; 5] = [0, 1, 0, 0, 0];

/// Samples with the levels of a text on line 0, and on line 9 the opposite. Only 0 and 1 are levels.
fn levels(alloc: Global, text: &[u8]) -> Result<Vec<u16>, AllocError> {
    text.iter()
        .filter_map(|level| match *level {
            b'0' => Some(0x200),
            b'1' => Some(1),
            _ => None,
        })
        .collect(alloc)
}

/// Whether just these numbers are read by a fresh reader, into just so much room.
fn reads(alloc: Global, bit: u64, text: &[u8], numbers: &[u64]) -> Result<bool, AllocError> {
    let samples = levels(alloc, text)?;
    let mut memory = FRESH;
    let mut room = vec![in alloc; 9u64; numbers.len()]?;
    let done = uart::serial(bit, 0, samples.as_slice(), &mut memory, room.as_mut_slice());
    let words = (numbers.len() / 2) as u64;
    Ok(done == Ok(words) && room.as_slice() == numbers)
}

#[test]
fn waves_are_read(rt: HostRuntime) -> Result<(), Fail> {
    let cases: [(u64, &[u8], &[u64]); 9] = [
        // 65, a bit to a group.
        (
            4,
            b"0000 1111 0000 0000 0000 0000 0000 1111 0000 1111",
            &[0, 65],
        ),
        // Its levels five and nine are a sample too short, so the look at the last data bit meets the stop bit.
        (
            4,
            b"0000 1111 0000 0000 000 0000 0000 1111 000 1111 1",
            &[0, 193],
        ),
        // No stop bit. Look 9 is at 38.
        (4, b"0000000000 0000000000 0000000000 00000000", &[]),
        (4, b"0000000000 0000000000 0000000000 000000000", &[1, 0]),
        (4, b"0000000000 0000000000 0000000000 0000000000 1", &[1, 0]),
        // A low that is over before half a bit.
        (8, b"1100 1111 1111", &[]),
        // 255 and 0, back to back.
        (
            2,
            b"00 11 11 11 11 11 11 11 11 11 00 00 00 00 00 00 00 00 00 11",
            &[0, 255, 0, 0],
        ),
        // A low that goes on after a broken byte is no start; the next fall is.
        (
            2,
            b"00 00 00 00 00 00 00 00 00 00 0001 00 11 11 11 11 11 11 11 11 11",
            &[1, 0, 0, 255],
        ),
        (4, b"", &[]),
    ];
    for (bit, text, numbers) in cases {
        assert!(rt; reads(rt.alloc(), bit, text, numbers)?);
    }
    Ok(())
}

#[test]
fn every_cut_reads_the_same(rt: HostRuntime) -> Result<(), Fail> {
    let samples = levels(
        rt.alloc(),
        b"0000 1111 0000 0000 0000 0000 0000 1111 0000 1111 0000 1111 0000 0000 0000 0000 0000 1111 1111 1111",
    )?;
    for cut in 0..=samples.len() {
        let (first, second) = samples.as_slice().split_at(cut.min(samples.len()));
        let mut memory = FRESH;
        let mut room = [9u64; 4];
        let words = uart::serial(4, 0, first, &mut memory, &mut room)
            .unwrap_or(0)
            .min(2);
        // Look 9 of the bytes is at 38 and 78.
        assert_eq!(rt; words, u64::from(cut > 38) + u64::from(cut > 78));
        let rest = &mut room[2 * words as usize..];
        assert_eq!(rt;
            uart::serial(4, 0, second, &mut memory, rest),
            Ok(2 - words)
        );
        assert_eq!(rt; room, [0, 65, 0, 193]);
        assert_eq!(rt; memory, FRESH);
    }
    Ok(())
}

/// What a call answers, where it leaves its memory as it was, and a room of nines.
fn unchanged(
    alloc: Global,
    (bit, line): (u64, u64),
    samples: &[u16],
    memory: &[u64],
    room: usize,
) -> Result<Option<Result<u64, Refusal>>, AllocError> {
    let nines = vec![in alloc; 9u64; room]?;
    let mut lent_memory = Vec::from_slice(alloc, memory)?;
    let mut lent_room = nines.clone()?;
    let done = uart::serial(
        bit,
        line,
        samples,
        lent_memory.as_mut_slice(),
        lent_room.as_mut_slice(),
    );
    let same = lent_memory.as_slice() == memory && lent_room.as_slice() == nines.as_slice();
    Ok(same.then_some(done))
}

/// Memories at the edges of what is taken, where a bit is 4 samples.
const TAKEN: [[u64; 5]; 8] = [
    FRESH,
    [0, 0, 0, 0, 0],
    [1, 1, 3, 0, 0],
    [1, 0, 3, 1, 0],
    [1, 0, 3, 2, 1],
    [1, 0, 3, 5, 15],
    [1, 0, 3, 9, 255],
    [0, 0, 3, 9, 255],
];

#[test]
fn memories_are_taken_or_refused(rt: HostRuntime) -> Result<(), Fail> {
    let alloc = rt.alloc();
    for memory in TAKEN {
        let done = unchanged(alloc, (4, 0), &[], &memory, 3)?;
        assert_eq!(rt; done, Some(Ok(0)));
    }
    let refused: [(&[u64], u64); 20] = [
        (&[], 0),
        (&[0], 1),
        (&[0, 1, 0, 0], 4),
        (&[9, 9, 9, 99], 4),
        (&[0, 1, 0, 0, 0, 0], 5),
        (&[9, 9, 9, 99, 999, 0, 0], 5),
        (&[2, 1, 0, 0, 0], 0),
        (&[0, 2, 0, 0, 0], 1),
        (&[0, 1, 4, 0, 0], 2),
        (&[0, 1, 0x1_0000_0000, 0, 0], 2),
        (&[0, 1, 0, 10, 0], 3),
        (&[0, 1, 0, 0x100, 0], 3),
        (&[0, 1, 0, 0, 1], 4),
        (&[0, 1, 0, 1, 1], 4),
        (&[0, 1, 0, 2, 2], 4),
        (&[0, 1, 0, 5, 16], 4),
        (&[0, 1, 0, 9, 256], 4),
        (&[2, 2, 4, 10, 256], 0),
        (&[0, 2, 4, 10, 256], 1),
        (&[0, 1, 4, 10, 256], 2),
    ];
    for (memory, place) in refused {
        let done = unchanged(alloc, (4, 0), &[0, 1], memory, 3)?;
        assert_eq!(rt; done, Some(Err(Refusal::Memory(place))));
    }
    Ok(())
}

#[test]
fn settings_are_taken_or_refused(rt: HostRuntime) -> Result<(), Fail> {
    let cases = [
        (0, 0, Err(Refusal::Setting(0))),
        (1, 0, Err(Refusal::Setting(0))),
        (2, 0, Ok(0)),
        (1_000_000, 15, Ok(0)),
        (1_000_001, 0, Err(Refusal::Setting(0))),
        (0x1_0000_0002, 0, Err(Refusal::Setting(0))),
        (2, 15, Ok(0)),
        (2, 16, Err(Refusal::Setting(1))),
        (2, 0x1_0000_0000, Err(Refusal::Setting(1))),
    ];
    for (bit, line, done) in cases {
        assert_eq!(rt;
            unchanged(rt.alloc(), (bit, line), &[], &FRESH, 3)?,
            Some(done)
        );
    }
    // The wait is less than a bit, whatever that is.
    let memory = [1, 0, 999_999, 9, 255];
    assert_eq!(rt;
        unchanged(rt.alloc(), (1_000_000, 15), &[], &memory, 0)?,
        Some(Ok(0))
    );
    assert_eq!(rt;
        unchanged(rt.alloc(), (999_999, 15), &[], &memory, 0)?,
        Some(Err(Refusal::Memory(2)))
    );
    Ok(())
}

#[test]
fn room_and_samples_have_limits(rt: HostRuntime) -> Result<(), Fail> {
    let low = vec![in rt.alloc(); 0u16; 65535]?;
    let mut memory = FRESH;
    let mut room = [9u64; 2];
    assert_eq!(rt;
        uart::serial(4, 15, low.as_slice(), &mut memory, &mut room[0..1]),
        Err(Refusal::Room(1))
    );
    assert_eq!(rt; room, [9, 9]);
    assert_eq!(rt; memory, FRESH);
    assert_eq!(rt;
        uart::serial(4, 15, low.as_slice(), &mut memory, &mut room),
        Ok(1)
    );
    assert_eq!(rt; room, [1, 0]);
    assert_eq!(rt; memory, [0, 0, 0, 0, 0]);
    Ok(())
}

#[test]
fn refusals_come_in_order(rt: HostRuntime) -> Result<(), Fail> {
    let alloc = rt.alloc();
    let more = vec![in alloc; 0u16; 65536]?;
    let all = more.as_slice();
    let most = &all[0..all.len().min(65535)];
    let broken: &[u64] = &[2, 1, 0, 0, 0];
    let fresh: &[u64] = &FRESH;
    let cases = [
        (1, 16, broken, all, Refusal::Setting(0)),
        (4, 16, broken, all, Refusal::Setting(1)),
        (4, 15, broken, all, Refusal::Memory(0)),
        (4, 15, fresh, all, Refusal::Samples(65535)),
        (4, 15, fresh, most, Refusal::Room(1)),
    ];
    for (bit, line, memory, samples, refusal) in cases {
        let done = unchanged(alloc, (bit, line), samples, memory, 1)?;
        assert_eq!(rt; done, Some(Err(refusal)));
    }
    Ok(())
}
