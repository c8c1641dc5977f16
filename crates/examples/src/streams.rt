//! Streams of samples that are handed over in pieces.
ghost use Rattle.std.specs.Prelude.{IsOk};

use crate::random::Random;
use samples::{Refusal, Run, Runs, roll};
use std::alloc::{AllocError, Global};
use std::iter::repeat_n;
use std::test::Fail;

#[test]
fn long_streams_are_parted_at_65535(rt: HostRuntime) -> Result<(), Fail> {
    let alloc = rt.alloc();
    let samples = vec![in alloc; 7u16; 65536]?;
    let mut runs = Runs::new(alloc);
    assert!(rt; runs.as_slice().is_empty());
    runs.extend(samples.as_slice())?;
    let full = Run {
        sample: 7,
        count: 65535,
    };
    let rest = Run {
        sample: 7,
        count: 1,
    };
    assert!(rt; runs.as_slice() == &[full, rest][..]);
    Ok(())
}

#[test]
fn equal_neighbours_are_joined(rt: HostRuntime) -> Result<(), Fail> {
    let mut runs = Runs::new(rt.alloc());
    for (sample, count) in [
        (7, 1),
        (7, 0),
        (9, 0),
        (7, 2),
        (2, 65535),
        (2, 1),
        (2, 65535),
        (7, 1),
    ] {
        runs.push(Run { sample, count })?;
    }
    let sevens = Run {
        sample: 7,
        count: 3,
    };
    let full = Run {
        sample: 2,
        count: 65535,
    };
    let rest = Run {
        sample: 2,
        count: 1,
    };
    let last = Run {
        sample: 7,
        count: 1,
    };
    assert!(rt; runs.as_slice() == &[sevens, full, full, rest, last][..]);
    Ok(())
}

/// Takes a run of no samples. It cannot fail, as a caller knows: there is capacity for the runs that there are.
fn push_none(runs: &mut Runs) -> Result<(), AllocError>
    ensures { IsOk result }
{
    runs.push(Run {
        sample: 9,
        count: 0,
    })
}

#[test]
fn a_run_of_no_samples_changes_nothing(rt: HostRuntime) -> Result<(), Fail> {
    let mut runs = Runs::new(rt.alloc());
    push_none(&mut runs)?;
    assert!(rt; runs.as_slice().is_empty());
    let run = Run {
        sample: 7,
        count: 3,
    };
    runs.push(run)?;
    push_none(&mut runs)?;
    assert!(rt; runs.as_slice() == &[run][..]);
    Ok(())
}

#[test]
fn streams_have_any_length(rt: HostRuntime) -> Result<(), Fail> {
    let alloc = rt.alloc();
    let mut runs = Runs::new(alloc);
    for i in 0..100_000u32 {
        let sample = (i % 2) as u16;
        runs.push(Run { sample, count: 3 })?;
    }
    assert_eq!(rt; runs.as_slice().len(), 100_000);
    let zeros = vec![in alloc; 0u16; 1_000_000]?;
    runs.extend(zeros.as_slice())?;
    // 1,000,000 is 15 times 65,535 and 16,975 more.
    assert_eq!(rt; runs.as_slice().len(), 100_016);
    Ok(())
}

/// A stream of few different samples, so that runs are common.
fn stream(alloc: Global, random: &mut Random) -> Result<Vec<u16>, AllocError> {
    let mut samples = Vec::new(alloc);
    for _ in 0..random.up_to(40) {
        let sample = random.up_to(2);
        samples.extend(repeat_n(sample, usize::from(random.up_to(9))))?;
    }
    Ok(samples)
}

/// The stream, cut at random places and handed over as samples or as runs.
fn cut(alloc: Global, random: &mut Random, samples: &[u16]) -> Result<Runs, AllocError> {
    let mut runs = Runs::new(alloc);
    let mut left = samples;
    for _ in 0..samples.len() {
        let end = usize::from(random.up_to(7)).min(left.len());
        let (piece, rest) = left.split_at(end);
        if random.up_to(1) == 0 {
            runs.extend(piece)?;
        } else {
            for sample in piece {
                runs.push(Run {
                    sample: *sample,
                    count: 1,
                })?;
            }
        }
        left = rest;
    }
    runs.extend(left)?;
    Ok(runs)
}

/// The samples of runs, one after the other.
fn unrolled(alloc: Global, runs: &[Run]) -> Result<Vec<u16>, AllocError> {
    let mut samples = Vec::new(alloc);
    for run in runs {
        samples.extend(repeat_n(run.sample, usize::from(run.count)))?;
    }
    Ok(samples)
}

/// How many runs a stream of less than 65,536 samples has to come to.
fn changes(samples: &[u16]) -> usize {
    let others = samples.windows(2).filter(|pair| pair[0] != pair[1]).count();
    usize::from(!samples.is_empty()).saturating_add(others)
}

#[test]
fn any_cut_gives_the_same_fewest_runs(rt: HostRuntime) -> Result<(), Fail> {
    let alloc = rt.alloc();
    let mut random = Random(1);
    for _ in 0..300 {
        let samples = stream(alloc, &mut random)?;
        let mut whole = Runs::new(alloc);
        whole.extend(samples.as_slice())?;
        let pieces = cut(alloc, &mut random, samples.as_slice())?;
        assert!(rt; whole.as_slice() == pieces.as_slice());
        assert_eq!(rt; whole.as_slice().len(), changes(samples.as_slice()));
        let back = unrolled(alloc, whole.as_slice())?;
        assert!(rt; back.as_slice() == samples.as_slice());
    }
    Ok(())
}

#[test]
fn a_piece_rolls_up_as_a_stream_does(rt: HostRuntime) -> Result<(), Fail> {
    let alloc = rt.alloc();
    let mut random = Random(2);
    for _ in 0..300 {
        let samples = stream(alloc, &mut random)?;
        let mut runs = Runs::new(alloc);
        runs.extend(samples.as_slice())?;
        let mut room = vec![in alloc; 9u16; samples.len()]?;
        let mut numbers = Vec::new(alloc);
        for run in runs.as_slice() {
            numbers.push(run.sample)?;
            numbers.push(run.count)?;
        }
        let answer = roll(samples.as_slice(), room.as_mut_slice());
        if numbers.len() <= room.len() {
            assert_eq!(rt; answer, Ok(runs.as_slice().len() as u64));
            assert!(rt; room.as_slice().starts_with(numbers.as_slice()));
        } else {
            assert_eq!(rt; answer, Err(Refusal::Room(room.len() as u64)));
        }
    }
    Ok(())
}

#[test]
fn runs_of_one_sample_are_as_few_as_their_sum_asks(rt: HostRuntime) -> Result<(), Fail> {
    let alloc = rt.alloc();
    let mut random = Random(3);
    for _ in 0..100 {
        let mut runs = Runs::new(alloc);
        let mut sum = 0u64;
        for _ in 0..random.up_to(9) {
            let count = random.up_to(u16::MAX);
            runs.push(Run { sample: 5, count })?;
            sum = sum.saturating_add(u64::from(count));
        }
        assert_eq!(rt; runs.as_slice().len() as u64, sum.div_ceil(65535));
    }
    Ok(())
}
