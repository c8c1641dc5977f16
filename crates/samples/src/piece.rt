//! A piece of samples, rolled up into a lent room.
ghost use Rattle.std.specs.Prelude.{◌≡◌, ◌*◌, ◌<◌, ◌≤◌, [], ◌∷◌, length, MatchResult};
ghost use Rattle.samples.specs.Roll.{numbers, filled, Rolls};
ghost use Rattle.samples.specs.Runs.{rolled};

use crate::refusal::Refusal;
use crate::run::{MOST_SAMPLES, Run, RunsOf};

/// Refuses more samples than one piece has.
pub fn check_piece(samples: &[u16]) -> Result<(), Refusal>
    ensures { MatchResult result (λ _. length samples.now ≤ 65535) (λ f. (f ≡ Refusal.Samples 65535) × (65535 < length samples.now)) }
{
    if samples.len() > MOST_SAMPLES {
        return Err(Refusal::Samples(MOST_SAMPLES as u64));
    }
    Ok(())
}

/// Keeps a piece of samples as runs, as few as there can be: two numbers of the room for each, sample and count. Answers how many runs there are.
pub fn roll(samples: &[u16], room: &mut [u16]) -> Result<u64, Refusal>
    ensures { Rolls samples.now room.old result room.new }
{
    check_piece(samples)?;
    let runs = count_runs(samples);
    if room.len() < 2 * runs {
        return Err(Refusal::Room(room.len() as u64));
    }
    write_runs(samples, room);
    Ok(runs as u64)
}

/// How many runs a piece comes to: one more than it has changes.
fn count_runs(samples: &[u16]) -> usize
    requires { length samples.now ≤ 65535 }
    ensures value { result ≡ length (rolled samples.now) }
    ensures bound { result ≤ 65535 }
{
    let [_, later @ ..] = samples else {
        return 0;
    };
    // Sixteen bits hold the count, and let eight samples at a time be compared.
    let changes = samples
        .iter()
        .zip(later)
        .map(|(sample, next)| u16::from(next != sample))
        .sum::<u16>();
    1 + usize::from(changes)
}

/// Writes the runs of a piece, where there is room for them.
fn write_runs(samples: &[u16], room: &mut [u16])
    requires { 2 * length (rolled samples.now) ≤ length room.old }
    ensures { room.new ≡ filled (numbers (rolled samples.now)) room.old }
{
    for (place, run) in RunsOf::new(samples).enumerate() {
        write_run(&mut room[2 * place..], run);
    }
}

/// Writes a run into the free part of a room.
fn write_run(free: &mut [u16], run: Run)
    requires { 2 ≤ length free.old }
    ensures { free.new ≡ filled (numbers (run ∷ [])) free.old }
{
    free[0] = run.sample;
    free[1] = run.count;
}
