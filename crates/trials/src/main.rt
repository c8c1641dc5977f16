//! Reads pseudo-random waves through `serial`, and compares with what was sent, or with a plain reader.
#![tactic(auto)]

mod pieces;
mod plain;
mod random;
mod sender;
mod tally;
mod wave;

use crate::random::Random;
use crate::tally::Tally;
use crate::wave::{Setting, Wave};
use std::alloc::{AllocError, Global};
use uart::Word;

/// How many waves of each kind there are.
const WAVES: u32 = 6000;

/// Usual lengths of a bit.
const BITS: [u32; 9] = [2, 3, 4, 5, 7, 8, 16, 100, 868];

/// The setting of a wave: one of the usual lengths of a bit, or any; the largest for the first.
fn setting(random: &mut Random, wave: u32) -> Setting {
    let bit = match random.up_to(39) {
        _ if wave == 0 => 1_000_000,
        0 => random.up_to(20_000).saturating_add(2),
        1..=4 => random.up_to(1_000).saturating_add(2),
        5..=19 => random.up_to(30).saturating_add(2),
        _ => BITS[random.up_to(8) as usize],
    };
    let line = random.up_to(15);
    Setting { bit, line }
}

/// Sends bytes in fair lengths: just these are to be read.
fn send_fair(alloc: Global, wave: &mut Wave, random: &mut Random) -> Result<Vec<Word>, AllocError> {
    let most = (100_000 / wave.setting.bit.max(1)).min(30);
    sender::send_some(alloc, wave, random, most)
}

/// Holds levels of any lengths: what a plain reader reads is to be read.
fn hold_any(alloc: Global, wave: &mut Wave, random: &mut Random) -> Result<Vec<Word>, AllocError> {
    let most = (300_000 / wave.setting.bit.max(1)).clamp(20, 300);
    let runs = random.up_to(most);
    wave.hold_any(random, runs)?;
    plain::read_whole(alloc, wave)
}

/// Reads waves of one kind in pieces; `make` makes a wave, and says which words are to be read of it; that it may be called has to be asked here too.
fn try_waves<F>(rt: &HostRuntime, random: &mut Random, kind: &str, make: F) -> anyhow::Result<()>
where
    F: Fn(Global, &mut Wave, &mut Random) -> Result<Vec<Word>, AllocError> + Drop,
    requires { F.IsAlwaysCallable make }
{
    let mut tally = Tally::default();
    for number in 0..WAVES {
        let setting = setting(random, number);
        let mut wave = Wave::new(rt.alloc(), setting);
        let wanted = make(rt.alloc(), &mut wave, random)?;
        let read = pieces::read_cut(rt.alloc(), random, &wave)?;
        tally.take(rt, setting, wanted.as_slice(), read.as_slice())?;
    }
    tally.report(rt, kind)
}

fn main(rt: HostRuntime) -> anyhow::Result<()> {
    let mut random = Random(1);
    try_waves(&rt, &mut random, "fair", send_fair)?;
    try_waves(&rt, &mut random, "any", hold_any)
}
