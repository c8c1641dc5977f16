//! Sends bytes in fair lengths.
use crate::random::Random;
use crate::wave::Wave;
use std::alloc::{AllocError, Global};
use uart::Word;

/// Level `n` of a byte: the start bit, the data bits with the low one first, the stop bit.
fn level(byte: u8, n: u32) -> bool {
    match n {
        0 => false,
        1..=8 => byte >> (n - 1) & 1 == 1,
        _ => true,
    }
}

/// How far after the look at it a level ends, where a bit is `bit` samples: at the next look at the latest.
fn margin(random: &mut Random, bit: u32) -> u32 {
    match random.up_to(3) {
        0 => 1,
        1 => bit,
        _ => random.up_to(bit.saturating_sub(1)).saturating_add(1),
    }
}

/// Sends a byte: each level begins after the look at the one before, and at the latest with the look at it.
fn send(wave: &mut Wave, random: &mut Random, byte: u8) -> Result<(), AllocError> {
    let bit = wave.setting.bit;
    let mut begin = 0u32;
    // By the number of the level, which gives its place and which bit it is.
    for n in 0..10 {
        let look = (bit / 2).saturating_add(bit.saturating_mul(n));
        let end = look.saturating_add(margin(random, bit));
        wave.hold(random, level(byte, n), end.saturating_sub(begin))?;
        begin = end;
    }
    Ok(())
}

/// For how long the line stays high between two bytes; often not at all.
fn pause(random: &mut Random, bit: u32) -> u32 {
    match random.up_to(3) {
        0 => random.up_to(bit.saturating_mul(2)),
        1 => random.up_to(3),
        _ => 0,
    }
}

/// Sends some bytes, and gives the words that they are to be read as.
pub(crate) fn send_some(
    alloc: Global,
    wave: &mut Wave,
    random: &mut Random,
    most: u32,
) -> Result<Vec<Word>, AllocError> {
    let mut sent = Vec::new(alloc);
    for _ in 0..=random.up_to(most) {
        let high = pause(random, wave.setting.bit);
        wave.hold(random, true, high)?;
        let byte = (random.sample() % 256) as u8;
        send(wave, random, byte)?;
        sent.push(Word::Byte(byte))?;
    }
    Ok(sent)
}
