//! A plain reader of a whole wave, by places.
ghost use Rattle.std.specs.Prelude.{◌<◌, ◌≤◌, length, IfSome};

use crate::wave::Wave;
use std::alloc::{AllocError, Global};
use uart::Word;

/// Whether the line is high at a place of a wave; nothing past its end.
fn is_high_at(wave: &Wave, place: usize) -> Option<bool> {
    let mask = wave.setting.mask();
    wave.samples.get(place).map(|sample| *sample & mask != 0)
}

/// Whether a place is low after a high one; before the first place it is high.
fn falls_at(wave: &Wave, place: usize) -> bool {
    let before = place.checked_sub(1);
    before.is_none_or(|before| is_high_at(wave, before) == Some(true))
        && is_high_at(wave, place) == Some(false)
}

/// The first place from `from` on at which the line falls.
fn next_fall(wave: &Wave, from: usize) -> Option<usize>
    ensures { IfSome result (λ place. (from ≤ place) × (place < length wave.now.samples.items)) }
{
    (from..wave.samples.len()).find(|place| falls_at(wave, *place))
}

/// The word whose look at the start bit is at a place; nothing where the wave ends before its last look.
fn word_from(wave: &Wave, first_look: usize) -> Option<Word> {
    let bit = wave.setting.bit as usize;
    let look = |n: usize| is_high_at(wave, first_look.saturating_add(bit.saturating_mul(n)));
    let mut byte = 0u8;
    // By the number of the look, which gives its place and the weight of its bit.
    for n in 0..8 {
        byte |= u8::from(look(n + 1)?) << n;
    }
    Some(if look(9)? {
        Word::Byte(byte)
    } else {
        Word::Broken(byte)
    })
}

/// Reads a whole wave.
pub(crate) fn read_whole(alloc: Global, wave: &Wave) -> Result<Vec<Word>, AllocError> {
    let bit = wave.setting.bit as usize;
    let mut words = Vec::new(alloc);
    let mut from = 0usize;
    while let Some(fall) = next_fall(wave, from) {
        let first_look = fall.saturating_add(bit / 2);
        from = first_look.saturating_add(1);
        if is_high_at(wave, first_look) == Some(false) {
            let Some(word) = word_from(wave, first_look) else {
                break;
            };
            words.push(word)?;
            from = from.saturating_add(bit.saturating_mul(9));
        }
    }
    Ok(words)
}
