//! A wave read in pieces.
use crate::random::Random;
use crate::wave::{Setting, Wave};
use anyhow::bail;
use samples::Refusal;
use std::alloc::{AllocError, Global};
use uart::{Word, fresh_memory, serial};

/// More numbers than a piece of 65,535 samples can have, at two samples to a bit.
const ROOM: usize = 8192;

/// The word that two numbers of a room stand for; nothing where no word leaves them.
fn word_of(numbers: &[u64]) -> Option<Word> {
    let [kind, value] = numbers else {
        return None;
    };
    let byte = u8::try_from(*value).ok()?;
    match kind {
        0 => Some(Word::Byte(byte)),
        1 => Some(Word::Broken(byte)),
        _ => None,
    }
}

/// What is lent from call to call, and what was read.
#[derive(Drop)]
struct Calls {
    setting: Setting,
    memory: [u64; 5],
    room: Vec<u64>,
    words: Vec<Option<Word>>,
}

impl Calls {
    fn new(alloc: Global, setting: Setting) -> Result<Calls, AllocError> {
        Ok(Calls {
            setting,
            memory: fresh_memory(),
            room: vec![in alloc; 0; ROOM]?,
            words: Vec::new(alloc),
        })
    }

    /// Reads a piece into so much of the room.
    fn read_into(&mut self, piece: &[u16], size: usize) -> Result<u64, Refusal> {
        let bit = u64::from(self.setting.bit);
        let line = u64::from(self.setting.line);
        let size = size.min(self.room.len());
        let room = &mut self.room.as_mut_slice()[..size];
        serial(bit, line, piece, &mut self.memory, room)
    }

    /// Reads a piece, where so much room may be too little at first, and keeps the words.
    fn read(&mut self, piece: &[u16], size: usize) -> anyhow::Result<()> {
        let read = match self.read_into(piece, size) {
            Err(Refusal::Room(_)) => self.read_into(piece, ROOM),
            read => read,
        };
        let Ok(words) = read else {
            bail!("a piece was refused");
        };
        for numbers in self.room.chunks(2).take(words as usize) {
            self.words.push(word_of(numbers))?;
        }
        Ok(())
    }
}

/// How long the next piece is: `usual` samples at most, or now and then any number that one call takes.
fn piece_length(random: &mut Random, usual: u32) -> usize {
    if random.up_to(7) == 0 {
        random.up_to(65535) as usize
    } else {
        random.up_to(usual) as usize
    }
}

/// Reads a wave in pieces, each call going on from the memory of the one before.
pub(crate) fn read_cut(
    alloc: Global,
    random: &mut Random,
    wave: &Wave,
) -> anyhow::Result<Vec<Option<Word>>> {
    let mut calls = Calls::new(alloc, wave.setting)?;
    let usual = random.up_to(400);
    let mut left = wave.samples.as_slice();
    // A `while` cannot be proved to end, since a piece may have no samples.
    for _ in 0..u64::MAX {
        if left.is_empty() {
            break;
        }
        let (piece, rest) = left.split_at(piece_length(random, usual).min(left.len()));
        let size = if random.up_to(3) == 0 {
            random.up_to(4) as usize
        } else {
            ROOM
        };
        calls.read(piece, size)?;
        left = rest;
    }
    Ok(calls.words)
}
