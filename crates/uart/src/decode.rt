//! The reader, sample by sample.
ghost use Rattle.std.specs.Prelude.{◌≡◌, ◌<◌, MatchOption, MatchResult};
ghost use Rattle.uart.specs.Decoder.{digit, idle, under_way, looked, word_at, on_level, read_at, step, emit, encoded, saved, restored, fresh, setting_at_fault};
ghost use Rattle.uart.specs.Memory.{length-encoded, restored-step};
ghost use Rattle.uart.specs.Readers.{state_of, steps_on, reopened, comes_back};

use crate::words::{Reader, State, Word};
use decoder::{BadMemory, Decoder, Machine};
use samples::{Refusal, is_high};

/// A flag of a memory, which is lent numbers.
fn flag(number: u64) -> Option<bool>
    ensures { MatchOption result (1 < number) (λ set. number ≡ digit set) }
{
    match number {
        0 => Some(false),
        1 => Some(true),
        _ => None,
    }
}

impl State {
    /// Waits for the level to fall.
    fn wait_for_fall(self, level: bool) -> State
        ensures { result ≡ idle self level }
    {
        State {
            busy: false,
            level,
            wait: 0,
            next: 0,
            bits: 0,
            ..self
        }
    }

    /// Waits for the next look at a byte that is under way.
    fn wait_for_look(self, level: bool, wait: u32, next: u8, bits: u8) -> State
        ensures { result ≡ under_way self level wait next bits }
    {
        State {
            busy: true,
            level,
            wait,
            next,
            bits,
            ..self
        }
    }
}

impl Reader {
    /// A reader that has read nothing yet, with the level before taken as high; `bit` samples are a bit.
    pub fn new(bit: u64, line: u64) -> Result<Reader, Refusal>
        ensures { MatchResult result (λ reader. (setting_at_fault bit line ≡ None) × (state_of reader ≡ fresh bit line)) (λ f. setting_at_fault bit line ≡ Some f) }
    {
        // Each number has a type, a range and a refusal of its own: one function for them would take as much.
        let bit = u32::try_from(bit)
            .ok()
            .filter(|bit| (2..=1_000_000).contains(bit))
            .ok_or(Refusal::Setting(0))?;
        let line = u32::try_from(line)
            .ok()
            .filter(|line| *line <= 15)
            .ok_or(Refusal::Setting(1))?;
        let state = State {
            bit,
            line,
            busy: false,
            level: true,
            wait: 0,
            next: 0,
            bits: 0,
        };
        Ok(Reader { state })
    }

    /// Looks at the level.
    fn look(self, level: bool) -> (State, Option<Word>)
        ensures next { result.0 ≡ looked self.state level }
        ensures read { result.1 ≡ word_at self.state level }
    {
        let state = self.state;
        let wait = state.bit - 1;
        match state.next {
            0 if level => (state.wait_for_fall(level), None),
            0 => (state.wait_for_look(level, wait, 1, 0), None),
            1..=8 => {
                let bits = state.bits + (u8::from(level) << (state.next - 1));
                (state.wait_for_look(level, wait, state.next + 1, bits), None)
            }
            _ if level => (state.wait_for_fall(level), Some(Word::Byte(state.bits))),
            _ => (state.wait_for_fall(level), Some(Word::Broken(state.bits))),
        }
    }

    /// Goes on by a level.
    fn read(self, level: bool) -> (State, Option<Word>)
        ensures next { result.0 ≡ on_level self.state level }
        ensures read { result.1 ≡ read_at self.state level }
    {
        let state = self.state;
        let State { busy: true, .. } = state else {
            if state.level && !level {
                return (state.wait_for_look(level, state.bit / 2 - 1, 0, 0), None);
            }
            return (state.wait_for_fall(level), None);
        };
        if state.wait == 0 {
            return self.look(level);
        }
        (
            state.wait_for_look(level, state.wait - 1, state.next, state.bits),
            None,
        )
    }
}

impl Machine for Reader {
    type Input = u16;

    type Output = Word;

    type State = State;

    ghost state = { state_of };

    ghost step = { step };

    ghost emit = { emit };

    ghost goes_on = { steps_on };

    #[tactic(auto, using(crate::specs::Sound::on_level_sound))]
    fn feed(self, input: u16) -> (Reader, Option<Word>) {
        let (state, word) = self.read(is_high(input, self.state.line));
        (Reader { state }, word)
    }
}

impl Decoder for Reader {
    const WIDTH: usize = 2;

    ghost WIDTH = { 2 };

    ghost encoded = { encoded };

    ghost size = { 5 };

    ghost saved = { saved };

    ghost restored = { restored };

    ghost sized = { length-encoded };

    ghost opens = { reopened };

    ghost back = { comes_back };

    ghost same = { restored-step };

    fn encode(word: Word, free: &mut [u64]) {
        // The kinds are numbers in a room that is lent, which C reads.
        let (kind, byte) = match word {
            Word::Byte(byte) => (0, byte),
            Word::Broken(byte) => (1, byte),
        };
        free[0] = kind;
        free[1] = u64::from(byte);
    }

    fn restore(self, memory: &[u64]) -> Result<Reader, BadMemory> {
        let [busy, level, wait, next, bits] = *memory else {
            return Err(BadMemory(memory.len().min(5) as u64));
        };
        // As in `new`, each number has a type, a range and a place of its own.
        let bit = self.state.bit;
        let state = State {
            busy: flag(busy).ok_or(BadMemory(0))?,
            level: flag(level).ok_or(BadMemory(1))?,
            wait: u32::try_from(wait)
                .ok()
                .filter(|wait| *wait < bit)
                .ok_or(BadMemory(2))?,
            next: u8::try_from(next)
                .ok()
                .filter(|next| *next <= 9)
                .ok_or(BadMemory(3))?,
            bits: u8::try_from(bits)
                .ok()
                .filter(|bits| u16::from(*bits) < 1 << next.saturating_sub(1))
                .ok_or(BadMemory(4))?,
            ..self.state
        };
        Ok(Reader { state })
    }

    fn save(self, memory: &mut [u64]) {
        let State {
            busy,
            level,
            wait,
            next,
            bits,
            ..
        } = self.state;
        memory.copy_from_slice(&[
            u64::from(busy),
            u64::from(level),
            u64::from(wait),
            u64::from(next),
            u64::from(bits),
        ]);
    }
}
