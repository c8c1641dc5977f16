//! The entry: a serial line read on from a lent memory.
ghost use Rattle.std.specs.Prelude.{◌≡◌, ℕ};
ghost use Rattle.uart.specs.Decoder.{saved, fresh, serial_after};
ghost use Rattle.uart.specs.Stream.{ReadsItsShare};

use crate::words::Reader;
use decoder::read_on;
use samples::Refusal;

/// The memory of a reader that has read nothing yet.
pub fn fresh_memory() -> [u64; 5]
    ensures { (d k : ℕ) → result ≡ saved (fresh d k) }
{
    [0, 1, 0, 0, 0]
}

/// Reads a line on from a memory, where so many samples are a bit. The settings are two numbers, and no struct, as C calls with them.
///
/// The memory is five numbers: whether a byte is under way, the level before, how many samples to wait, which look comes next, and the bits so far.
/// The first call begins with `fresh_memory`, and each other goes on from what the one before left. A word takes two numbers of the room: 0, or 1 where it is broken, and the byte.
pub fn serial(
    bit: u64,
    line: u64,
    samples: &[u16],
    memory: &mut [u64],
    room: &mut [u64],
) -> Result<u64, Refusal>
    ensures answer { result ≡ (serial_after bit line samples.now memory.old room.old).answer }
    ensures memory { memory.new ≡ (serial_after bit line samples.now memory.old room.old).memory }
    ensures room { room.new ≡ (serial_after bit line samples.now memory.old room.old).room }
    ensures share { ReadsItsShare bit line samples.now memory.old room.old (record { answer = result; memory = memory.new; room = room.new }) }
{
    let reader = Reader::new(bit, line)?;
    read_on(reader, samples, memory, room)
}
