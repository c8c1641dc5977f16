//! What bench/ calls from C, where the largest number stands for a refusal.
#![tactic(auto)]

ghost use Rattle.std.specs.Prelude.{◌≡◌, ℕ, Result};
ghost use Rattle.samples.specs.Roll.{Rolls};
ghost use Rattle.samples.specs.declared.refusal.Refusal.{Refusal};
ghost use Rattle.timed.specs.Counts.{count_of};
ghost use Rattle.uart.specs.Decoder.{serial_after};

use samples::roll;
use uart::serial;

/// How many runs `roll` leaves in the room, or the largest number where it refuses.
#[unsafe(no_mangle)]
pub extern "C" fn timed_roll(samples: &[u16], room: &mut [u16]) -> u64
    ensures { (r : Result ℕ Refusal) × Rolls samples.now room.old r room.new × (result ≡ count_of r) }
{
    roll(samples, room).unwrap_or(u64::MAX)
}

/// How many words `serial` leaves in the room, or the largest number where it refuses.
#[unsafe(no_mangle)]
pub extern "C" fn timed_serial(
    bit: u64,
    line: u64,
    samples: &[u16],
    memory: &mut [u64],
    room: &mut [u64],
) -> u64
    ensures count { result ≡ count_of (serial_after bit line samples.now memory.old room.old).answer }
    ensures memory { memory.new ≡ (serial_after bit line samples.now memory.old room.old).memory }
    ensures room { room.new ≡ (serial_after bit line samples.now memory.old room.old).room }
{
    serial(bit, line, samples, memory, room).unwrap_or(u64::MAX)
}
