//! Samples read on from a lent memory into a lent room, by any decoder.
ghost use Rattle.std.specs.Prelude.{◌≡◌, ◌*◌, ◌≤◌, length, nat_le};
ghost use Rattle.samples.specs.Roll.{filled};
ghost use Rattle.decoder.specs.Machine.{run, outputs};
ghost use Rattle.decoder.specs.Reading.{numbers_read, call_with};

use crate::machine::Decoder;
use samples::{Refusal, check_piece};

/// Goes over samples: the reader after them, and how many outputs there were. All of these go into the room, if they fit.
fn walk<D: Decoder>(start: D, samples: &[u16], room: &mut [u64]) -> (D, usize)
    ensures state { D.state result.0 ≡ run D.step (D.state start) samples.now }
    ensures many { result.1 ≡ length (outputs D.step D.emit (D.state start) samples.now) }
    ensures written { let read = numbers_read D.step D.emit D.encoded (D.state start) samples.now in length read ≤ length room.old → room.new ≡ filled read room.old }
{
    let mut reader = start;
    let mut many = 0usize;
    for sample in samples {
        let (next, output) = reader.feed(*sample);
        reader = next;
        if let Some(output) = output {
            // The place follows from the count: of a room that `chunks_exact_mut` has lent nothing is known afterwards.
            if fits(many + 1, D::WIDTH, room.len()) {
                D::encode(output, &mut room[many * D::WIDTH..]);
            }
            many += 1;
        }
    }
    (reader, many)
}

/// Whether so many outputs of that width fit a room.
fn fits(many: usize, width: usize, room: usize) -> bool
    ensures { result ≡ nat_le (many * width) room }
{
    many.checked_mul(width).is_some_and(|needed| needed <= room)
}

/// Whether all that is read fits a room. It is counted only where the room is not ample.
fn has_room<D: Decoder>(reader: D, samples: &[u16], room: usize) -> bool
    ensures { result ≡ nat_le (length (numbers_read D.step D.emit D.encoded (D.state reader) samples.now)) room }
{
    if fits(samples.len(), D::WIDTH, room) {
        return true;
    }
    let (_, many) = walk(reader, samples, &mut []);
    fits(many, D::WIDTH, room)
}

/// Reads samples on from a memory, with the settings of a reader. Memory and room are lent numbers, as an entry has them.
pub fn read_on<D: Decoder>(
    settings: D,
    samples: &[u16],
    memory: &mut [u64],
    room: &mut [u64],
) -> Result<u64, Refusal>
    ensures answer { result ≡ (call_with D.step D.emit D.encoded D.saved D.restored (D.state settings) samples.now memory.old room.old).answer }
    ensures memory { memory.new ≡ (call_with D.step D.emit D.encoded D.saved D.restored (D.state settings) samples.now memory.old room.old).memory }
    ensures room { room.new ≡ (call_with D.step D.emit D.encoded D.saved D.restored (D.state settings) samples.now memory.old room.old).room }
{
    let reader = settings.restore(memory)?;
    check_piece(samples)?;
    if !has_room(reader, samples, room.len()) {
        return Err(Refusal::Room(room.len() as u64));
    }
    let (reader, many) = walk(reader, samples, room);
    reader.save(memory);
    Ok(many as u64)
}
