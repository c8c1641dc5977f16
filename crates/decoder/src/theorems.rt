//! Theorems: the contract of each function is one, and there is nothing to run.
ghost use Rattle.decoder.specs.Reading.{CutIsRead, MachineIsCut, call_with};

use crate::machine::Decoder;

/// Wherever samples are cut, any decoder reads the same: as a machine, and by calls that go on from the memory left by the one before, which is always taken back.
pub fn any_cut_reads_the_same<D: Decoder>(_settings: D)
    ensures machine { MachineIsCut D.step D.emit }
    ensures calls { (settings : D) → CutIsRead D.WIDTH (call_with D.step D.emit D.encoded D.saved D.restored (D.state settings)) }
{}
