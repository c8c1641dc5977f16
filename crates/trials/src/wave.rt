//! Waves on one line, with garbage on the others.
use crate::random::Random;
use std::alloc::{AllocError, Global};

/// The line that is read, and how many samples a bit is.
#[derive(Clone, Copy)]
pub struct Setting {
    pub bit: u32,
    pub line: u32,
}

impl Setting {
    /// The bit that the line has in a sample.
    pub(crate) fn mask(self) -> u16 {
        1 << (self.line % 16)
    }
}

/// A wave on the line of a setting.
#[derive(Drop)]
pub struct Wave {
    pub setting: Setting,
    pub samples: Vec<u16>,
}

impl Wave {
    pub(crate) fn new(alloc: Global, setting: Setting) -> Wave {
        let samples = Vec::new(alloc);
        Wave { setting, samples }
    }

    /// Holds a level for some samples.
    pub(crate) fn hold(
        &mut self,
        random: &mut Random,
        high: bool,
        count: u32,
    ) -> Result<(), AllocError> {
        let mask = self.setting.mask();
        for _ in 0..count {
            let garbage = random.sample();
            let sample = if high {
                garbage | mask
            } else {
                garbage & !mask
            };
            self.samples.push(sample)?;
        }
        Ok(())
    }

    /// Runs of any lengths, most of them near one bit, or near some bits.
    pub(crate) fn hold_any(&mut self, random: &mut Random, runs: u32) -> Result<(), AllocError> {
        let bit = self.setting.bit;
        for _ in 0..runs {
            let high = random.up_to(1) == 1;
            let count = match random.up_to(7) {
                0 => random.up_to(2),
                1 => random.up_to(bit),
                2 => bit / 2 + random.up_to(2),
                3 => random.up_to(bit.saturating_mul(9)),
                4 => bit.saturating_mul(random.up_to(9)),
                _ => bit.saturating_sub(1).saturating_add(random.up_to(2)),
            };
            self.hold(random, high, count)?;
        }
        Ok(())
    }
}
