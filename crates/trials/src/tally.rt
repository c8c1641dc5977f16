//! What the trials have come to.
use crate::wave::Setting;
use anyhow::bail;
use uart::Word;

/// How many differences are printed.
const SHOWN: u32 = 3;

/// How many waves, words and differences there were.
#[derive(Default, Drop)]
pub struct Tally {
    waves: u32,
    wanted: usize,
    read: usize,
    broken: usize,
    differences: u32,
}

/// How many words are broken.
fn count_broken(words: &[Option<Word>]) -> usize {
    words
        .iter()
        .filter(|word| matches!(word, Some(Word::Broken(_))))
        .count()
}

impl Tally {
    /// Takes a wave, and prints it if it is one of the first of which something else was read than was wanted.
    pub(crate) fn take(
        &mut self,
        rt: &HostRuntime,
        setting: Setting,
        wanted: &[Word],
        read: &[Option<Word>],
    ) -> anyhow::Result<()> {
        let wave = self.waves;
        if !wanted.iter().copied().map(Some).eq(read.iter().copied()) {
            self.differences = self.differences.saturating_add(1);
            if self.differences <= SHOWN {
                let bit = setting.bit;
                let line = setting.line;
                println!(rt; "wave {wave}, bit {bit}, line {line}: {wanted:?} became {read:?}")?;
            }
        }
        self.waves = wave.saturating_add(1);
        self.wanted = self.wanted.saturating_add(wanted.len());
        self.read = self.read.saturating_add(read.len());
        self.broken = self.broken.saturating_add(count_broken(read));
        Ok(())
    }

    /// Prints the counts, and fails where there were differences.
    pub(crate) fn report(&self, rt: &HostRuntime, name: &str) -> anyhow::Result<()> {
        let Tally {
            waves,
            wanted,
            read,
            broken,
            differences,
        } = self;
        println!(rt;
            "{name}: {waves} waves, {wanted} words wanted, {read} read, {broken} of them broken, {differences} differences"
        )?;
        if *differences > 0 {
            bail!("what was read differs");
        }
        Ok(())
    }
}
