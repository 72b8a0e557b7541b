// How many files were looked at, and what came of them.
use std::fmt;

#[derive(Clone, Copy, Default)]
pub(crate) struct Tally {
    sound: u64,
    refused: u64,
    samples: u64,
}

impl Tally {
    // Counts a sound file of so many samples.
    pub(crate) fn read(&mut self, samples: u64) {
        self.sound = self.sound.saturating_add(1);
        self.samples = self.samples.saturating_add(samples);
    }

    // Counts a refused file.
    pub(crate) fn refuse(&mut self) {
        self.refused = self.refused.saturating_add(1);
    }
}

impl fmt::Display for Tally {
    fn fmt<W: fmt::Write>(&self, f: &mut fmt::Formatter<W>) -> fmt::Result {
        let Tally {
            sound,
            refused,
            samples,
        } = *self;
        write!(
            f,
            "{sound} sound, {refused} refused, {samples} samples read"
        )
    }
}
