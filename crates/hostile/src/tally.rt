//! Counts of what happened.

use crate::record::Verdict;

/// How often something happened.
#[derive(Clone, Copy, Debug)]
pub struct Tally {
    pub frames: u64,
    pub taken: u64,
    /// Refused frames by the code of their error.
    pub refused: [u64; 11],
    /// Answers that are not those of the record.
    pub otherwise: u64,
    /// Refused frames after which a query answered otherwise.
    pub changed: u64,
    /// Payloads and calls after which credit, bytes or streams were not those of the record.
    pub out_of_step: u64,
    pub wrong_bytes: u64,
}

/// Counts one more.
pub fn more(count: &mut u64) {
    *count = count.saturating_add(1);
}

impl Tally {
    /// One in which nothing happened.
    pub fn new() -> Self {
        Tally {
            frames: 0,
            taken: 0,
            refused: [0; 11],
            otherwise: 0,
            changed: 0,
            out_of_step: 0,
            wrong_bytes: 0,
        }
    }

    /// How many kinds of answers there were.
    pub fn kinds(&self) -> usize {
        let codes = self.refused.iter().filter(|count| **count > 0).count();
        if self.taken > 0 {
            codes.saturating_add(1)
        } else {
            codes
        }
    }

    pub fn is_clean(&self) -> bool {
        self.otherwise == 0 && self.changed == 0 && self.out_of_step == 0 && self.wrong_bytes == 0
    }

    /// An answer is the one that the record wants, or not.
    pub fn expect(&mut self, is_wanted: bool) {
        if !is_wanted {
            more(&mut self.otherwise);
        }
    }

    /// Counts how a frame was answered.
    pub fn count(&mut self, answer: Verdict) {
        more(&mut self.frames);
        match answer {
            Verdict::Taken => more(&mut self.taken),
            Verdict::Refused(code) => {
                if let Some(count) = self.refused.get_mut(code as usize) {
                    more(count);
                }
            }
        }
    }
}
