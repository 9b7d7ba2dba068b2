//! Samples of what is counted.

ghost use Rattle.std.specs.Prelude.{◌≡◌, ◌≤◌, ◌<◌, ◌-◌, IfOk, IfErr, length};
ghost use Rattle.stream_chart.specs.Sampled.{nothing_sampled, thinned, with_row, with_offered, EndsWithRow};

use std::alloc::{AllocError, Global};
use std::marker::Model;

/// What was counted up to a step.
#[derive(Clone, Copy, Debug, Default, PartialEq, Eq)]
pub struct Row {
    pub step: u64,
    /// Up to which offset of the stream its receiver permits to send.
    pub credit: u64,
    /// Up to which offset it was written, sent and, in order, given.
    pub written: u64,
    pub sent: u64,
    pub given: u64,
    /// How many bytes were acknowledged.
    pub acknowledged: u64,
    /// How many bytes all frames carried.
    pub carried: u64,
}

impl Row {
    /// How many bytes were sent again.
    pub fn sent_again(&self) -> u64
        ensures { result ≡ self.now.carried - self.now.sent }
    {
        self.carried.saturating_sub(self.sent)
    }
}

/// At most 48 rows, of steps that lie equally far apart, but for the last.
#[derive(Drop)]
pub struct Samples {
    rows: Vec<Row>,
    distance: u64,
}

impl Model for Samples {
    ghost use Rattle.std.specs.Prelude.{◌≤◌, vec_len};
    ghost use Rattle.stream_chart.specs.Sampled.{Sampled};

    ghost Value = { Sampled };

    ghost view = { λ s. record { rows = s.rows.items; distance = s.distance } };

    ghost invariant = { λ s. vec_len s.rows ≤ 48 };
}

impl Samples {
    /// No row yet, and each is due.
    pub fn new(alloc: Global) -> Self
        ensures { result ≡ nothing_sampled }
    {
        Samples {
            rows: Vec::new(alloc),
            distance: 1,
        }
    }

    /// The rows, the first step first.
    pub fn rows(&self) -> &[Row]
        ensures rows { result.now ≡ self.now.rows }
        ensures few { length result.now ≤ 48 }
    {
        self.rows.as_slice()
    }

    /// Takes the row of the next step, where it is due. Where there are too many, every other one goes, and only every other
    /// step is due from then on, also where there is no memory for the row.
    pub fn offer(&mut self, row: Row) -> Result<(), AllocError>
        ensures ok { IfOk result (λ _. self.new ≡ with_offered (thinned self.old) row) }
        ensures err { IfErr result (λ _. self.new ≡ thinned self.old) }
    {
        self.thin();
        if self.rows.len() < 47 && row.step.is_multiple_of(self.distance) {
            self.rows.push(row)?;
        }
        Ok(())
    }

    fn thin(&mut self)
        ensures { self.new ≡ thinned self.old }
    {
        if self.rows.len() >= 47 {
            let distance = self.distance.saturating_mul(2);
            self.rows.retain(|row| row.step.is_multiple_of(distance));
            self.distance = distance;
        }
    }

    /// Takes the row of the last step, whether it is due or not, where it is not there yet and there are fewer than 48.
    pub fn end(&mut self, row: Row) -> Result<(), AllocError>
        ensures added { IfOk result (λ _. length self.old.rows < 48 → ¬ EndsWithRow self.old row → self.new ≡ with_row self.old row) }
        ensures full { 48 ≤ length self.old.rows → self.new ≡ self.old }
        ensures there { EndsWithRow self.old row → self.new ≡ self.old }
        ensures err { IfErr result (λ _. self.new ≡ self.old) }
    {
        if self.rows.len() < 48 && self.rows.last() != Some(&row) {
            self.rows.push(row)?;
        }
        Ok(())
    }
}
