ghost use Rattle.std.specs.Prelude.{◌≡◌};

/// Whether a packet is to be sent, since a frame waits that it may carry. At first none does.
#[derive(Clone, Copy, Debug, Default, PartialEq, Eq)]
pub struct ShouldTransmit(pub bool);

impl ShouldTransmit {
    /// The flag.
    #[inline]
    pub fn should_transmit(self) -> bool
        ensures { result ≡ self.0 }
    {
        self.0
    }
}
