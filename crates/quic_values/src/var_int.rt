ghost use Rattle.std.specs.Prelude.{◌≡◌, ◌<◌, ◌≤◌, ◌^◌, ◌+◌, ◌++◌, OnOk, OnErr, SomeIff, length, vec_len, vec_capacity};
ghost use Rattle.quic_values.specs.Numbers.{shortest, size_of};

use crate::memory::OutOfMemory;
use std::fmt;
use std::marker::Model;

/// A number below 2^62, which QUIC writes in one, two, four or eight bytes (RFC 9000 section 16).
#[derive(Clone, Copy, PartialEq, Eq, PartialOrd, Ord, Hash)]
pub struct VarInt(u64);

impl Model for VarInt {
    ghost use Rattle.std.specs.Prelude.{ℕ, ◌<◌, ◌^◌};

    ghost Value = { ℕ };

    ghost view = { λ v. v.0 };

    ghost invariant = { λ v. v.0 < 2 ^ 62 };

    ghost inverse = { λ n. record { 0 = n } };
}

impl VarInt {
    /// The greatest, 2^62 - 1.
    pub const MAX: VarInt = VarInt((1 << 62) - 1);

    /// The number, which is known to be below 2^62.
    #[inline]
    pub fn new(number: u64) -> VarInt
        requires { number < 2 ^ 62 }
        ensures { result ≡ number }
    {
        VarInt(number)
    }

    /// The number, unless it is 2^62 or more.
    #[inline]
    pub fn from_u64(number: u64) -> Option<VarInt>
        ensures { SomeIff result (number < 2 ^ 62) number }
    {
        if number < 1 << 62 {
            Some(VarInt(number))
        } else {
            None
        }
    }

    #[inline]
    pub fn into_inner(self) -> u64
        ensures same { result ≡ self }
        ensures small { self < 2 ^ 62 }
    {
        self.0
    }

    /// How many bytes the shortest spelling has: 1, 2, 4 or 8.
    #[inline]
    pub fn size(self) -> usize
        ensures { result ≡ size_of self }
    {
        if self.0 < 1 << 6 {
            1
        } else if self.0 < 1 << 14 {
            2
        } else if self.0 < 1 << 30 {
            4
        } else {
            8
        }
    }

    /// Appends the shortest spelling. If refused, nothing is appended.
    #[tactic(auto, unfolding(crate::specs::Numbers::shortest))]
    pub fn encode(self, out: &mut Vec<u8>) -> Result<(), OutOfMemory>
        ensures ok { OnOk result (out.new.items ≡ out.old.items ++ shortest self) }
        ensures err { OnErr result (out.new.items ≡ out.old.items) }

        // It is refused only where the room is too small.
        ensures len { OnOk result (vec_len out.new ≡ vec_len out.old + length (shortest self)) }
        ensures capacity { vec_capacity out.old ≤ vec_capacity out.new }
        ensures full { OnErr result (vec_capacity out.old < vec_len out.old + length (shortest self)) }
    {
        let number = self.0;
        if number < 1 << 6 {
            out.push(number as u8)?;
            Ok(())
        } else if number < 1 << 14 {
            out.extend_from_slice(&(0x4000 + number as u16).to_be_bytes())?;
            Ok(())
        } else if number < 1 << 30 {
            out.extend_from_slice(&(0x8000_0000 + number as u32).to_be_bytes())?;
            Ok(())
        } else {
            out.extend_from_slice(&(0xc000_0000_0000_0000 + number).to_be_bytes())?;
            Ok(())
        }
    }
}

impl From<u32> for VarInt {
    ghost use Rattle.std.specs.Prelude.{◌≡◌};

    ghost from_gives = { λ number v. v ≡ number };

    fn from(number: u32) -> VarInt {
        VarInt(u64::from(number))
    }
}

impl fmt::Display for VarInt {
    ghost use Rattle.std.specs.Prelude.{Some};
    ghost use Rattle.std.specs.Fmt.{decimal, styled_decimal};

    ghost output = { λ number. Some (decimal number) };

    ghost styled_output = { λ number spec. Some (styled_decimal spec number) };

    fn fmt<W: fmt::Write>(&self, f: &mut fmt::Formatter<W>) -> fmt::Result {
        fmt::Display::fmt(&self.0, f)
    }
}

impl fmt::Debug for VarInt {
    ghost use Rattle.std.specs.Prelude.{Some};
    ghost use Rattle.std.specs.Fmt.{decimal};

    ghost debug_output = { λ number. Some (decimal number) };

    fn fmt<W: fmt::Write>(&self, f: &mut fmt::Formatter<W>) -> fmt::Result {
        fmt::Debug::fmt(&self.0, f)
    }
}
