// Bits in order, and the numbers that they spell.
ghost use Rattle.std.specs.Prelude.{◌≡◌, ℕ, ◌+◌, ◌^◌, ◌<◌, ◌≤◌};
ghost use Rattle.stored.specs.Packing.{IsBits, spelled};

// Bits in order.
pub(crate) trait Bits: Copy {
    ghost bit_of: { Self → ℕ → ℕ };

    // The bit at an index.
    fn bit(self, index: usize) -> u64
        ensures { result ≡ bit_of self index };

    ghost zero_or_one: { (bits : Self) → IsBits (bit_of bits) };
}

// The number that some bits spell, the most significant first. They are at most 63, so doubling
// loses none.
pub(crate) fn spelled<B: Bits>(bits: B, from: usize, width: usize) -> u64
    requires end { from + width < 2 ^ 64 }
    requires width { width ≤ 63 }
    ensures value { result ≡ spelled (B.bit_of bits) from width }
    ensures fits { result < 2 ^ width }
{
    (from..from + width).fold(0, |number, index| (number << 1) + bits.bit(index))
}

// The bits of bytes, and behind them zeros.
impl Bits for &[u8] {
    ghost use Rattle.std.proofs.Common.{arith};
    ghost use Rattle.stored.specs.Packing.{bit_at};

    ghost bit_of = { λ bytes. bit_at bytes.now };

    ghost zero_or_one = { λ bytes i. Prim.omega arith };

    fn bit(self, index: usize) -> u64 {
        let byte = self.get(index / 8).copied().unwrap_or(0);
        u64::from(byte >> (7 - index % 8) & 1)
    }
}
