//! How much room a number takes: none beside the encoding byte, or a width of 1 to 8 bytes. Widths share each fact.
ghost use Rattle.std.specs.Prelude.{◌≡◌, true, false, ◌*◌, ◌^◌, ◌≤◌, ◌<◌, IfSome, IfNone};
ghost use Rattle.std.specs.Int.Signed.{mag};
ghost use Rattle.layout.specs.Number.{half, holds, of_twos};
ghost use Rattle.layout.specs.Entry.{small};
ghost use Rattle.number.specs.Shorter.{shorter};

/// A number that the encoding byte itself says.
#[derive(Clone, Copy, Debug, PartialEq, Eq)]
pub struct Small {
    pub number: u8,
    ghost most: { number ≤ 12 },
}

impl Small {
    // z, if it is one: nobody asks why another is not, so no `TryFrom` with an error. The cast loses nothing, as is known
    // here; `u8::try_from` would test again.
    pub(crate) fn of(z: i64) -> Option<Small>
        ensures some { IfSome result (λ s. (small z ≡ true) × (s.number ≡ mag z)) }
        ensures none { IfNone result (small z ≡ false) }
    {
        let number = magnitude(z);
        if z < 0 || 12 < number {
            return None;
        }
        Some(Small {
            number: number as u8,
        })
    }
}

/// How many bytes a number's data take. No kind has 5, 6 or 7, but what is said of a width holds of them too.
#[derive(Clone, Copy, Debug, PartialEq, Eq)]
pub struct Width {
    pub bytes: usize,
    ghost least: { 1 ≤ bytes },
    ghost most: { bytes ≤ 8 },
}

// n for n, and for -(n + 1), of which `unsigned_abs` gives n + 1.
fn magnitude(z: i64) -> u64
    ensures { (result ≡ mag z) × (result < 2 ^ 63) }
{
    let n = if z < 0 { -1 - z } else { z };
    n.cast_unsigned()
}

impl Width {
    pub(crate) const ONE: Width = Width { bytes: 1 };

    pub(crate) const TWO: Width = Width { bytes: 2 };

    pub(crate) const THREE: Width = Width { bytes: 3 };

    pub(crate) const FOUR: Width = Width { bytes: 4 };

    // How many numbers of either sign it holds.
    #[tactic(auto, using(crate::proofs::Numbers::half_is))]
    fn half(self) -> u64
        ensures { (result ≡ half self.bytes) × (2 * result ≡ 256 ^ self.bytes) × (result ≤ 2 ^ 63) }
    {
        1u64 << (8 * self.bytes - 1)
    }

    // Whether it holds z.
    pub(crate) fn holds(self, z: i64) -> bool
        ensures { result ≡ holds self.bytes z }
    {
        magnitude(z) < self.half()
    }

    /// Whether a kind before that of this width holds z.
    #[tactic(auto, using(crate::proofs::Numbers::shorter_one))]
    pub fn has_shorter(self, z: i64) -> bool
        ensures { result ≡ shorter self.bytes z }
    {
        match self.bytes {
            1 => Small::of(z).is_some(),
            8 => Width::FOUR.holds(z),
            k => Width { bytes: k - 1 }.holds(z),
        }
    }

    /// The number that data of this width say, which say x without a sign.
    pub fn decode(self, x: u64) -> i64
        requires { x < 256 ^ self.bytes }
        ensures { result ≡ of_twos self.bytes x }
    {
        // A shift to the right copies the highest bit, so the sign is put there first.
        let unused = 64 - 8 * self.bytes;
        (x << unused).cast_signed() >> unused
    }
}
