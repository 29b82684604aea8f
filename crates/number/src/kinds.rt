//! The kinds of number, and the bytes of a number in the first that holds it.
ghost use Rattle.std.specs.Prelude.{◌≡◌, ◌∷◌, ◌≤◌, length, take, nat_eq};
ghost use Rattle.std.specs.Cmp.{on_equiv, on_per, partial_equiv_from_equiv};
ghost use Rattle.std.specs.Cmp.Lexicographic.{pointwise, nat_list_eq_equiv};
ghost use Rattle.layout.specs.Bytes.{le};
ghost use Rattle.layout.specs.Number.{twos};
ghost use Rattle.layout.specs.Entry.{number_body};
ghost use Rattle.number.specs.Kinds.{byte_of, data_len};

use crate::widths::{Small, Width};
use std::fmt;
use std::marker::Model;
use std::ops::DerefSlice;

/// A kind of number, by where its data lie.
#[derive(Clone, Copy, Debug, PartialEq, Eq)]
pub enum Kind {
    InByte(Small),
    OneByte,
    TwoBytes,
    ThreeBytes,
    FourBytes,
    EightBytes,
}

impl Kind {
    /// The encoding byte.
    pub fn byte(self) -> u8
        ensures { result ≡ byte_of self }
    {
        match self {
            Kind::InByte(small) => 0xF1 + small.number,
            Kind::OneByte => 0xFE,
            Kind::TwoBytes => 0xC0,
            Kind::ThreeBytes => 0xF0,
            Kind::FourBytes => 0xD0,
            Kind::EightBytes => 0xE0,
        }
    }

    /// How many bytes of data follow it.
    pub fn data_len(self) -> usize
        ensures { (result ≡ data_len self) × (result ≤ 8) }
    {
        match self {
            Kind::InByte(_) => 0,
            Kind::OneByte => 1,
            Kind::TwoBytes => 2,
            Kind::ThreeBytes => 3,
            Kind::FourBytes => 4,
            Kind::EightBytes => 8,
        }
    }
}

/// The first kind that holds z. Its data are the first bytes of z in 8.
#[tactic(auto, using(crate::proofs::Encodings::kind_of_laws), unfolding(layout::specs::Entry::number_body))]
pub fn kind_of(z: i64) -> Kind
    ensures { (number_body z ≡ byte_of result ∷ take (data_len result) (le 8 (twos 8 z))) × (data_len result ≤ 8) }
{
    if let Some(number) = Small::of(z) {
        Kind::InByte(number)
    } else if Width::ONE.holds(z) {
        Kind::OneByte
    } else if Width::TWO.holds(z) {
        Kind::TwoBytes
    } else if Width::THREE.holds(z) {
        Kind::ThreeBytes
    } else if Width::FOUR.holds(z) {
        Kind::FourBytes
    } else {
        Kind::EightBytes
    }
}

/// A number's encoding and data, 1 to 9 bytes in the value itself: it may be copied, as an `ArrayVec` may not.
#[derive(Clone, Copy)]
pub struct Encoded {
    bytes: [u8; 9],
    len: usize,
}

impl Model for Encoded {
    ghost use Rattle.std.specs.Prelude.{◌≡◌, ◌≤◌, ◌++◌, length, take, drop};
    ghost use Rattle.std.proofs.Common.{arith, take-append-drop, length-take-le};
    ghost use Rattle.number.specs.Encoded.{Encoded as Body};

    ghost Value = { Body };

    ghost view = { λ e. record { items = take e.len e.bytes; spare = drop e.len e.bytes } };

    ghost invariant = { λ e. (1 ≤ e.len) × (e.len ≤ 9) × (length e.bytes ≡ 9) };

    ghost inverse = { λ e. record { bytes = e.items ++ e.spare; len = length e.items } };

    ghost inverse_ok = { λ e h i. record {
      bytes = take-append-drop e.len e.bytes i;
      len = length-take-le e.len e.bytes (omega (arith, h.1, h.2)) i;
    } };
}

impl Encoded {
    /// The bytes.
    pub fn as_slice(&self) -> &[u8]
        ensures { (result.now ≡ self.now.items) × (1 ≤ length result.now) × (length result.now ≤ 9) }
    {
        &self.bytes[..self.len]
    }
}

impl DerefSlice for Encoded {
    type Elem = u8;

    ghost deref_gives = { λ e xs. (xs ≡ e.items) × (1 ≤ length xs) × (length xs ≤ 9) };

    fn deref(&self) -> &[u8] {
        Encoded::as_slice(self)
    }
}

// By hand, as is `Debug`: derived ones would read the room behind the bytes.
impl PartialEq for Encoded {
    ghost eq = { λ d e. pointwise nat_eq d.items e.items };

    ghost laws = { on_per (λ e. e.items) (partial_equiv_from_equiv nat_list_eq_equiv) };

    fn eq(&self, other: &Self) -> bool {
        self.as_slice() == other.as_slice()
    }
}

impl Eq for Encoded {
    ghost laws = { on_equiv (λ e. e.items) nat_list_eq_equiv };
}

impl fmt::Debug for Encoded {
    fn fmt<W: fmt::Write>(&self, f: &mut fmt::Formatter<W>) -> fmt::Result {
        f.debug_list().entries(self.as_slice()).finish()
    }
}

/// A number's encoding and data, in the first kind that holds it.
#[tactic(auto, using(crate::proofs::Encodings::each_bytes))]
pub fn encode(z: i64) -> Encoded
    ensures { result.items ≡ number_body z }
{
    let kind = kind_of(z);
    let data = z.to_le_bytes();
    let [a, b, c, d, e, f, g, h] = data;
    Encoded {
        bytes: [kind.byte(), a, b, c, d, e, f, g, h],
        len: 1 + kind.data_len(),
    }
}
