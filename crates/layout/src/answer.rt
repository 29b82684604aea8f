//! What calls answer. An empty list is an answer and a list that cannot be read is a refusal: no answer is both.
//! specs/Answers gives the number and the values that each case tells, and promises speak through it.
ghost use Rattle.std.specs.Prelude.{◌≡◌, ◌++◌, Some, codes, decimal};
ghost use Rattle.layout.specs.Answers.{number_of};

use std::error::Error;
use std::fmt;

/// Why a call says no. Outside it is told by its number: 0 says done, and is none of them.
#[derive(Clone, Copy, Debug, PartialEq, Eq)]
pub enum Refusal {
    /// The buffer is under the smallest list; or the size that the list states is under it, over the limit or over the buffer.
    BadSize = 1,
    /// The last byte is not 0xFF, an entry begins with 0xFF before it, or an entry runs into it.
    Torn = 2,
    /// A previous length has the wrong value.
    BadPrevious = 3,
    /// A field, a length or a number is in a longer form than its value needs, or a number's text is kept as text.
    NotPlain = 4,
    /// No encoding begins with this byte.
    UnknownEncoding = 5,
    /// The offset of the last entry is wrong.
    BadTail = 6,
    /// The number of entries is wrong.
    BadCount = 7,
    /// There is no such position.
    NoSuchPosition = 8,
    /// The result would be over the size limit.
    OverLimit = 9,
    /// The result would be over the buffer.
    OverBuffer = 10,
    /// The output buffer is too short for the value.
    ShortOutput = 11,
}

impl From<Refusal> for u32 {
    ghost from_gives = { λ r n. n ≡ number_of r };

    fn from(refusal: Refusal) -> u32 {
        // Nothing but `as` reads a discriminant.
        refusal as u32
    }
}

impl fmt::Display for Refusal {
    ghost output = { λ r. Some (codes "refused " ++ decimal (number_of r)) };

    fn fmt<W: fmt::Write>(&self, f: &mut fmt::Formatter<W>) -> fmt::Result {
        let number = u32::from(*self);
        write!(f, "refused {number}")
    }
}

impl Error for Refusal {}

/// What a call answers, or why it says no.
pub type Answer<T> = Result<T, Refusal>;

/// Of a check: a good list, of so many entries and bytes.
#[derive(Clone, Copy, Debug, PartialEq, Eq)]
pub struct Checked {
    pub count: usize,
    pub size: usize,
}

/// Of reading an entry at a position: a number, or a text of so many bytes.
#[derive(Clone, Copy, Debug, PartialEq, Eq)]
pub enum Told {
    Number { index: usize, value: i64 },
    Text { index: usize, length: usize },
}

/// Of an edit: the new size, and how many survivors store another length.
#[derive(Clone, Copy, Debug, PartialEq, Eq)]
pub struct Edited {
    pub size: usize,
    pub report: usize,
}
