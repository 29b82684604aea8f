//! The kinds of list, each a type that holds its limits, and where a walk along one starts.
ghost use Rattle.std.specs.Prelude.{◌≡◌};
ghost use Rattle.layout.specs.Bytes.{between};
ghost use Rattle.layout.specs.Ziplist.{header, smallest, limit};

/// A place in a list: the offset of an entry, and the length of the entry before it.
#[derive(Clone, Copy, Debug, PartialEq, Eq)]
pub struct Cursor {
    pub at: usize,
    pub before: usize,
}

/// The ziplists of documents 000 and 01.
#[derive(Clone, Copy, Debug, PartialEq, Eq)]
pub struct Ziplist;

impl Ziplist {
    /// The most bytes of a list.
    pub const LIMIT: usize = 65536;
    /// The bytes before the first entry.
    pub const HEADER: usize = 10;
    /// The bytes of a list with no entry: its header and its last byte.
    pub const SMALLEST: usize = Ziplist::HEADER + 1;

    /// The first entry's place.
    pub fn start() -> Cursor
        ensures { (result.at ≡ header) × (result.before ≡ 0) }
    {
        Cursor {
            at: Ziplist::HEADER,
            before: 0,
        }
    }

    /// Whether a list may have this size. With start, this ties the definitions' numbers to the constants.
    pub fn admits(size: usize) -> bool
        ensures { result ≡ between smallest limit size }
    {
        (Ziplist::SMALLEST..=Ziplist::LIMIT).contains(&size)
    }
}
