// What an image says of itself, what is found in it, and the places of its header.

/// Where a tree was made: the procedure, the journal's length and the procedure's updates then, and the first and the last
/// clause of its chain, as names plus one, 0 for none.
#[derive(Clone, Copy, Debug)]
pub struct Mark {
    pub proc: u32,
    pub mark: u64,
    pub updates: u64,
    pub first: u64,
    pub last: u64,
}

/// Names in an image: the place of the first one, and how many they are.
#[derive(Clone, Copy, Debug, PartialEq, Eq)]
pub struct Bucket {
    pub at: u64,
    pub len: u64,
}

/// How many words the header has.
pub(crate) const HEADER_LENGTH: u64 = 8;

/// The offset of the empty leaf, behind the header.
pub(crate) const EMPTY_LEAF: u64 = 8;

/// Which word of the header has the number of words.
pub(crate) const SIZE_WORD: usize = 6;

/// Which word of the header has the offset of the root.
pub(crate) const ROOT_WORD: usize = 7;
