// A key of a table with what its value has to be.
use crate::key::Key;

/// A key of a table, what its value has to be, and whether it has to be there.
#[derive(Clone, Copy, PartialEq, Eq)]
pub struct KeyRow {
    pub key: Key,
    pub shape: Shape,
    pub need: Need,
}

/// Whether a key has to be there, and what stands in its place where it isn't.
#[derive(Clone, Copy, PartialEq, Eq)]
pub enum Need {
    Required,
    /// Nothing stands in its place: no text, or no tables.
    Optional,
    Number(u64),
    /// True or false, or `keep` or `drop`.
    Flag(bool),
}

/// What a key's value has to be.
#[derive(Clone, Copy, PartialEq, Eq)]
pub enum Shape {
    /// The word by which the kind was chosen, and which was judged there.
    Chosen,
    /// A number from the first to the second.
    Number(u64, u64),
    /// A number from that at the key to this.
    From(Key, u64),
    /// 1 to 64 letters, digits, `_` and `-`, but not `order-log`.
    Name,
    /// A path or an address: 1 to 4,096 octets.
    Place,
    /// An array of at most so many paths.
    Places(usize),
    /// An array of at least the first and at most the second number of tables.
    Tables(usize, usize),
    /// `keep` or `drop`.
    Act,
    /// True or false.
    Flag,
    /// A prefix text.
    Prefix,
    /// The text of an address of the same kind as the prefix at the key.
    Like(Key),
    /// A domain text.
    Domains,
    /// A domain text, unless there is one at the key.
    DomainsWithout(Key),
}

/// What a value is at its key.
#[derive(Clone, Copy, PartialEq, Eq)]
pub enum Verdict {
    Right,
    WrongType,
    OutOfRange,
}
