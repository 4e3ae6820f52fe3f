// The tables of intermediates.
use crate::listed::Listed;
use col_base::Octets;

pub type Rules = Listed<Rule>;

pub type Pairs = Listed<Pair>;

pub type AnonRows = Listed<AnonRow>;

/// The rules of a filter. The first rule that matches a record decides; if none does, the default does.
#[derive(Clone, Debug, PartialEq, Eq, Drop)]
pub struct FilterTable {
    /// At most 1,024.
    pub rules: Rules,
    pub default_keep: bool,
}

/// A rule: it matches a record with a field of this element that passes the test.
#[derive(Clone, Debug, PartialEq, Eq, Drop)]
pub struct Rule {
    pub pen: u32,
    /// Below 32768.
    pub id: u16,
    pub test: Test,
    /// Whether the record is kept; it is dropped otherwise.
    pub keep: bool,
}

/// What a value has to be. Numbers are up to 2^63 - 1.
#[derive(Clone, Debug, PartialEq, Eq, Drop)]
pub enum Test {
    Present,
    Equal(u64),
    /// From the first to the second, which isn't below it.
    Between(u64, u64),
    Prefix(Prefix),
}

/// An address and how many of its first bits count. The others are 0.
#[derive(Clone, Debug, PartialEq, Eq, Drop)]
pub struct Prefix {
    /// 4 or 16.
    pub octets: Octets,
    /// At most 32, or 128.
    pub bits: u8,
}

/// What an anonymiser changes: the addresses in the fields of these elements.
#[derive(Clone, Debug, PartialEq, Eq, Drop)]
pub struct AnonTable {
    /// 1 to 64.
    pub fields: Pairs,
    /// How many bits of an IPv4 address stay, where no row fits: at most 32.
    pub cut4: u8,
    /// The same of an IPv6 address: at most 128.
    pub cut6: u8,
    /// At most 4,096.
    pub rows: AnonRows,
}

/// An element, by its enterprise number and its ID, which is below 32768.
#[derive(Clone, Copy, Debug, PartialEq, Eq, PartialOrd, Ord, Hash, Drop)]
pub struct Pair {
    pub pen: u32,
    pub id: u16,
}

/// The bits that stand in place of a prefix.
#[derive(Clone, Debug, PartialEq, Eq, Drop)]
pub struct AnonRow {
    pub from: Prefix,
    /// As many octets as the prefix has.
    pub to: Octets,
}
