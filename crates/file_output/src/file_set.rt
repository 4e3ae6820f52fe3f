// Records whose octets are joined already.
use col_base::Octets;
use std::sync::Arc;
use template_def::Definition;

/// A set of data records of one definition, at least one, whose octets are joined, without padding.
#[derive(Drop)]
pub struct FileSet {
    pub def: Arc<Definition>,
    pub octets: Octets,
}

/// The sets of a message.
pub type FileSets = Vec<FileSet>;

/// A set whose records are counted.
#[derive(Drop)]
pub struct CountedSet<'a> {
    pub definition: &'a Arc<Definition>,
    pub octets: &'a [u8],
    pub records: u32,
}
