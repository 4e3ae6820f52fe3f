// What messages of a file have in common.

/// What the messages of a file's data message have in common.
#[derive(Clone, Copy)]
pub struct Head {
    pub export: u32,
    pub sequence: u32,
    pub domain: u32,
}
