// A field of a record.
use wire_spec::FieldSpec;

/// A field of a record: its specifier, its value, and the octet of the record at which the value begins, behind its
/// length where that varies.
#[derive(Clone, Copy)]
pub struct FieldValue<'a> {
    pub spec: FieldSpec,
    pub at: usize,
    pub value: &'a [u8],
}
