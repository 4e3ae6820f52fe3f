// The words of an element table.
ghost use Rattle.std.specs.Prelude.{◌≡◌, option_map};
ghost use Rattle.std.specs.List.{list_any};
ghost use Rattle.std.specs.Str.{bytes_eq};
ghost use Rattle.toml.specs.Data.{get_member};
ghost use Rattle.toml.specs.View.{view, table_view};
ghost use Rattle.element_spec.specs.Words.{word_of, type_word, all_types, type_named};
ghost use Rattle.element_spec.specs.Rows.{are_known};

use element_spec::Key;
use text_spec::ElementType;
use toml::{Table, Value};

#[tactic(auto, unfolding(element_spec::specs::Words::word_of))]
fn word_of(key: Key) -> &'static str
    ensures { result.now ≡ word_of key }
{
    match key {
        Key::Element => "element",
        Key::Pen => "pen",
        Key::Id => "id",
        Key::Prefix => "prefix",
        Key::Name => "name",
        Key::Type => "type",
    }
}

#[tactic(auto, unfolding(element_spec::specs::Words::type_word))]
fn type_word(kind: ElementType) -> &'static str
    ensures { result.now ≡ type_word kind }
{
    match kind {
        ElementType::OctetArray => "octetArray",
        ElementType::Unsigned8 => "unsigned8",
        ElementType::Unsigned16 => "unsigned16",
        ElementType::Unsigned32 => "unsigned32",
        ElementType::Unsigned64 => "unsigned64",
        ElementType::Signed8 => "signed8",
        ElementType::Signed16 => "signed16",
        ElementType::Signed32 => "signed32",
        ElementType::Signed64 => "signed64",
        ElementType::Float32 => "float32",
        ElementType::Float64 => "float64",
        ElementType::Boolean => "boolean",
        ElementType::MacAddress => "macAddress",
        ElementType::Str => "string",
        ElementType::DateTimeSeconds => "dateTimeSeconds",
        ElementType::DateTimeMilliseconds => "dateTimeMilliseconds",
        ElementType::DateTimeMicroseconds => "dateTimeMicroseconds",
        ElementType::DateTimeNanoseconds => "dateTimeNanoseconds",
        ElementType::Ipv4Address => "ipv4Address",
        ElementType::Ipv6Address => "ipv6Address",
        ElementType::BasicList => "basicList",
        ElementType::SubTemplateList => "subTemplateList",
        ElementType::SubTemplateMultiList => "subTemplateMultiList",
    }
}

const TYPES: [ElementType; 23] = [
    ElementType::OctetArray,
    ElementType::Unsigned8,
    ElementType::Unsigned16,
    ElementType::Unsigned32,
    ElementType::Unsigned64,
    ElementType::Signed8,
    ElementType::Signed16,
    ElementType::Signed32,
    ElementType::Signed64,
    ElementType::Float32,
    ElementType::Float64,
    ElementType::Boolean,
    ElementType::MacAddress,
    ElementType::Str,
    ElementType::DateTimeSeconds,
    ElementType::DateTimeMilliseconds,
    ElementType::DateTimeMicroseconds,
    ElementType::DateTimeNanoseconds,
    ElementType::Ipv4Address,
    ElementType::Ipv6Address,
    ElementType::BasicList,
    ElementType::SubTemplateList,
    ElementType::SubTemplateMultiList,
];

fn type_among(types: &[ElementType], word: &str) -> Option<ElementType>
    ensures { result ≡ type_named types.now word.now }
{
    for kind in types {
        if type_word(*kind) == word {
            return Some(*kind);
        }
    }
    None
}

/// The type that has the name.
pub fn type_named(word: &str) -> Option<ElementType>
    ensures { result ≡ type_named all_types word.now }
{
    type_among(&TYPES, word)
}

/// The value at a key.
pub fn value_at<'a>(table: &'a Table, key: Key) -> Option<&'a Value>
    ensures { option_map (λ v. view v.now) result ≡ get_member (word_of key) (table_view table.now) }
{
    table.get(word_of(key))
}

fn is_known(keys: &[Key], word: &str) -> bool
    ensures { result ≡ list_any (λ key. bytes_eq (word_of key) word.now) keys.now }
{
    keys.iter().any(|key| word_of(*key) == word)
}

/// Whether a table has no key but these.
pub fn are_known(keys: &[Key], table: &Table) -> bool
    ensures { result ≡ are_known keys.now (table_view table.now) }
{
    for (word, _) in table.iter() {
        if !is_known(keys, word.as_str()) {
            return false;
        }
    }
    true
}
