// Whether a value passes the test of a rule.
ghost use Rattle.std.specs.Prelude.{◌≡◌, ◌≤◌, ◌&&◌, length, nat_le};
ghost use Rattle.text_spec.specs.Number.{number_of};
ghost use Rattle.act_spec.specs.Filter.{is_number, passes};
ghost use Rattle.filter_stage.specs.Field.{field_passes};

use address_bits::agrees;
use config_spec::{Rule, Test};
use wire_spec::FieldSpec;

/// The unsigned number of one to eight octets, the first the highest.
fn number_of(value: &[u8]) -> u64
    requires { length value.now ≤ 8 }
    ensures { result ≡ number_of value.now }
{
    let mut number: u64 = 0;
    for octet in value {
        number = 256 * number + u64::from(*octet);
    }
    number
}

/// Whether a value can be read as a number: it has one to eight octets.
fn is_number(value: &[u8]) -> bool
    ensures { result ≡ is_number value.now }
{
    1 <= value.len() && value.len() <= 8
}

/// Whether a value passes a test.
pub fn passes(test: &Test, value: &[u8]) -> bool
    ensures { result ≡ passes test.now value.now }
{
    match test {
        Test::Present => true,
        Test::Equal(number) => is_number(value) && number_of(value) == *number,
        Test::Between(low, high) => is_number(value) && is_between(*low, number_of(value), *high),
        Test::Prefix(prefix) => agrees(prefix, value),
    }
}

/// Whether a number lies from the low one to the high one.
fn is_between(low: u64, number: u64, high: u64) -> bool
    ensures { result ≡ (nat_le low number && nat_le number high) }
{
    low <= number && number <= high
}

/// Whether a field has the rule's element, and its value passes the rule's test.
pub fn field_passes(rule: &Rule, field: FieldSpec, value: &[u8]) -> bool
    ensures { result ≡ field_passes rule.now field value.now }
{
    field.pen == rule.pen && field.id == rule.id && passes(&rule.test, value)
}
