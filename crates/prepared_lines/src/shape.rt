// The values that most records are made of, by their octets.
ghost use Rattle.std.specs.Prelude.{◌≡◌, ◌≤◌, ◌+◌, ◌++◌, IfSome, length, take};
ghost use Rattle.text_spec.specs.Number.{number_of};
ghost use Rattle.prepared_lines.specs.Shape.{width, shape_text, HasShape};

use col_base::{be16, be32, be64};
use text_spec::ElementType;
use value_text::{place_ipv4, place_u32, place_u64};

/// How the octets of a value become text: as an IPv4 address, or as a number of so many octets.
#[derive(Clone, Copy, Debug, PartialEq, Eq)]
pub enum Shape {
    Address,
    Number1,
    Number2,
    Number4,
    Number8,
}

/// How values of a type and of so many octets become text, if they have one of these shapes.
pub fn shape_of(kind: ElementType, len: usize) -> Option<Shape>
    ensures { IfSome result (λ shape. HasShape kind len shape) }
{
    match (kind, len) {
        (ElementType::Ipv4Address, 4) => Some(Shape::Address),
        (ElementType::Unsigned8, 1) => Some(Shape::Number1),
        (ElementType::Unsigned16, 1) => Some(Shape::Number1),
        (ElementType::Unsigned16, 2) => Some(Shape::Number2),
        (ElementType::Unsigned32, 1) => Some(Shape::Number1),
        (ElementType::Unsigned32, 2) => Some(Shape::Number2),
        (ElementType::Unsigned32, 4) => Some(Shape::Number4),
        (ElementType::Unsigned64, 1) => Some(Shape::Number1),
        (ElementType::Unsigned64, 2) => Some(Shape::Number2),
        (ElementType::Unsigned64, 4) => Some(Shape::Number4),
        (ElementType::Unsigned64, 8) => Some(Shape::Number8),
        (ElementType::DateTimeMilliseconds, 8) => Some(Shape::Number8),
        _ => None,
    }
}

/// How many octets a value of a shape has.
#[inline(always)]
pub fn width(shape: Shape) -> usize
    ensures { result ≡ width shape }
{
    match shape {
        Shape::Address => 4,
        Shape::Number1 => 1,
        Shape::Number2 => 2,
        Shape::Number4 => 4,
        Shape::Number8 => 8,
    }
}

#[inline(always)]
fn number_1(value: &[u8]) -> u32
    requires { length value.now ≡ 1 }
    ensures { result ≡ number_of value.now }
{
    u32::from(value[0])
}

#[inline(always)]
fn number_2(value: &[u8]) -> u32
    requires { length value.now ≡ 2 }
    ensures { result ≡ number_of value.now }
{
    u32::from(be16(value, 0))
}

#[inline(always)]
fn number_4(value: &[u8]) -> u32
    requires { length value.now ≡ 4 }
    ensures { result ≡ number_of value.now }
{
    be32(value, 0)
}

#[inline(always)]
fn number_8(value: &[u8]) -> u64
    requires { length value.now ≡ 8 }
    ensures { result ≡ number_of value.now }
{
    be64(value, 0)
}

/// Puts a value of a shape behind a place.
#[inline(always)]
pub fn place_shape(shape: Shape, value: &[u8], text: &mut [u8], at: usize) -> usize
    requires whole { length value.now ≡ width shape }
    requires room { at + 20 ≤ length text.old }
    ensures grown { take result text.new ≡ take at text.old ++ shape_text shape value.now }
    ensures near { result ≤ at + 20 }
{
    match shape {
        Shape::Address => place_ipv4(value, text, at),
        Shape::Number1 => place_u32(number_1(value), text, at),
        Shape::Number2 => place_u32(number_2(value), text, at),
        Shape::Number4 => place_u32(number_4(value), text, at),
        Shape::Number8 => place_u64(number_8(value), text, at),
    }
}
