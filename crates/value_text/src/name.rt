// The names of elements.
ghost use Rattle.std.specs.Prelude.{◌≡◌, ◌≤◌, ◌+◌, ◌++◌, OnErr, OnOk, decimal, length, take};
ghost use Rattle.text_spec.specs.Marks.{enterprise_mark, id_mark};
ghost use Rattle.text_spec.specs.Name.{name_text, number_name};

use crate::digits::place_u32;
use crate::place::{place_three, place_two};
use col_base::{Octets, WantOfMemory};
use element_table::Elements;
use std::alloc::AllocError;

/// The octets of the room in which a name of two numbers is put.
const ROOM: usize = 64;

/// Puts what stands before an enterprise number.
#[tactic(auto, unfolding(text_spec::specs::Marks::enterprise_mark))]
fn place_enterprise_mark(text: &mut [u8], at: usize) -> usize
    requires { at + 2 ≤ length text.old }
    ensures grown { take result text.new ≡ take at text.old ++ enterprise_mark }
    ensures near { result ≤ at + 2 }
{
    place_two(b'e', b'n', text, at);
    at + 2
}

/// Puts what stands between an enterprise number and an ID.
#[tactic(auto, unfolding(text_spec::specs::Marks::id_mark))]
fn place_id_mark(text: &mut [u8], at: usize) -> usize
    requires { at + 3 ≤ length text.old }
    ensures grown { take result text.new ≡ take at text.old ++ id_mark }
    ensures near { result ≤ at + 3 }
{
    place_three(b':', b'i', b'd', text, at);
    at + 3
}

/// Puts the name of an element that no table has.
fn place_numbers(pen: u32, id: u16, text: &mut [u8], at: usize) -> usize
    requires { at + 64 ≤ length text.old }
    ensures grown { take result text.new ≡ take at text.old ++ number_name pen id }
    ensures near { result ≤ at + 64 }
{
    let end = place_enterprise_mark(text, at);
    let end = place_u32(pen, text, end);
    let end = place_id_mark(text, end);
    place_u32(u32::from(id), text, end)
}

/// Appends the name of an element that no table has.
fn put_numbers(pen: u32, id: u16, out: &mut Octets) -> Result<(), AllocError>
    ensures ok { OnOk result (out.new ≡ out.old ++ number_name pen id) }
    ensures err { OnErr result (out.new ≡ out.old) }
{
    let at = out.len();
    out.extend_zeros(ROOM)?;
    let end = place_numbers(pen, id, out.as_mut_slice(), at);
    out.truncate(end);
    Ok(())
}

/// Appends the name of an element, by its enterprise number and its ID: `prefix:name` where the table has it, and else
/// `enPEN:idID`. Where memory is refused nothing is appended.
#[tactic(auto, unfolding(text_spec::specs::Name::name_text))]
pub fn put_name(
    elements: &Elements,
    pen: u32,
    id: u16,
    out: &mut Octets,
) -> Result<(), WantOfMemory>
    ensures ok { OnOk result (out.new ≡ out.old ++ name_text elements.now pen id) }
    ensures err { OnErr result (out.new ≡ out.old) }
{
    match elements.printed(pen, id) {
        Some(name) => out.extend(name.as_bytes())?,
        None => put_numbers(pen, id, out)?,
    }
    Ok(())
}
