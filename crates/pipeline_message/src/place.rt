// What stands at a place.
ghost use Rattle.std.specs.Prelude.{◌≡◌, ◌≤◌, ◌+◌, length};
ghost use Rattle.pipeline_message.specs.Items.{octets_at};

use crate::message::Place;

/// The octets at a place of a message.
#[inline(always)]
pub fn octets_at(octets: &[u8], place: Place) -> &[u8]
    requires { place.start + place.len ≤ length octets.now }
    ensures { result.now ≡ octets_at octets.now place }
{
    let start = place.start as usize;
    &octets[start..start + place.len as usize]
}
