// Records where they stand.
ghost use Rattle.std.specs.Prelude.{◌≡◌, ◌≤◌, ◌<◌, ◌-◌, ◌^◌, ◌++◌, MatchOption, OnOk, OnErr, length, take, drop};
ghost use Rattle.std.specs.List.{All, AllByRecursion};
ghost use Rattle.pipeline_message.specs.Items.{IsRecordAt};
ghost use Rattle.template_def.specs.Kept.{AppendsFront};
ghost use Rattle.file_output.specs.Within.{IsWithin, octets_placed, placed_size};

use crate::records::SetRecords;
use col_base::Octets;
use pipeline_message::Place;
use std::alloc::AllocError;
use std::sync::Arc;
use template_def::Definition;
use wire_spec::numbers::{MESSAGE_HEADER, SET_HEADER};

/// The most octets of the records of a set: a message has 65,535 at most, with its header and that of the set.
const MOST: usize = 65535 - MESSAGE_HEADER - SET_HEADER;

/// Records of one definition where they stand: at places of the octets of a message, or of a room for those that were
/// changed. Nothing is copied before they are written, and then records that lie beside one another at once.
#[derive(Drop)]
pub struct PlacedSet<'a> {
    definition: &'a Arc<Definition>,
    octets: &'a [u8],
    places: &'a [Place],
    size: usize,
    ghost inside: { All (IsWithin octets.now) places.now },
    ghost sized: { size ≡ placed_size places.now },
    ghost few: { length places.now < 2 ^ 32 },
}

/// The octets that stand at places. None exactly where they are more than a set can have.
fn sum_places(places: &[Place]) -> Option<usize>
    ensures { MatchOption result (65515 < placed_size places.now) (λ size. size ≡ placed_size places.now) }
{
    let mut size = 0;
    for place in places {
        size += place.len as usize;
        if size > MOST {
            return None;
        }
    }
    Some(size)
}

/// Appends a run of octets.
fn put_run(octets: &[u8], start: usize, end: usize, out: &mut Octets) -> Result<(), AllocError>
    requires front { start ≤ end }
    requires inside { end ≤ length octets.now }
    ensures ok { OnOk result (out.new ≡ out.old ++ take (end - start) (drop start octets.now)) }
    ensures err { OnErr result (out.new ≡ out.old) }
{
    out.extend(&octets[start..end])
}

/// Appends what stands at places, those that lie one behind another at once. Where memory is wanted a front is appended.
fn put_places(octets: &[u8], places: &[Place], out: &mut Octets) -> Result<(), AllocError>
    requires { All (IsWithin octets.now) places.now }
    ensures ok { OnOk result (out.new ≡ out.old ++ octets_placed octets.now places.now) }
    ensures err { OnErr result (AppendsFront out.old out.new (octets_placed octets.now places.now)) }
{
    let mut start = 0;
    let mut end = 0;
    for place in places {
        let next = place.start as usize;
        if next != end {
            put_run(octets, start, end, out)?;
            start = next;
        }
        end = next + place.len as usize;
    }
    put_run(octets, start, end, out)
}

impl<'a> PlacedSet<'a> {
    ghost use Rattle.file_output.specs.Placed.{Holds, TooLong};

    /// The records of a definition that stand at these places of octets. None exactly where they have more octets than the
    /// records of a set can have, 65,515, or are 2^32 or more.
    pub fn new(
        definition: &'a Arc<Definition>,
        octets: &'a [u8],
        places: &'a [Place],
    ) -> Option<PlacedSet<'a>>
        requires { AllByRecursion (IsRecordAt definition.now.value.fields octets.now) places.now }
        ensures { MatchOption result (TooLong places.now) (Holds definition.now.value octets.now places.now) }
    {
        let Some(size) = sum_places(places) else {
            return None;
        };
        if u32::try_from(places.len()).is_err() {
            return None;
        }
        Some(PlacedSet {
            definition,
            octets,
            places,
            size,
        })
    }

    /// How many octets the records have.
    pub fn size(&self) -> usize
        ensures { result ≡ placed_size self.now.places.now }
    {
        self.size
    }
}

impl SetRecords for PlacedSet<'_> {
    ghost use Rattle.file_output.specs.Placed.{body_of};

    ghost body = { body_of };

    fn definition(&self) -> &Arc<Definition> {
        self.definition
    }

    fn size(&self) -> usize {
        self.size
    }

    fn count(&self) -> u32 {
        self.places.len() as u32
    }

    fn put(&self, out: &mut Octets) -> Result<(), AllocError> {
        put_places(self.octets, self.places, out)
    }
}
