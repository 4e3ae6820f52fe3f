// The way in which the lines of a definition are written, chosen once for all its records.
ghost use Rattle.std.specs.Prelude.{◌≡◌, ◌≤◌, ◌+◌, ◌*◌, true, IfOk, IfSome, length};
ghost use Rattle.std.specs.List.{list_all};
ghost use Rattle.wire_spec.specs.Size.{are_fixed};

use crate::hot::HotLine;
use record_iter::ValuePlace;

/// A line whose values stand at the same places in each record, and the most octets that it takes while it is put together.
#[derive(Drop)]
pub struct PlacedLine {
    pub places: Vec<ValuePlace>,
    pub most: usize,
}

/// How lines are written.
#[derive(Drop)]
pub enum Way {
    /// By the fast loop: no field varies in length, and all values have a shape.
    Hot(HotLine),
    /// By the general loop, with places that are known before: no field varies in length.
    Placed(PlacedLine),
    /// By the general loop, with places that a walk over each record finds.
    Walked,
}
