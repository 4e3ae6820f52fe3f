// Rows of a snapshot.
ghost use Rattle.std.specs.Prelude.{◌≡◌};
ghost use Rattle.template_snapshot.specs.Entry.{is_up_to};

use std::marker::Model;
use std::sync::Arc;
use template_def::Definition;

/// A definition of an ID, and the export time from which it serves: that of the message that gave it over UDP, and 0 over
/// TCP and in files.
#[derive(Drop)]
pub struct Row {
    id: u16,
    t: u32,
    def: Arc<Definition>,
}

impl Model for Row {
    ghost use Rattle.template_snapshot.specs.Entry as entry;

    ghost Value = { entry.Entry };

    ghost view = { λ r. record { id = r.id; t = r.t; definition = r.def.value } };
}

impl Row {
    pub fn new(id: u16, t: u32, def: Arc<Definition>) -> Self
        ensures { result ≡ record { id = id; t = t; definition = def.value } }
    {
        Row { id, t, def }
    }

    pub fn id(&self) -> u16
        ensures { result ≡ self.now.id }
    {
        self.id
    }

    pub fn definition(&self) -> &Arc<Definition>
        ensures { result.now.value ≡ self.now.definition }
    {
        &self.def
    }

    /// Whether it stands no later than a row of this ID and export time would.
    pub(crate) fn is_up_to(&self, e: u32, id: u16) -> bool
        ensures { result ≡ is_up_to e id self.now }
    {
        self.id < id || (self.id == id && self.t <= e)
    }
}
