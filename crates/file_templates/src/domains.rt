// The observation domains of one session of a file, each with its templates.
ghost use Rattle.std.specs.Prelude.{◌≡◌, ◌⊎◌, ℕ, true, List, None, Some, [], OnOk, OnErr, IfOk, IfSome, MatchOption};
ghost use Rattle.wire_spec.specs.Content.{Touch};
ghost use Rattle.wire_spec.specs.Content.Part.{Touches};
ghost use Rattle.wire_spec.specs.WellFormed.{IsWellFormed};
ghost use Rattle.ipfix_reader.specs.Walk.{RawSays};
ghost use Rattle.file_templates.specs.SessionTemplates.{is_kept, count_kept, templates_of, Admits, WantsRoom, AreTouched, StandFor};

use crate::domain_templates::DomainTemplates;
use col_base::WantOfMemory;
use ipfix_reader::{Header, RawSet};
use std::alloc::Global;
use std::collections::BTreeMap;
use std::sync::Arc;
use template_def::Definition;

/// How many domains of a session are kept.
const MOST_DOMAINS: usize = 1024;

/// The first 1,024 domains of a session, each with its templates.
#[derive(Drop)]
pub struct Domains {
    rows: BTreeMap<u32, DomainTemplates>,
}

impl Domains {
    /// No domain. It takes no memory.
    pub fn new(alloc: Global) -> Self
        ensures { StandFor result [] }
    {
        Domains {
            rows: BTreeMap::new(alloc),
        }
    }

    /// Keeps the domain of a message, if it is new and there is room. False exactly where it is crowded out.
    pub fn admit(&mut self, alloc: Global, header: Header) -> Result<bool, WantOfMemory>
        ensures ok { IfOk result (λ admitted. Admits self.old header.domain admitted self.new) }
        ensures err { OnErr result (WantsRoom self.old header.domain self.new) }
    {
        if let Some(templates) = self.rows.get_mut(&header.domain) {
            templates.arrived(header.export);
            return Ok(true);
        }
        if self.rows.len() >= MOST_DOMAINS {
            return Ok(false);
        }
        let mut templates = DomainTemplates::new(alloc);
        templates.arrived(header.export);
        self.rows.insert(header.domain, templates)?;
        Ok(true)
    }

    /// The definition of an ID that is valid in a message. It takes no memory.
    pub fn find(&self, header: Header, id: u16) -> Option<&Arc<Definition>>
        ensures found { MatchOption result (templates_of self.now header.domain id ≡ None) (λ d. templates_of self.now header.domain id ≡ Some d.now.value) }
        ensures well_formed { IfSome result (λ d. IsWellFormed d.now.value) }
    {
        match self.rows.get(&header.domain) {
            Some(templates) => templates.find(header.export, id),
            None => None,
        }
    }

    /// Takes the template records of a set of a message, in order. Where memory is wanted some of them may be taken.
    pub fn take_set(
        &mut self,
        alloc: Global,
        header: Header,
        set: RawSet<'_>,
    ) -> Result<(), WantOfMemory>
        requires kept { is_kept self.old header.domain ≡ true }
        requires records { (set.id ≡ 2) ⊎ (set.id ≡ 3) }
        ensures { OnOk result ((touches : List Touch) × RawSays set.entry (Touches touches) × AreTouched self.old header.domain touches self.new) }
    {
        let templates = self.rows.get_mut(&header.domain).unwrap();
        templates.take_set(alloc, header.export, set)
    }
}
