// The forms of all sessions.
ghost use Rattle.std.specs.Prelude.{◌≡◌, IfOk, map};
ghost use Rattle.pipeline_message.specs.Items.{IsSound, IsSoundSet, set_of};
ghost use Rattle.text_forms.specs.Made.{made_of};
ghost use Rattle.text_forms.specs.Puts.{PutsSet, PutsSets};

use crate::kind::TextKind;
use crate::line::Line;
use crate::maker::Maker;
use col_base::{Octets, SessionKey, WantOfMemory};
use kept_forms::KeptForms;
use pipeline_message::{DataMessage, DataSet};
use prepared_lines::Lines;
use std::alloc::Global;
use std::marker::Model;

/// The forms of an output: the lines that are prepared for the definitions of all sessions. Contracts see what they are made
/// of.
#[derive(Drop)]
pub struct Forms {
    alloc: Global,
    maker: Maker,
    kept: KeptForms<Line>,
}

impl Model for Forms {
    ghost use Rattle.text_forms.specs.Made.{Made, made_of};
    ghost use Rattle.text_forms.specs.Forms.{AreReady};

    ghost Value = { Made };

    ghost view = { λ f. made_of f.maker };

    ghost invariant = { λ f. AreReady (made_of f.maker) f.kept };
}

impl Forms {
    /// No form. It takes no memory.
    pub fn new(alloc: Global, maker: Maker) -> Forms
        ensures { result ≡ made_of maker }
    {
        Forms {
            alloc,
            maker,
            kept: KeptForms::new(alloc),
        }
    }

    /// What the output prints.
    pub fn kind(&self) -> TextKind
        ensures { result ≡ self.now.kind }
    {
        self.maker.kind
    }

    /// Puts the text of a set of a message, and answers how many records it has. A form of another definition gives way to its
    /// own.
    fn put_set(
        &mut self,
        message: &DataMessage,
        set: &DataSet,
        room: &mut Octets,
        lines: &mut Lines,
    ) -> Result<u32, WantOfMemory>
        requires { IsSoundSet message.now.octets.value set.now }
        ensures same { self.new ≡ self.old }
        ensures ok { IfOk result (PutsSet self.old (set_of message.now.octets.value set.now) lines.old lines.new) }
    {
        let DataMessage {
            session,
            domain,
            ..
        } = *message;
        let octets = message.octets.as_slice();
        let found = self.kept.find(session, domain, set.template, &set.def);
        if let Some(line) = found {
            return line.put(&set.def, set.template, octets, &set.places, room, lines);
        }
        let line = Line::new(self.alloc, self.maker.kind, &self.maker.elements, &set.def)?;
        let count = line.put(&set.def, set.template, octets, &set.places, room, lines)?;
        let kept = self
            .kept
            .keep(session, domain, set.template, &set.def, line);
        match kept {
            Ok(()) => Ok(count),
            Err(_) => Err(WantOfMemory),
        }
    }

    /// Puts the text of the sets of a message, and answers how many records they have. It takes a room that is kept from
    /// message to message with its memory. More than 2^32 - 1 records want more memory than there is.
    pub fn put_sets(
        &mut self,
        message: &DataMessage,
        room: &mut Octets,
        lines: &mut Lines,
    ) -> Result<u32, WantOfMemory>
        requires { IsSound message.now }
        ensures same { self.new ≡ self.old }
        ensures ok { IfOk result (PutsSets self.old (map (set_of message.now.octets.value) message.now.sets.items) lines.old lines.new) }
    {
        let mut count: u32 = 0;
        for set in &message.sets {
            let more = self.put_set(message, set, room, lines)?;
            let Some(sum) = count.checked_add(more) else {
                return Err(WantOfMemory);
            };
            count = sum;
        }
        Ok(count)
    }

    /// Lets go what is kept of a session.
    pub fn close(&mut self, session: SessionKey)
        ensures { self.new ≡ self.old }
    {
        self.kept.close(session);
    }
}
