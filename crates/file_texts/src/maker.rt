// The messages of a file that each message of a run adds.
ghost use Rattle.std.specs.Prelude.{◌≡◌, ◌∷◌, [], true, IfErr, IfOk, OnErr, OnOk};
ghost use Rattle.result_spec.specs.Through.{is_for};
ghost use Rattle.pipeline_message.specs.Items.{IsSound, IsSoundMessage, data_of, items_of};

use crate::placed::sets_of;
use col_base::Octets;
use config_spec::{DomainSet, OutputConf, OutputKind};
use file_output::{FileFault, Numbering};
use message_texts::{MessageTexts, TextFault};
use output_manager::goes;
use pipeline_message::{DataMessage, Msg};
use std::alloc::{AllocError, Global};

/// Makes the text of an output of IPFIX Files.
#[derive(Drop)]
pub struct FileTexts {
    alloc: Global,
    domains: DomainSet,
    /// The numbers of the definitions that were used, up to the last one that the output may use.
    numbering: Numbering,
    /// The text of the message that was put last.
    text: Octets,
}

impl FileTexts {
    ghost use Rattle.file_texts.specs.Texts.{Grows, IsMadeFor, NeedsMore, Stays};

    /// The texts of an output of a description. None exactly where it writes another kind of text.
    pub fn new(alloc: Global, output: &OutputConf) -> Result<Option<FileTexts>, AllocError>
        ensures { IfOk result (IsMadeFor output.now) }
    {
        let OutputKind::Ipfix { last_id } = output.kind else {
            return Ok(None);
        };
        Ok(Some(FileTexts {
            alloc,
            domains: output.domains.clone()?,
            numbering: Numbering::new(alloc, last_id),
            text: Octets::new(alloc),
        }))
    }

    /// Makes the messages of a file for a message that goes to the output.
    fn put_data(&mut self, message: &DataMessage) -> Result<(), TextFault>
        requires empty { self.old.text ≡ [] }
        requires sound { IsSound message.now }
        requires comes { is_for self.old.domains (data_of message.now) ≡ true }
        ensures ok { OnOk result (Grows (data_of message.now ∷ []) self.old self.new) }
        ensures err { OnErr result (Stays self.old self.new) }
        ensures limit { IfErr result (NeedsMore (data_of message.now ∷ []) self.old) }
    {
        let Some(sets) = sets_of(self.alloc, message) else {
            return Err(TextFault::NoMemory);
        };
        match self
            .numbering
            .put_placed(message.domain, message.export, &sets, &mut self.text)
        {
            Ok(()) => Ok(()),
            Err(FileFault::Limit(_)) => Err(TextFault::Limit),
            Err(FileFault::NoMemory) => Err(TextFault::NoMemory),
        }
    }

    /// Makes the messages of a file for a message. Notes of sessions, seconds, and messages that don't go to the output
    /// add none.
    fn put_message(&mut self, message: &Msg) -> Result<(), TextFault>
        requires { IsSoundMessage message.now }
        ensures ok { OnOk result (Grows (items_of (message.now ∷ [])) self.old self.new) }
        ensures err { OnErr result (Stays self.old self.new) }
        ensures limit { IfErr result (NeedsMore (items_of (message.now ∷ [])) self.old) }
    {
        self.text.clear();
        if !goes(&self.domains, message) {
            return Ok(());
        }
        match message {
            Msg::DataMsg(message) => match self.put_data(message) {
                Ok(()) => Ok(()),
                Err(fault) => Err(fault),
            },
            Msg::SessionMsg(_) => Ok(()),
            Msg::Periodic { .. } => Ok(()),
            Msg::Terminate => Ok(()),
        }
    }
}

impl MessageTexts for FileTexts {
    ghost use Rattle.file_texts.specs.Texts.{Stands};

    ghost stands = { λ output table items t. Stands output items t };

    ghost last = { λ t. t.text };

    /// Makes the text of the next message.
    fn put(&mut self, message: &Msg) -> Result<(), TextFault> {
        match self.put_message(message) {
            Ok(()) => Ok(()),
            Err(fault) => Err(fault),
        }
    }

    fn text(&self) -> &[u8] {
        self.text.as_slice()
    }
}
