// The text of an output of any kind.
ghost use Rattle.std.specs.Prelude.{[], IfOk};

use config_spec::OutputConf;
use element_table::Elements;
use file_texts::FileTexts;
use message_texts::{MessageTexts, TextFault};
use pipeline_message::Msg;
use std::alloc::{AllocError, Global};
use std::sync::Arc;
use text_output::TextOutput;

/// Makes the text of an output of any kind.
#[derive(Drop)]
pub enum OutputTexts {
    /// Lines of JSON, or a listing.
    Text(TextOutput),
    /// An IPFIX File.
    File(FileTexts),
}

impl OutputTexts {
    ghost use Rattle.output_texts.specs.Texts.{Stands};

    /// The text of an output of a description, by these elements, to which nothing came yet.
    pub fn new(
        alloc: Global,
        output: &OutputConf,
        elements: &Arc<Elements>,
    ) -> Result<OutputTexts, AllocError>
        ensures { IfOk result (Stands output.now elements.now.value []) }
    {
        if let Some(texts) = FileTexts::new(alloc, output)? {
            return Ok(OutputTexts::File(texts));
        }
        match TextOutput::new(alloc, output, elements.clone()?)? {
            Some(texts) => Ok(OutputTexts::Text(texts)),
            None => unreachable!(),
        }
    }
}

impl MessageTexts for OutputTexts {
    ghost use Rattle.output_texts.specs.Texts.{Stands, text_of};

    ghost stands = { Stands };

    ghost last = { text_of };

    fn put(&mut self, message: &Msg) -> Result<(), TextFault> {
        match self {
            OutputTexts::Text(texts) => texts.put(message),
            OutputTexts::File(texts) => texts.put(message),
        }
    }

    fn text(&self) -> &[u8] {
        match self {
            OutputTexts::Text(texts) => texts.text(),
            OutputTexts::File(texts) => texts.text(),
        }
    }
}
