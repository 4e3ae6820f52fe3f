// Messages to the text of an output.
ghost use Rattle.std.specs.Prelude.{◌≡◌, ℕ, List, OnOk, OnErr, IfErr};
ghost use Rattle.config_spec.specs.declared.conf.OutputConf.{OutputConf};
ghost use Rattle.text_spec.specs.declared.element.Element.{Element};
ghost use Rattle.run_spec.specs.Work.{Item};
ghost use Rattle.pipeline_message.specs.Items.{IsSoundMessage};
ghost use Rattle.message_texts.specs.Puts.{Keeps, MeetsLimit, Puts};

use pipeline_message::Msg;

/// Why a message has no text.
#[derive(Clone, Copy, Debug, PartialEq, Eq)]
pub enum TextFault {
    /// A Template ID above the last one that the output may use is needed.
    Limit,
    /// Memory was wanted.
    NoMemory,
}

/// Makes the text of one output of a description, message by message, of what the intermediates leave of each.
pub trait MessageTexts {
    /// It makes the text of this output, by these elements, and has made that of these items.
    ghost stands: { OutputConf → List Element → List Item → Self → Type 0 };

    /// The text of the message that was put last.
    ghost last: { Self → List ℕ };

    /// Makes the text of the next message, in place of that of the one before it. A message that doesn't come to the output
    /// has none. Where it is refused the maker stands for what it stood for.
    fn put(&mut self, message: &Msg) -> Result<(), TextFault>
        requires { IsSoundMessage message.now }
        ensures ok { OnOk result (Puts stands last message.now self.old self.new) }
        ensures err { OnErr result (Keeps stands self.old self.new) }
        ensures limit { IfErr result (λ fault. MeetsLimit stands fault message.now self.old) };

    /// The text of the message that was put last. It takes no memory.
    fn text(&self) -> &[u8]
        ensures { result.now ≡ last self.now };
}
