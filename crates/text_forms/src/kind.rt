// What an output of text prints.
ghost use Rattle.std.specs.Prelude.{◌≡◌};
ghost use Rattle.text_forms.specs.Kind.{text_kind};

use config_spec::OutputKind;

/// What an output of text prints.
#[derive(Clone, Copy, Debug, PartialEq, Eq)]
pub enum TextKind {
    /// A line of JSON for each record: of options templates too, if they are wanted.
    Json { options: bool },
    /// A listing.
    View,
}

/// What an output prints; None where it writes no text.
pub fn text_kind(kind: OutputKind) -> Option<TextKind>
    ensures { result ≡ text_kind kind }
{
    match kind {
        OutputKind::Json { options } => Some(TextKind::Json { options }),
        OutputKind::Ipfix { last_id: _ } => None,
        OutputKind::View => Some(TextKind::View),
    }
}
