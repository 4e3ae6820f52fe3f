// The rows of a summary.
ghost use Rattle.std.specs.Prelude.{◌≡◌};
ghost use Rattle.run_lines.specs.Rows.{name_text};

/// A count of a run, in the order in which the summary has them.
#[derive(Clone, Copy, Debug, PartialEq, Eq)]
pub enum CountName {
    Sessions,
    Messages,
    Records,
    Malformed,
    Late,
    Skipped,
    Ignored,
    Redefined,
    Lost,
    Disordered,
    Torn,
    Broken,
    Refused,
    Crowded,
    Stray,
    Opened,
    Released,
}

impl CountName {
    /// Its word, and the space behind it.
    #[tactic(auto, unfolding(call_spec::specs::Summary::sessions_word, call_spec::specs::Summary::messages_word, call_spec::specs::Summary::records_word, call_spec::specs::Summary::malformed_word, call_spec::specs::Summary::late_word, call_spec::specs::Summary::skipped_word, call_spec::specs::Summary::ignored_word, call_spec::specs::Summary::redefined_word, call_spec::specs::Summary::lost_word, call_spec::specs::Summary::disordered_word, call_spec::specs::Summary::torn_word, call_spec::specs::Summary::broken_word, call_spec::specs::Summary::refused_word, call_spec::specs::Summary::crowded_word, call_spec::specs::Summary::stray_word, call_spec::specs::Summary::opened_word, call_spec::specs::Summary::released_word))]
    pub fn octets(self) -> &'static [u8]
        ensures { result.now ≡ name_text self }
    {
        match self {
            CountName::Sessions => b"sessions ",
            CountName::Messages => b"messages ",
            CountName::Records => b"records ",
            CountName::Malformed => b"malformed ",
            CountName::Late => b"late ",
            CountName::Skipped => b"skipped ",
            CountName::Ignored => b"ignored ",
            CountName::Redefined => b"redefined ",
            CountName::Lost => b"lost ",
            CountName::Disordered => b"disordered ",
            CountName::Torn => b"torn ",
            CountName::Broken => b"broken ",
            CountName::Refused => b"refused ",
            CountName::Crowded => b"crowded ",
            CountName::Stray => b"stray ",
            CountName::Opened => b"opened ",
            CountName::Released => b"released ",
        }
    }
}

/// A line of the summary: a count and its number.
#[derive(Clone, Copy, Debug, PartialEq, Eq)]
pub struct CountRow {
    pub name: CountName,
    pub number: u64,
}

/// The row of a count.
pub fn row(name: CountName, number: u64) -> CountRow
    ensures { result ≡ record { name = name; number = number } }
{
    CountRow { name, number }
}
