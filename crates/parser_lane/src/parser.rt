// A parser.
ghost use Rattle.std.specs.Prelude.{◌≡◌, [], true, false, ℕ, List, IfOk, OnErr, IsErr};
ghost use Rattle.parser_lane.specs.Parsers.{MayCome, Stands, Works, settings_of};

use crate::open_sessions::OpenSessions;
use col_base::WantOfMemory;
use config_spec::InputConf;
use indexmap::IndexMap;
use pipeline_message::{Msg, RunCounts};
use session_table::Arrival;
use std::alloc::Global;

/// The parser of an input.
#[derive(Drop)]
pub struct Parser {
    sessions: OpenSessions,
    /// Memory was wanted: nothing goes on.
    wanting: bool,
}

impl Parser {
    /// The parser of an input, as the description sets it, before the first arrival.
    pub fn new(alloc: Global, conf: &InputConf) -> Result<Parser, WantOfMemory>
        ensures { IfOk result (λ parser. (parser.wanting ≡ false) × Stands (settings_of conf.now) [] parser.sessions) }
    {
        Ok(Parser {
            sessions: OpenSessions {
                alloc,
                transport: conf.spec.transport,
                life: conf.life,
                rows: IndexMap::new(alloc),
                counts: RunCounts::none(),
            },
            wanting: false,
        })
    }

    /// Works one arrival off: its message. It may come after those that were worked off before: a session opens once, and a
    /// message or a closing comes while its session is open. Where memory is wanted the counts stay, and every later call
    /// is refused.
    pub fn work(&mut self, arrival: &Arrival) -> Result<Msg, WantOfMemory>
        requires { MayCome arrival.now self.old }
        ensures ok { IfOk result (λ msg. (self.old.wanting ≡ false) × (self.new.wanting ≡ false) × Works arrival.now self.old.sessions self.new.sessions msg) }
        ensures refused { self.old.wanting ≡ true → IsErr result }
        ensures later { OnErr result (self.new.wanting ≡ true) }
        ensures counts { OnErr result (self.new.sessions.counts ≡ self.old.sessions.counts) }
    {
        if self.wanting {
            return Err(WantOfMemory);
        }
        match self.sessions.work(arrival) {
            Ok(msg) => Ok(msg),
            Err(want) => {
                self.wanting = true;
                Err(want)
            }
        }
    }

    /// What was counted: `messages` to `disordered`, and `crowded`. The other counts are 0.
    pub fn counts(&self) -> RunCounts
        ensures { result ≡ self.now.sessions.counts }
    {
        self.sessions.counts
    }
}
