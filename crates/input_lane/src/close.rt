// Sessions close.
ghost use Rattle.std.specs.Prelude.{◌≡◌, OnOk, filter, []};
ghost use Rattle.session_table.specs.Rows.{is_idle_row};
ghost use Rattle.input_lane.specs.Inlets.{Finishes};
ghost use Rattle.input_lane.specs.Steps.{Idles};

use crate::came::Came;
use crate::hand::put;
use crate::state::State;
use col_base::WantOfMemory;
use session_table::Sessions;
use std::collections::VecDeque;

/// The sessions of idle peers close.
pub fn close_idle(
    sessions: &mut Sessions,
    now: u32,
    hand: &mut VecDeque<Came>,
) -> Result<(), WantOfMemory>
    ensures { OnOk result (Idles now sessions.old sessions.new hand.old.items hand.new.items × (filter (is_idle_row sessions.old.idle now) sessions.new.peers ≡ [])) }
{
    while let Some(key) = sessions.tick(now) {
        put(hand, Came::SessionClose(key))?;
    }
    Ok(())
}

impl State {
    /// Nothing comes any more: streams that end within a message are torn. The sessions themselves close one by one, as they
    /// are given, which takes no memory.
    pub fn finish(&mut self)
        ensures { Finishes self.old self.new }
    {
        self.tally.torn = self.links.torn(self.tally.torn);
    }
}
