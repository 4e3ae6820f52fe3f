// The generator as a source.
ghost use Rattle.std.specs.Prelude.{◌≡◌, ◌≤◌, length};
ghost use Rattle.load_spec.specs.Load.{load_events};

use crate::message::put_message;
use site_io::{OutsideFault, Source, SourceEvent, Stage};

/// A source of generated messages, on connection 0. It takes no memory, and never fails.
#[derive(Drop)]
pub struct LoadSource {
    stage: Stage,
    /// The number of the next message, and how many there are.
    next: u32,
    count: u32,
    /// What its records are drawn from.
    state: u64,
    ghost inside: { next ≤ count },
    ghost few: { count ≤ 1000000 },
}

impl LoadSource {
    ghost use Rattle.std.specs.Prelude.{Some};
    ghost use Rattle.site_io.specs.Events.{HasLength, TakesFirst, event_in};
    ghost use Rattle.load_gen.specs.Left.{load_left, load_faults};

    /// The events of so many messages, from 1 to 1,000,000, of a number that the draws begin with. It takes no memory.
    pub fn new(number: u64, count: u32) -> LoadSource
        requires { (1 ≤ count) × (count ≤ 1000000) }
        ensures left { load_left result ≡ load_events number count }
        ensures faults { load_faults result ≡ 0 }
    {
        LoadSource {
            stage: Stage::Before,
            next: 0,
            count,
            state: number,
        }
    }

    /// The next message, or behind the last one that the connection closes.
    fn next_message(&mut self, room: &mut [u8]) -> SourceEvent
        requires room { 65535 ≤ length room.old }
        requires open { self.old.stage ≡ Stage.Open }
        ensures length { HasLength result }
        ensures takes { TakesFirst (Some (load_left self.old)) (Some (load_left self.new)) (event_in room.new result) }
    {
        if self.next == self.count {
            self.stage = Stage::Ended;
            return SourceEvent::Closed(0);
        }
        let size = put_message(self.next, &mut self.state, room);
        self.next += 1;
        SourceEvent::Bytes(0, size)
    }
}

impl Source for LoadSource {
    ghost use Rattle.std.specs.Prelude.{IfOk, IsOk, Some};
    ghost use Rattle.site_io.specs.Outside.{Counts};
    ghost use Rattle.site_io.specs.Events.{Takes, HasLength};
    ghost use Rattle.load_gen.specs.Left.{load_left, load_faults};

    ghost left = { λ s. Some (load_left s) };

    ghost faults = { load_faults };

    /// It never fails, and takes no memory. A message has at most 192 octets.
    fn next(&mut self, room: &mut [u8]) -> Result<SourceEvent, OutsideFault>
        requires { 65535 ≤ length room.old }

        // what each source does
        ensures lengths { IfOk result HasLength }
        ensures takes { Takes (Some (load_left self.old)) (Some (load_left self.new)) result room.new }
        ensures counts { Counts (load_faults self.old) (load_faults self.new) result }

        // it never fails
        ensures answers { IsOk result }
    {
        match self.stage {
            Stage::Before => {
                self.stage = Stage::Open;
                Ok(SourceEvent::Opened(0))
            }
            Stage::Open => Ok(self.next_message(room)),
            Stage::Ended => Ok(SourceEvent::End),
        }
    }
}
