// The files and the sockets of the system as a Site.
ghost use Rattle.std.specs.Prelude.{◌≡◌, ◌≤◌, ℕ, List, IfOk, length};
ghost use Rattle.site_io.specs.Tally.{nothing, tally_at};
ghost use Rattle.ipfixcol.specs.UsedFiles.{AddsText};

use crate::limited::read_limited;
use crate::opening;
use crate::real_source::{self, RealSource};
use crate::used_files::{self, UsedFiles};
use col_base::Octets;
use site_io::tally::{self, Tallies};
use site_io::{InputSpec, OutsideFault, Site, WriteSink, count_up, write_piece};
use std::alloc::Global;
use std::io;
use std::net::Net;
use std::rt::Files;
use std::time::Clock;

/// Texts are files that are read, sources are files too, or sockets, sinks are files that are emptied and appended to,
/// and what is said goes to standard output. It tells no contents, and counts exactly. What is out can't be opened a
/// second time, two kinds of source at one place are one in this, and a regular file that is in use is no sink.
#[derive(Drop)]
pub struct RealSite<'a, R: Files + Print + Net + Clock> {
    rt: &'a R,
    alloc: Global,
    texts: Tallies,
    places: Tallies,
    sinks: Tallies,
    used: UsedFiles,
    say_faults: u64,
}

impl<'a, R: Files + Print + Net + Clock> RealSite<'a, R> {
    /// The Site of a runtime, with nothing counted. It takes no memory.
    pub fn new(rt: &'a R, alloc: Global) -> Self
        ensures texts { (name : List ℕ) → tally_at result.texts name ≡ nothing }
        ensures places { (name : List ℕ) → tally_at result.places name ≡ nothing }
        ensures sinks { (name : List ℕ) → tally_at result.sinks name ≡ nothing }
        ensures said { result.say_faults ≡ 0 }
    {
        RealSite {
            rt,
            alloc,
            texts: tally::none(alloc),
            places: tally::none(alloc),
            sinks: tally::none(alloc),
            used: UsedFiles::new(alloc),
            say_faults: 0,
        }
    }
}

/// The octets of a text, whose file is in use from then on.
fn read_text<R: Files>(
    rt: &R,
    alloc: Global,
    used: &mut UsedFiles,
    name: &str,
) -> Result<Octets, OutsideFault>
    ensures length { IfOk result (λ octets. length octets ≤ 16777216) }
    ensures used { AddsText used.old used.new }
{
    read_limited(alloc, opening::open_text(rt, used, name)?)
}

impl<'a, R: Files + Print + Net + Clock + Sync> Site for RealSite<'a, R>
where
    R::File: Send,
{
    type Src = RealSource<R::File, &'a R>;

    type Out = WriteSink<R::File>;

    ghost use Rattle.std.specs.Prelude.{◌<◌, None, false, OnOk, OnErr};
    ghost use Rattle.site_io.specs.Seen.{ChangesText, ChangesPlace, ChangesSink, ReadsText, OpensSource, OpensSink, SourceComesBack, SinkComesBack};
    ghost use Rattle.ipfixcol.specs.RealSite.{real_seen, untold_text, untold_place, untold_sink};
    ghost use Rattle.ipfixcol.specs.RealSource.{faults_of, IsOfTransport, OpensFiles};
    ghost use Rattle.ipfixcol.specs.UsedFiles.{AddsSink, SameFiles, ReturnsSource, ReturnsSink};

    ghost seen = { λ site. real_seen site.texts site.places site.sinks site.say_faults };

    /// Failed is a file of more than 16,777,216 octets, and one that can't be read.
    fn text(&mut self, name: &str) -> Result<Octets, OutsideFault>
        // what each Site does
        ensures read { ReadsText (untold_text (tally_at self.old.texts name.now)) (untold_text (tally_at self.new.texts name.now)) result }
        ensures others { ChangesText name.now (real_seen self.old.texts self.old.places self.old.sinks self.old.say_faults)
            (real_seen self.new.texts self.new.places self.new.sinks self.new.say_faults) }

        // how long a text may be
        ensures length { IfOk result (λ octets. length octets ≤ 16777216) }

        // which files are in use
        ensures used { AddsText self.old.used self.new.used }
    {
        tally::add(self.alloc, &mut self.texts, name)?;
        let answer = read_text(self.rt, self.alloc, &mut self.used, name);
        if let Err(OutsideFault::Failed) = &answer {
            tally::refused(&mut self.texts, name);
        }
        answer
    }

    /// Failed is a place whose source is out, a file that can't be opened, a text that is no address with a port, and
    /// an address that can't be had.
    fn open_source(&mut self, spec: &InputSpec) -> Result<RealSource<R::File, &'a R>, OutsideFault>
        // what each Site does
        ensures opened { OpensSource (λ _. None) (λ source. faults_of source)
            (untold_place (tally_at self.old.places spec.now.place)) (untold_place (tally_at self.new.places spec.now.place)) result }
        ensures others { ChangesPlace spec.now.place (real_seen self.old.texts self.old.places self.old.sinks self.old.say_faults)
            (real_seen self.new.texts self.new.places self.new.sinks self.new.say_faults) }

        // what is opened
        ensures kind { IfOk result (λ source. IsOfTransport spec.now.transport source) }
        ensures was_in { IfOk result (λ _. (tally_at self.old.places spec.now.place).out ≡ false) }

        // which files are in use
        ensures used { OnOk result (OpensFiles spec.now.transport spec.now.place self.old.used self.new.used) }
        ensures unused { OnErr result (SameFiles self.old.used self.new.used) }
    {
        let place = spec.place.as_str();
        tally::add(self.alloc, &mut self.places, place)?;
        if tally::is_out(&self.places, place) {
            tally::refused(&mut self.places, place);
            return Err(OutsideFault::Failed);
        }
        match real_source::open(self.rt, self.alloc, &mut self.used, spec) {
            Ok(source) => {
                tally::went_out(&mut self.places, place);
                Ok(source)
            }
            Err(OutsideFault::Failed) => {
                tally::refused(&mut self.places, place);
                Err(OutsideFault::Failed)
            }
            Err(OutsideFault::NoMemory) => Err(OutsideFault::NoMemory),
        }
    }

    fn back_source(&mut self, spec: &InputSpec, source: RealSource<R::File, &'a R>)
        requires { 0 < ((real_seen self.old.texts self.old.places self.old.sinks self.old.say_faults).place spec.now.place).out }

        // what each Site does
        ensures back { SourceComesBack (untold_place (tally_at self.old.places spec.now.place)) (untold_place (tally_at self.new.places spec.now.place))
            None (faults_of source.entry) }
        ensures others { ChangesPlace spec.now.place (real_seen self.old.texts self.old.places self.old.sinks self.old.say_faults)
            (real_seen self.new.texts self.new.places self.new.sinks self.new.say_faults) }

        // which files are in use
        ensures used { ReturnsSource spec.now.place self.old.used self.new.used }
    {
        let place = spec.place.as_str();
        tally::came_back(&mut self.places, place, source.has_failed());
        used_files::leave_out(&mut self.used.sources, place);
    }

    /// Failed is a name whose sink is out, and a file that can't be made.
    fn open_sink(&mut self, name: &str) -> Result<WriteSink<R::File>, OutsideFault>
        // what each Site does
        ensures opened { OpensSink (λ _. None) (λ _. None) (λ sink. sink.faults)
            (untold_sink (tally_at self.old.sinks name.now)) (untold_sink (tally_at self.new.sinks name.now)) result }
        ensures others { ChangesSink name.now (real_seen self.old.texts self.old.places self.old.sinks self.old.say_faults)
            (real_seen self.new.texts self.new.places self.new.sinks self.new.say_faults) }

        // what is opened
        ensures was_in { IfOk result (λ _. (tally_at self.old.sinks name.now).out ≡ false) }

        // which files are in use
        ensures apart { OnOk result (AddsSink name.now self.old.used self.new.used) }
        ensures unused { OnErr result (SameFiles self.old.used self.new.used) }
    {
        tally::add(self.alloc, &mut self.sinks, name)?;
        if tally::is_out(&self.sinks, name) {
            tally::refused(&mut self.sinks, name);
            return Err(OutsideFault::Failed);
        }
        match opening::open_sink(self.rt, self.alloc, &mut self.used, name) {
            Ok(file) => {
                tally::went_out(&mut self.sinks, name);
                Ok(WriteSink::new(file))
            }
            Err(OutsideFault::Failed) => {
                tally::refused(&mut self.sinks, name);
                Err(OutsideFault::Failed)
            }
            Err(OutsideFault::NoMemory) => Err(OutsideFault::NoMemory),
        }
    }

    fn back_sink(&mut self, name: &str, sink: WriteSink<R::File>)
        requires { 0 < ((real_seen self.old.texts self.old.places self.old.sinks self.old.say_faults).sink name.now).out }

        // what each Site does
        ensures back { SinkComesBack (untold_sink (tally_at self.old.sinks name.now)) (untold_sink (tally_at self.new.sinks name.now))
            None sink.faults }
        ensures others { ChangesSink name.now (real_seen self.old.texts self.old.places self.old.sinks self.old.say_faults)
            (real_seen self.new.texts self.new.places self.new.sinks self.new.say_faults) }

        // which files are in use
        ensures used { ReturnsSink name.now self.old.used self.new.used }
    {
        tally::came_back(&mut self.sinks, name, sink.has_failed());
        used_files::leave_out(&mut self.used.sinks, name);
    }

    fn say(&mut self, piece: &[u8]) -> Result<(), OutsideFault> {
        if write_piece(&mut io::writer(self.rt), piece) {
            Ok(())
        } else {
            self.say_faults = count_up(self.say_faults);
            Err(OutsideFault::Failed)
        }
    }
}
