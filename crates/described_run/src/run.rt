// The run of a description.
ghost use Rattle.std.specs.Prelude.{◌≡◌, ◌≤◌, ℕ, List, IfOk, IfErr, OnErr, OnOk, [], false, length, replicate, vec_capacity};
ghost use Rattle.site_io.specs.Seen.{Seen};
ghost use Rattle.call_spec.specs.Came.Refusal.{NoMemory};
ghost use Rattle.call_spec.specs.Leaves.{sink_names};
ghost use Rattle.call_spec.specs.Names.{times};
ghost use Rattle.call_spec.specs.Plan.{described_parties};
ghost use Rattle.run_inputs.specs.Made.{AreMade, sources_of};
ghost use Rattle.site_openings.specs.All.{AreOut, IsRefused, refusal_of};
ghost use Rattle.site_openings.specs.Out.{AreDistinct};
ghost use Rattle.site_openings.specs.Places.{places_of, SourcesBack};
ghost use Rattle.site_openings.specs.Sinks.{SinksBack};
ghost use Rattle.run_came.specs.Ran.{sinks_of};
ghost use Rattle.run_came.specs.Told.{CameToRun};
ghost use Rattle.stage_chain.specs.Behind.{works_of};
ghost use Rattle.described_run.specs.Ready.{IsReady};

use crate::ended::{note_all, room_for};
use crate::handed::hand_on;
use crate::taker::{Ready, end, room_for_outputs};
use col_base::{Text, WantOfMemory};
use config_spec::Conf;
use logged_outputs::LoggedOutputs;
use message_stages::Stages;
use message_texts::MessageTexts;
use run_input::Input;
use run_inputs::{give_back, make_inputs};
use run_lines::Ended;
use site_io::Site;
use site_openings::{Opened, Unopened, back_all, back_unused, open_all};
use std::alloc::Global;
use std::rt::Clock;
use std::sync::Wait;

/// Gives all back behind a run: the sources of its inputs, and the sinks of its log and its outputs, into vectors that have
/// room for them. It takes no memory.
fn give_all_back<S: Site, T: MessageTexts + Drop>(
    conf: &Conf,
    names: &[Text],
    inputs: Vec<Input<S::Src>>,
    taker: LoggedOutputs<T, S::Out>,
    room: Opened<S::Src, S::Out>,
    site: &mut S,
)
    requires inputs { length inputs.items ≡ length conf.now.inputs }
    requires sinks { length (sinks_of taker) ≡ length names.now }
    requires no_sources { room.sources.items ≡ [] }
    requires no_sinks { room.sinks.items ≡ [] }
    requires sources_room { length inputs.items ≤ vec_capacity room.sources }
    requires sinks_room { length names.now ≤ vec_capacity room.sinks }
    requires places_out { (p : List ℕ) → times p (places_of conf.now.inputs) ≤ ((S.seen site.old).place p).out }
    requires sinks_out { (p : List ℕ) → times p names.now ≤ ((S.seen site.old).sink p).out }
    ensures { (mid : Seen) × SinksBack S.Out.held S.Out.faults names.now (sinks_of taker) (S.seen site.old) mid
        × SourcesBack S.Src.left S.Src.faults (places_of conf.now.inputs) (sources_of inputs.items) mid (S.seen site.new) }
{
    let Opened {
        mut sources,
        mut sinks,
    } = room;
    give_back(inputs, &mut sources);
    end(taker, &mut sinks);
    back_all(conf, names, Opened { sources, sinks }, site);
}

/// Runs over these inputs, whose sources are out, and over these sinks; notes how all ended, and gives all back. The vector
/// of sources has room for them.
fn run_over<R: Wait + Clock, S: Site, T: MessageTexts + Drop>(
    rt: &R,
    conf: &Conf,
    names: &[Text],
    ready: Ready<T, S::Out>,
    inputs: Vec<Input<S::Src>>,
    room: Opened<S::Src, S::Out>,
    ended: &mut Ended,
    site: &mut S,
)
    requires named { names.now ≡ sink_names (described_parties conf.now) }
    requires distinct { AreDistinct names.now }
    requires ready { IsReady conf.now ready }
    requires out { (old : Seen) × (firsts : List S.Src) × AreOut S.Src.left S.Src.faults S.Out.held S.Out.faults conf.now firsts room.sinks.items old (S.seen site.old)
        × AreMade S.Src.left S.Src.faults conf.now firsts inputs.items }
    requires no_sources { room.sources.items ≡ [] }
    requires sources_room { length inputs.items ≤ vec_capacity room.sources }
    requires ends { length ended.old.inputs.items ≡ length conf.now.inputs }
    requires stages { ended.old.stages.items ≡ replicate (length conf.now.stages) false }
    requires outputs { length ended.old.outputs.items ≡ length conf.now.outputs }
    ensures { (old : Seen) (firsts : List S.Src) → AreOut S.Src.left S.Src.faults S.Out.held S.Out.faults conf.now firsts room.sinks.items old (S.seen site.old)
        → AreMade S.Src.left S.Src.faults conf.now firsts inputs.items
        → CameToRun S.Src.left S.Src.faults T.stands conf.now ready.texts.items ended.new old (S.seen site.new) }
{
    let mut inputs = inputs;
    let Opened { sources, mut sinks } = room;
    let taker = hand_on(rt, ready, &mut inputs, &mut sinks);
    note_all(&inputs, &taker, ended);
    give_all_back(conf, names, inputs, taker, Opened { sources, sinks }, site);
}

/// Runs over what was opened, and gives all back. Where memory is wanted for the inputs, nothing is read.
fn run_opened<R: Wait + Clock, S: Site, T: MessageTexts + Drop>(
    alloc: Global,
    rt: &R,
    conf: &Conf,
    names: &[Text],
    ready: Ready<T, S::Out>,
    opened: Opened<S::Src, S::Out>,
    ended: &mut Ended,
    site: &mut S,
) -> Result<(), WantOfMemory>
    requires named { names.now ≡ sink_names (described_parties conf.now) }
    requires distinct { AreDistinct names.now }
    requires few { length conf.now.inputs ≤ 65536 }
    requires ready { IsReady conf.now ready }
    requires out { (old : Seen) × AreOut S.Src.left S.Src.faults S.Out.held S.Out.faults conf.now opened.sources.items opened.sinks.items old (S.seen site.old) }
    requires ends { length ended.old.inputs.items ≡ length conf.now.inputs }
    requires stages { ended.old.stages.items ≡ replicate (length conf.now.stages) false }
    requires outputs { length ended.old.outputs.items ≡ length conf.now.outputs }
    ensures ran { OnOk result ((old : Seen) → AreOut S.Src.left S.Src.faults S.Out.held S.Out.faults conf.now opened.sources.items opened.sinks.items old (S.seen site.old)
        → CameToRun S.Src.left S.Src.faults T.stands conf.now ready.texts.items ended.new old (S.seen site.new)) }
    ensures refused { OnErr result ((old : Seen) → AreOut S.Src.left S.Src.faults S.Out.held S.Out.faults conf.now opened.sources.items opened.sinks.items old (S.seen site.old)
        → IsRefused S.Src.left S.Src.faults conf.now NoMemory old (S.seen site.new)) }
{
    let Opened { mut sources, sinks } = opened;
    match make_inputs(alloc, conf, &mut sources) {
        Ok(inputs) => {
            run_over(
                rt,
                conf,
                names,
                ready,
                inputs,
                Opened { sources, sinks },
                ended,
                site,
            );
            Ok(())
        }
        Err(want) => {
            let Ready {
                stages: _stages,
                texts: _texts,
                room,
            } = ready;
            room.destroy_empty();
            back_unused(conf, names, Opened { sources, sinks }, site);
            Err(want)
        }
    }
}

/// Runs a description: opens all sources and then the sinks of these names, asks the inputs in turn until all have ended,
/// hands each message on to the order log, and behind the intermediates to what makes the texts of each output, and gives
/// all back. Answers how all ended and what was counted, or, of a run that never began, why: what could not be opened, or
/// memory was wanted before anything was read.
pub fn run_described<R: Wait + Clock, S: Site, T: MessageTexts + Drop>(
    alloc: Global,
    rt: &R,
    conf: &Conf,
    names: &[Text],
    stages: Stages,
    texts: Vec<T>,
    site: &mut S,
) -> Result<Ended, Unopened>
    requires works { stages ≡ works_of conf.now.stages }
    requires makers { length texts.items ≡ length conf.now.outputs }
    requires named { names.now ≡ sink_names (described_parties conf.now) }
    requires distinct { AreDistinct names.now }
    requires few { length conf.now.inputs ≤ 65536 }
    ensures ran { IfOk result (λ ended. CameToRun S.Src.left S.Src.faults T.stands conf.now texts.items ended (S.seen site.old) (S.seen site.new)) }
    ensures refused { IfErr result (λ unopened. IsRefused S.Src.left S.Src.faults conf.now (refusal_of unopened) (S.seen site.old) (S.seen site.new)) }
{
    let mut ended = match room_for(alloc, conf) {
        Ok(ended) => ended,
        Err(_) => return Err(Unopened::Memory),
    };
    let room = match room_for_outputs(alloc, texts.len()) {
        Ok(room) => room,
        Err(_) => return Err(Unopened::Memory),
    };
    let opened = match open_all(alloc, conf, names, site) {
        Ok(opened) => opened,
        Err(unopened) => {
            room.destroy_empty();
            return Err(unopened);
        }
    };
    let ready = Ready {
        stages,
        texts,
        room,
    };
    match run_opened(alloc, rt, conf, names, ready, opened, &mut ended, site) {
        Ok(()) => Ok(ended),
        Err(_) => Err(Unopened::Memory),
    }
}
