// Calls by what was prepared.
ghost use Rattle.std.specs.Prelude.{IfOk, IfSome};
ghost use Rattle.config_spec.specs.Form.{IsConf, IsWork};
ghost use Rattle.act_bench.specs.Suits.{IsFor};

use crate::given::RECORD;
use anonymise_stage::{PreparedAnonymiser, RowTable};
use config_spec::{Conf, StageWork};
use filter_stage::PreparedFilter;
use std::alloc::{AllocError, Global};
use std::rt::Clock;
use std::time::Instant;
use template_def::Definition;

/// An intermediate, prepared for a definition.
#[derive(Drop)]
pub enum Prepared {
    Filter(PreparedFilter),
    Anonymise(RowTable, PreparedAnonymiser),
}

/// How many calls there were, and how many of them kept a record or changed it.
#[derive(Clone, Copy)]
pub struct Tally {
    pub calls: u64,
    pub told: u64,
}

/// What the first intermediate of a description does.
fn first_work(conf: &Conf) -> Option<&StageWork>
    requires { IsConf conf.now }
    ensures { IfSome result (λ work. IsWork work.now) }
{
    match conf.stages.as_slice() {
        [stage, ..] => Some(&stage.work),
        [] => None,
    }
}

/// An intermediate for the records of a definition.
fn prepare_work(alloc: Global, work: &StageWork, def: &Definition) -> Result<Prepared, AllocError>
    requires { IsWork work.now }
    ensures { IfOk result (IsFor def.now.fields) }
{
    Ok(match work {
        StageWork::Filter(table) => Prepared::Filter(PreparedFilter::new(alloc, table, def)?),
        StageWork::Anonymise(table) => Prepared::Anonymise(
            RowTable::new(alloc, table)?,
            PreparedAnonymiser::new(alloc, table, def)?,
        ),
    })
}

/// The first intermediate of a description for the records of a definition, if it is a description with one.
pub fn prepare(alloc: Global, text: &[u8], def: &Definition) -> Result<Option<Prepared>, AllocError>
    ensures { IfOk result (λ prepared. IfSome prepared (IsFor def.now.fields)) }
{
    let Ok(conf) = startup_config::read(alloc, text) else {
        return Ok(None);
    };
    match first_work(&conf) {
        Some(work) => Ok(Some(prepare_work(alloc, work, def)?)),
        None => Ok(None),
    }
}

impl Prepared {
    /// Works on one record, and tells whether it was kept or changed.
    fn work_one(&self, def: &Definition, rec: &mut [u8]) -> bool
        requires { IsFor def.now.fields self.now }
    {
        if !def.is_fixed() || rec.len() != def.min_len() as usize {
            return false;
        }
        match self {
            Prepared::Filter(filter) => filter.keeps(def, rec),
            Prepared::Anonymise(rows, anonymiser) => {
                anonymiser.hide(rows, def, rec);
                true
            }
        }
    }

    /// Goes over records so often.
    pub fn work(&self, def: &Definition, octets: &mut [u8], rounds: u32) -> Tally
        requires { IsFor def.now.fields self.now }
    {
        let mut tally = Tally { calls: 0, told: 0 };
        for _ in 0..rounds {
            for rec in octets.chunks_exact_mut(RECORD) {
                let told = self.work_one(def, rec);
                tally.calls = tally.calls.saturating_add(1);
                tally.told = tally.told.saturating_add(u64::from(told));
            }
        }
        tally
    }
}

/// The least nanoseconds of a call, of five times so many rounds.
pub fn least_time(
    rt: &impl Clock,
    prepared: &Prepared,
    def: &Definition,
    octets: &mut [u8],
    rounds: u32,
) -> anyhow::Result<u128>
    requires { IsFor def.now.fields prepared.now }
{
    let mut least = u128::MAX;
    for _ in 0..5 {
        let start = Instant::now(rt)?;
        let tally = prepared.work(def, octets, rounds);
        let passed = start.elapsed(rt)?.as_nanos();
        least = least.min(passed / u128::from(tally.calls.max(1)));
    }
    Ok(least)
}
