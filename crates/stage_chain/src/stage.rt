// An intermediate, and what it is prepared to for one definition.
ghost use Rattle.std.specs.Prelude.{◌≡◌, ◌∷◌, [], false, if◌then◌else◌, IfOk};
ghost use Rattle.wire_spec.specs.Record.{IsSomeRecord};
ghost use Rattle.config_spec.specs.declared.conf.StageWork.{StageWork};
ghost use Rattle.config_spec.specs.Form.{IsWork};
ghost use Rattle.run_spec.specs.Records.{record_of};
ghost use Rattle.result_spec.specs.Through.{records_through};

use anonymise_stage::{PreparedAnonymiser, RowTable};
use config_spec::{AnonTable, FilterTable, StageWork};
use filter_stage::PreparedFilter;
use std::alloc::{AllocError, Global};
use std::marker::Model;
use template_def::Definition;

/// The table of an intermediate. An anonymiser's rows are prepared once.
#[derive(Drop)]
enum Table {
    Filter(FilterTable),
    Anonymise(AnonTable, RowTable),
}

/// An intermediate of a description. Contracts see what it does.
#[derive(Drop)]
pub struct Stage {
    table: Table,
}

impl Model for Stage {
    ghost use Rattle.config_spec.specs.declared.conf.StageWork.{StageWork};

    ghost Value = { StageWork };

    ghost use Rattle.stage_chain.specs.Table.{work_of, HasRows};

    ghost view = { λ s. work_of s.table };

    ghost invariant = { λ s. HasRows s.table };
}

/// An intermediate as it is prepared for the records of one definition.
#[derive(Drop)]
pub enum PreparedStage {
    Filter(PreparedFilter),
    Anonymise(PreparedAnonymiser),
}

impl Stage {
    ghost use Rattle.stage_chain.specs.Behind.{changes};
    ghost use Rattle.stage_chain.specs.Suits.{SuitsStage};

    /// Prepares the table of an intermediate, of which it takes a copy.
    pub fn new(alloc: Global, work: &StageWork) -> Result<Stage, AllocError>
        requires { IsWork work.now }
        ensures { IfOk result (λ made. made ≡ work.now) }
    {
        match work {
            StageWork::Filter(table) => Ok(Stage {
                table: Table::Filter(table.clone()?),
            }),
            StageWork::Anonymise(table) => {
                let rows = RowTable::new(alloc, table)?;
                Ok(Stage {
                    table: Table::Anonymise(table.clone()?, rows),
                })
            }
        }
    }

    /// Whether it changes records.
    pub fn changes(&self) -> bool
        ensures { result ≡ changes self.now }
    {
        match self.table {
            Table::Filter(_) => false,
            Table::Anonymise(_, _) => true,
        }
    }

    /// Prepares it for the records of a definition: once for each.
    pub fn prepare(&self, alloc: Global, def: &Definition) -> Result<PreparedStage, AllocError>
        ensures { IfOk result (SuitsStage self.now def.now.fields) }
    {
        match &self.table {
            Table::Filter(table) => Ok(PreparedStage::Filter(PreparedFilter::new(
                alloc, table, def,
            )?)),
            Table::Anonymise(table, _) => {
                Ok(PreparedStage::Anonymise(PreparedAnonymiser::new(alloc, table, def)?))
            }
        }
    }

    /// Whether a record passes; an anonymiser changes it in place.
    #[inline(always)]
    pub(crate) fn passes(&self, prepared: &PreparedStage, def: &Definition, rec: &mut [u8]) -> bool
        requires suits { SuitsStage self.now def.now.fields prepared.now }
        requires is_record { IsSomeRecord def.now.fields rec.old }
        ensures left { records_through self.now def.now (record_of def.now.fields rec.old ∷ []) ≡ (if result then record_of def.now.fields rec.new ∷ [] else []) }
        ensures is_record { IsSomeRecord def.now.fields rec.new }
    {
        match (&self.table, prepared) {
            (Table::Filter(_), PreparedStage::Filter(filter)) => filter.keeps(def, rec),
            (Table::Anonymise(_, rows), PreparedStage::Anonymise(anonymiser)) => {
                anonymiser.hide(rows, def, rec);
                true
            }
            _ => unreachable!(),
        }
    }
}

impl PreparedStage {
    ghost use Rattle.stage_chain.specs.Behind.{changes};
    ghost use Rattle.stage_chain.specs.Suits.{SuitsStage};

    /// Whether a record passes an intermediate that changes none.
    #[inline(always)]
    pub(crate) fn keeps(&self, def: &Definition, rec: &[u8]) -> bool
        requires suits { (work : StageWork) × SuitsStage work def.now.fields self.now × (changes work ≡ false) }
        requires is_record { IsSomeRecord def.now.fields rec.now }
        ensures { (work : StageWork) → SuitsStage work def.now.fields self.now → changes work ≡ false
            → records_through work def.now (record_of def.now.fields rec.now ∷ []) ≡ (if result then record_of def.now.fields rec.now ∷ [] else []) }
    {
        match self {
            PreparedStage::Filter(filter) => filter.keeps(def, rec),
            PreparedStage::Anonymise(_) => unreachable!(),
        }
    }
}
