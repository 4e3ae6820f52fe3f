// A record through all intermediates.
ghost use Rattle.std.specs.Prelude.{◌≡◌, ◌≤◌, ◌∷◌, [], false, if◌then◌else◌, length, take, drop};
ghost use Rattle.std.specs.List.{list_any};
ghost use Rattle.wire_spec.specs.Record.{IsSomeRecord};
ghost use Rattle.run_spec.specs.Records.{record_of};
ghost use Rattle.stage_chain.specs.Behind.{changes, records_behind};
ghost use Rattle.stage_chain.specs.Suits.{AreSuited};

use crate::stage::{PreparedStage, Stage};
use template_def::Definition;

/// Whether all intermediates, none of which changes records, keep a record.
pub fn all_keep(_stages: &[Stage], prepared: &[PreparedStage], def: &Definition, rec: &[u8]) -> bool
    requires suit { AreSuited _stages.now def.now.fields prepared.now }
    requires none { list_any changes _stages.now ≡ false }
    requires is_record { IsSomeRecord def.now.fields rec.now }
    ensures { records_behind _stages.now def.now (record_of def.now.fields rec.now ∷ []) ≡ (if result then record_of def.now.fields rec.now ∷ [] else []) }
{
    for stage in prepared {
        if !stage.keeps(def, rec) {
            return false;
        }
    }
    true
}

/// Whether a record passes all intermediates. Those that change it do so in place.
pub fn passes_all(
    stages: &[Stage],
    prepared: &[PreparedStage],
    def: &Definition,
    rec: &mut [u8],
) -> bool
    requires suit { AreSuited stages.now def.now.fields prepared.now }
    requires is_record { IsSomeRecord def.now.fields rec.old }
    ensures left { records_behind stages.now def.now (record_of def.now.fields rec.old ∷ []) ≡ (if result then record_of def.now.fields rec.new ∷ [] else []) }
    ensures is_record { IsSomeRecord def.now.fields rec.new }
{
    for index in 0..stages.len() {
        if !stages[index].passes(&prepared[index], def, rec) {
            return false;
        }
    }
    true
}

/// The same of the record at the end of octets.
pub fn last_passes_all(
    stages: &[Stage],
    prepared: &[PreparedStage],
    def: &Definition,
    octets: &mut [u8],
    at: usize,
) -> bool
    requires suit { AreSuited stages.now def.now.fields prepared.now }
    requires inside { at ≤ length octets.old }
    requires is_record { IsSomeRecord def.now.fields (drop at octets.old) }
    ensures left { records_behind stages.now def.now (record_of def.now.fields (drop at octets.old) ∷ []) ≡ (if result then record_of def.now.fields (drop at octets.new) ∷ [] else []) }
    ensures is_record { IsSomeRecord def.now.fields (drop at octets.new) }
    ensures front { take at octets.new ≡ take at octets.old }
{
    passes_all(stages, prepared, def, &mut octets[at..])
}
