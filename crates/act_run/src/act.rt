// Plays a case.
ghost use Rattle.std.specs.Prelude.{◌≡◌, ◌≤◌, IfSome, length};
ghost use Rattle.wire_spec.specs.Record.{IsSomeRecord};
ghost use Rattle.config_spec.specs.Form.{IsAnonymiser, IsConf, IsWork};

use crate::case::{Case, Fate};
use crate::one_record::is_one_record;
use anonymise_stage::{PreparedAnonymiser, RowTable, hide};
use col_base::Kind;
use config_spec::{AnonTable, Conf, FilterTable, StageWork};
use filter_stage::{PreparedFilter, keeps};
use std::alloc::{AllocError, Global};
use template_def::{Definition, well_formed};

/// What stands before the intermediate in its description, and what behind.
const BEFORE: &str = "version = 1\nintermediate = [";

const BEHIND: &str =
    "]\ninput = [{ kind = \"file\", name = \"in\", path = \"in\" }]\noutput = [{ kind = \"json\", name = \"out\", path = \"out\" }]\n";

/// The definition of field specifiers, if they are well formed.
fn definition(alloc: Global, specifiers: &[u8]) -> Result<Option<Definition>, AllocError> {
    if specifiers.len() > 65000 || !well_formed(0, specifiers) {
        return Ok(None);
    }
    let def = Definition::read(alloc, Kind::Template, 0, specifiers).map_err(|_| AllocError)?;
    Ok(Some(def))
}

/// What the first intermediate of a description does.
fn first_work(conf: &Conf) -> Option<&StageWork>
    requires { IsConf conf.now }
    ensures { IfSome result (λ work. IsWork work.now) }
{
    match conf.stages.as_slice() {
        [stage, ..] => Some(&stage.work),
        [] => None,
    }
}

/// Whether both calls of a filter keep a record or drop it as they should.
fn is_kept(
    alloc: Global,
    table: &FilterTable,
    def: &Definition,
    rec: &[u8],
    kept: bool,
) -> Result<bool, AllocError>
    requires { IsSomeRecord def.now.fields rec.now }
{
    let prepared = PreparedFilter::new(alloc, table, def)?;
    let other = prepared.keeps(def, rec);
    Ok(keeps(table, def, rec) == kept && other == kept)
}

/// Whether both calls of an anonymiser change a record to these octets.
fn is_changed(
    alloc: Global,
    table: &AnonTable,
    def: &Definition,
    rec: &[u8],
    changed: &[u8],
) -> Result<bool, AllocError>
    requires form { IsAnonymiser table.now }
    requires is_record { IsSomeRecord def.now.fields rec.now }
{
    let mut plain = rec.to_vec(alloc)?;
    hide(table, def, &mut plain);
    let rows = RowTable::new(alloc, table)?;
    let prepared = PreparedAnonymiser::new(alloc, table, def)?;
    let mut other = rec.to_vec(alloc)?;
    prepared.hide(&rows, def, &mut other);
    Ok(plain.as_slice() == changed && other.as_slice() == changed)
}

/// Whether an intermediate does to a record what it should.
fn does(
    alloc: Global,
    work: &StageWork,
    def: &Definition,
    rec: &[u8],
    fate: &Fate,
) -> Result<bool, AllocError>
    requires form { IsWork work.now }
    requires is_record { IsSomeRecord def.now.fields rec.now }
{
    match (work, fate) {
        (StageWork::Filter(table), Fate::Kept) => is_kept(alloc, table, def, rec, true),
        (StageWork::Filter(table), Fate::Dropped) => is_kept(alloc, table, def, rec, false),
        (StageWork::Anonymise(table), Fate::Changed(octets)) => {
            is_changed(alloc, table, def, rec, octets)
        }
        _ => Ok(false),
    }
}

/// Whether the record of a case comes out as it should.
pub fn passes(alloc: Global, case: &Case) -> Result<bool, AllocError> {
    let mut text = String::from_str(alloc, BEFORE)?;
    text.push_str(case.intermediate)?;
    text.push_str(BEHIND)?;
    let Ok(conf) = startup_config::read(alloc, text.as_bytes()) else {
        return Ok(false);
    };
    let Some(def) = definition(alloc, &case.specifiers)? else {
        return Ok(false);
    };
    if !is_one_record(&def, &case.octets) {
        return Ok(false);
    }
    match first_work(&conf) {
        Some(work) => does(alloc, work, &def, &case.octets, &case.fate),
        None => Ok(false),
    }
}
