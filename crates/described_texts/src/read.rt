// A description and its element files are read in order, and nothing is opened.
ghost use Rattle.std.specs.Prelude.{◌≡◌, Ok, Err, IfOk, IfErr};
ghost use Rattle.config_spec.specs.Description.{description};
ghost use Rattle.call_spec.specs.Texts.{IsText, Describes, HasTable, Judges};
ghost use Rattle.described_texts.specs.Read.{IsUnread, HasFault, AddsText, AddsFile, RefusesFiles, reason_of, CountsTexts, KeepsRest};

use crate::verdict::Refusal;
use col_base::{Octets, Text};
use element_table::{Elements, TableFault};
use site_io::{OutsideFault, Site};
use startup_config::{Conf, ConfFault, read};
use std::alloc::Global;

/// A description that was read.
#[derive(Drop)]
pub struct Description {
    pub conf: Conf,
    /// The built-in elements, and those of the files that the description names.
    pub elements: Elements,
}

/// The octets of a text. Its name is kept before the text is read, so that no memory is wanted for a text that
/// failed.
fn read_text<S: Site>(alloc: Global, name: &str, site: &mut S) -> Result<Octets, Refusal>
    ensures ok { IfOk result (λ octets. IsText (S.seen site.old).text name.now octets) }
    ensures err { IfErr result (IsUnread name.now) }
    ensures texts { CountsTexts (S.seen site.old).text (S.seen site.new).text result }
    ensures rest { KeepsRest (S.seen site.old) (S.seen site.new) }
{
    let kept = Text::from_str(alloc, name)?;
    match site.text(name) {
        Ok(octets) => Ok(octets),
        Err(OutsideFault::Failed) => Err(Refusal::NoText(kept)),
        Err(OutsideFault::NoMemory) => Err(Refusal::Memory),
    }
}

/// The description that octets stand for.
fn described(alloc: Global, octets: &[u8]) -> Result<Conf, Refusal>
    ensures ok { IfOk result (λ conf. description octets.now ≡ Ok conf) }
    ensures err { IfErr result (HasFault octets.now) }
{
    match read(alloc, octets) {
        Ok(conf) => Ok(conf),
        Err(ConfFault::NoMemory) => Err(Refusal::Memory),
        Err(fault) => Err(Refusal::BadDescription(fault)),
    }
}

/// Adds the rows of an element file's octets.
fn add_text(alloc: Global, name: &str, octets: &[u8], table: &mut Elements) -> Result<(), Refusal>
    ensures { AddsText name.now octets.now table.old table.new result }
{
    let kept = Text::from_str(alloc, name)?;
    match table.add_table(alloc, octets) {
        Ok(()) => Ok(()),
        Err(TableFault::NoMemory) => Err(Refusal::Memory),
        Err(fault) => Err(Refusal::BadElements(kept, fault)),
    }
}

/// Adds the rows of an element file.
fn add_file<S: Site>(
    alloc: Global,
    name: &str,
    table: &mut Elements,
    site: &mut S,
) -> Result<(), Refusal>
    ensures adds { AddsFile (S.seen site.old).text name.now table.old table.new result }
    ensures texts { CountsTexts (S.seen site.old).text (S.seen site.new).text result }
    ensures rest { KeepsRest (S.seen site.old) (S.seen site.new) }
{
    let octets = read_text(alloc, name, site)?;
    add_text(alloc, name, octets.as_slice(), table)
}

/// The elements of files in order, each behind those before it, and all behind the built-in ones.
fn read_elements<S: Site>(alloc: Global, names: &[Text], site: &mut S) -> Result<Elements, Refusal>
    ensures ok { IfOk result (HasTable (S.seen site.old).text names.now) }
    ensures err { IfErr result (RefusesFiles (S.seen site.old).text names.now) }
    ensures texts { CountsTexts (S.seen site.old).text (S.seen site.new).text result }
    ensures rest { KeepsRest (S.seen site.old) (S.seen site.new) }
{
    let Ok(mut table) = Elements::builtin(alloc) else {
        return Err(Refusal::Memory);
    };
    for name in names {
        if let Err(refusal) = add_file(alloc, name.as_str(), &mut table, site) {
            return Err(refusal);
        }
    }
    Ok(table)
}

/// Reads the description of that name and the element files that it names, in their order, and builds the table of the
/// elements once. It answers the first fault, and reads nothing behind it: a text that can't be read, a fault of the
/// description (before any element file is read), or one of an element file. Memory may be wanted at any place.
///
/// Nothing is opened and nothing is said. Of the texts the one that failed has counted that, and all others are as they
/// were.
pub fn read_description<S: Site>(
    alloc: Global,
    file: &str,
    site: &mut S,
) -> Result<Description, Refusal>
    ensures described { IfOk result (λ read. Describes (S.seen site.old).text file.now read.conf) }
    ensures table { IfOk result (λ read. HasTable (S.seen site.old).text read.conf.elements read.elements) }
    ensures err { IfErr result (λ refusal. Judges (S.seen site.old).text file.now (Err (reason_of refusal))) }
    ensures texts { CountsTexts (S.seen site.old).text (S.seen site.new).text result }
    ensures rest { KeepsRest (S.seen site.old) (S.seen site.new) }
{
    let octets = read_text(alloc, file, site)?;
    let conf = described(alloc, octets.as_slice())?;
    let elements = read_elements(alloc, conf.elements.as_slice(), site)?;
    Ok(Description { conf, elements })
}
