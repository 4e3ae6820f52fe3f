// What a script's call left.
use col_base::Text;
use collector_top::collect_main;
use script_text::{PlannedSink, Script, hexadecimal};
use site_io::MemorySite;
use std::alloc::{AllocError, Global};
use std::rt::Clock;
use std::sync::Wait;

/// The status of a call, the Site that it left, and the names of the script's sinks in order.
#[derive(Drop)]
pub struct Played {
    pub status: u8,
    pub site: MemorySite,
    sinks: Vec<Text>,
}

fn names_of(alloc: Global, sinks: &[PlannedSink]) -> Result<Vec<Text>, AllocError> {
    let mut names = Vec::new(alloc);
    for sink in sinks {
        names.push(sink.name.clone()?)?;
    }
    Ok(names)
}

/// Makes the script's call.
pub fn play<R: Wait + Clock>(rt: &R, alloc: Global, script: Script) -> Result<Played, AllocError> {
    let names = names_of(alloc, script.sinks.as_slice())?;
    let (words, mut site) = script.into_call(alloc)?;
    let status = collect_main(alloc, rt, &words, &mut site);
    Ok(Played {
        status,
        site,
        sinks: names,
    })
}

impl Played {
    /// The status, what was said and what each sink holds, as lines.
    pub fn printed(&self, alloc: Global) -> Result<String, AllocError> {
        let said = hexadecimal(alloc, self.site.printed())?;
        let status = self.status;
        let mut text = format!(in alloc; "status {status}\nsaid {said}\n")?;
        for name in self.sinks.as_slice() {
            let held = match self.site.shown(name.as_str()) {
                Some(octets) => hexadecimal(alloc, octets)?,
                None => String::from_str(alloc, "out")?,
            };
            text.push_str("held ")?;
            text.push_str(name.as_str())?;
            text.push_str(" ")?;
            text.push_str(held.as_str())?;
            text.push_str("\n")?;
        }
        Ok(text)
    }
}
