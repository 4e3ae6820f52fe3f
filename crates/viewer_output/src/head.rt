// Lines of messages and of their sets.
ghost use Rattle.std.specs.Prelude.{◌≡◌, ◌≤◌, ◌+◌, ◌++◌, OnErr, OnOk, decimal, length, take};
ghost use Rattle.text_spec.specs.Marks.{message_mark, domain_mark, export_mark, sequence_mark, records_mark, line_feed};
ghost use Rattle.text_spec.specs.View.{session_text, message_line, set_line};

use crate::mark::{Mark, place_mark, place_numbered};
use crate::session::place_key;
use col_base::{Octets, SessionKey, WantOfMemory};

/// The octets of the room in which a line is put together.
const ROOM: usize = 192;

/// Puts what a message's line begins with: its session and its domain.
fn place_source(session: SessionKey, domain: u32, text: &mut [u8], at: usize) -> usize
    requires { at + 69 ≤ length text.old }
    ensures grown { take result text.new ≡ take at text.old ++ (message_mark ++ session_text session ++ domain_mark ++ decimal domain) }
    ensures near { result ≤ at + 69 }
{
    let end = place_mark(Mark::Message, text, at);
    let end = place_key(session, text, end);
    place_numbered(Mark::Domain, domain, text, end)
}

/// Puts how many records there are, and ends the line.
fn place_records(records: u32, text: &mut [u8], at: usize) -> usize
    requires { at + 34 ≤ length text.old }
    ensures grown { take result text.new ≡ take at text.old ++ (records_mark ++ decimal records ++ line_feed) }
    ensures near { result ≤ at + 34 }
{
    let end = place_numbered(Mark::Records, records, text, at);
    place_mark(Mark::LineFeed, text, end)
}

/// Puts the line of a message.
#[tactic(auto, unfolding(text_spec::specs::View::message_line))]
fn place_head(
    session: SessionKey,
    domain: u32,
    export: u32,
    seq: u32,
    records: u32,
    text: &mut [u8],
    at: usize,
) -> usize
    requires { at + 192 ≤ length text.old }
    ensures { take result text.new ≡ take at text.old ++ message_line session domain export seq records }
{
    let end = place_source(session, domain, text, at);
    let end = place_numbered(Mark::Export, export, text, end);
    let end = place_numbered(Mark::Sequence, seq, text, end);
    place_records(records, text, end)
}

/// Appends the line of a message that has records, `message I/S domain D export E sequence Q records R`: its session, its
/// domain, its Export Time in seconds since 1970, its Sequence Number (RFC 7011, section 3.1), and how many records it
/// has. Where memory is refused nothing is appended.
pub fn put_head(
    session: SessionKey,
    domain: u32,
    export: u32,
    seq: u32,
    records: u32,
    out: &mut Octets,
) -> Result<(), WantOfMemory>
    ensures ok { OnOk result (out.new ≡ out.old ++ message_line session domain export seq records) }
    ensures err { OnErr result (out.new ≡ out.old) }
{
    let at = out.len();
    out.extend_zeros(ROOM)?;
    let end = place_head(
        session,
        domain,
        export,
        seq,
        records,
        out.as_mut_slice(),
        at,
    );
    out.truncate(end);
    Ok(())
}

/// Puts the line of a set.
#[tactic(auto, unfolding(text_spec::specs::View::set_line))]
fn place_set(template: u16, records: u32, text: &mut [u8], at: usize) -> usize
    requires { at + 192 ≤ length text.old }
    ensures { take result text.new ≡ take at text.old ++ set_line template records }
{
    let end = place_numbered(Mark::Template, u32::from(template), text, at);
    place_records(records, text, end)
}

/// Appends the line of a set that has records, `template ID records N` behind two spaces: the template ID that arrived,
/// and how many records it has. Where memory is refused nothing is appended.
pub fn put_set(template: u16, records: u32, out: &mut Octets) -> Result<(), WantOfMemory>
    ensures ok { OnOk result (out.new ≡ out.old ++ set_line template records) }
    ensures err { OnErr result (out.new ≡ out.old) }
{
    let at = out.len();
    out.extend_zeros(ROOM)?;
    let end = place_set(template, records, out.as_mut_slice(), at);
    out.truncate(end);
    Ok(())
}
