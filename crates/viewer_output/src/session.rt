// Lines of sessions, and of seconds that passed at an input.
ghost use Rattle.std.specs.Prelude.{◌≡◌, ◌≤◌, ◌+◌, ◌++◌, OnErr, OnOk, if◌then◌else◌, length, take};
ghost use Rattle.text_spec.specs.View.{session_text, opened_line, closed_line, tick_line};

use crate::mark::{Mark, place_mark, place_numbered, place_transport};
use col_base::{Octets, SessionKey, Transport, WantOfMemory};
use value_text::place_u32;

/// The octets of the room in which a line is put together.
const ROOM: usize = 128;

/// Puts the number of a session's input, and its own.
pub fn place_key(key: SessionKey, text: &mut [u8], at: usize) -> usize
    requires { at + 35 ≤ length text.old }
    ensures grown { take result text.new ≡ take at text.old ++ session_text key }
    ensures near { result ≤ at + 35 }
{
    let end = place_u32(u32::from(key.input), text, at);
    place_numbered(Mark::Slash, key.number, text, end)
}

/// Puts the line of a session that opens.
#[tactic(auto, unfolding(text_spec::specs::View::opened_line))]
fn place_opened(key: SessionKey, transport: Transport, text: &mut [u8], at: usize) -> usize
    requires { at + 128 ≤ length text.old }
    ensures grown { take result text.new ≡ take at text.old ++ opened_line key transport }
{
    let end = place_mark(Mark::Session, text, at);
    let end = place_key(key, text, end);
    let end = place_mark(Mark::Open, text, end);
    let end = place_transport(transport, text, end);
    place_mark(Mark::LineFeed, text, end)
}

/// Puts the line of a session that closes.
#[tactic(auto, unfolding(text_spec::specs::View::closed_line))]
fn place_closed(key: SessionKey, text: &mut [u8], at: usize) -> usize
    requires { at + 128 ≤ length text.old }
    ensures grown { take result text.new ≡ take at text.old ++ closed_line key }
{
    let end = place_mark(Mark::Session, text, at);
    let end = place_key(key, text, end);
    let end = place_mark(Mark::Close, text, end);
    place_mark(Mark::LineFeed, text, end)
}

/// Puts the line of a session that opens or closes.
fn place_session(
    key: SessionKey,
    transport: Transport,
    opened: bool,
    text: &mut [u8],
    at: usize,
) -> usize
    requires { at + 128 ≤ length text.old }
    ensures { take result text.new ≡ take at text.old ++ (if opened then opened_line key transport else closed_line key) }
{
    if opened {
        place_opened(key, transport, text, at)
    } else {
        place_closed(key, text, at)
    }
}

/// Appends the line of a session that opens, `session I/S open T`, or closes, `session I/S close`: by the number of its
/// input and its own. Where memory is refused nothing is appended.
pub fn put_session(
    key: SessionKey,
    transport: Transport,
    opened: bool,
    out: &mut Octets,
) -> Result<(), WantOfMemory>
    ensures ok { OnOk result (out.new ≡ out.old ++ (if opened then opened_line key transport else closed_line key)) }
    ensures err { OnErr result (out.new ≡ out.old) }
{
    let at = out.len();
    out.extend_zeros(ROOM)?;
    let end = place_session(key, transport, opened, out.as_mut_slice(), at);
    out.truncate(end);
    Ok(())
}

/// Puts the line of seconds that passed at an input.
#[tactic(auto, unfolding(text_spec::specs::View::tick_line))]
fn place_tick(input: u16, seconds: u32, text: &mut [u8], at: usize) -> usize
    requires { at + 128 ≤ length text.old }
    ensures { take result text.new ≡ take at text.old ++ tick_line input seconds }
{
    let end = place_numbered(Mark::Tick, u32::from(input), text, at);
    let end = place_numbered(Mark::Space, seconds, text, end);
    place_mark(Mark::LineFeed, text, end)
}

/// Appends the line of seconds since 1970 that an input was told, `tick I SECONDS`. Where memory is refused nothing is
/// appended.
pub fn put_tick(input: u16, seconds: u32, out: &mut Octets) -> Result<(), WantOfMemory>
    ensures ok { OnOk result (out.new ≡ out.old ++ tick_line input seconds) }
    ensures err { OnErr result (out.new ≡ out.old) }
{
    let at = out.len();
    out.extend_zeros(ROOM)?;
    let end = place_tick(input, seconds, out.as_mut_slice(), at);
    out.truncate(end);
    Ok(())
}
