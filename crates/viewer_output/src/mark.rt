// The pieces of a line that are the same each time.
ghost use Rattle.std.specs.Prelude.{◌≡◌, ◌≤◌, ◌+◌, ◌++◌, length, take, decimal};
ghost use Rattle.text_spec.specs.View.{transport_word};
ghost use Rattle.viewer_output.specs.Mark.{mark_text};

use col_base::Transport;
use value_text::{place_piece, place_u32};

/// A piece of a line.
#[derive(Clone, Copy)]
pub enum Mark {
    Session,
    Slash,
    Open,
    Close,
    Tick,
    Space,
    Message,
    Domain,
    Export,
    Sequence,
    Records,
    Template,
    LineFeed,
}

/// The octets of a piece.
#[tactic(auto, unfolding(text_spec::specs::Marks::session_mark, text_spec::specs::Marks::slash, text_spec::specs::Marks::open_mark, text_spec::specs::Marks::close_mark, text_spec::specs::Marks::tick_mark, text_spec::specs::Marks::space, text_spec::specs::Marks::message_mark, text_spec::specs::Marks::domain_mark, text_spec::specs::Marks::export_mark, text_spec::specs::Marks::sequence_mark, text_spec::specs::Marks::records_mark, text_spec::specs::Marks::template_mark, text_spec::specs::Marks::line_feed))]
fn octets_of(mark: Mark) -> &'static [u8]
    ensures are { result.now ≡ mark_text mark }
    ensures few { length result.now ≤ 11 }
{
    match mark {
        Mark::Session => b"session ",
        Mark::Slash => b"/",
        Mark::Open => b" open ",
        Mark::Close => b" close",
        Mark::Tick => b"tick ",
        Mark::Space => b" ",
        Mark::Message => b"message ",
        Mark::Domain => b" domain ",
        Mark::Export => b" export ",
        Mark::Sequence => b" sequence ",
        Mark::Records => b" records ",
        Mark::Template => b"  template ",
        Mark::LineFeed => b"\n",
    }
}

/// Puts a piece at a place.
pub fn place_mark(mark: Mark, text: &mut [u8], at: usize) -> usize
    requires { at + 11 ≤ length text.old }
    ensures grown { take result text.new ≡ take at text.old ++ mark_text mark }
    ensures near { result ≤ at + 11 }
{
    place_piece(octets_of(mark), text, at)
}

/// Puts a piece and a number.
pub fn place_numbered(mark: Mark, number: u32, text: &mut [u8], at: usize) -> usize
    requires { at + 23 ≤ length text.old }
    ensures grown { take result text.new ≡ take at text.old ++ (mark_text mark ++ decimal number) }
    ensures near { result ≤ at + 23 }
{
    let end = place_mark(mark, text, at);
    place_u32(number, text, end)
}

/// The word of a transport.
#[tactic(auto, unfolding(text_spec::specs::View::transport_word))]
fn word_of(transport: Transport) -> &'static [u8]
    ensures is { result.now ≡ transport_word transport }
    ensures few { length result.now ≤ 4 }
{
    match transport {
        Transport::Tcp => b"tcp",
        Transport::Udp => b"udp",
        Transport::File => b"file",
    }
}

/// Puts the word of a transport.
pub fn place_transport(transport: Transport, text: &mut [u8], at: usize) -> usize
    requires { at + 4 ≤ length text.old }
    ensures grown { take result text.new ≡ take at text.old ++ transport_word transport }
    ensures near { result ≤ at + 4 }
{
    place_piece(word_of(transport), text, at)
}
