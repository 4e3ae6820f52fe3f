// What a call says: lines, and the pieces that they are made of.
ghost use Rattle.std.specs.Prelude.{◌≡◌, ◌++◌, Result, IfOk};
ghost use Rattle.site_io.specs.declared.outside.OutsideFault.{OutsideFault};
ghost use Rattle.call_spec.specs.Lines.{named_line, elements_head};
ghost use Rattle.call_spec.specs.Summary.{row_end};
ghost use Rattle.run_lines.specs.Says.{Says, piece_text};

use col_base::Octets;
use site_io::{OutsideFault, Site};
use std::alloc::{AllocError, Global};

/// A line of its own, or what a line is made of beside names and faults.
#[derive(Clone, Copy, PartialEq, Eq)]
pub enum Piece {
    Usage,
    Fine,
    Memory,
    Source,
    Sink,
    Limit,
    Wanting,
    Description,
    Elements,
    Colon,
    Log,
    Octets,
    Space,
    End,
}

impl Piece {
    /// The octets of the piece.
    #[tactic(auto, unfolding(call_spec::specs::Lines::usage_text, call_spec::specs::Lines::fine_text, call_spec::specs::Lines::memory_text, call_spec::specs::Lines::source_start, call_spec::specs::Lines::sink_start, call_spec::specs::Lines::limit_start, call_spec::specs::Lines::memory_start, call_spec::specs::Lines::description_start, call_spec::specs::Lines::elements_start, call_spec::specs::Lines::colon, call_spec::specs::Lines::log_name, call_spec::specs::Lines::octets_start, call_spec::specs::Lines::space, call_spec::specs::Lines::line_end))]
    pub fn octets(self) -> &'static [u8]
        ensures { result.now ≡ piece_text self }
    {
        match self {
            Piece::Usage =>
                b"usage: ipfixcol direct IN OUT, check -c FILE, collect -c FILE, generate NUMBER COUNT\n",
            Piece::Fine => b"ok\n",
            Piece::Memory => b"memory\n",
            Piece::Source => b"source fault: ",
            Piece::Sink => b"sink fault: ",
            Piece::Limit => b"limit: ",
            Piece::Wanting => b"memory: ",
            Piece::Description => b"description: ",
            Piece::Elements => b"elements ",
            Piece::Colon => b": ",
            Piece::Log => b"order-log",
            Piece::Octets => b"octets ",
            Piece::Space => b" ",
            Piece::End => b"\n",
        }
    }
}

/// The end of a row of the summary.
#[tactic(auto, unfolding(call_spec::specs::Summary::row_end))]
pub fn row_end() -> &'static [u8]
    ensures { result.now ≡ row_end }
{
    b"\n"
}

/// Says octets, in one call.
pub fn say<S: Site>(octets: &[u8], site: &mut S) -> Result<(), OutsideFault>
    ensures { Says (S.seen site.old) (S.seen site.new) octets.now result }
{
    site.say(octets)
}

/// Says a line of its own.
pub fn say_piece<S: Site>(piece: Piece, site: &mut S) -> Result<(), OutsideFault>
    ensures { Says (S.seen site.old) (S.seen site.new) (piece_text piece) result }
{
    say(piece.octets(), site)
}

/// A line that begins so.
pub fn named_line(alloc: Global, start: &[u8], name: &[u8]) -> Result<Octets, AllocError>
    ensures { IfOk result (λ line. line ≡ named_line start.now name.now) }
{
    let mut line = Octets::from_slice(alloc, start)?;
    line.extend(name)?;
    line.extend(Piece::End.octets())?;
    Ok(line)
}

/// What stands before the fault of an element table.
pub fn elements_head(alloc: Global, name: &[u8]) -> Result<Octets, AllocError>
    ensures { IfOk result (λ head. head ≡ elements_head name.now) }
{
    let mut head = Octets::from_slice(alloc, Piece::Elements.octets())?;
    head.extend(name)?;
    head.extend(Piece::Colon.octets())?;
    Ok(head)
}

/// Says a line that begins so.
pub fn say_named<S: Site>(
    alloc: Global,
    start: Piece,
    name: &[u8],
    site: &mut S,
) -> Result<(), OutsideFault>
    ensures { Says (S.seen site.old) (S.seen site.new) (named_line (piece_text start) name.now) result }
{
    let Ok(line) = named_line(alloc, start.octets(), name) else {
        return Err(OutsideFault::NoMemory);
    };
    say(line.as_slice(), site)
}
