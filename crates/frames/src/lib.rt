// Frames: texts between 1B 5D and 1B 5C, read from bytes that come in pieces.
//
// A call takes one piece and the caller's carry buffer, and consumes the piece through the first
// thing to report. What it has to know of the bytes before is the framing, a small value, and the
// first bytes of a text that began in an earlier piece, which stand in the carry. A text that lies
// wholly in its piece is not copied. No function has a `requires`: a framing that no call gave is
// answered by the same definitions.
#![tactic(auto)]

mod carry;
mod step;
mod walk;

ghost use Rattle.std.specs.Prelude.{◌≡◌, ◌≤◌, length};
ghost use Rattle.octets.specs.Outcome.{outcome};
ghost use Rattle.frames.specs.Stream.{text_limit};
ghost use Rattle.frames.specs.Framings.{mark_of};
ghost use Rattle.frames.specs.Calls.{place_of, report_of, taken_of, scan_of, text_of};
ghost use Rattle.frames.specs.Claims.{TellsTheStream, SameHoweverCut, Consumes, RefusesShort, FramedTells};
ghost use Rattle.frames.specs.DragDrop.{DraggedTells, MarkExamples};

use carry::{held_of, keep};
use step::{Event, capped, framing_after};
use walk::{Walked, walk_piece};

// What is known of the bytes before a piece: whether they end in a text that may be reported, with its
// mark and the count of its bytes, and whether they end in a 1B. A text known to start with no mark
// behaves as plain bytes do. The empty text may start with either mark, and is given the first. Once a
// text has its mark whole nothing depends on which it is, so after a 1B it is not kept.
#[derive(Clone, Copy)]
pub enum Framing {
    Plain,
    Escape,
    Text(Mark, usize),
    TextEscape(usize),
}

// What a reported text starts with: `5113;`, and it is a command of file transfer, or `72;`, and it is
// one of drag and drop.
#[derive(Clone, Copy)]
pub enum Mark {
    Transfer,
    DragDrop,
}

impl Mark {
    pub(crate) fn word(self) -> &'static [u8]
        ensures { result.now ≡ mark_of self }
    {
        match self {
            Mark::Transfer => b"5113;",
            Mark::DragDrop => b"72;",
        }
    }
}

impl Framing {
    // "A command text may have 8,192 bytes, the `5113;` included", and a text of drag and drop as many,
    // the `72;` included. A carry has room for them.
    pub const TEXT_LIMIT: usize = 8192;
}

// What a call reports.
#[derive(Clone, Copy)]
pub enum Report {
    Nothing,
    // A text with a mark in the piece: where it starts, and its length.
    InPiece(usize, usize),
    // A text with a mark at the start of the carry: its length.
    InCarry(usize),
    // Refusal 1, 2 and 9; the first two of a text with either mark.
    TooLong,
    Abandoned,
    ShortCarry,
}

// What a call answers: how many bytes of the piece it consumed, the framing for the next call, and
// what it reports.
#[derive(Clone, Copy)]
pub struct Scanned {
    pub consumed: usize,
    pub framing: Framing,
    pub report: Report,
}

// Reads a piece through the first thing to report. What holds of every list of scans stands here too:
// they tell what the stream of their bytes tells, however it is cut, and come to an end; and a text with
// either mark in its frame is told by the stream as it is.
pub fn scan(framing: Framing, piece: &[u8], carry: &mut [u8]) -> Scanned
    ensures carry_after { outcome result carry.new ≡ scan_of framing piece.now carry.old }
    ensures tells_the_stream { TellsTheStream × SameHoweverCut × Consumes × RefusesShort × FramedTells }
    ensures dragged_tells { DraggedTells × MarkExamples }
{
    if carry.len() < Framing::TEXT_LIMIT {
        return Scanned {
            consumed: 0,
            framing,
            report: Report::ShortCarry,
        };
    }
    taken(framing, piece, carry)
}

// A scan that is not refused.
fn taken(framing: Framing, piece: &[u8], carry: &mut [u8]) -> Scanned
    requires { text_limit ≤ length carry.old }
    ensures { outcome result carry.new ≡ taken_of framing piece.now carry.old }
{
    let Walked { used, event } = walk_piece(framing, piece);
    if let Some(held) = held_of(event, used) {
        keep(piece, carry, held);
    }
    Scanned {
        consumed: used,
        framing: capped(framing_after(event)),
        report: report_of(event, used),
    }
}

// The text of a report, given the piece and the carry of its call: empty where it has none, or
// where its place passes the end of that buffer.
#[tactic(auto, unfolding(crate::specs::Calls::text_of))]
pub fn text<'a>(piece: &'a [u8], carry: &'a [u8], report: Report) -> &'a [u8]
    ensures { result.now ≡ text_of piece.now carry.now report }
{
    match report {
        Report::InPiece(start, n) => octets::part(piece, start, n),
        Report::InCarry(n) => octets::part(carry, 0, n),
        _ => &piece[..0],
    }
}

#[tactic(auto, unfolding(crate::specs::Calls::report_of))]
fn report_of(event: Event, used: usize) -> Report
    ensures { result ≡ report_of event used }
{
    match event {
        Event::On(_) => Report::Nothing,
        Event::Closed(n) if n <= Framing::TEXT_LIMIT => place(used, n),
        Event::Closed(_) => Report::TooLong,
        Event::Abandoned(..) => Report::Abandoned,
    }
}

// Where a text of n bytes stands that is closed by the last of the bytes used.
fn place(used: usize, n: usize) -> Report
    ensures { result ≡ place_of used n }
{
    let end = used.saturating_sub(2);
    if n <= end {
        Report::InPiece(end - n, n)
    } else {
        Report::InCarry(n)
    }
}
