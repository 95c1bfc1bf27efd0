// Frames: two pieces, what is reported on the way, and the carry; texts of the longest length, and one
// byte longer, cut at each edge.
use crate::ROOM;
use crate::line::{after, expand, fill, number, operands, printed};
use frames::{Framing, Report};
use protocol::refusals::{SHORT_BUFFER, TEXT_BROKEN_OFF, TEXT_TOO_LONG};
use streams::Run;

// The framing after the bytes so far, and how the run stands.
#[derive(Clone, Copy)]
struct Turn {
    framing: Framing,
    run: Run,
}

// Two pieces, parted by a bar: their reports, fed one after the other, and the carry's first bytes.
pub(crate) fn carry(run: Run, pieces: &[u8]) -> Run {
    let mut buffer = [0x2Eu8; ROOM];
    let first = printed(pieces);
    let second = operands(pieces);
    let asked = run.text(b"carry ").hex(first).text(b" | ").hex(second);
    let told = both(asked, first, second, &mut buffer);
    told.text(b" ").text(octets::part(&buffer, 0, 24))
}

// A place and a stream with a repeated byte: the stream cut there.
pub(crate) fn cut(run: Run, s: &[u8]) -> Run {
    let mut buffer = [0x2Eu8; ROOM];
    let short = after(operands(s));
    let mut stream = [fill(short); ROOM];
    let end = expand(short, &mut stream);
    let at = number(operands(s)) as usize;
    let first = octets::part(&stream, 0, at);
    let second = octets::part(&stream, at, end.saturating_sub(at));
    both(run.text(printed(s)), first, second, &mut buffer)
}

// A colon, and the reports of two pieces, fed one after the other.
fn both<'a>(run: Run, first: &'a [u8], second: &'a [u8], carry: &mut [u8]) -> Run {
    let turn = Turn {
        framing: Framing::Plain,
        run: run.text(b":"),
    };
    feed(feed(turn, first, carry), second, carry).run
}

// Scans a piece until it is consumed, and prints each report.
fn feed(before: Turn, piece: &[u8], carry: &mut [u8]) -> Turn {
    let mut framing = before.framing;
    let mut run = before.run;
    let mut at = 0;
    while at < piece.len() {
        let s = frames::scan(framing, &piece[at..], carry);
        framing = s.framing;
        run = report(run, s.report, frames::text(&piece[at..], carry, s.report));
        if !run.is_well() {
            break;
        }
        if s.consumed == 0 {
            run = Run::Stuck;
            break;
        }
        at += s.consumed;
    }
    Turn { framing, run }
}

fn report(run: Run, r: Report, text: &[u8]) -> Run {
    match r {
        Report::Nothing => run,
        Report::InPiece(_, _) => run.text(b" in the piece ").number(text.len()),
        Report::InCarry(_) => run.text(b" in the carry ").number(text.len()),
        Report::TooLong => refused(run, TEXT_TOO_LONG),
        Report::Abandoned => refused(run, TEXT_BROKEN_OFF),
        Report::ShortCarry => refused(run, SHORT_BUFFER),
    }
}

fn refused(run: Run, n: u8) -> Run {
    run.text(b" refused ").number(usize::from(n))
}
