// The lines that are printed.
use crate::console::{Answer, Buffers};
use command::Place;
use protocol::{Ask, Told};
use reply::word_of;
use script_parts::sum;
use streams::Run;

// ---- Calls.
// A call that writes to the reply buffer.
pub(crate) fn replied(run: Run, letter: u8, answer: Answer, buffers: &Buffers) -> Run {
    let written = octets::part(&buffers.reply, 0, answer.written);
    end(sums(call(run, letter, answer, written), buffers))
}

// A call that writes to the buffer out, whose sum is one more.
pub(crate) fn supplied(run: Run, letter: u8, answer: Answer, buffers: &Buffers) -> Run {
    let written = octets::part(&buffers.out, 0, answer.written);
    let summed = sums(call(run, letter, answer, written), buffers);
    end(number(summed, sum(&buffers.out)))
}

// The letter, the refusal's number, the bytes consumed, what is told, and what was written.
fn call(run: Run, letter: u8, answer: Answer, written: &[u8]) -> Run {
    let numbered = number(run.text(&[letter]), refusal(answer.told));
    let counted = number(numbered, answer.consumed).text(b" ");
    hex(tell(counted, answer.told, answer.name).text(b" "), written)
}

fn refusal(told: Told) -> usize {
    match told {
        Told::Refused(n) => usize::from(n),
        _ => 0,
    }
}

// The sums of the whole buffers that every call prints.
fn sums(run: Run, buffers: &Buffers) -> Run {
    let two = number(number(run, sum(&buffers.carry)), sum(&buffers.scratch));
    number(two, sum(&buffers.reply))
}

// ---- What is told.
// Its word. After one with a colon comes the place of the command's name, or a status. An ask has its own.
fn tell(run: Run, told: Told, name: Place) -> Run {
    match told {
        Told::Nothing | Told::Refused(_) => run.text(b"none"),
        Told::Ignored => run.text(b"ignored"),
        Told::DragDrop => run.text(b"dragdrop"),
        Told::Asked => run.text(b"asked"),
        Told::Naming => run.text(b"naming"),
        Told::Path => place(run.text(b"path:"), name),
        Told::LastPath => place(run.text(b"lastpath:"), name),
        Told::Ask(ask) => tell_ask(run, ask, name),
        Told::Status(status) => run.text(b"status:").text(word_of(status)),
        Told::Withdrawn => run.text(b"withdrawn"),
        Told::Discarded => run.text(b"discarded"),
        Told::Committed => run.text(b"committed"),
    }
}

// An ask's word, and the place of what is to be written, or of the name that is asked for.
fn tell_ask(run: Run, ask: Ask, name: Place) -> Run {
    match ask {
        Ask::Open => run.text(b"open"),
        Ask::Write(part) => place(run.text(b"write:"), part),
        Ask::WriteLast(part) => place(run.text(b"last:"), part),
        Ask::Commit => run.text(b"commit"),
        Ask::Request => place(run.text(b"request:"), name),
    }
}

// ---- Other lines.
// The text of a report.
pub(crate) fn text(run: Run, text: &[u8]) -> Run {
    end(hex(run.text(b"t "), text))
}

// How many files of a session are started, and the bytes of those that are done.
pub(crate) fn numbers(run: Run, started: usize, done_bytes: usize) -> Run {
    end(number(number(run.text(b"y"), started), done_bytes))
}

pub(crate) fn no_numbers(run: Run) -> Run {
    run.text(b"y none\n")
}

// ---- Parts of a line.
// A number after a blank.
fn number(run: Run, n: usize) -> Run {
    run.text(b" ").number(n)
}

// The start of an empty part or name is open, and printed as 0.
fn place(run: Run, part: Place) -> Run {
    let start = if part.len == 0 { 0 } else { part.start };
    run.number(start).text(b":").number(part.len)
}

// Bytes in lower-case hex, `-` for none.
fn hex(run: Run, s: &[u8]) -> Run {
    if s.is_empty() {
        run.text(b"-")
    } else {
        run.hex(s)
    }
}

fn end(run: Run) -> Run {
    run.text(b"\n")
}
