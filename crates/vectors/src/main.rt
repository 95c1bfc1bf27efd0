// Runs outside vectors and the documents' worked cases, a line for each: the case and its answer.
// The stored output is what the documents say, so that a wrong definition shows here even where code
// and definition agree.
//
// Every case stands in the stored input, a line for each, so that a case costs no proof: a letter for
// what is done, a blank, and the case as it is printed. Where that does not say all, a bar and the
// operands follow it; a name and the pieces of a stream stand as they are, and are printed in hex.
#![tactic(auto)]

mod base64_cases;
mod command_cases;
mod console;
mod decimal_cases;
mod declared_cases;
mod frame_cases;
mod line;
mod name_cases;
mod write_cases;

use frames::Framing;
use line::{after, asked, first, rest};
use std::io::Stdout;
use streams::Run;

// Room for a text one byte too long, its frame, and some bytes more.
pub(crate) const ROOM: usize = Framing::TEXT_LIMIT + 64;

fn main(rt: HostRuntime) {
    let mut bytes = [0u8; 65536];
    let run = match streams::read_all(rt.stdin(), &mut bytes) {
        Some(n) => cases(rt.stdout(), &bytes[..n]),
        None => Run::NotRead,
    };
    run.end(rt.stderr(), b"vectors");
}

// The case of each line, and the line's end. A run that failed prints no case more.
fn cases(out: Stdout, bytes: &[u8]) -> Run {
    let mut run = Run::Well(out);
    let mut at = 0;
    while at < bytes.len() {
        let end = octets::find(bytes, at, b'\n');
        run = case(run, octets::part(bytes, at, end - at));
        run = run.text(octets::part(bytes, end, 1));
        if !run.is_well() || end >= bytes.len() {
            break;
        }
        at = end + 1;
    }
    run
}

// Cases that are not printed as they stand, or whose answer begins otherwise.
fn case(run: Run, s: &[u8]) -> Run {
    let letter = first(s);
    let text = rest(s, 1);
    match letter {
        b'n' => name_cases::name(run, text),
        b'm' => name_cases::long(run, text),
        b'c' => frame_cases::carry(run, text),
        b't' => frame_cases::cut(run, text),
        b's' => declared_cases::sizes(run, text),
        b'w' => write_cases::write(run, text),
        b'l' => base64_cases::ended(run, text),
        b'd' => decimal_cases::write(run.text(text), after(after(text))),
        _ => plain(asked(run, text), letter, after(text)),
    }
}

// The others: the words after the case's first.
fn plain(run: Run, letter: u8, words: &[u8]) -> Run {
    match letter {
        b'e' => base64_cases::encode(run, after(words)),
        b'b' => base64_cases::decode(run, after(words)),
        b'o' => base64_cases::optional(run, after(words)),
        b'p' => base64_cases::place(run, after(words)),
        b'i' => decimal_cases::read(run, after(words)),
        b'a' => decimal_cases::write_at(run, after(words)),
        b'r' => command_cases::read(run, words),
        _ => run.text(b"no such case"),
    }
}
