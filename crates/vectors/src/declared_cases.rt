// A declared size: the commands of one session, and the reply of each: its word, `=` and its size where
// it has one, `-` for none.
use crate::console::Console;
use crate::line::{after, number, word};
use crate::{ROOM, console};
use protocol::FileRecord;
use streams::Run;

pub(crate) fn sizes(run: Run, s: &[u8]) -> Run {
    let asked = run.text(s).text(b":");
    let n = octets::find(s, 0, b' ');
    let state = items(
        console::fresh(asked),
        octets::part(s, n, s.len().saturating_sub(n)),
    );
    state.run
}

// Items follow the case's first word, parted by bars. Each is a word and its operand, with blanks around.
fn items(before: Console, s: &[u8]) -> Console {
    let mut state = before;
    let mut at = 0;
    while at < s.len() {
        let end = octets::find(s, at, b'|');
        state = item(state, octets::part(s, at, end - at));
        if end >= s.len() {
            break;
        }
        at = end + 1;
    }
    state
}

fn item(state: Console, s: &[u8]) -> Console {
    let from = after(s);
    perform(state, last(word(from)), word(after(from)))
}

fn last(s: &[u8]) -> u8 {
    s.last().copied().unwrap_or(0)
}

// Words are told by their last letter. `file`, `data` and `end` are commands whose reply is printed.
fn perform(state: Console, letter: u8, operand: &[u8]) -> Console {
    match letter {
        b'e' => file(state, operand),
        b'a' => part(state, b"ac=data;fid=a;d=", number(operand)),
        b'd' => part(state, b"ac=end_data;fid=a;d=", number(operand)),
        _ => prepare(state, letter, number(operand)),
    }
}

// `fill`, `count` and `again` make the receiver ready, and nothing is printed. No stream of a bearable
// length brings a count near its limit.
fn prepare(state: Console, letter: u8, n: u64) -> Console {
    match letter {
        b'l' => filled(state, n),
        b't' => console::with_count(state, n),
        _ => console::again(state),
    }
}

// The file a, with the fields that the item adds.
fn file(state: Console, fields: &[u8]) -> Console {
    if fields.is_empty() {
        return console::play(state, b"ac=file;fid=a;n=L256", b"", true);
    }
    console::play(state, b"ac=file;fid=a;n=L256;", fields, true)
}

// A part of n bytes, all zero.
fn part(state: Console, fields: &[u8], n: u64) -> Console {
    let bytes = [0u8; FileRecord::PART_LIMIT + 1];
    let mut text = [0u8; ROOM];
    match base64_codec::encode(octets::part(&bytes, 0, n as usize), &mut text, 0) {
        Some(end) => console::play(state, fields, octets::part(&text, 0, end), true),
        None => state,
    }
}

// n directories, each with an id of its own.
fn filled(before: Console, n: u64) -> Console {
    let mut state = before;
    for k in (0..n).rev() {
        state = directory(state, k + 1);
    }
    state
}

// Its id has two digits.
fn directory(state: Console, n: u64) -> Console {
    let id = [digit(n / 10), digit(n)];
    console::play(state, b"ac=file;ft=directory;n=L256;fid=", &id, false)
}

fn digit(n: u64) -> u8 {
    b'0' + (n % 10) as u8
}
