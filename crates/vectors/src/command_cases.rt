// The command text: its refusal or 0, the scratch that reading leaves, and the text written again.
use crate::ROOM;
use crate::line::{expand, fill};
use command::{Command, Refusal};
use frames::Framing;
use streams::Run;

// A text, with or without a repeated byte.
pub(crate) fn read(run: Run, short: &[u8]) -> Run {
    let mut text = [fill(short); ROOM];
    let n = expand(short, &mut text);
    answer(run, octets::part(&text, 0, n))
}

// What reading a text gives, and the text written again.
fn answer(run: Run, text: &[u8]) -> Run {
    let mut scratch = [0xA5u8; Command::SCRATCH_ROOM];
    let read = command_reader::read(text, &mut scratch);
    let told = number(run, read)
        .text(b", scratch ")
        .hex(octets::part(&scratch, 0, 10));
    match read {
        Ok(c) => write(told.text(b"\n"), c, text, &scratch),
        Err(_) => told,
    }
}

// The refusal's number, 0 for none.
fn number(run: Run, read: Result<Command, Refusal>) -> Run {
    match read {
        Ok(_) => run.number(0),
        Err(refusal) => run.number(usize::from(refusal.number())),
    }
}

pub(crate) fn write<'a>(run: Run, c: Command, text: &'a [u8], scratch: &'a [u8]) -> Run {
    let mut again = [0u8; Framing::TEXT_LIMIT];
    match command_writer::write(c, text, scratch, &mut again) {
        Ok(n) => written(run, octets::part(&again, 0, n)),
        Err(refusal) => run.number(usize::from(refusal.number())),
    }
}

fn written(run: Run, text: &[u8]) -> Run {
    if text.len() > 128 {
        run.text(b"written, ").number(text.len()).text(b" bytes")
    } else {
        run.text(b"written ").text(text)
    }
}
