// Integers, read and written.
use crate::line::{after, number};
use decimal::{Number, ParseError, WriteError};
use streams::Run;

pub(crate) fn read(run: Run, text: &[u8]) -> Run {
    match decimal::parse(text) {
        Ok(n) => integer(run, n),
        Err(ParseError::Malformed) => run.text(b"malformed"),
        Err(ParseError::OutOfRange) => run.text(b"out of range"),
    }
}

// The sign and the magnitude.
fn integer(run: Run, n: Number) -> Run {
    let signed = if n.negative { run.text(b"minus ") } else { run };
    signed.number(n.magnitude as usize)
}

// `minus MAGNITUDE` or a magnitude alone: also what no integer of the protocol is.
fn number_of(words: &[u8]) -> Number {
    let negative = words.starts_with(b"minus ");
    Number {
        negative,
        magnitude: number(if negative { after(words) } else { words }),
    }
}

pub(crate) fn write(run: Run, words: &[u8]) -> Run {
    let mut buffer = [0u8; 32];
    let n = number_of(words);
    let length = decimal::text_length(n);
    let counted = run.text(b", ").number(length).text(b" bytes: ");
    match decimal::write(n, &mut buffer, 0) {
        Ok(end) => counted.text(octets::part(&buffer, 0, end)),
        Err(error) => refused(counted, error),
    }
}

// `MAGNITUDE at PLACE of 4`, a buffer of four bytes.
pub(crate) fn write_at(run: Run, words: &[u8]) -> Run {
    let mut buffer = [0x2Eu8; 4];
    let at = number(after(after(words))) as usize;
    let told = match decimal::write(number_of(words), &mut buffer, at) {
        Ok(end) => run.number(end),
        Err(error) => refused(run, error),
    };
    told.text(b", ").text(&buffer)
}

fn refused(run: Run, error: WriteError) -> Run {
    match error {
        WriteError::NegativeZero => run.text(b"negative zero"),
        WriteError::OutOfRange => run.text(b"out of range"),
        WriteError::NoRoom => run.text(b"no room"),
    }
}
