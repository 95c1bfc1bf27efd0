// Base64: the text of bytes, the bytes of a text or its fault, and places of a buffer.
use crate::line::{after, number, word};
use base64_codec::{DecodeError, Fault, Padding};
use streams::Run;

pub(crate) fn encode(run: Run, data: &[u8]) -> Run {
    let mut buffer = [0u8; 64];
    match base64_codec::encode(data, &mut buffer, 0) {
        Some(n) => run.text(octets::part(&buffer, 0, n)),
        None => run.text(b"no room"),
    }
}

pub(crate) fn decode(run: Run, text: &[u8]) -> Run {
    let mut buffer = [0u8; 64];
    let decoded = base64_codec::decode(text, &mut buffer, 0);
    bytes(run, decoded, &buffer)
}

// The same where padding may be left out.
pub(crate) fn optional(run: Run, text: &[u8]) -> Run {
    let mut buffer = [0u8; 64];
    let decoded = base64_codec::decode_with(Padding::Optional, text, &mut buffer, 0);
    bytes(run, decoded, &buffer)
}

fn bytes(run: Run, decoded: Result<usize, DecodeError>, buffer: &[u8]) -> Run {
    match decoded {
        Ok(n) => run.hex(octets::part(buffer, 0, n)),
        Err(error) => refused(run, error),
    }
}

// A text that ends in a line's end, which no line of the input has.
pub(crate) fn ended(run: Run, case: &[u8]) -> Run {
    decode(run.text(case).text(b"\n: "), b"Zm9v\n")
}

// `TEXT at PLACE of 8`, a buffer of eight bytes: what fits, what does not, and the bytes beside.
pub(crate) fn place(run: Run, words: &[u8]) -> Run {
    let mut buffer = [0xA5u8; 8];
    let at = number(after(after(words))) as usize;
    let told = match base64_codec::decode(word(words), &mut buffer, at) {
        Ok(n) => run.number(n),
        Err(error) => refused(run, error),
    };
    told.text(b", ").hex(&buffer)
}

fn refused(run: Run, error: DecodeError) -> Run {
    match error {
        DecodeError::Invalid(Fault::Length) => run.text(b"length or padding"),
        DecodeError::Invalid(Fault::Character) => run.text(b"character"),
        DecodeError::Invalid(Fault::UnusedBits) => run.text(b"unused bits"),
        DecodeError::NoRoom => run.text(b"no room"),
    }
}
