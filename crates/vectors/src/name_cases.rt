// Names.
use crate::ROOM;
use crate::line::{asked, expand, fill, operands, printed};
use streams::Run;

pub(crate) fn name(run: Run, bytes: &[u8]) -> Run {
    verdict(run.text(b"name ").hex(bytes).text(b": "), bytes)
}

// A name with a repeated byte.
pub(crate) fn long(run: Run, s: &[u8]) -> Run {
    let short = operands(s);
    let mut bytes = [fill(short); ROOM];
    let n = expand(short, &mut bytes);
    verdict(asked(run, printed(s)), octets::part(&bytes, 0, n))
}

fn verdict(run: Run, bytes: &[u8]) -> Run {
    if pathname::is_valid(bytes) {
        run.text(b"good")
    } else {
        run.text(b"bad")
    }
}
