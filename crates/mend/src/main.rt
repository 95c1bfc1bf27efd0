// Mends the recording on standard input: writes the mended one to standard output, and what was dropped
// to standard error.
#![tactic(auto)]

mod report;

use recordings::{Mended, Refusal};
use streams::Run;

// One byte more than a recording may have is read, so that a longer one is refused.
fn main(rt: HostRuntime) {
    let mut bytes = [0u8; Mended::LIMIT + 1];
    let run = match streams::read_all(rt.stdin(), &mut bytes) {
        Some(n) => mend(&rt, &bytes[..n]),
        None => Run::NotRead,
    };
    run.end(rt.stderr(), b"mend");
}

// Both buffers have room for whatever a recording needs.
fn mend(rt: &HostRuntime, recording: &[u8]) -> Run {
    let mut output = [0u8; Mended::LIMIT];
    let mut list = [0usize; Mended::LIST_ROOM];
    let mended = recordings::mend(recording, &mut output, &mut list);
    finish(rt, mended, recording.len(), &output, &list)
}

fn finish(
    rt: &HostRuntime,
    mended: Result<Mended, Refusal>,
    len: usize,
    output: &[u8],
    list: &[usize],
) -> Run {
    let run = Run::Well(rt.stdout());
    let err = rt.stderr();
    match mended {
        Ok(Mended { kept, rows }) => {
            let written = run.text(octets::part(output, 0, kept));
            report::rows(err, list, rows);
            report::total(err, kept, len.saturating_sub(kept), rows);
            written
        }
        Err(refusal) => {
            report::refused(err, refusal);
            run
        }
    }
}
