// The lines that are printed.
use crate::office::Buffers;
use command::Place;
use decimal::Number;
use script_parts::sum;
use sending::{FileStage, News, SentFile, Stage, Transfer};
use streams::Run;

// A call that writes: the letter, the refusal's number, nothing consumed, nothing told, and the frame at
// the start of out.
pub(crate) fn wrote(run: Run, letter: u8, writing: Result<usize, u8>, out: &[u8]) -> Run {
    let begun = run.text(&[letter]).text(b" ");
    match writing {
        Ok(n) => hex(begun.text(b"0 0 none "), octets::part(out, 0, n)),
        Err(number) => begun.number(usize::from(number)).text(b" 0 none -"),
    }
}

// A hear: the refusal's number, the bytes consumed, and what is told.
pub(crate) fn heard(run: Run, consumed: usize, news: News) -> Run {
    let numbered = run.text(b"h ").number(refusal(news)).text(b" ");
    tell(numbered.number(consumed).text(b" "), news).text(b" -")
}

fn refusal(news: News) -> usize {
    match news {
        News::Refused(n) => usize::from(n),
        _ => 0,
    }
}

fn tell(run: Run, news: News) -> Run {
    match news {
        News::Nothing | News::Refused(_) => run.text(b"none"),
        News::Ignored => run.text(b"ignored"),
        News::Noted => run.text(b"noted"),
        News::Allowed => run.text(b"allowed"),
        News::Differs(i, size) => integer(run.text(b"differs:").number(i).text(b":"), size),
        News::FileStopped(i, status) => place(run.text(b"stopped:").number(i).text(b":"), status),
        News::SessionStopped(status) => place(run.text(b"stopped:"), status),
    }
}

fn integer(run: Run, n: Number) -> Run {
    let signed = if n.negative { run.text(b"-") } else { run };
    signed.number(n.magnitude as usize)
}

// The start of an empty status is open, and printed as 0.
fn place(run: Run, status: Place) -> Run {
    let start = if status.len == 0 { 0 } else { status.start };
    run.number(start).text(b":").number(status.len)
}

// What ends the line of a call: the sums of the whole buffers, and the session.
pub(crate) fn end(run: Run, transfer: Transfer, buffers: &Buffers) -> Run {
    let two = run
        .text(b" ")
        .number(sum(&buffers.out))
        .text(b" ")
        .number(sum(&buffers.carry));
    let summed = two.text(b" ").number(sum(&buffers.scratch)).text(b" ");
    files(stage_state(summed, transfer.stage), transfer.files).text(b"\n")
}

// Each file's stage, with the bytes sent.
fn files(run: Run, list: [SentFile; Transfer::FILES]) -> Run {
    let mut all = run;
    for file in &list {
        all = file_state(all, file.stage, file.sent);
    }
    all
}

fn stage_state(run: Run, stage: Stage) -> Run {
    match stage {
        Stage::Fresh => run.text(b"f"),
        Stage::Waiting => run.text(b"w"),
        Stage::Open => run.text(b"o"),
        Stage::Finished => run.text(b"e"),
        Stage::Stopped => run.text(b"x"),
    }
}

fn file_state(run: Run, stage: FileStage, sent: u64) -> Run {
    let n = sent as usize;
    match stage {
        FileStage::Free => run,
        FileStage::Sending => run.text(b",s").number(n),
        FileStage::Sent => run.text(b",e").number(n),
        FileStage::Closed => run.text(b",c").number(n),
        FileStage::Stopped => run.text(b",x").number(n),
    }
}

// The text of a report.
pub(crate) fn text(run: Run, text: &[u8]) -> Run {
    hex(run.text(b"t "), text).text(b"\n")
}

// Bytes in lower-case hex, `-` for none.
fn hex(run: Run, s: &[u8]) -> Run {
    if s.is_empty() {
        run.text(b"-")
    } else {
        run.hex(s)
    }
}
