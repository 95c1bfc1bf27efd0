// The lines on standard output.
use std::io::Stdout;
use streams::Run;
use windows::{Judgement, Line, Refusal};

pub(crate) fn tell(
    out: Stdout,
    compared: Result<usize, Refusal>,
    first: &[u8],
    second: &[u8],
    list: &[usize],
) -> Run {
    let run = Run::Well(out);
    match compared {
        Ok(n) => total(lines(run, first, second, list, n), list, n),
        Err(refusal) => {
            let refused = run.text(b"refused ").number(usize::from(refusal.number()));
            refused.text(b"\n")
        }
    }
}

// The first n lines.
fn lines(mut run: Run, first: &[u8], second: &[u8], list: &[usize], n: usize) -> Run {
    for numbers in list.as_chunks::<{ Line::LEN }>().0.iter().take(n) {
        run = line(run, first, second, Line::read(numbers));
    }
    run
}

// What only the second has is named by its own bytes, all else by the first's.
fn line(run: Run, first: &[u8], second: &[u8], line: Line) -> Run {
    let recording = if line.found == Judgement::OnlySecond {
        second
    } else {
        first
    };
    found(pair(run, recording, line), line.found)
}

// The ids of session and file, from their places in the recording.
fn pair(run: Run, recording: &[u8], line: Line) -> Run {
    let session = octets::part(recording, line.id.start, line.id.len);
    let file = octets::part(recording, line.file_id.start, line.file_id.len);
    run.text(session).text(b"\t").text(file).text(b"\t")
}

fn found(run: Run, found: Judgement) -> Run {
    match found {
        Judgement::OnlyFirst => run.text(b"only in the first\n"),
        Judgement::OnlySecond => run.text(b"only in the second\n"),
        Judgement::Same => run.text(b"same\n"),
        Judgement::Different(offset) => run.text(b"different at ").number(offset).text(b"\n"),
    }
}

fn total(run: Run, list: &[usize], n: usize) -> Run {
    let same = run.number(count(list, n, |found| found == Judgement::Same));
    let different = same.text(b" same, ").number(count(
        list,
        n,
        |found| matches!(found, Judgement::Different(_)),
    ));
    let first = different
        .text(b" different, ")
        .number(count(list, n, |found| found == Judgement::OnlyFirst));
    let second = first
        .text(b" only in the first, ")
        .number(count(list, n, |found| found == Judgement::OnlySecond));
    second.text(b" only in the second\n")
}

// How many of the first n lines say so.
fn count<F: Fn(Judgement) -> bool>(list: &[usize], n: usize, says: F) -> usize
    requires { F.IsAlwaysCallable says }
{
    let (lines, _) = list.as_chunks::<{ Line::LEN }>();
    lines
        .iter()
        .take(n)
        .filter(|numbers| says(Line::read(numbers).found))
        .count()
}
