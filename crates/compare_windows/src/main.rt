// Compares two recordings of one window: compare_windows FIRST SECOND
//
// A line for each file that was started in either goes to standard output, and a last line counts them.
#![tactic(auto)]

mod files;
mod report;

use std::io::Stdout;
use streams::Run;
use windows::Line;

// One byte more than a recording may have is read, so that a longer one is refused. What cannot be read is
// said where it is read.
fn main(rt: HostRuntime) {
    let mut first = [0u8; Line::LIMIT + 1];
    let mut second = [0u8; Line::LIMIT + 1];
    let Some(n) = files::read(&rt, 1, &mut first) else {
        return;
    };
    let Some(m) = files::read(&rt, 2, &mut second) else {
        return;
    };
    let run = compare(rt.stdout(), &first[..n], &second[..m]);
    run.end(rt.stderr(), b"compare_windows");
}

// The list has room for the rows of any two recordings.
fn compare(out: Stdout, first: &[u8], second: &[u8]) -> Run {
    let mut list = [0usize; Line::LIST_ROOM];
    let compared = windows::compare(first, second, &mut list);
    report::tell(out, compared, first, second, &list)
}
