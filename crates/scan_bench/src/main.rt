// Reads standard input in pieces of at most 64 KB, scans each until it is consumed, and prints how
// many things were reported. It is what bench/frames.sh times.
#![tactic(auto)]

use frames::{Framing, Report};
use streams::Run;

// The framing after the bytes so far, and how many things were reported.
#[derive(Clone, Copy)]
struct Tally {
    framing: Framing,
    reports: usize,
}

// Scans a piece until it is consumed; none where a scan consumes nothing.
fn scan_all(tally: Tally, piece: &[u8], carry: &mut [u8]) -> Option<Tally> {
    let Tally {
        mut framing,
        mut reports,
    } = tally;
    let mut at = 0;
    while at < piece.len() {
        let scanned = frames::scan(framing, &piece[at..], carry);
        framing = scanned.framing;
        if !matches!(scanned.report, Report::Nothing) {
            reports = reports.wrapping_add(1);
        }
        if scanned.consumed == 0 {
            return None;
        }
        at += scanned.consumed;
    }
    Some(Tally { framing, reports })
}

// A proved loop has to end, and nothing says that the input does. So the loop counts its turns, up to
// a number that no run uses up.
fn count(rt: &HostRuntime) -> Run {
    let mut piece = [0u8; 65536];
    let mut carry = [0u8; Framing::TEXT_LIMIT];
    let mut tally = Tally {
        framing: Framing::Plain,
        reports: 0,
    };
    for _ in 0..u64::MAX {
        let Some(n) = streams::read(rt.stdin(), &mut piece) else {
            return Run::NotRead;
        };
        if n == 0 {
            break;
        }
        let Some(next) = scan_all(tally, &piece[..n], &mut carry) else {
            return Run::Stuck;
        };
        tally = next;
    }
    Run::Well(rt.stdout()).number(tally.reports).text(b"\n")
}

fn main(rt: HostRuntime) {
    count(&rt).end(rt.stderr(), b"scan_bench");
}
