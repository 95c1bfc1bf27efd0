// A delta's operations, one to a line of standard output.
use crate::report;
use delta::Operation;
use streams::Run;

// Each operation takes a byte at least, so this ends long before the turns do.
pub(crate) fn show(rt: &HostRuntime, delta: &[u8]) {
    let mut run = Run::Well(rt.stdout());
    let mut at = 0;
    for _ in 0..u64::MAX {
        match delta::operation_at(delta, at) {
            Ok(step) if !matches!(step.operation, Operation::End) => {
                run = line(run, step.operation);
                at = step.next;
            }
            Ok(_) => break,
            Err(why) => {
                report::refused(rt.stderr(), why);
                break;
            }
        }
    }
    run.end(rt.stderr(), b"patch");
}

fn line(run: Run, operation: Operation) -> Run {
    match operation {
        Operation::End => run,
        Operation::Block(i) => run.text(b"block ").number(i as usize).text(b"\n"),
        Operation::Data(span) => pair(run.text(b"data "), span.start, span.len),
        Operation::Hash(span) => pair(run.text(b"hash "), span.start, span.len),
        Operation::Blocks(i, more) => pair(run.text(b"blocks "), i as usize, more as usize),
    }
}

fn pair(run: Run, a: usize, b: usize) -> Run {
    run.number(a).text(b" ").number(b).text(b"\n")
}
