// A line for each operation of a delta.
use crate::line;
use delta::Operation;
use streams::Run;

// Each operation takes a byte at least, so this ends long before the turns do.
pub(crate) fn operations(mut run: Run, delta: &[u8]) -> Run {
    let mut at = 0;
    for _ in 0..u64::MAX {
        let step = delta::operation_at(delta, at);
        run = line::step(run.text(b"i "), step).text(b"\n");
        match step {
            Ok(s) if !matches!(s.operation, Operation::End) => at = s.next,
            _ => break,
        }
    }
    run
}
