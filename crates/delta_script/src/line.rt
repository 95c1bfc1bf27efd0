// The lines that are printed.
use delta::{Entry, Measured, Operation, Refusal, Signature, Span, Step};
use script_parts::sum;
use streams::Run;

// The refusal's number, or 0, the block size and the number of blocks.
pub(crate) fn header(run: Run, signed: Result<Signature, Refusal>) -> Run {
    let begun = run.text(b"h ");
    match signed {
        Ok(s) => begun
            .text(b"0 ")
            .number(s.block_size as usize)
            .text(b" ")
            .number(s.blocks)
            .text(b"\n"),
        Err(why) => refusal(begun, why).text(b" 0 0\n"),
    }
}

// The refusal's number, or 0, and an entry.
pub(crate) fn block(run: Run, found: Result<Option<Entry>, Refusal>) -> Run {
    let begun = run.text(b"b ");
    match found {
        Ok(Some(e)) => entry(begun.text(b"0 "), e),
        Ok(None) => begun.text(b"0 none\n"),
        Err(why) => refusal(begun, why).text(b" none\n"),
    }
}

fn entry(run: Run, e: Entry) -> Run {
    let two = run
        .number(e.index as usize)
        .text(b" ")
        .number(e.weak as usize);
    two.text(b" ").number(e.strong as usize).text(b"\n")
}

// An operation, 0 at the end, or the refusal's number.
pub(crate) fn step(run: Run, step: Result<Step, Refusal>) -> Run {
    match step {
        Ok(s) => operation(run, s.operation),
        Err(why) => refusal(run, why),
    }
}

fn operation(run: Run, operation: Operation) -> Run {
    match operation {
        Operation::End => run.text(b"0"),
        Operation::Block(i) => run.text(b"block ").number(i as usize),
        Operation::Data(span) => pair(run.text(b"data "), span.start, span.len),
        Operation::Hash(span) => pair(run.text(b"hash "), span.start, span.len),
        Operation::Blocks(i, n) => pair(run.text(b"blocks "), i as usize, n as usize),
    }
}

fn pair(run: Run, a: usize, b: usize) -> Run {
    run.number(a).text(b" ").number(b)
}

fn refusal(run: Run, why: Refusal) -> Run {
    run.number(usize::from(why.number()))
}

// The refusal's number, or 0, the length and the hash.
pub(crate) fn measured(run: Run, measured: Result<Measured, Refusal>) -> Run {
    match measured {
        Ok(m) => hash(run.text(b"0 ").number(m.length).text(b" "), m.checksum),
        Err(why) => refusal(run, why).text(b" 0 -"),
    }
}

fn hash(run: Run, hash: Option<Span>) -> Run {
    match hash {
        Some(span) => run.number(span.start).text(b":").number(span.len),
        None => run.text(b"-"),
    }
}

// The same, and the sum of the whole output.
pub(crate) fn applied(run: Run, m: Result<Measured, Refusal>, out: &[u8]) -> Run {
    measured(run.text(b"a "), m)
        .text(b" ")
        .number(sum(out))
        .text(b"\n")
}

// Bytes in lower-case hex, `-` for none.
pub(crate) fn made(run: Run, bytes: &[u8]) -> Run {
    let begun = run.text(b"x ");
    if bytes.is_empty() {
        begun.text(b"-\n")
    } else {
        begun.hex(bytes).text(b"\n")
    }
}

pub(crate) fn window(run: Run, sum: u32) -> Run {
    run.text(b"w ").number(sum as usize).text(b"\n")
}

pub(crate) fn rolled(run: Run, sum: Option<u32>) -> Run {
    match sum {
        Some(sum) => run.text(b"l ").number(sum as usize).text(b"\n"),
        None => run.text(b"l none\n"),
    }
}
