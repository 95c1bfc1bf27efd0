// The lines that are printed.
use recordings::{Mended, Refusal};
use script_parts::{list_sum, sum};
use streams::Run;

// The refusal's number, or 0, the bytes kept and the rows, the sums of the whole buffers, and a line for
// each row.
pub(crate) fn tell(
    run: Run,
    mended: Result<Mended, Refusal>,
    output: &[u8],
    list: &[usize],
) -> Run {
    match mended {
        Err(refusal) => {
            let refused = run.number(usize::from(refusal.number())).text(b" 0 0");
            sums(refused, output, list)
        }
        Ok(mended) => {
            let counted = run
                .text(b"0 ")
                .number(mended.kept)
                .text(b" ")
                .number(mended.rows);
            rows(sums(counted, output, list), list, mended.rows)
        }
    }
}

fn sums(run: Run, output: &[u8], list: &[usize]) -> Run {
    let first = run.text(b" ").number(sum(output));
    first.text(b" ").number(list_sum(list)).text(b"\n")
}

// Start, length and why, of the first n rows.
fn rows(mut run: Run, list: &[usize], n: usize) -> Run {
    for &[start, len, why] in list.as_chunks::<{ Mended::ROW }>().0.iter().take(n) {
        run = row(run, start, len, why);
    }
    run
}

fn row(run: Run, start: usize, len: usize, why: usize) -> Run {
    let first = run.number(start).text(b" ").number(len);
    first.text(b" ").number(why).text(b"\n")
}
