// The lines that are printed.
use script_parts::list_sum;
use streams::Run;
use windows::{Line, Refusal};

// The refusal's number, or 0, how many lines the list has, the sum of the whole list, and each line.
pub(crate) fn tell(run: Run, compared: Result<usize, Refusal>, list: &[usize]) -> Run {
    match compared {
        Err(refusal) => {
            let refused = run.number(usize::from(refusal.number())).text(b" 0");
            sum_after(refused, list)
        }
        Ok(n) => {
            let counted = run.text(b"0 ").number(n);
            lines(sum_after(counted, list), list, n)
        }
    }
}

fn sum_after(run: Run, list: &[usize]) -> Run {
    run.text(b" ").number(list_sum(list)).text(b"\n")
}

// The six numbers of each of the first n lines.
fn lines(mut run: Run, list: &[usize], n: usize) -> Run {
    for &[number, offset, id, id_len, file, file_len] in list
        .as_chunks::<{ Line::LEN }>()
        .0
        .iter()
        .take(n)
    {
        let found = run.number(number).text(b" ").number(offset);
        run = place(place(found, id, id_len), file, file_len).text(b"\n");
    }
    run
}

// A start and a length.
fn place(run: Run, start: usize, len: usize) -> Run {
    run.text(b" ").number(start).text(b" ").number(len)
}
