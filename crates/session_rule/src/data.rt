// The commands data and end_data: the parts of a file.
ghost use Rattle.std.specs.Prelude.{cond, ◌≡◌};
ghost use Rattle.protocol.specs.Table.{file_at, is_started};
ghost use Rattle.protocol.specs.Files.{ignored, write_due, part_asked, data_of};

use crate::changes::{asks, ignored};
use crate::counts::{ends_short, passes_declared, passes_limit};
use crate::files::{file_at, find_file, is_started};
use crate::settling::fail_file;
use protocol::{Change, Due, FileRecord, Session, Status};

// A part of n bytes, the last one or not, for the file with the id.
#[tactic(auto, unfolding(protocol::specs::Files::data_of))]
pub(crate) fn part(session: Session, last: bool, id: &[u8], n: usize) -> Change
    ensures { result ≡ data_of session last id.now n }
{
    match find_file(&session.files, id) {
        None => ignored(),
        Some(j) => part_at(session, j, last, n),
    }
}

// The file at place j must be started.
fn part_at(session: Session, j: usize, last: bool, n: usize) -> Change
    ensures { result ≡ cond (is_started (file_at session j)) (part_asked session j last n) ignored }
{
    let file = file_at(&session.files, j);
    if is_started(file.state) {
        ask_part(session, j, file, last, n)
    } else {
        ignored()
    }
}

// Neither the part nor the file with it may be too long, and the last part may not leave the file too
// short; else its write is asked.
#[tactic(auto, unfolding(protocol::specs::Files::part_asked))]
fn ask_part(session: Session, j: usize, file: FileRecord, last: bool, n: usize) -> Change
    requires { file ≡ file_at session j }
    ensures { result ≡ part_asked session j last n }
{
    if n > FileRecord::PART_LIMIT {
        return fail_file(session, j, Status::Einval);
    }
    if passes_limit(file.count, n) {
        return fail_file(session, j, Status::Efbig);
    }
    let count = file.count + n as u64;
    if passes_declared(file.declared, count) {
        return fail_file(session, j, Status::Efbig);
    }
    if ends_short(last, file.declared, count) {
        return fail_file(session, j, Status::Einval);
    }
    asks(write_due(last, j, n))
}

fn write_due(last: bool, j: usize, n: usize) -> Due
    ensures { result ≡ write_due last j n }
{
    if last {
        Due::WriteLast(j, n)
    } else {
        Due::Write(j, n)
    }
}
