// The commands: each is made by a call of the sender and written to standard output, or its refusal is
// said. Nothing is read here.
use crate::arguments::Argument;
use crate::course::{Course, Current};
use crate::source::Start;
use crate::{arguments, report};
use command::Command;
use command_writer::framed::FRAME_ROOM;
use sending::{Sender, Transfer, Wrote};
use streams::{Run, put_number};

// The session begins.
pub(crate) fn send(rt: &HostRuntime) -> Course {
    let mut id = [0u8; 4096];
    let n = arguments::read(rt, Argument::Session, &mut id);
    let mut out = [0u8; FRAME_ROOM];
    let wrote = sender::send(Sender::fresh(), octets::part(&id, 0, n), &mut out);
    after(rt, Course::fresh(), wrote, &out, None, true)
}

// The file of number k among the arguments, as it starts. Its id is the number of file commands with this
// one. Where it is refused, as a 33rd is, the session goes on without it.
pub(crate) fn file(rt: &HostRuntime, course: Course, k: usize, start: Start) -> Course {
    let place = course.sender.transfer.count.min(Transfer::FILES);
    let mut id = [0u8; 20];
    let digits = put_number(1 + place as u64, &mut id);
    let mut name = [0u8; Command::SCRATCH_ROOM];
    let n = arguments::read(rt, Argument::Name(k), &mut name);
    let mut out = [0u8; FRAME_ROOM];
    let wrote = sender::file(
        course.sender,
        &id[..digits],
        octets::part(&name, 0, n),
        start.size,
        &mut out,
    );
    let next = Course {
        current: Current {
            place,
            size: start.size,
            piece: start.piece,
        },
        notes: course.notes.begun(place, k),
        ..course
    };
    after(rt, next, wrote, &out, Some(k), false)
}

// The next piece of the current file.
pub(crate) fn piece(rt: &HostRuntime, course: Course, bytes: &[u8], is_last: bool) -> Course {
    let mut out = [0u8; FRAME_ROOM];
    let wrote = sender::piece(course.sender, bytes, is_last, &mut out);
    after(rt, course, wrote, &out, course.number(), true)
}

// The session ends, if it goes on.
pub(crate) fn finish(rt: &HostRuntime, course: Course) -> Course {
    if !course.is_going {
        return course;
    }
    let mut out = [0u8; FRAME_ROOM];
    let wrote = sender::finish(course.sender, &mut out);
    after(rt, course, wrote, &out, None, true)
}

// After a call, of a file or the session: what it answered is put out, and a refusal waits for no answer. It
// may end the session.
fn after(
    rt: &HostRuntime,
    course: Course,
    wrote: Wrote,
    out: &[u8],
    file: Option<usize>,
    is_end: bool,
) -> Course {
    let is_going = match wrote.writing {
        Ok(n) => write(rt, octets::part(out, 0, n)),
        Err(number) => {
            report::counted(rt, b"refused ", u64::from(number), file);
            !is_end
        }
    };
    Course {
        sender: wrote.sender,
        is_answered: wrote.writing.is_err(),
        is_going,
        ..course
    }
}

// Whether the bytes were written; where not, that is said here, and no error is left to hand on.
fn write(rt: &HostRuntime, bytes: &[u8]) -> bool {
    let run = Run::Well(rt.stdout()).text(bytes);
    if !run.is_well() {
        report::ended(rt, run);
    }
    run.is_well()
}
