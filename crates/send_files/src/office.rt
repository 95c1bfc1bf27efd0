// The office's session: send, each file in turn, finish, and at the end what is left to say.
use crate::arguments::Argument;
use crate::course::Course;
use crate::line::Line;
use crate::notes::Said;
use crate::{arguments, commands, report, source};
use protocol::FileRecord;
use std::fs::File;
use streams::open_read;

// A piece of a file.
type Piece = [u8; FileRecord::PART_LIMIT];

// Nothing is read after finish: where the commit is done, no reply comes.
pub(crate) fn run(rt: &HostRuntime, files: usize) {
    let mut line = Line::fresh();
    let begun = line.wait(rt, commands::send(rt));
    let (sent, tried) = send_each(rt, begun, files, &mut line);
    let course = commands::finish(rt, sent);
    let notes = course.notes.settled_all(rt, course.sender.transfer.files);
    conclude(rt, notes.whole(), tried, files, course.is_going);
}

// Sends the files one after another, while the session goes on, and answers how many had their turn.
fn send_each(rt: &HostRuntime, begun: Course, files: usize, line: &mut Line) -> (Course, usize) {
    let mut course = begun;
    for k in 0..files {
        if !course.is_going {
            return (course, k);
        }
        course = file(rt, course, k, line);
    }
    (course, files)
}

// ---- A file.
fn file(rt: &HostRuntime, course: Course, k: usize, line: &mut Line) -> Course {
    let mut path = [0u8; 4096];
    let n = arguments::read(rt, Argument::Local(k), &mut path);
    match open_read(rt, octets::part(&path, 0, n)) {
        Ok(mut local) => opened(rt, course, k, &mut local, line),
        Err(_) => {
            report::plain(rt, b"unread", Some(k));
            course
        }
    }
}

// The first piece is read before the file command is written: a file that cannot be opened or read is
// passed over where nothing was written for it.
fn opened(rt: &HostRuntime, course: Course, k: usize, local: &mut File, line: &mut Line) -> Course {
    let mut piece = [0u8; FileRecord::PART_LIMIT];
    let Some(start) = source::begin(local, &mut piece) else {
        report::plain(rt, b"unread", Some(k));
        return course;
    };
    let begun = commands::file(rt, course, k, start);
    let written = write_pieces(rt, begun, k, local, &mut piece, line);
    // What is to be said of the file once its pieces are written.
    Course {
        notes: written
            .notes
            .settled(rt, written.current.place, written.file(), false),
        ..written
    }
}

// Reads the file command's answer, and writes the file's pieces, until the last is written, a status stops
// it or the session is over; none where the file command was refused. The turns are counted as those of
// `Line::wait` are.
fn write_pieces(
    rt: &HostRuntime,
    begun: Course,
    k: usize,
    local: &mut File,
    piece: &mut Piece,
    line: &mut Line,
) -> Course {
    let mut course = line.wait(rt, begun);
    for _ in 0..u64::MAX {
        if !course.is_sending() {
            break;
        }
        course = write_piece(rt, course, k, local, piece, line);
    }
    course
}

// The next piece is read before this one is written: this is the last where nothing follows.
fn write_piece(
    rt: &HostRuntime,
    course: Course,
    k: usize,
    local: &mut File,
    piece: &mut Piece,
    line: &mut Line,
) -> Course {
    let mut ahead = [0u8; FileRecord::PART_LIMIT];
    let Some(n) = streams::read_all_from(local, &mut ahead) else {
        return unread(rt, course, k);
    };
    report::progress(rt, course.file().sent, course.current.size, Some(k));
    let mut written = commands::piece(
        rt,
        course,
        octets::part(piece, 0, course.current.piece),
        n == 0,
    );
    written.current.piece = n;
    *piece = ahead;
    line.wait(rt, written)
}

// A file that cannot be read once it is begun ends the session, since a last piece would close it as whole.
fn unread(rt: &HostRuntime, course: Course, k: usize) -> Course {
    report::plain(rt, b"unread", Some(k));
    Course {
        notes: course.notes.said(course.current.place, Said::Other),
        is_going: false,
        ..course
    }
}

// ---- The end.
// The files from the first that had no turn are unsent. Whether finish was written is said, since nothing
// says what became of it.
fn conclude(rt: &HostRuntime, whole: usize, tried: usize, files: usize, is_finished: bool) {
    for k in tried..files {
        report::plain(rt, b"unsent", Some(k));
    }
    let finish: &[u8] = if is_finished {
        b"finish written: a commit that is done has no reply, so it is not confirmed here"
    } else {
        b"finish not written"
    };
    report::plain(rt, finish, None);
    report::last(rt, whole, files);
}
