// What a hear tells: which file it is of, what is said of it, and what becomes of the session.
use crate::course::Course;
use crate::report;
use command::Place;
use sender_status::files::file_at;
use sending::News;

// The place of the file that it is of, if it is of one.
pub(crate) fn place(news: News) -> Option<usize> {
    match news {
        News::Differs(i, _) | News::FileStopped(i, _) => Some(i),
        _ => None,
    }
}

// Bad news are said, of a file or of the session. A status stands in the scratch.
pub(crate) fn tell(rt: &HostRuntime, course: Course, news: News, scratch: &[u8]) {
    match news {
        News::Differs(i, size) => {
            let sent = file_at(course.sender.transfer, i).sent;
            report::differs(rt, sent, size, course.notes.number_at(i));
        }
        News::FileStopped(i, at) => stopped(rt, scratch, at, course.notes.number_at(i)),
        News::SessionStopped(at) => stopped(rt, scratch, at, None),
        _ => {}
    }
}

fn stopped(rt: &HostRuntime, scratch: &[u8], at: Place, file: Option<usize>) {
    report::stopped(rt, octets::part(scratch, at.start, at.len), file);
}

// Whether the latest command is answered: only a status of the session does that.
pub(crate) fn is_answer(news: News) -> bool {
    !matches!(news, News::Nothing | News::Refused(_) | News::Ignored)
}

// Whether the session is stopped.
pub(crate) fn is_stop(news: News) -> bool {
    matches!(news, News::SessionStopped(_))
}
