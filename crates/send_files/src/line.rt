// The replies, from standard input.
use crate::course::Course;
use crate::notes::Said;
use crate::{news, report};
use command::Command;
use frames::Framing;
use sending::News;
use streams::Run;

// What was read, of which the bytes from `at` to `end` are not yet heard, and the carry that hears are lent.
// A program has fixed memory too, so it is an array with these places.
#[derive(Drop)]
pub struct Line {
    input: [u8; 4096],
    at: usize,
    end: usize,
    carry: [u8; Framing::TEXT_LIMIT],
}

impl Line {
    pub(crate) fn fresh() -> Line {
        Line {
            input: [0; 4096],
            at: 0,
            end: 0,
            carry: [0; Framing::TEXT_LIMIT],
        }
    }

    // Reads until the latest command is answered or the session is over. A proved loop has to end, and nothing
    // says that an answer comes: so its turns are counted, up to a number that no run uses up.
    pub(crate) fn wait(&mut self, rt: &HostRuntime, course: Course) -> Course {
        let mut next = course;
        for _ in 0..u64::MAX {
            if !next.is_waiting() {
                break;
            }
            next = self.turn(rt, next);
        }
        next
    }

    // What was read is heard, one text at a time, before more is read: the next command's answer may stand
    // behind this one's.
    fn turn(&mut self, rt: &HostRuntime, course: Course) -> Course {
        if self.at < self.end {
            return self.hear(rt, course);
        }
        self.at = 0;
        self.end = read(rt, &mut self.input);
        Course {
            is_going: self.end > 0,
            ..course
        }
    }

    // What of a piece is not consumed stands at its end. Not inlined, so that a line that ends does not need
    // the stack of a hear.
    #[inline(never)]
    fn hear(&mut self, rt: &HostRuntime, course: Course) -> Course {
        let piece = octets::part(&self.input, self.at, self.end.saturating_sub(self.at));
        let mut scratch = [0u8; Command::SCRATCH_ROOM];
        let heard = sender::hear(course.sender, piece, &mut self.carry, &mut scratch);
        if heard.consumed == 0 {
            report::ended(rt, Run::Stuck);
            return Course {
                is_going: false,
                ..course
            };
        }
        let left = piece.len().saturating_sub(heard.consumed);
        self.at = self.end.saturating_sub(left);
        let next = Course {
            sender: heard.sender,
            ..course
        };
        heed(rt, next, heard.news, &scratch)
    }
}

// How many bytes were read, and 0 where the line ended or was not read, which is said.
fn read(rt: &HostRuntime, input: &mut [u8]) -> usize {
    let Some(n) = streams::read(rt.stdin(), input) else {
        report::ended(rt, Run::NotRead);
        return 0;
    };
    if n == 0 {
        report::ended(rt, Run::Well(rt.stdout()));
    }
    n
}

// What is told is said, where it is bad news, and noted.
fn heed(rt: &HostRuntime, course: Course, news: News, scratch: &[u8]) -> Course {
    news::tell(rt, course, news, scratch);
    let mut next = course;
    if let Some(i) = news::place(news) {
        next.notes = course.notes.said(i, Said::Other);
    }
    next.is_answered = course.is_answered || news::is_answer(news);
    next.is_going = !news::is_stop(news);
    next
}
