// How a session stands between two commands.
use crate::notes::Notes;
use sender_status::files::file_at;
use sender_status::stages;
use sending::{Sender, SentFile};

// The sender, what was said of its files, and the current one. Whether the latest command is answered, and
// whether the session goes on: two flags, since after a call each of the four cases is met.
#[derive(Clone, Copy)]
pub struct Course {
    pub sender: Sender,
    pub notes: Notes,
    pub current: Current,
    pub is_answered: bool,
    pub is_going: bool,
}

// The current file: its place, its size, and how long the piece is that is written next.
#[derive(Clone, Copy)]
pub struct Current {
    pub place: usize,
    pub size: u64,
    pub piece: usize,
}

impl Course {
    // Nothing is written yet.
    pub(crate) fn fresh() -> Course {
        Course {
            sender: Sender::fresh(),
            notes: Notes::NONE,
            current: Current {
                place: 0,
                size: 0,
                piece: 0,
            },
            is_answered: true,
            is_going: true,
        }
    }

    // Whether the line is read on: the latest command is not answered, or it was send and the session is not
    // yet allowed.
    pub(crate) fn is_waiting(&self) -> bool {
        self.is_going && (!self.is_answered || stages::is_waiting(self.sender.transfer.stage))
    }

    // Whether the current file takes another piece.
    pub(crate) fn is_sending(&self) -> bool {
        self.is_going && stages::is_sending(self.file().stage)
    }

    // The sender's record of the current file.
    pub(crate) fn file(&self) -> SentFile {
        file_at(self.sender.transfer, self.current.place)
    }

    // The current file's number among the arguments.
    pub(crate) fn number(&self) -> Option<usize> {
        self.notes.number_at(self.current.place)
    }
}
