// What was said of the session's files. A file is named by its place in the sender; a place outside has
// none.
use crate::report;
use sending::{FileStage, SentFile, Transfer};

// Of a file: its number among the arguments, and which line was said of it last.
#[derive(Clone, Copy)]
pub struct Note {
    pub number: usize,
    pub said: Said,
}

#[derive(Clone, Copy)]
pub enum Said {
    Nothing,
    // That it is whole.
    Whole,
    Other,
}

#[derive(Clone, Copy)]
pub struct Notes {
    pub files: [Note; Transfer::FILES],
}

impl Notes {
    pub const NONE: Notes = Notes {
        files: [Note {
            number: 0,
            said: Said::Nothing,
        }; Transfer::FILES],
    };

    // A file begins, of number k among the arguments.
    pub(crate) fn begun(mut self, i: usize, k: usize) -> Notes {
        if i < Transfer::FILES {
            self.files[i].number = k;
        }
        self
    }

    // A file's number among the arguments.
    pub(crate) fn number_at(&self, i: usize) -> Option<usize> {
        self.files.get(i).map(|note| note.number)
    }

    // A line was said of a file, that it is whole or another.
    pub(crate) fn said(mut self, i: usize, said: Said) -> Notes {
        if i < Transfer::FILES {
            self.files[i].said = said;
        }
        self
    }

    // A file of which nothing was said is whole once an OK closed it; at the end of the session it is unsent
    // where none did.
    pub(crate) fn settled(self, rt: &HostRuntime, i: usize, file: SentFile, is_end: bool) -> Notes {
        let Some(note) = self.files.get(i) else {
            return self;
        };
        if matches!(note.said, Said::Nothing) && settle(rt, file, note.number, is_end) {
            return self.said(i, Said::Whole);
        }
        self
    }

    // Settles every file at the end.
    pub(crate) fn settled_all(self, rt: &HostRuntime, files: [SentFile; Transfer::FILES]) -> Notes {
        let mut notes = self;
        for (i, file) in files.iter().enumerate() {
            notes = notes.settled(rt, i, *file, true);
        }
        notes
    }

    // How many files are whole.
    pub(crate) fn whole(&self) -> usize {
        self.files
            .iter()
            .filter(|note| matches!(note.said, Said::Whole))
            .count()
    }
}

// Says of the file with number k what is to be said, and answers whether it is whole.
fn settle(rt: &HostRuntime, file: SentFile, k: usize, is_end: bool) -> bool {
    match file.stage {
        FileStage::Free => false,
        FileStage::Closed => {
            report::counted(rt, b"whole ", file.sent, Some(k));
            true
        }
        FileStage::Sending | FileStage::Sent | FileStage::Stopped => {
            if is_end {
                report::plain(rt, b"unsent", Some(k));
            }
            false
        }
    }
}
