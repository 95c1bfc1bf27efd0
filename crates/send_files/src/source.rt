// A local file.
use std::fs::File;
use std::io::{Seek, SeekFrom};

// A file that can be read: its size, and how many bytes its first piece has. The size is 0 where it cannot be
// told, as `sender::file` takes it.
#[derive(Clone, Copy)]
pub struct Start {
    pub size: u64,
    pub piece: usize,
}

// Takes the size, and reads the first piece; None where the file cannot be read. A file that has places is
// read from its start again; another, as a pipe, is read as it comes.
pub(crate) fn begin(file: &mut File, piece: &mut [u8]) -> Option<Start> {
    let end = file.seek(SeekFrom::End(0));
    if end.is_ok() {
        let Ok(0) = file.seek(SeekFrom::Start(0)) else {
            return None;
        };
    }
    let n = streams::read_all_from(file, piece)?;
    Some(Start {
        size: end.unwrap_or(0),
        piece: n,
    })
}
