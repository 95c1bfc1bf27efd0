// A local file, looked at for the listing.
use crate::{arguments, report};
use protocol::FileRecord;
use std::fs::File;
use std::io;
use streams::open_read;

// Opens argument k's file.
pub(crate) fn open(rt: &HostRuntime, k: usize) -> io::Result<File> {
    let mut path = [0u8; 4096];
    let n = arguments::read(rt, k, &mut path);
    open_read(rt, octets::part(&path, 0, n))
}

// The size that is listed, 0 for none as an entry has it; None where the file cannot be opened.
pub(crate) fn look(rt: &HostRuntime, k: usize) -> Option<u64> {
    match open(rt, k) {
        Ok(mut file) => Some(listed_size(&mut file)),
        Err(_) => {
            report::file(rt, b"cannot open ", k);
            None
        }
    }
}

// A client asks for a longer file compressed where it knows its size, so that none is listed. One that
// cannot be read has none either: its request fails.
fn listed_size(file: &mut File) -> u64 {
    let mut start = [0u8; FileRecord::PART_LIMIT + 1];
    match streams::read_all_from(file, &mut start) {
        Some(n) if n <= FileRecord::PART_LIMIT => n as u64,
        _ => 0,
    }
}
