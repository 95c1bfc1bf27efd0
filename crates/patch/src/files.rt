// The files that the arguments name. Where one cannot be read or written, that is said.
use std::fs::{File, OpenOptions};
use std::io::Write;
use std::{fs, io};
use streams::{fill, open_read, path_text, say_error};

// Where the new file's name stands among the arguments.
const NEW: usize = 4;

// Whether argument i is a word.
pub(crate) fn is_word(rt: &HostRuntime, i: usize, word: &[u8]) -> bool {
    let mut room = [0u8; 4096];
    argument(rt, i, &mut room) == word
}

// Argument i, which stands at the start of the room then; nothing where it cannot be had.
fn argument<'a>(rt: &HostRuntime, i: usize, room: &'a mut [u8; 4096]) -> &'a [u8] {
    let n = streams::argument(rt, i, room).unwrap_or(0);
    octets::part(room, 0, n)
}

// Reads the file that argument i names, up to the end of the buffer.
pub(crate) fn read(rt: &HostRuntime, i: usize, buf: &mut [u8]) -> Option<usize> {
    let mut room = [0u8; 4096];
    let path = argument(rt, i, &mut room);
    match read_named(rt, path, buf) {
        Ok(n) => Some(n),
        Err(error) => {
            say_error(rt.stderr(), path, error);
            None
        }
    }
}

fn read_named(rt: &HostRuntime, path: &[u8], buf: &mut [u8]) -> io::Result<usize> {
    let mut file = open_read(rt, path)?;
    fill(&mut file, buf)
}

// Writes the new file to its place; whether all was written. An error is said where its file's name is known,
// and none is left to hand on.
pub(crate) fn deliver(rt: &HostRuntime, new: &[u8], to_file: bool) -> bool {
    if to_file {
        return replace(rt, new);
    }
    match Print::write_all(rt, new) {
        Ok(()) => true,
        Err(error) => {
            say_error(rt.stderr(), b"standard output", error);
            false
        }
    }
}

// Under a temporary name beside it first, so that the file is never seen in part. A file that has that
// name already is left alone.
fn replace(rt: &HostRuntime, new: &[u8]) -> bool {
    let mut room = [0u8; 4096];
    let path = argument(rt, NEW, &mut room);
    let mut name_room = [0u8; 4096];
    let len = put_name(path, &mut name_room).unwrap_or(0);
    let name = octets::part(&name_room, 0, len);
    match create(rt, name) {
        Ok(file) => write_and_rename(rt, file, new, name, path),
        Err(error) => {
            say_error(rt.stderr(), name, error);
            false
        }
    }
}

fn create(rt: &HostRuntime, name: &[u8]) -> io::Result<File> {
    OpenOptions::new()
        .write(true)
        .create_new(true)
        .open(rt, path_text(name)?)
}

// Puts the temporary name, and answers how long it is; none where it is too long.
fn put_name(path: &[u8], name: &mut [u8]) -> Option<usize> {
    let n = octets::copy_at(path, name, 0)?;
    octets::copy_at(b".part", name, n)
}

fn write_and_rename<'a>(
    rt: &HostRuntime,
    file: File,
    new: &'a [u8],
    name: &'a [u8],
    path: &'a [u8],
) -> bool {
    match finish(rt, file, new, name, path) {
        Ok(()) => true,
        Err(error) => {
            say_error(rt.stderr(), path, error);
            remove(rt, name);
            false
        }
    }
}

// What a close alone would tell, the library does not: so the system is asked for all of it before.
fn finish<'a>(
    rt: &HostRuntime,
    file: File,
    new: &'a [u8],
    name: &'a [u8],
    path: &'a [u8],
) -> io::Result<()> {
    put(file, new)?;
    fs::rename(rt, path_text(name)?, path_text(path)?)
}

fn put(mut file: File, new: &[u8]) -> io::Result<()> {
    file.write_all(new)?;
    file.sync_all()
}

fn remove(rt: &HostRuntime, name: &[u8]) {
    if let Ok(text) = path_text(name) {
        let _ = fs::remove_file(rt, text);
    }
}
