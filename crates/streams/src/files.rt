// Files by their names.
ghost use Rattle.std.specs.Prelude.{◌≡◌, ◌↔◌, IfOk, IsOk, IsUtf8};

use std::fs::Files;
use std::{fs, io, str};

// The system's number for bytes that are no text.
const NO_TEXT: i32 = 84;

// Opens the file for reading.
pub fn open_read<R: Files>(files: &R, path: &[u8]) -> io::Result<R::File> {
    fs::open(files, path_text(path)?)
}

// A path as the library takes it. It takes no bytes that are not UTF-8.
pub fn path_text(path: &[u8]) -> io::Result<&str>
    ensures text { IfOk result (λ text. text.now ≡ path.now) }
    ensures taken { IsOk result ↔ IsUtf8 path.now }
{
    str::from_utf8(path).map_err(|_| io::Error::from_raw_os_error(NO_TEXT))
}
