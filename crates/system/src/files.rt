// Files by name. A name is given as bytes, and std takes names that are UTF-8 alone: another is
// refused as such.
ghost use Rattle.std.specs.Prelude.{◌≡◌, ◌↔◌, IsOk, IfOk, OnOk, IsUtf8};
ghost use Rattle.io.specs.Counts.{IsPrefixLen};

use crate::errors::got;
use std::fs::OpenOptions;
use std::io::Read;
use std::rt::Files;
use std::{fs, io};

// Linux's number for bytes that are no text.
const EILSEQ: i32 = 84;

// A name as std takes it.
fn name_text(name: &[u8]) -> io::Result<&str>
    ensures value { IfOk result (λ text. text.now ≡ name.now) }
    ensures variant { IsOk result ↔ IsUtf8 name.now }
{
    std::str::from_utf8(name).map_err(|_| io::Error::from_raw_os_error(EILSEQ))
}

// Opens a file for reading.
pub fn open_read<R: Files>(files: &R, name: &[u8]) -> io::Result<R::File>
    ensures { OnOk result (IsUtf8 name.now) }
{
    OpenOptions::new().read(true).open(files, name_text(name)?)
}

// The file of this name, open for reading; where it cannot be, that is said.
pub fn opened<R: Files>(files: &R, name: &[u8]) -> Option<R::File> {
    got(name, open_read(files, name))
}

// Opens a file for reading and writing and leaves its bytes as they are.
pub fn open_update<R: Files>(files: &R, name: &[u8]) -> io::Result<R::File>
    ensures { OnOk result (IsUtf8 name.now) }
{
    OpenOptions::new()
        .read(true)
        .write(true)
        .open(files, name_text(name)?)
}

// Opens a file for appending: what is written lands at its end, wherever that is by then.
pub fn open_append<R: Files>(files: &R, name: &[u8]) -> io::Result<R::File>
    ensures { OnOk result (IsUtf8 name.now) }
{
    OpenOptions::new()
        .append(true)
        .open(files, name_text(name)?)
}

// Makes a file and opens it for writing; where the name is taken, by a link too, that is an error.
pub fn create<R: Files>(files: &R, name: &[u8]) -> io::Result<R::File>
    ensures { OnOk result (IsUtf8 name.now) }
{
    OpenOptions::new()
        .write(true)
        .create_new(true)
        .open(files, name_text(name)?)
}

// Takes a file's name away.
pub fn remove(files: &impl Files, name: &[u8]) -> io::Result<()>
    ensures { OnOk result (IsUtf8 name.now) }
{
    fs::remove_file(files, name_text(name)?)
}

fn link_at(files: &impl Files, name: &[u8]) -> io::Result<bool> {
    let found = fs::symlink_metadata(files, name_text(name)?)?;
    Ok(found.is_symlink())
}

// Whether a name is a link's; not where nothing can be learnt of it.
pub fn is_link(files: &impl Files, name: &[u8]) -> bool {
    link_at(files, name).unwrap_or(false)
}

// Reads until buf is full, the file ends or a read fails, and gives how many bytes it put at the
// start of buf.
pub fn read_full(file: &mut impl Read, buf: &mut [u8]) -> usize
    ensures { IsPrefixLen result buf.new }
{
    // By hand: no read of std's counts up to an error.
    let mut done = 0usize;
    while done < buf.len() {
        match file.read(&mut buf[done..]) {
            Ok(0) => return done,
            Ok(n) => done += n,
            Err(_) => return done,
        }
    }
    done
}
