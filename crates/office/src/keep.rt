// What `desk say` writes: the line of a call behind the journal's others, and what was cut short
// into a file beside it.
use crate::failure::is_done;
use crate::folder::sync_folder;
use crate::journal::say_cut;
use crate::name::{NAME, beside};
use listing::written::{WRITTEN, line_text};
use std::fs::OpenFile;
use std::io::{Error, Seek, SeekFrom, Write};
use std::rt::Files;
use system::{create, fail, got, is_missing, open_append, open_update, say_of, say_pieces};
use wording::line::line_in;

// The journal open for reading and writing, made where it is missing; none where it cannot be,
// which is said.
pub(crate) fn open_journal<R: Files>(files: &R, name: &[u8]) -> Option<R::File> {
    got(name, open_or_make(files, name))
}

fn open_or_make<R: Files>(files: &R, name: &[u8]) -> Result<R::File, Error> {
    match open_update(files, name) {
        Err(error) if is_missing(&error) => {
            create(files, name)?;
            open_update(files, name)
        }
        open => open,
    }
}

// Puts bytes and a newline behind what an open file has, and on its device.
fn put(file: &mut (impl Write + OpenFile), bytes: &[u8]) -> Result<(), Error> {
    file.write_all(bytes)?;
    file.write_all(b"\n")?;
    file.sync_all()
}

fn put_new(files: &impl Files, name: &[u8], bytes: &[u8]) -> Result<(), Error> {
    let mut made = create(files, name)?;
    put(&mut made, bytes)
}

// The same of a file by its name, and whether it is done; what failed is said. One that is missing
// is made, and its name put on its device too.
fn put_aside(files: &impl Files, name: &[u8], bytes: &[u8]) -> bool {
    match open_append(files, name) {
        Ok(mut file) => is_done(name, put(&mut file, bytes)),
        Err(error) if is_missing(&error) => {
            is_done(name, put_new(files, name, bytes)) && sync_folder(files, name)
        }
        Err(error) => {
            fail(name, &error);
            false
        }
    }
}

// Cuts the journal to so many bytes, on its device.
fn cut(journal: &impl OpenFile, bytes: u64) -> Result<(), Error> {
    journal.set_len(bytes)?;
    journal.sync_all()
}

// Whether the journal still has so many bytes, as when it was read; else that is said. It is another
// than that where somebody deleted our lock, or wrote without one.
fn is_as_read(journal: &mut impl Seek, name: &[u8], bytes: u64) -> bool {
    if journal
        .seek(SeekFrom::End(0))
        .is_ok_and(|size| size == bytes)
    {
        return true;
    }
    say_of(
        name,
        "the journal was changed while it was read: say the call again",
    );
    false
}

// Takes what was cut short off the journal's end, once it is put aside in a file beside it.
pub(crate) fn set_aside<R: Files>(
    files: &R,
    journal: &mut R::File,
    name: &[u8],
    bytes: u64,
    rest: &[u8],
) -> bool {
    let all = bytes.saturating_add(rest.len() as u64);
    let mut aside = [0u8; NAME];
    let aside = beside(name, b".cut", &mut aside);
    is_as_read(journal, name, all)
        && put_aside(files, aside, rest)
        && is_done(name, cut(journal, bytes))
}

// Says that line `number` was cut short, and where it was put aside.
pub(crate) fn say_aside(name: &[u8], number: u64) {
    let mut aside = [0u8; NAME];
    let aside = beside(name, b".cut", &mut aside);
    say_cut(number);
    say_pieces(&[b"it was put aside in ", aside]);
}

// Why the line of a call is not kept.
#[derive(Clone, Copy)]
pub(crate) enum Unkept {
    // The journal is as it was; what failed was said.
    Failed,
    // The line could not be written, nor the journal be cut back, so that some of it may stand.
    Unsure,
}

// Puts a line at the journal's end, wherever that is, and on its device.
fn append(files: &impl Files, name: &[u8], line: &[u8]) -> Result<(), Error> {
    let mut journal = open_append(files, name)?;
    journal.write_all(line)?;
    journal.sync_all()
}

// Puts a line behind the journal's first bytes, which are all of it. Where it cannot be on its
// device the journal is cut back to them.
fn append_or_cut<R: Files>(
    files: &R,
    journal: &mut R::File,
    name: &[u8],
    bytes: u64,
    line: &[u8],
) -> Result<(), Unkept> {
    if !is_as_read(journal, name, bytes) {
        Err(Unkept::Failed)
    } else if is_done(name, append(files, name, line)) {
        Ok(())
    } else if is_done(name, cut(journal, bytes)) {
        Err(Unkept::Failed)
    } else {
        Err(Unkept::Unsure)
    }
}

// Keeps the line of a call behind the journal's first bytes, written anew. A journal's first line
// is kept once the journal's name is on its device.
pub(crate) fn keep<R: Files>(
    files: &R,
    journal: &mut R::File,
    name: &[u8],
    bytes: u64,
    line: &[u8],
) -> Result<(), Unkept> {
    if bytes == 0 && !sync_folder(files, name) {
        return Err(Unkept::Failed);
    }
    let mut text = [0u8; WRITTEN];
    let n = line_text(line_in(line), &mut text);
    append_or_cut(files, journal, name, bytes, &text[..n])
}
