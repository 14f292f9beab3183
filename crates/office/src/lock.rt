// The journal's lock: a file beside it that only one can make at a time, and that says who made it.
ghost use Rattle.std.specs.Prelude.{◌≤◌, length};
ghost use Rattle.io.specs.Counts.{IsPrefixLen};

use crate::failure::is_done;
use std::io::Write;
use std::rt::{Clock, Files, Process};
use system::{
    create, fail, host_name, is_missing, is_taken, join, newline_in, open_read, process_number,
    read_full, remove, rest, say, say_of, say_pieces, written,
};

// How often the lock is tried for, with rests of two milliseconds: five seconds and more.
const TRIES: u32 = 2500;

// The most bytes of what is signed into a lock: a host's name has at most 255.
pub(crate) const LINE: usize = 300;

// What we sign into a lock: the host and the process.
pub(crate) fn signature<'a>(
    files: &impl Files,
    process: Process,
    text: &'a mut [u8; LINE],
) -> &'a [u8]
    ensures { length result.now ≤ length text.old }
{
    let mut host = [0u8; 256];
    let h = host_name(files, &mut host);
    let number = process_number(process);
    let n = join(text, 0, b"host ");
    let n = join(text, n, &host[..h]);
    let n = n + written(format_args!(" process {number}\n"), &mut text[n..]);
    &text[..n]
}

// A byte as it is told: anybody can have written it, and a terminal obeys some bytes.
fn plain(byte: u8) -> u8 {
    match byte {
        b' '..=b'~' => byte,
        _ => b'?',
    }
}

// What is signed into a lock, 300 bytes of it at most; nothing where it cannot be read.
fn signed_into(files: &impl Files, lock: &[u8], who: &mut [u8; LINE]) -> usize
    ensures { IsPrefixLen result who.new }
{
    let Ok(mut file) = open_read(files, lock) else {
        return 0;
    };
    read_full(&mut file, who)
}

// Its first line, as it is told.
fn told_of<'a>(files: &impl Files, lock: &[u8], who: &'a mut [u8; LINE]) -> &'a [u8]
    ensures { length result.now ≤ length who.old }
{
    let n = signed_into(files, lock, who);
    let size = newline_in(&who[..n]).unwrap_or(n);
    for byte in &mut who[..size] {
        *byte = plain(*byte);
    }
    &who[..size]
}

// Says who has the lock, as far as it is signed, and how to lift it.
fn say_held(files: &impl Files, lock: &[u8]) {
    say_of(lock, "the journal is in use; its lock was made by");
    let mut who = [0u8; LINE];
    let who = told_of(files, lock, &mut who);
    if who.is_empty() {
        say("a process that did not sign it");
    } else {
        say_pieces(&[who]);
    }
    say("Try again; if that process no longer runs, delete the lock and try again.");
}

fn say_lifted() {
    say(
        "the lock was lifted by somebody else meanwhile: \
         see that the journal's last lines are as they were answered",
    );
}

// Deletes the lock; where that fails it is said, and what that means.
fn lift(files: &impl Files, lock: &[u8]) {
    let Err(error) = remove(files, lock) else {
        return;
    };
    fail(lock, &error);
    if is_missing(&error) {
        say_lifted();
    } else {
        say("the lock stands: delete it by hand");
    }
}

// Signs the lock that was made, at once, so that a stop leaves all of it or nothing; where that
// fails it is said, and the lock is lifted.
fn signed<R: Files>(files: &R, mut made: R::File, lock: &[u8], own: &[u8]) -> bool {
    let good = is_done(lock, made.write_all(own));
    if !good {
        lift(files, lock);
    }
    good
}

// Makes the lock's file and signs it, waiting a moment where another has it, and gives whether it is
// ours; what is in the way is said.
pub(crate) fn take(rt: &(impl Files + Clock), lock: &[u8], own: &[u8]) -> bool {
    for _ in 0..TRIES {
        match create(rt, lock) {
            Ok(made) => return signed(rt, made, lock, own),
            Err(error) if is_taken(&error) => rest(rt),
            Err(error) => {
                fail(lock, &error);
                return false;
            }
        }
    }
    say_held(rt, lock);
    false
}

// Whether the lock is signed, and otherwise than we signed it. One that cannot be read counts as not
// signed.
fn is_anothers(files: &impl Files, lock: &[u8], own: &[u8]) -> bool {
    let mut who = [0u8; LINE];
    let n = signed_into(files, lock, &mut who);
    n > 0 && &who[..n] != own
}

// Lifts the lock. One that is gone, or another's now, was lifted under us, when others could write
// too; another's stays.
pub(crate) fn give_back(files: &impl Files, lock: &[u8], own: &[u8]) {
    if is_anothers(files, lock, own) {
        say_lifted();
    } else {
        lift(files, lock);
    }
}
