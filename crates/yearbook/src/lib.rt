// Year files by name: one packed from the files of an installation, and what can be shown from one.
#![tactic(auto)]

ghost use Rattle.std.specs.Prelude.{◌≡◌, ◌+◌, ◌-◌, ◌≤◌, length, take, drop, IfSome};
ghost use Rattle.base.specs.Refusal.{is_accepted};
ghost use Rattle.packing.specs.Pack.{part_check};

use base::refusal::Refusal;
use base::year::{DIRECTORY, PARTS};
use listing::survey::{LINE, refused_line, survey_line};
use packing::{YEAR_MOST, part_check, seal};
use std::io::Read;
use std::rt::{Env, Files};
use system::{STDERR, arg, argument, got, print, read_full, say_of};

// The most bytes of a file's name.
const NAME: usize = 4096;

// The file that argument i names, open for reading; where it cannot be, that is said.
fn opened<R: Env + Files>(rt: &R, i: usize) -> Option<R::File> {
    let mut name = [0u8; NAME];
    let n = got(b"the name of a file", argument(rt, i, &mut name))?;
    system::opened(rt, &name[..n])
}

// Whether the file that argument i names has been read to its end; else what is left or what failed
// is said.
fn is_whole(env: &impl Env, i: usize, file: &mut impl Read) -> bool {
    let mut name = [0u8; NAME];
    let n = arg(env, i, &mut name);
    let mut more = [0u8; 1];
    match got(&name[..n], file.read(&mut more)) {
        Some(0) => true,
        Some(_) => {
            say_of(
                &name[..n],
                "too long: the programs take year files of at most 1048576 bytes",
            );
            false
        }
        None => false,
    }
}

// Says why the file that argument i names is refused, in a line that ends itself.
fn say_refused(env: &impl Env, i: usize, why: Refusal) {
    let mut name = [0u8; NAME];
    let n = arg(env, i, &mut name);
    let mut line = [0u8; LINE];
    let m = refused_line(why, &mut line);
    for piece in [&name[..n], b": ", &line[..m]] {
        io::write_all(STDERR, piece);
    }
}

// Whether the file of argument i is a good part k; what is wrong is said.
fn is_good(env: &impl Env, i: usize, k: usize, part: &[u8]) -> bool
    ensures { result ≡ is_accepted (part_check k part.now) }
{
    match part_check(k, part) {
        Ok(()) => true,
        Err(why) => {
            say_refused(env, i, why);
            false
        }
    }
}

// Reads a file into the buffer from the place `at` on, and gives how many bytes were read.
fn read_at(file: &mut impl Read, year: &mut [u8], at: usize) -> usize
    requires { at ≤ length year.old }
    ensures { at + result ≤ length year.old }
{
    read_full(file, &mut year[at..])
}

// The same of the file that argument i names; none where it is not read to its end, which is said.
fn read_named<R: Env + Files>(rt: &R, i: usize, year: &mut [u8], at: usize) -> Option<usize>
    requires { at ≤ length year.old }
    ensures { IfSome result (λ n. at + n ≤ length year.old) }
{
    let mut file = opened(rt, i)?;
    let n = read_at(&mut file, year, at);
    is_whole(rt, i, &mut file).then_some(n)
}

// Whether the file of argument i, which stands in the buffer from a on and before e, is a good part
// k.
fn is_good_at(env: &impl Env, i: usize, k: usize, year: &[u8], a: usize, e: usize) -> bool
    requires a_le_e { a ≤ e }
    requires e_in_bounds { e ≤ length year.now }
    ensures { result ≡ is_accepted (part_check k (take (e - a) (drop a year.now))) }
{
    is_good(env, i, k, &year[a..e])
}

fn write_first(out: &impl Print, year: &[u8], n: usize)
    requires { n ≤ length year.now }
{
    print(out, &year[..n]);
}

// Of a reference to an array the length is known to a proof, where that of so large an array in a
// local is not; also in `check_with`.
fn pack_with<R: Env + Files + Print>(rt: &R, year: &mut [u8; YEAR_MOST]) {
    let mut sizes = [0u32; PARTS];
    let mut at = DIRECTORY;
    for k in 0..PARTS {
        let Some(n) = read_named(rt, k + 1, year, at) else {
            return;
        };
        let end = at + n;
        if !is_good_at(rt, k + 1, k, year, at, end) {
            return;
        }
        sizes[k] = n as u32;
        at = end;
    }
    let n = seal(year, &sizes);
    write_first(rt, year, n);
}

// Packs the files that arguments 1 to 14 name, twelve month files and two `.daw` files: each is
// read into the buffer behind the one before it and checked, then the directory is written before
// them. What is wrong is said on standard error, and nothing is written.
pub fn pack<R: Env + Files + Print>(rt: &R) {
    let mut year = [0u8; YEAR_MOST];
    pack_with(rt, &mut year);
}

// A line for each month and model.
fn survey(out: &impl Print, year: &[u8]) {
    for month in 1..=12u32 {
        for model in 0..2u32 {
            let mut line = [0u8; LINE];
            let n = survey_line(year, month, model, &mut line);
            if !print(out, &line[..n]) {
                return;
            }
        }
    }
}

fn check_in<R: Env + Files + Print>(rt: &R, year: &mut [u8]) {
    if let Some(n) = read_named(rt, 2, year, 0) {
        survey(rt, &year[..n]);
    }
}

fn check_with<R: Env + Files + Print>(rt: &R, year: &mut [u8; YEAR_MOST]) {
    check_in(rt, year);
}

// Says what can be shown from the year file that argument 2 names.
pub fn check<R: Env + Files + Print>(rt: &R) {
    let mut year = [0u8; YEAR_MOST];
    check_with(rt, &mut year);
}
