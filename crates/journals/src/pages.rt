// The pages: what `sheet page` prints of some words, over pairs of files that stand first. Of each
// page the file has the number of its pair, the 14 words and the wanted text.
ghost use Rattle.std.specs.Prelude.{◌≤◌};

use crate::files::{WANTED, bytes};
use crate::sheets::PAIR;
use base::month_file::{MONTH_FILE, RECORD};
use listing::page::PAGE;
use listing::sheet::page_answer;
use maps::inputs::SHEET_BYTES;
use std::io::Read;
use std::rt::Files;
use system::{opened, read_full};
use tally::{counted_all, next, next_size, none, part, print_line};

// Three pairs of files.
const PAIRS: usize = 3 * PAIR;

fn is_text(words: &[u8; SHEET_BYTES], pair: &[u8], wanted: &[u8]) -> bool {
    let mut text = [0u8; PAGE];
    let record = part(pair, 0, RECORD);
    let month = part(pair, RECORD, RECORD + MONTH_FILE);
    let n = page_answer(words, record, month, &mut text);
    &text[..n] == wanted
}

// The next page of the file.
fn is_page(file: &mut impl Read, pairs: &[u8; PAIRS]) -> bool {
    let k = next_size(file);
    let mut words = [0u8; SHEET_BYTES];
    read_full(file, &mut words);
    let o = next_size(file);
    if k > 2 || o > WANTED {
        return false;
    }
    let text = bytes(file, o);
    let pair = part(pairs, k * PAIR, k * PAIR + PAIR);
    is_text(&words, pair, part(&text, 0, o))
}

fn replay_all(file: &mut impl Read) {
    // The number of pairs, three.
    next(file);
    let mut pairs = [0u8; PAIRS];
    read_full(file, &mut pairs);
    let count = next(file);
    let t = counted_all(none(), count, || is_page(file, &pairs));
    print_line(b"pages", t);
}

pub fn replay(rt: &impl Files) {
    if let Some(mut file) = opened(rt, b"pages.bin") {
        replay_all(&mut file);
    }
}
