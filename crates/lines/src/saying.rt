// What is said of a line, on standard output.
use crate::words::{Words, print_call};
use listing::fault::fault_text;
use listing::spoken::SPOKEN;
use maps::inputs::to_words;
use std::io;
use wording::line::{Fault, Line, line_in};
use wording::written::{call_written, inputs_written};

// As `desk run` says it, with the line's number.
fn say_fault(out: &impl Print, number: u64, f: Fault) -> io::Result<()> {
    let mut text = [0u8; SPOKEN];
    let n = fault_text(number, f, &mut text);
    out.write_all(&text[..n])
}

// Each line is read by itself: a wrong one ends nothing.
pub(crate) fn say_line(out: &impl Print, line: &[u8], number: u64) -> io::Result<()> {
    match line_in(line) {
        Line::Blank => out.write_all(b"blank\n"),
        Line::Open(o) => {
            let words = to_words(inputs_written(o));
            let words = Words(&words);
            println!(out; "open {words}")
        }
        Line::Call(c) => print_call(out, call_written(c)),
        Line::Wrong(f) => say_fault(out, number, f),
    }
}

pub(crate) fn say_long(out: &impl Print) -> io::Result<()> {
    println!(out; "too long")
}
