// A call as the words in which `replay year` takes it, in hexadecimal digits.
use base::number::bits32;
use std::fmt::{Display, Formatter};
use std::{fmt, io};
use worksheet::inputs::Edit;
use worksheet::journal::Call;

// Words of eight digits, with a blank between them.
#[derive(Drop)]
pub(crate) struct Words<'a>(pub &'a [u32]);

impl<'a> Display for Words<'a> {
    fn fmt<W: fmt::Write>(&self, f: &mut Formatter<W>) -> fmt::Result {
        let mut between = "";
        for word in self.0 {
            write!(f, "{between}{word:08x}")?;
            between = " ";
        }
        Ok(())
    }
}

fn print_words(out: &impl Print, words: &[u32]) -> io::Result<()> {
    out.println(Words(words))
}

fn print_change(out: &impl Print, desk: u32, e: Edit) -> io::Result<()> {
    match e {
        Edit::Sunspot(x) => print_words(out, &[2, desk, bits32(x)]),
        Edit::Hour(x) => print_words(out, &[3, desk, bits32(x)]),
        Edit::Path(p) => {
            let tlat = bits32(p.tlat.0);
            let tlong = bits32(p.tlong.0);
            let rlat = bits32(p.rlat.0);
            let rlong = bits32(p.rlong.0);
            print_words(out, &[4, desk, tlat, tlong, rlat, rlong, p.long_path])
        }
        Edit::Psc(p) => {
            let e = bits32(p.e);
            let f1 = bits32(p.f1);
            let f2 = bits32(p.f2);
            print_words(out, &[5, desk, e, f1, f2, bits32(p.es)])
        }
        Edit::Pole(p) => print_words(out, &[6, desk, bits32(p.lat.0), bits32(p.lon.0)]),
        Edit::Month(m) => print_words(out, &[11, desk, m]),
        Edit::Model(m) => print_words(out, &[12, desk, m]),
    }
}

// Prints the line of a call.
pub(crate) fn print_call(out: &impl Print, c: Call) -> io::Result<()> {
    match c {
        Call::Begin(desk) => print_words(out, &[1, desk]),
        Call::Change(desk, e) => print_change(out, desk, e),
        Call::Commit(desk) => print_words(out, &[7, desk]),
        Call::Cancel(desk) => print_words(out, &[8, desk]),
        Call::TakeBack => print_words(out, &[9]),
        Call::Show(desk) => print_words(out, &[10, desk]),
    }
}
