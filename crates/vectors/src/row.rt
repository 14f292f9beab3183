// What a row of a file holds beside its words: a float that is wanted, and a name; and the rows of a
// whole file.
use base::number;
use std::io::Read;
use system::{STDOUT, read_full};
use tally::{Tally, counted, none, print_line};

// Whether a float has these bits; two NaNs are alike.
pub fn is_float(x: f32, wanted: u32) -> bool {
    number::bits32(x) == number::bits32(number::float32(wanted))
}

// So many rows, each right or not; one that is cut is wrong. They are read into a lent row.
pub fn counted_rows<F: Fn(&[u8]) -> bool>(
    file: &mut impl Read,
    count: u32,
    row: &mut [u8],
    is_right: F,
) -> Tally
    requires { F.IsAlwaysCallable is_right }
{
    let mut t = none();
    for _ in 0..count {
        let n = read_full(file, row);
        t = counted(t, n == row.len() && is_right(row));
    }
    t
}

// The name that a row holds from its byte `from` on: what stands before a zero, or before the row's
// end.
fn name(row: &[u8], from: usize) -> &[u8] {
    let rest = row.get(from..).unwrap_or(b"");
    let n = rest
        .iter()
        .position(|byte| *byte == 0)
        .unwrap_or(rest.len());
    &rest[..n]
}

// At most so many rows of a file in groups, with a line for each group and one for all. A row that
// heads a group has its name from the byte `name_at` on. They are read into a lent row.
pub fn print_groups<H: Fn(&[u8]) -> bool, F: Fn(&[u8]) -> bool>(
    file: &mut impl Read,
    most: u32,
    row: &mut [u8],
    name_of_all: &[u8],
    name_at: usize,
    is_heading: H,
    is_right: F,
)
    requires heading { H.IsAlwaysCallable is_heading }
    requires right { F.IsAlwaysCallable is_right }
{
    let mut part = none();
    let mut all = none();
    for _ in 0..most {
        if read_full(file, row) < row.len() {
            break;
        }
        if is_heading(row) {
            if part.compared > 0 {
                tally::print(part);
            }
            io::write_all(STDOUT, name(row, name_at));
            part = none();
        } else {
            let right = is_right(row);
            part = counted(part, right);
            all = counted(all, right);
        }
    }
    tally::print(part);
    print_line(name_of_all, all);
}
