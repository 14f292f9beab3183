// How many answers were compared, and how many differ: what `vectors` and `journals` count and
// print.
#![tactic(auto)]

mod reading;

ghost use Rattle.std.specs.Prelude.{◌≡◌, ◌+◌, ◌%◌, ◌^◌, if◌then◌else◌};

pub use reading::{next, next_bytes, next_size, part};
use std::fmt;
use std::fmt::{Display, Formatter};
use std::io::Write;
use system::{STDOUT, Stream};

#[derive(Clone, Copy)]
pub struct Tally {
    pub compared: u64,
    pub differ: u64,
}

// The end of a line, after its name.
impl Display for Tally {
    fn fmt<W: fmt::Write>(&self, f: &mut Formatter<W>) -> fmt::Result {
        let compared = self.compared;
        let differ = self.differ;
        write!(f, " {compared} compared, {differ} differ")
    }
}

// Nothing compared yet.
pub fn none() -> Tally
    ensures compared { result.compared ≡ 0 }
    ensures differ { result.differ ≡ 0 }
{
    Tally {
        compared: 0,
        differ: 0,
    }
}

// One answer more. A count past the largest word starts at 0 again.
pub fn counted(t: Tally, right: bool) -> Tally
    ensures compared { result.compared ≡ (t.compared + 1) % 2 ^ 64 }
    ensures differ { result.differ ≡ (if right then t.differ else (t.differ + 1) % 2 ^ 64) }
{
    let compared = t.compared.wrapping_add(1);
    if right {
        return Tally {
            compared,
            differ: t.differ,
        };
    }
    Tally {
        compared,
        differ: t.differ.wrapping_add(1),
    }
}

// So many answers more, each right or not.
pub fn counted_all<F: FnMut() -> bool>(t: Tally, count: u32, mut is_right: F) -> Tally
    requires { F.IsAlwaysCallable is_right }
    ensures { result.compared ≡ (t.compared + count) % 2 ^ 64 }
{
    let mut all = t;
    for i in 0..count {
        all = counted(all, is_right());
    }
    all
}

// The end of a line, after its name. What is written no contract can say.
pub fn print(t: Tally) {
    // By the stream's number, since `print` is public and takes no handle.
    let _ = writeln!(Stream(STDOUT), "{t}");
}

// A line with its name. What is written no contract can say.
pub fn print_line(name: &[u8], t: Tally) {
    io::write_all(STDOUT, name);
    print(t);
}
