// What each line of standard input is as a line of a journal, in a line each: with the bits of all
// its numbers, so that reading can be compared with another's over very many lines.
#![tactic(auto)]

mod reading;
mod saying;
mod words;

use reading::say_all;

fn main(rt: HostRuntime) {
    let mut input = rt.stdin();
    let mut buffer = io::large_buffer();
    say_all(&mut input, &rt, &mut buffer);
}
