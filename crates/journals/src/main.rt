// Replays the Rust side's answers in data/: what `replay`, `sheet` and `sheet page` print, byte by
// byte. Prints of each kind how many were compared and how many differ.
#![tactic(auto)]

mod files;
mod journal;
mod pages;
mod sheets;
mod wanted;

fn main(rt: HostRuntime) {
    journal::replay(&rt);
    sheets::replay(&rt);
    pages::replay(&rt);
}
