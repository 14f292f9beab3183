// Replays the Rust side's answers in data/ and prints of each kind how many were compared and how
// many differ.
#![tactic(auto)]

mod clocks;
mod files;
mod finite;
mod hours;
mod numbers;
mod routes;
mod row;
mod sheets;
mod tables;

fn main(rt: HostRuntime) {
    numbers::replay(&rt);
    files::replay(&rt);
    finite::replay(&rt);
    routes::replay(&rt);
    hours::replay(&rt);
    sheets::replay(&rt);
    clocks::replay(&rt);
    tables::replay(&rt);
}
