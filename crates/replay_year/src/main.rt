// The desks' journal from standard input, over a pair of files or, with the argument `year`, over a
// year file: the answer to each call on standard output.
// Its src/ is copied to the crate replay_year, as the gate runs a crate once and refuses links.
#![tactic(auto)]

use replaying::{over_pair, over_year};
use system::{arg_count, is_arg, say};

fn main(rt: HostRuntime) {
    let count = arg_count(&rt);
    if count < 2 {
        over_pair();
    } else if count == 2 && is_arg(&rt, 1, b"year") {
        over_year();
    } else {
        say("usage: replay [year] < INPUT");
    }
}
