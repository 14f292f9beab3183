// Year files: packs one from the twelve month files and the two `.daw` files of an installation,
// and says what can be shown from one. Its src/ is copied to the crate year_check, as the gate runs
// a crate once and refuses links.
#![tactic(auto)]

use base::year::PARTS;
use system::{arg_count, is_arg, say};
use yearbook::{check, pack};

const USAGE: &str = "usage: year JAN FEB MAR APR MAY JUN JUL AUG SEP OCT NOV DEC CCIR URSI > YEAR
       year check YEAR";

fn main(rt: HostRuntime) {
    let count = arg_count(&rt);
    if count == PARTS + 1 {
        pack(&rt);
    } else if count == 3 && is_arg(&rt, 1, b"check") {
        check(&rt);
    } else {
        say(USAGE);
    }
}
