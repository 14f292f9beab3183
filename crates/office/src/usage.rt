// How the program is started.
use system::say;

// Each form, with an example.
const USAGE: &str = "usage: desk run JOURNAL YEAR
         as desk run today.txt year.bin
       desk say JOURNAL YEAR CALL
         as desk say today.txt year.bin 1 sunspot 92.5
       desk audit JOURNAL YEAR LINE
         as desk audit today.txt year.bin 9
An F2 record and a month file may stand for YEAR, and - for JOURNAL but for desk say.";

// Tells that on standard error.
pub fn usage() {
    say(USAGE);
}
