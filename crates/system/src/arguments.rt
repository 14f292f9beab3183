// The words that a program is started with.
ghost use Rattle.io.specs.Counts.{IsPrefixLen};
ghost use Rattle.std.specs.Io.{ReadsAtMost};

use std::env::FillError;
use std::io;
use std::rt::Env;

// Linux's numbers of two failures.
const EINVAL: i32 = 22;

const ENAMETOOLONG: i32 = 36;

// Argument i at the start of buf, and its length. One that is missing is told as an invalid
// argument; of one that is too long the first bytes are in buf. Argument 0 is the program's name.
pub fn argument(env: &impl Env, i: usize, buf: &mut [u8]) -> io::Result<usize>
    ensures { ReadsAtMost result buf.new }
{
    env.arg(i, buf).map_err(|error| {
        io::Error::from_raw_os_error(match error {
            FillError::NotPresent => EINVAL,
            FillError::TooLong => ENAMETOOLONG,
        })
    })
}

// The same, with the length 0 where there is no such argument or it is too long.
pub fn arg(env: &impl Env, i: usize, buf: &mut [u8]) -> usize
    ensures { IsPrefixLen result buf.new }
{
    // 0, and no Option: to the programs one that is missing reads as an empty one.
    argument(env, i, buf).unwrap_or(0)
}

// Whether argument i is this word, of at most 16 bytes.
pub fn is_arg(env: &impl Env, i: usize, word: &[u8]) -> bool {
    let mut text = [0u8; 16];
    env.arg(i, &mut text).is_ok_and(|n| &text[..n] == word)
}

fn is_there(env: &impl Env, i: usize) -> bool {
    !matches!(env.arg(i, &mut []), Err(FillError::NotPresent))
}

// How many arguments there are, the program's name among them.
pub fn arg_count(env: &impl Env) -> usize {
    (0..usize::MAX).take_while(|i| is_there(env, *i)).count()
}
