// The process, its host, and a short rest.
ghost use Rattle.io.specs.Counts.{IsPrefixLen};

use crate::files::{open_read, read_full};
use crate::text::newline_in;
use std::rt::{Clock, Files, Process};
use std::time::Duration;
use std::{process, thread};

// Where Linux has the host's name, with a newline behind it.
const HOST: &[u8] = b"/proc/sys/kernel/hostname";

// The process's number.
pub fn process_number(handle: Process) -> u64 {
    u64::from(process::id(handle))
}

// The host's name at the start of buf, and its length; 0 where it cannot be read.
pub fn host_name(files: &impl Files, buf: &mut [u8]) -> usize
    ensures { IsPrefixLen result buf.new }
{
    let Ok(mut file) = open_read(files, HOST) else {
        return 0;
    };
    let n = read_full(&mut file, buf);
    newline_in(&buf[..n]).unwrap_or(n)
}

// Rests for two milliseconds.
pub fn rest(clock: &impl Clock) {
    thread::sleep(clock, Duration::from_millis(2));
}
