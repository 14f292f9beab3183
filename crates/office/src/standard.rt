// Standard input, output and error that were closed before the program began.
use std::fs::{File, Files};
use std::os::fd::{AsRawFd, IntoRawFd};
use system::{STDERR, open_read};

// Opens a file that holds nothing and cannot be written, and gives whether it has taken the number
// of one of the three, which it then keeps; else they are all open, and it is closed again.
fn is_one_filled(files: &impl Files<File = File>) -> bool {
    let Ok(file) = open_read(files, b"/dev/null") else {
        return false;
    };
    let is_standard = file.as_raw_fd() <= STDERR;
    if is_standard {
        file.into_raw_fd();
    }
    is_standard
}

// Fills the three where they are closed: else a journal would be opened under such a number, and
// what is told on standard error would be written into it.
pub fn fill_standard(files: &impl Files<File = File>) {
    (0..3).all(|_| is_one_filled(files));
}
