// Links: a journal has one lock, beside the name it is opened by, so it must have one name.
use std::rt::Files;
use system::{is_link, say_of};

// Whether a name is a file's own, or nobody's yet; that it is a link's is said. A second hard link
// to a file cannot be told from its first name.
pub(crate) fn is_own(files: &impl Files, name: &[u8]) -> bool {
    if !is_link(files, name) {
        return true;
    }
    say_of(
        name,
        "a link to another file: name the journal itself, so that all desks share one lock",
    );
    false
}
