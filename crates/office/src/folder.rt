// The folder of a file: a new file's name lasts once its folder is on its device.
ghost use Rattle.std.specs.Prelude.{◌≡◌, ◌≤◌, ◌⊎◌, ◌∷◌, [], length};

use crate::failure::is_done;
use std::fs::OpenFile;
use std::io::Error;
use std::rt::Files;
use system::{is_invalid, open_read};

// The folder of a name, with the slash at the end: where there is no slash `.`, the one that is
// worked in.
fn folder(name: &[u8]) -> &[u8]
    ensures { (length result.now ≤ length name.now) ⊎ (result.now ≡ 46 ∷ []) }
{
    match name.iter().rposition(|byte| *byte == b'/') {
        Some(slash) => &name[..slash + 1],
        None => b".",
    }
}

// Puts a folder on its device. A system that has no such thing (EINVAL) has done all it can.
fn sync(files: &impl Files, folder: &[u8]) -> Result<(), Error> {
    let open = open_read(files, folder)?;
    match open.sync_all() {
        Err(error) if is_invalid(&error) => Ok(()),
        done => done,
    }
}

// Whether the folder of the file of this name is on its device; else what failed is said.
pub(crate) fn sync_folder(files: &impl Files, name: &[u8]) -> bool {
    let folder = folder(name);
    is_done(folder, sync(files, folder))
}
