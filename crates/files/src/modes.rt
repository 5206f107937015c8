// What stands under a name: its kind and who may use it.
ghost use Rattle.std.specs.Prelude.{◌≡◌, ◌≤◌, length, IfOk};
ghost use Rattle.files.specs.Sizes.{PATH-BYTES};

use std::fs::Metadata;
use std::io::Error;
use std::{fs, io};

// The longest path.
const PATH_BYTES: usize = 4095;

// What the system says of a path that is longer, and of one that is no text: std gives it text alone.
const ENAMETOOLONG: i32 = 36;

const EILSEQ: i32 = 84;

// A path as the system takes it, with room for the zero behind it.
pub fn path_of(name: &[u8]) -> io::Result<&str>
    ensures { IfOk result (λ path. (path.now ≡ name.now) × (length path.now ≤ PATH-BYTES)) }
{
    if PATH_BYTES < name.len() {
        return Err(Error::from_raw_os_error(ENAMETOOLONG));
    }
    str::from_utf8(name).map_err(|_| Error::from_raw_os_error(EILSEQ))
}

// The kind and the mode of the file that a name leads to, or why the system cannot say.
pub fn metadata_of(rt: &HostRuntime, name: &[u8]) -> io::Result<Metadata> {
    fs::metadata(rt, path_of(name)?)
}

// Whether the name is a link, or why the system cannot say: what is put in its place would leave the file that it leads to as it was.
pub fn is_link(rt: &HostRuntime, name: &[u8]) -> io::Result<bool> {
    let metadata = fs::symlink_metadata(rt, path_of(name)?)?;
    Ok(metadata.is_symlink())
}
