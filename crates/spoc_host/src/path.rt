ghost use Rattle.std.specs.Prelude.{◌==◌, ◌≡◌, IfOk, IsErrOf};
ghost use Rattle.spoc_host.specs.Paths.{is_outer_part, leads_out, path_in};

use spoc_base::{NoMemory, Text};
use spoc_io::IoFail;
use std::alloc::Global;
use std::fs;
use std::rt::Files;

/// The path of an entry of a folder, within the opened one. The folder's own path is empty where it
/// is the opened one.
pub fn path_in(alloc: Global, folder: &[u8], name: &[u8]) -> Result<Text, NoMemory>
    ensures { IfOk result (λ path. path ≡ path_in folder.now name.now) }
{
    let mut path = Vec::new(alloc);
    if !folder.is_empty() {
        path.extend_from_slice(folder)?;
        path.push(b'/')?;
    }
    path.extend_from_slice(name)?;
    Text::of(alloc, &path)
}

// Whether a part of a path names no entry of a folder.
fn is_outer_part(part: &[u8]) -> bool
    ensures { result ≡ is_outer_part part.now }
{
    part.is_empty() || part == b".".as_slice() || part == b"..".as_slice()
}

/// Whether a path has a part that names no entry of a folder: an empty one, `.` or `..`.
pub fn leads_out(path: &[u8]) -> bool
    ensures { result ≡ leads_out path.now }
{
    path.split(|byte| *byte == b'/')
        .any(|part| is_outer_part(part))
}

/// The path that the system knows an entry of the opened folder by; of that folder itself where
/// `path` is empty. An opened folder with an empty path doesn't exist.
pub fn system_path(alloc: Global, opened: &str, path: &[u8]) -> Result<String, IoFail>
    ensures no_size { IsErrOf result IoFail.TooLarge → ⊥ }
{
    if opened.is_empty() {
        return Err(IoFail::Failed);
    }
    let path = str::from_utf8(path).map_err(|_| IoFail::Failed)?;
    format!(in alloc; "{opened}/{path}").map_err(|_| IoFail::Memory)
}

// Whether a folder stands under the path, and no link to one.
fn is_folder<R: Files>(rt: &R, path: &str) -> bool {
    match fs::symlink_metadata(rt, path) {
        Ok(found) => found.is_dir(),
        Err(_) => false,
    }
}

/// Whether each `/` of a path from `first` on stands behind a folder, and behind no link.
pub(crate) fn is_below_folders<R: Files>(rt: &R, path: &str, first: usize) -> bool {
    for at in first..path.len() {
        if path.as_bytes()[at] == b'/' && !is_folder(rt, path.get(..at).unwrap_or_default()) {
            return false;
        }
    }
    true
}
