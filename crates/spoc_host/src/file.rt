ghost use Rattle.std.specs.Prelude.{◌≡◌, ◌≤◌, ◌+◌, IfOk, OnOk, IsErrOf, false, length, vec_len};
ghost use Rattle.std.specs.Option.{ForSome};
ghost use Rattle.std.specs.Io.KnownBytes.{Appends};
ghost use Rattle.spoc_host.specs.Paths.{leads_out};

use crate::path::{is_below_folders, leads_out, system_path};
use spoc_base::Text;
use spoc_io::IoFail;
use std::alloc::Global;
use std::fs::{Metadata, OpenFile, OpenOptions};
use std::io::{Read, Write};
use std::os::unix::fs::MetadataExt;
use std::rt::Files;
use std::{fs, io};

/// Why the system gave no answer.
pub fn fail_of(error: &io::Error) -> IoFail
    ensures { result ≡ IoFail.TooLarge → ⊥ }
{
    if error.kind() == io::ErrorKind::OutOfMemory {
        IoFail::Memory
    } else {
        IoFail::Failed
    }
}

// The path of a file that may be opened: one within the opened folder, below folders and no links.
fn file_path<R: Files>(rt: &R, alloc: Global, opened: &str, path: &[u8]) -> Result<String, IoFail>
    ensures { OnOk result (leads_out path.now ≡ false) }
{
    if leads_out(path) {
        return Err(IoFail::Failed);
    }
    let path = system_path(alloc, opened, path)?;
    if is_below_folders(rt, path.as_str(), opened.len().saturating_add(1)) {
        Ok(path)
    } else {
        Err(IoFail::Failed)
    }
}

// Whether both are of one file.
fn is_same(one: &Metadata, other: &Metadata) -> bool {
    one.dev() == other.dev() && one.ino() == other.ino()
}

// What is known of the plain file under a path.
fn find_plain<R: Files>(rt: &R, path: &str) -> Result<Metadata, IoFail> {
    let found = fs::symlink_metadata(rt, path).map_err(|e| fail_of(&e))?;
    if found.is_file() {
        Ok(found)
    } else {
        Err(IoFail::Failed)
    }
}

// Opens a plain file, which still stands under the path once it is open.
fn open_plain<R: Files>(rt: &R, path: &str, options: &OpenOptions) -> Result<R::File, IoFail> {
    let file = options.open(rt, path).map_err(|e| fail_of(&e))?;
    let opened = file.metadata().map_err(|e| fail_of(&e))?;
    if is_same(&find_plain(rt, path)?, &opened) {
        Ok(file)
    } else {
        Err(IoFail::Failed)
    }
}

// Opens a plain file to read it. Nothing else is opened, since that may wait or reach a device.
fn open_to_read<R: Files>(rt: &R, path: &str) -> Result<R::File, IoFail> {
    find_plain(rt, path)?;
    let mut options = OpenOptions::new();
    options.read(true);
    open_plain(rt, path, &options)
}

// Opens a plain file to write it anew, or makes it.
fn open_to_write<R: Files>(rt: &R, path: &str) -> Result<R::File, IoFail> {
    let mut options = OpenOptions::new();
    options.write(true);
    match fs::symlink_metadata(rt, path) {
        Ok(found) if found.is_file() => {
            let file = open_plain(rt, path, &options)?;
            file.set_len(0).map_err(|e| fail_of(&e))?;
            Ok(file)
        }
        Ok(_) => Err(IoFail::Failed),
        Err(error) if error.kind() == io::ErrorKind::NotFound => {
            options.create_new(true);
            options.open(rt, path).map_err(|e| fail_of(&e))
        }
        Err(error) => Err(fail_of(&error)),
    }
}

// All bytes of a file, which are at most so many, or that more were read.
fn read_all<F: Read>(alloc: Global, mut file: F, limit: u64) -> Result<Vec<u8>, IoFail>
where
    F: Drop,
    ensures small { IfOk result (λ bytes. vec_len bytes ≤ limit) }
    ensures whole { IfOk result (λ bytes. ForSome (F.remaining file) (λ all. bytes.items ≡ all)) }
    ensures large { IsErrOf result IoFail.TooLarge → ForSome (F.remaining file) (λ all. limit + 1 ≤ length all) }
{
    let mut bytes = Vec::new(alloc);
    let mut buffer = [0u8; 4096];
    for _ in 0..u64::MAX {
        let count = file.read(&mut buffer).map_err(|e| fail_of(&e))?;
        if count == 0 {
            return Ok(bytes);
        }
        if count as u64 > limit - bytes.len() as u64 {
            return Err(IoFail::TooLarge);
        }
        bytes
            .extend_from_slice(&buffer[..count])
            .map_err(|_| IoFail::Memory)?;
    }
    Err(IoFail::Failed)
}

// Writes all the bytes.
fn write_all<F: Write>(file: &mut F, bytes: &[u8]) -> Result<(), IoFail>
    ensures whole { OnOk result (Appends (F.contents file.old) (F.contents file.new) bytes.now) }
{
    file.write_all(bytes).map_err(|e| fail_of(&e))
}

/// The bytes of a file of an opened folder, which are at most `limit`.
///
/// `TooLarge` comes where more bytes than that were read. It fails where no plain file stands under
/// the path, as where a link does, or where the system doesn't give its bytes.
pub fn read_file<R: Files>(
    rt: &R,
    alloc: Global,
    opened: &str,
    path: &[u8],
    limit: u64,
) -> Result<Text, IoFail>
    ensures small { IfOk result (λ text. length text ≤ limit) }
    ensures inner { OnOk result (leads_out path.now ≡ false) }
{
    let path = file_path(rt, alloc, opened, path)?;
    let file = open_to_read(rt, path.as_str())?;
    let bytes = read_all(alloc, file, limit)?;
    Ok(Text::of(alloc, &bytes)?)
}

/// Writes a file of an opened folder, in the place of one that stands there, and never through a
/// link.
///
/// It fails where something else than a plain file stands under the path, where a folder above it
/// is missing, or where the system doesn't take the bytes. Some first part of them may stand there
/// then.
pub fn write_file<R: Files>(
    rt: &R,
    alloc: Global,
    opened: &str,
    path: &[u8],
    bytes: &[u8],
) -> Result<(), IoFail>
    ensures inner { OnOk result (leads_out path.now ≡ false) }
{
    let path = file_path(rt, alloc, opened, path)?;
    let mut file = open_to_write(rt, path.as_str())?;
    write_all(&mut file, bytes)
}
