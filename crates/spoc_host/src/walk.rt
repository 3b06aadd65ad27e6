ghost use Rattle.std.specs.Prelude.{◌≡◌, ◌≤◌, ◌+◌, ◌++◌, IfOk, OnOk, IsErrOf, length, true, false};
ghost use Rattle.std.specs.Fs.{IsDir, IsFile};
ghost use Rattle.spoc_host.specs.Paths.{path_in};
ghost use Rattle.spoc_host.specs.Walking.{IsWithin, ends_walk, found_at, most_entries, waiting_at};

use crate::file::fail_of;
use crate::path::{path_in, system_path};
use spoc_base::Text;
use spoc_io::IoFail;
use std::alloc::Global;
use std::fs;
use std::fs::FileType;
use std::rt::Files;

/// The most entries of an opened folder, of whatever kind, those of all the folders in it among them.
const MOST_ENTRIES: u32 = 100_000;

/// How many folders may lie in one another inside the opened one.
const MOST_LEVELS: u32 = 32;

// What an entry of a folder is. A link is of another kind, also one to a file or a folder.
#[derive(Clone, Copy, Debug, PartialEq, Eq)]
enum Kind {
    Plain,
    Folder,
    Other,
}

// A folder that is still to be walked: its path within the opened one, which is empty for that one
// itself, and its level, which is 0 for the opened one.
#[derive(Debug, Drop)]
struct Subfolder {
    path: Text,
    level: u32,
}

// The folders that are still to be walked, the paths of the files that were found, and how many
// entries were met.
#[derive(Debug, Drop)]
struct Walk {
    waiting: Vec<Subfolder>,
    found: Vec<Text>,
    entries: u32,
}

// What an entry is.
fn kind_of(kind: FileType) -> Kind
    ensures plain { result ≡ Kind.Plain → IsFile kind }
    ensures folder { result ≡ Kind.Folder → IsDir kind }
    ensures other { result ≡ Kind.Other → (IsFile kind → ⊥) × (IsDir kind → ⊥) }
{
    if kind.is_file() {
        Kind::Plain
    } else if kind.is_dir() {
        Kind::Folder
    } else {
        Kind::Other
    }
}

// Whether the walk fails at an entry of a folder of this level, where so many were met before.
fn ends_walk(entries: u32, level: u32, kind: Kind) -> bool
    ensures { result ≡ ends_walk entries level kind }
{
    entries >= MOST_ENTRIES || (kind == Kind::Folder && level >= MOST_LEVELS)
}

impl Walk {
    // Takes an entry of a folder.
    fn meet(
        &mut self,
        alloc: Global,
        folder: &Subfolder,
        name: &[u8],
        kind: Kind,
    ) -> Result<(), IoFail>
        ensures goes_on { OnOk result (ends_walk self.old.entries folder.now.level kind ≡ false) }
        ensures failed { IsErrOf result IoFail.Failed → ends_walk self.old.entries folder.now.level kind ≡ true }
        ensures no_size { IsErrOf result IoFail.TooLarge → ⊥ }
        ensures entries { OnOk result (self.new.entries ≡ self.old.entries + 1) }
        ensures found { OnOk result (self.new.found.items ≡ self.old.found.items ++ found_at kind (path_in folder.now.path name.now)) }
        ensures waiting { OnOk result (self.new.waiting.items ≡ self.old.waiting.items ++ waiting_at kind (path_in folder.now.path name.now) (folder.now.level + 1)) }
    {
        if ends_walk(self.entries, folder.level, kind) {
            return Err(IoFail::Failed);
        }
        self.entries += 1;
        match kind {
            Kind::Plain => {
                let path = path_in(alloc, folder.path.bytes(), name)?;
                self.found.push(path).map_err(|_| IoFail::Memory)
            }
            Kind::Folder => {
                let path = path_in(alloc, folder.path.bytes(), name)?;
                let level = folder.level + 1;
                let subfolder = Subfolder { path, level };
                self.waiting.push(subfolder).map_err(|_| IoFail::Memory)
            }
            Kind::Other => Ok(()),
        }
    }
}

// Takes all entries of one folder. At most as many files as entries are found.
fn walk_folder<R: Files + AllocGlobal + Clone + Drop>(
    rt: &R,
    alloc: Global,
    opened: &str,
    folder: &Subfolder,
    walk: &mut Walk,
) -> Result<(), IoFail>
    requires { IsWithin (length walk.old.found.items) walk.old.entries }
    ensures within { OnOk result (IsWithin (length walk.new.found.items) walk.new.entries) }
    ensures no_size { IsErrOf result IoFail.TooLarge → ⊥ }
{
    let path = system_path(alloc, opened, folder.path.bytes())?;
    let entries = fs::read_dir(rt, path.as_str()).map_err(|e| fail_of(&e))?;
    for entry in entries {
        let entry = entry.map_err(|e| fail_of(&e))?;
        let kind = entry.file_type().map_err(|e| fail_of(&e))?;
        walk.meet(alloc, folder, entry.file_name().as_bytes(), kind_of(kind))?;
    }
    Ok(())
}

/// The paths of the files of an opened folder and of the folders in it, up to 32 levels deep. Links,
/// and what is neither file nor folder, are left out, but count among the entries.
///
/// It fails where the opened folder doesn't exist, where a folder can't be read or lies deeper, where
/// there are more than 100,000 entries, and where a name isn't UTF-8.
pub fn list_paths<R: Files + AllocGlobal + Clone + Drop>(
    rt: &R,
    alloc: Global,
    opened: &str,
) -> Result<Vec<Text>, IoFail>
    ensures count { IfOk result (λ paths. length paths.items ≤ most_entries) }
    ensures no_size { IsErrOf result IoFail.TooLarge → ⊥ }
{
    let mut walk = Walk {
        waiting: Vec::new(alloc),
        found: Vec::new(alloc),
        entries: 0,
    };
    let top = Subfolder {
        path: Text::of(alloc, b"")?,
        level: 0,
    };
    walk.waiting.push(top).map_err(|_| IoFail::Memory)?;
    // No more folders than entries are met, besides the opened one.
    for _ in 0..=MOST_ENTRIES {
        let Some(folder) = walk.waiting.pop() else {
            return Ok(walk.found);
        };
        walk_folder(rt, alloc, opened, &folder, &mut walk)?;
    }
    Err(IoFail::Failed)
}
