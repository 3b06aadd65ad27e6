ghost use Rattle.std.specs.Prelude.{◌≡◌, ◌+◌, ◌≤◌, IfOk, IfSome, IsErrOf, IsSome, Some, false, length};
ghost use Rattle.std.specs.Str.{bytes_eq};
ghost use Rattle.std.specs.Option.{option_copied, ForSome};
ghost use Rattle.std.specs.List.{IsDistinct};
ghost use Rattle.spoc_io.specs.Causes.{HasReadCause, CountsLarge, is_failed};
ghost use Rattle.spoc_io.specs.Files.{bytes_at, paths, ListsPaths};
ghost use Rattle.spoc_io.specs.Quiet.{after_read};

use crate::folder::read_found;
use crate::{Folder, IoFail};
use spoc_base::{NoMemory, Text};
use std::alloc::Global;
use std::marker::Model;

/// A folder in memory that tells its files and whose calls never fail: its reading count is always
/// 0, so `list` and `read` never answer `Failed`.
#[derive(Debug, Drop)]
pub struct QuietFolder {
    files: Vec<(Text, Text)>,
    larges: u64,
}

impl Model for QuietFolder {
    ghost use Rattle.std.specs.Str.{bytes_eq};
    ghost use Rattle.std.specs.List.{IsDistinct};
    ghost use Rattle.spoc_io.specs.Files.{paths};
    ghost use Rattle.spoc_io.specs.Quiet.{Quiet};

    ghost Value = { Quiet };

    ghost view = { λ q. record { files = q.files.items; larges = q.larges } };

    ghost invariant = { λ q. IsDistinct bytes_eq (paths q.files.items) };
}

// The paths of the files.
fn listed(alloc: Global, files: &[(Text, Text)]) -> Result<Vec<Text>, NoMemory>
    ensures { IfOk result (λ all. all.items ≡ paths files.now) }
{
    let mut all = Vec::new(alloc);
    for (path, _) in files {
        let path = Text::of(alloc, path.bytes())?;
        all.push(path)?;
    }
    Ok(all)
}

// The bytes under a path.
fn look_up<'a>(files: &'a [(Text, Text)], wanted: &[u8]) -> Option<&'a [u8]>
    ensures { option_copied result ≡ bytes_at files.now wanted.now }
{
    for (path, bytes) in files {
        if wanted == path.bytes() {
            return Some(bytes.bytes());
        }
    }
    None
}

impl QuietFolder {
    /// A folder with these files, pairs of path and bytes, of which no read has met one that was too
    /// large so far. It takes no memory.
    pub fn new(files: Vec<(Text, Text)>) -> QuietFolder
        requires { IsDistinct bytes_eq (paths files.items) }
        ensures { result ≡ record { files = files.items; larges = 0 } }
    {
        QuietFolder { files, larges: 0 }
    }
}

impl Folder for QuietFolder {
    ghost use Rattle.std.specs.Prelude.{Some};

    ghost files = { λ q. Some q.files };

    ghost faults = { λ _. 0 };

    ghost larges = { λ q. q.larges };

    ghost put_faults = { λ _. 0 };

    /// The paths of the files, each once, in any order. It never answers `Failed` and changes nothing.
    fn list(&mut self, alloc: Global) -> Result<Vec<Text>, IoFail>
        ensures paths { IfOk result (λ paths. ForSome (Some self.old.files) (λ fs. ListsPaths fs paths.items)) }
        ensures same { Some self.new.files ≡ Some self.old.files }
        ensures cause { HasReadCause 0 0 result }
        ensures larges { self.new.larges ≡ self.old.larges }
        ensures no_size { IsErrOf result IoFail.TooLarge → ⊥ }

        // It never fails, and leaves the folder as it was.
        ensures failed { is_failed result ≡ false }
        ensures unchanged { self.new ≡ self.old }
    {
        let all = listed(alloc, &self.files)?;
        Ok(all)
    }

    /// The bytes of a file, which are at most `limit`. It never answers `Failed`, and answers
    /// `TooLarge` for a file that has more than `limit` bytes, which it counts.
    fn read(&mut self, alloc: Global, path: &[u8], limit: u64) -> Result<Text, IoFail>
        requires { ForSome (Some self.old.files) (λ fs. IsSome (bytes_at fs path.now)) }
        ensures bytes { IfOk result (λ text. ForSome (Some self.old.files) (λ fs. bytes_at fs path.now ≡ Some text)) }
        ensures small { IfOk result (λ text. length text ≤ limit) }
        ensures large { IsErrOf result IoFail.TooLarge → ForSome (Some self.old.files) (λ fs. IfSome (bytes_at fs path.now) (λ bytes. limit + 1 ≤ length bytes)) }
        ensures same { Some self.new.files ≡ Some self.old.files }
        ensures cause { HasReadCause 0 0 result }
        ensures larges { CountsLarge self.old.larges self.new.larges result }

        // It never fails, and changes the count of large files alone, just where it answers `TooLarge`.
        ensures failed { is_failed result ≡ false }
        ensures after { self.new ≡ after_read self.old result }
    {
        match look_up(&self.files, path) {
            None => unreachable!(),
            Some(bytes) => read_found(alloc, bytes, limit, &mut self.larges),
        }
    }
}
