ghost use Rattle.std.specs.Prelude.{◌≡◌, ◌≤◌, ◌+◌, IfOk, IfSome, OnOk, OnErr, IsErrOf, Some, None, false, length};
ghost use Rattle.spoc_io.specs.Causes.{BothTold, HasCause, HasReadCause, CountsLarge};
ghost use Rattle.spoc_io.specs.Files.{bytes_at, ListsPaths, Puts, PutsPart};
ghost use Rattle.std.specs.Option.{ForSome};
ghost use Rattle.spoc_io.specs.Memory.{after_large};
ghost use Rattle.spoc_host.specs.Counts.{after_failure, after_error};
ghost use Rattle.spoc_host.specs.Paths.{leads_out};
ghost use Rattle.spoc_host.specs.Walking.{most_entries};

use crate::file::{read_file, write_file};
use crate::walk::list_paths;
use spoc_base::Text;
use spoc_io::{Folder, IoFail, PutFailed, Target};
use std::alloc::Global;
use std::rt::Files;

/// A real folder, with the files of the folders in it, up to 32 levels deep. It tells nothing of
/// what it holds.
///
/// A path is the names from the opened folder to the file, joined by `/`. Symbolic links in the
/// folder are neither listed nor followed, but the path of the opened folder itself may lead through
/// links. Nothing is kept from one call to the next: each asks the system anew, so a change of the
/// folder by others is seen. Where others change it *during* a call, a link that comes in the place
/// of a folder may be followed; one that comes in the place of a file is not.
#[derive(Drop)]
pub struct HostFolder<'p, R> {
    rt: R,
    path: &'p str,
    read_faults: u64,
    write_faults: u64,
    larges: u64,
}

impl<'p, R> HostFolder<'p, R> {
    /// The folder under this path, of which no call has failed so far. The system isn't asked for it
    /// here: where it doesn't exist, or the path is empty, each call fails.
    pub fn open(rt: R, path: &'p str) -> HostFolder<'p, R>
        ensures path { result.path.now ≡ path.now }
        ensures reads { result.read_faults ≡ 0 }
        ensures writes { result.write_faults ≡ 0 }
        ensures larges { result.larges ≡ 0 }
    {
        HostFolder {
            rt,
            path,
            read_faults: 0,
            write_faults: 0,
            larges: 0,
        }
    }
}

// Counts a failure of a call of `list` or `read`.
fn count_failure<T>(answer: &Result<T, IoFail>, faults: &mut u64)
    ensures count { faults.new ≡ after_failure faults.old answer.now }
    ensures cause { HasReadCause faults.old faults.new answer.now }
{
    if let Err(IoFail::Failed) = answer {
        *faults = faults.saturating_add(1);
    }
}

// Counts a read that met a file that was too large.
fn count_large<T>(answer: &Result<T, IoFail>, larges: &mut u64)
    ensures count { larges.new ≡ after_large larges.old answer.now }
    ensures cause { CountsLarge larges.old larges.new answer.now }
{
    if let Err(IoFail::TooLarge) = answer {
        *larges = larges.saturating_add(1);
    }
}

impl<'p, R: Files + AllocGlobal + Clone + Drop> Folder for HostFolder<'p, R> {
    ghost files = { λ _. None };

    ghost faults = { λ f. f.read_faults };

    ghost larges = { λ f. f.larges };

    ghost put_faults = { λ f. f.write_faults };

    /// The paths of the files. Links, and what is neither file nor folder, are left out.
    ///
    /// It fails, and counts it, where the opened folder doesn't exist, where a folder can't be read,
    /// where one lies in 32 others inside the opened one, where there are more than 100,000 entries
    /// (files, folders and all else, at all levels together), and where a name isn't UTF-8.
    fn list(&mut self, alloc: Global) -> Result<Vec<Text>, IoFail>
        ensures paths { IfOk result (λ paths. ForSome None (λ fs. ListsPaths fs paths.items)) }
        ensures cause { HasReadCause self.old.read_faults self.new.read_faults result }
        ensures larges { self.new.larges ≡ self.old.larges }
        ensures put_faults { self.new.write_faults ≡ self.old.write_faults }
        ensures no_size { IsErrOf result IoFail.TooLarge → ⊥ }

        // It counts a failure, and nothing else.
        ensures count { self.new.read_faults ≡ after_failure self.old.read_faults result }
        ensures path { self.new.path ≡ self.old.path }

        // It never lists more paths than there may be entries.
        ensures most { IfOk result (λ paths. length paths.items ≤ most_entries) }
    {
        let answer = list_paths(&self.rt, alloc, self.path);
        count_failure(&answer, &mut self.read_faults);
        answer
    }

    /// The bytes of a file, which are at most `limit`.
    ///
    /// It answers `TooLarge`, and counts it, where it has read more than `limit` bytes. It fails, and
    /// counts it, where no plain file stands under the path, as where a link does, and where the
    /// system doesn't give the bytes.
    fn read(&mut self, alloc: Global, path: &[u8], limit: u64) -> Result<Text, IoFail>
        ensures bytes { IfOk result (λ text. ForSome None (λ fs. bytes_at fs path.now ≡ Some text)) }
        ensures small { IfOk result (λ text. length text ≤ limit) }
        ensures large { IsErrOf result IoFail.TooLarge → ForSome None (λ fs. IfSome (bytes_at fs path.now) (λ bytes. limit + 1 ≤ length bytes)) }
        ensures cause { HasReadCause self.old.read_faults self.new.read_faults result }
        ensures larges { CountsLarge self.old.larges self.new.larges result }
        ensures put_faults { self.new.write_faults ≡ self.old.write_faults }

        // It counts a failure or a file that is too large, and nothing else.
        ensures count { self.new.read_faults ≡ after_failure self.old.read_faults result }
        ensures large_count { self.new.larges ≡ after_large self.old.larges result }
        ensures path { self.new.path ≡ self.old.path }

        // What it reads lies in the folder: no part of the path is empty, `.` or `..`.
        ensures inner { OnOk result (leads_out path.now ≡ false) }
    {
        let answer = read_file(&self.rt, alloc, self.path, path, limit);
        count_failure(&answer, &mut self.read_faults);
        count_large(&answer, &mut self.larges);
        answer
    }
}

impl<'p, R: Files + AllocGlobal + Clone + Drop> Target for HostFolder<'p, R> {
    /// Puts a file, in the place of a plain file of that name, and never through a link.
    ///
    /// It fails, and counts it, where something else than a plain file stands under the name, where
    /// the folder doesn't exist, where the system doesn't take the bytes, and where it refuses memory.
    fn put(&mut self, name: &[u8], bytes: &[u8]) -> Result<(), PutFailed>
        ensures ok { OnOk result (BothTold (Puts name.now bytes.now) None None) }
        ensures err { OnErr result (BothTold (PutsPart name.now bytes.now) None None) }
        ensures cause { HasCause self.old.write_faults self.new.write_faults result }
        ensures faults { self.new.read_faults ≡ self.old.read_faults }
        ensures larges { self.new.larges ≡ self.old.larges }

        // It counts a failure, and nothing else.
        ensures count { self.new.write_faults ≡ after_error self.old.write_faults result }
        ensures path { self.new.path ≡ self.old.path }

        // What it writes lies in the folder: no part of the name is empty, `.` or `..`.
        ensures inner { OnOk result (leads_out name.now ≡ false) }
    {
        if write_file(&self.rt, self.rt.alloc(), self.path, name, bytes).is_err() {
            self.write_faults = self.write_faults.saturating_add(1);
            return Err(PutFailed);
        }
        Ok(())
    }
}
