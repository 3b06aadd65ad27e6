ghost use Rattle.std.specs.Prelude.{◌==◌, ◌||◌, nat_eq, codes, ◌≡◌, ◌≤◌, ◌<◌, ◌+◌, ◌-◌, min, length, IfOk, IfErr, OnOk, IfSome, IsSome, IsErrOf, All, map, List, ℕ, None, Some, true};
ghost use Rattle.std.specs.Option.{ForSome};
ghost use Rattle.std.specs.Str.{bytes_eq};
ghost use Rattle.std.specs.List.{filter, list_any, slice_split, starts_with};
ghost use Rattle.std.specs.Ordering.{nat_cmp};
ghost use Rattle.std.specs.Cmp.Lexicographic.{slice_cmp};
ghost use Rattle.std.specs.BTreeSet.{IsFromIterResult};
ghost use Rattle.spoc_io.specs.Files.{bytes_at, paths};
ghost use Rattle.fault_text.specs.Texts.{pair_of};
ghost use Rattle.spoc_run.specs.Sources.{IsLargeOf, HasLoadCause};
ghost use Rattle.spoc_run.specs.Paths.{is_policy_path, is_skipped_part};
ghost use Rattle.spoc_run.specs.Policy.{policy_of, with_bytes, first_large, most_of_all, most_of_one};

use spoc_base::{NoMemory, Source, Text};
use spoc_io::{Folder, IoFail};
use std::alloc::{AllocError, AllocFailed, Global};
use std::collections::BTreeSet;

/// Why the policy was not read.
#[derive(Debug, Drop)]
pub enum LoadFail {
    /// The folder failed.
    Read,
    /// The file under this path is longer than a file may be, or than is left of what all may have.
    Large(Text),
    /// Memory ran out.
    Memory,
}

impl<T: Drop> From<AllocFailed<T>> for LoadFail {
    ghost use Rattle.std.specs.Prelude.{◌≡◌};
    ghost use Rattle.spoc_run.specs.declared.load.LoadFail.TheVariants.{Memory};

    ghost from_gives = { λ _ e. e ≡ Memory };

    fn from(_: AllocFailed<T>) -> Self {
        LoadFail::Memory
    }
}

impl From<AllocError> for LoadFail {
    ghost use Rattle.std.specs.Prelude.{◌≡◌};
    ghost use Rattle.spoc_run.specs.declared.load.LoadFail.TheVariants.{Memory};

    ghost from_gives = { λ _ e. e ≡ Memory };

    fn from(_: AllocError) -> Self {
        LoadFail::Memory
    }
}

// Whether the part of a path is one that is skipped.
fn is_skipped_part(part: &[u8]) -> bool
    ensures { result ≡ is_skipped_part part.now }
{
    part.starts_with(b".") || part.ends_with(b"~")
}

// Whether some part of the path is skipped.
fn has_skipped_part(path: &[u8]) -> bool
    ensures { result ≡ list_any is_skipped_part (slice_split (λ byte. byte == 47) path.now) }
{
    path.split(|byte| *byte == b'/')
        .any(|part| is_skipped_part(part))
}

// Whether the path is `config` or begins with `raw/`.
fn is_reserved(path: &[u8]) -> bool
    ensures { result ≡ (bytes_eq path.now (codes "config") || starts_with nat_eq path.now (codes "raw/")) }
{
    path == b"config".as_slice() || path.starts_with(b"raw/")
}

// Whether a file is one of the policy's.
fn is_policy_path(path: &[u8]) -> bool
    ensures { result ≡ is_policy_path path.now }
{
    !is_reserved(path) && !has_skipped_part(path)
}

// The policy's paths among those that were listed.
fn wanted(alloc: Global, listed: Vec<Text>) -> Result<BTreeSet<Text>, AllocError>
    ensures { IfOk result (λ set. IsFromIterResult (slice_cmp nat_cmp) (filter is_policy_path listed.items) set) }
{
    listed
        .into_iter()
        .filter(|path| is_policy_path(path.bytes()))
        .collect(alloc)
}

/// The most bytes of one policy file.
const MOST_OF_ONE: u64 = 4194304;

/// The most bytes of all policy files together.
const MOST_OF_ALL: u64 = 67108864;

// Reads one file, of at most so many bytes.
fn read_one<P: Folder>(
    alloc: Global,
    policy: &mut P,
    path: Text,
    left: u64,
) -> Result<Source, LoadFail>
    requires { ForSome (P.files policy.old) (λ fs. IsSome (bytes_at fs path)) }
    ensures path { IfOk result (λ s. s.path ≡ path) }
    ensures text { IfOk result (λ s. ForSome (P.files policy.old) (λ fs. bytes_at fs path ≡ Some s.text)) }
    ensures small { IfOk result (λ s. length s.text ≤ min most_of_one left) }
    ensures large { IfErr result (IsLargeOf (λ large. (large ≡ path) × ForSome (P.files policy.old) (λ fs. IfSome (bytes_at fs path) (λ bytes. min most_of_one left < length bytes)))) }
    ensures same { P.files policy.new ≡ P.files policy.old }
    ensures cause { HasLoadCause (P.faults policy.old) (P.faults policy.new) (P.larges policy.old) (P.larges policy.new) result }
{
    match policy.read(alloc, path.bytes(), MOST_OF_ONE.min(left)) {
        Ok(text) => Ok(Source { path, text }),
        Err(IoFail::Failed) => Err(LoadFail::Read),
        Err(IoFail::TooLarge) => Err(LoadFail::Large(path)),
        Err(IoFail::Memory) => Err(LoadFail::Memory),
    }
}

// Reads the files under these paths, in their order.
fn read_all<P: Folder>(
    alloc: Global,
    policy: &mut P,
    wanted: BTreeSet<Text>,
) -> Result<Vec<Source>, LoadFail>
    requires there { ForSome (P.files policy.old) (λ fs. All (λ path. IsSome (bytes_at fs path)) wanted.keys) }
    requires policy { All (λ path. is_policy_path path ≡ true) wanted.keys }
    ensures paths { IfOk result (λ v. paths (map pair_of v.items) ≡ wanted.keys) }
    ensures sources { IfOk result (λ v. ForSome (P.files policy.old) (λ fs. map pair_of v.items ≡ with_bytes fs wanted.keys)) }
    ensures each { IfOk result (λ v. All (λ s. length s.text ≤ most_of_one) v.items) }
    ensures small { OnOk result (ForSome (P.files policy.old) (λ fs. first_large most_of_all (with_bytes fs wanted.keys) ≡ None)) }
    ensures large { IfErr result (IsLargeOf (λ path. ForSome (P.files policy.old) (λ fs. first_large most_of_all (with_bytes fs wanted.keys) ≡ Some path))) }
    ensures fits { IfOk result (λ v. first_large most_of_all (map pair_of v.items) ≡ None) }
    ensures named { IfErr result (IsLargeOf (λ path. is_policy_path path ≡ true)) }
    ensures same { P.files policy.new ≡ P.files policy.old }
    ensures cause { HasLoadCause (P.faults policy.old) (P.faults policy.new) (P.larges policy.old) (P.larges policy.new) result }
{
    let mut left = MOST_OF_ALL;
    let mut sources = Vec::new(alloc);
    for path in wanted {
        let source = read_one(alloc, policy, path, left)?;
        left -= source.text.bytes().len() as u64;
        sources.push(source)?;
    }
    Ok(sources)
}

/// Reads the policy's files in ascending order of their paths.
pub fn load<P: Folder>(alloc: Global, policy: &mut P) -> Result<Vec<Source>, LoadFail>
    ensures sources { IfOk result (λ v. ForSome (P.files policy.old) (λ fs. map pair_of v.items ≡ policy_of fs)) }
    ensures each { IfOk result (λ v. All (λ s. length s.text ≤ most_of_one) v.items) }
    ensures small { OnOk result (ForSome (P.files policy.old) (λ fs. first_large most_of_all (policy_of fs) ≡ None)) }
    ensures large { IfErr result (IsLargeOf (λ path. ForSome (P.files policy.old) (λ fs. first_large most_of_all (policy_of fs) ≡ Some path))) }
    ensures own { IfOk result (λ v. policy_of (map pair_of v.items) ≡ map pair_of v.items) }
    ensures fits { IfOk result (λ v. first_large most_of_all (map pair_of v.items) ≡ None) }
    ensures named { IfErr result (IsLargeOf (λ path. is_policy_path path ≡ true)) }
    ensures same { P.files policy.new ≡ P.files policy.old }
    ensures cause { HasLoadCause (P.faults policy.old) (P.faults policy.new) (P.larges policy.old) (P.larges policy.new) result }
{
    let listed = match policy.list(alloc) {
        Ok(listed) => listed,
        Err(IoFail::Failed) => return Err(LoadFail::Read),
        Err(_) => return Err(LoadFail::Memory),
    };
    let wanted = wanted(alloc, listed)?;
    read_all(alloc, policy, wanted)
}
