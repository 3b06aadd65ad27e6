ghost use Rattle.std.specs.Prelude.{◌≡◌, ◌++◌, IfOk, codes};

use spoc_base::{NoMemory, Text};
use std::alloc::Global;

/// The line of a file that is too large.
pub fn too_large(alloc: Global, path: &[u8]) -> Result<Text, NoMemory>
    ensures { IfOk result (λ text. text ≡ codes "too large " ++ path.now ++ codes "\n") }
{
    let mut line = Vec::from_slice(alloc, b"too large ")?;
    line.extend_from_slice(path)?;
    line.extend_from_slice(b"\n")?;
    Text::of(alloc, &line)
}
