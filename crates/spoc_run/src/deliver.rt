ghost use Rattle.std.specs.Prelude.{◌≡◌, ◌≢◌, ◌⊎◌, OnOk, OnErr, map};
ghost use Rattle.std.specs.Str.{bytes_eq};
ghost use Rattle.std.specs.List.{IsDistinct};
ghost use Rattle.spoc_io.specs.Causes.{HasCause, BothTold};
ghost use Rattle.spoc_io.specs.Files.{paths};
ghost use Rattle.device_files.specs.Seen.{file_of};
ghost use Rattle.spoc_run.specs.Puts.{PutsAll, PutsSome};

use compile_core::DeviceFile;
use spoc_io::{PutFailed, Target};

/// Puts the files in their order. It takes no memory.
pub fn put_all<C: Target>(code: &mut C, files: &[DeviceFile]) -> Result<(), PutFailed>
    requires { IsDistinct bytes_eq (paths (map file_of files.now)) }
    ensures ok { OnOk result (BothTold (PutsAll (map file_of files.now)) (C.files code.old) (C.files code.new)) }
    ensures err { OnErr result (BothTold (PutsSome (map file_of files.now)) (C.files code.old) (C.files code.new)) }
    ensures cause { HasCause (C.put_faults code.old) (C.put_faults code.new) result }
{
    for file in files {
        code.put(file.name.bytes(), file.bytes.bytes())?;
    }
    Ok(())
}
