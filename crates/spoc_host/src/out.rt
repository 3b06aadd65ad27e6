ghost use Rattle.std.specs.Prelude.{◌≡◌, None};
ghost use Rattle.spoc_io.specs.Causes.{HasCause};
ghost use Rattle.spoc_host.specs.Counts.{after_error};

use spoc_io::{TextOut, WriteFailed};

/// Standard output. It tells nothing of what was written, and counts the writes that failed.
#[derive(Drop)]
pub struct HostOut<R> {
    rt: R,
    faults: u64,
}

impl<R> HostOut<R> {
    /// Standard output, to which no write has failed so far.
    pub fn new(rt: R) -> HostOut<R>
        ensures { result.faults ≡ 0 }
    {
        HostOut { rt, faults: 0 }
    }
}

impl<R: Print> TextOut for HostOut<R> {
    ghost text = { λ _. None };

    ghost faults = { λ o. o.faults };

    /// Writes a piece. Where the system doesn't take it whole, the write fails and is counted, and
    /// some first part of the piece may have been written.
    fn write(&mut self, piece: &[u8]) -> Result<(), WriteFailed>
        ensures cause { HasCause self.old.faults self.new.faults result }

        // It counts a failure, and nothing else.
        ensures count { self.new.faults ≡ after_error self.old.faults result }
    {
        if self.rt.write_all(piece).is_err() {
            self.faults = self.faults.saturating_add(1);
            return Err(WriteFailed);
        }
        Ok(())
    }
}
