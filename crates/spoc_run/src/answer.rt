ghost use Rattle.std.specs.Prelude.{◌≡◌, ◌≤◌, [], map, length, IfOk, IfErr};
ghost use Rattle.std.specs.Str.{bytes_eq};
ghost use Rattle.std.specs.List.{IsDistinct, All};
ghost use Rattle.spoc_run.specs.Policy.{most_of_one};
ghost use Rattle.spoc_io.specs.Files.{paths};
ghost use Rattle.topology.specs.First.{IsRefusalOf};
ghost use Rattle.fault_text.specs.Texts.{pair_of, fault_line};
ghost use Rattle.device_files.specs.Seen.{file_of};
ghost use Rattle.policy_compile.specs.Seen.{written_of};
ghost use Rattle.spoc_run.specs.Answer.{bytes_of_message};
ghost use Rattle.spoc_run.specs.Decided.{IsCompiled, IsRefused, AnswersSources, AnswersFail};

use crate::load::LoadFail;
use crate::texts::too_large;
use compile_core::{Compiled, DeviceFile, compile, summary_text};
use fault_text::fault_line;
use spoc_base::{Fault, Refusal, Row, Source, Text};
use std::alloc::Global;

/// What is written for a status.
#[derive(Debug, Drop)]
pub enum Message {
    /// The words match no form.
    Usage,
    /// The policy folder failed.
    ReadFault,
    /// Memory ran out.
    NoRoom,
    /// A text that was made for this policy.
    Made(Text),
}

impl Message {
    /// The bytes that are written.
    pub fn bytes(&self) -> &[u8]
        ensures { result.now ≡ bytes_of_message self.now }
    {
        match self {
            Message::Usage => b"usage\n",
            Message::ReadFault => b"read fault\n",
            Message::NoRoom => b"memory\n",
            Message::Made(text) => text.bytes(),
        }
    }
}

/// What is to be done, before anything is written.
#[derive(Debug, Drop)]
pub struct Answer {
    pub status: u8,
    pub text: Message,
    pub files: Row<DeviceFile>,
}

/// A status without device files.
pub fn plain(alloc: Global, status: u8, text: Message) -> Answer
    ensures status { result.status ≡ status }
    ensures text { result.text ≡ text }
    ensures files { result.files ≡ [] }
    ensures names { IsDistinct bytes_eq (paths (map file_of result.files)) }
{
    Answer {
        status,
        text,
        files: Row::of(Vec::new(alloc)),
    }
}

// What the sources compile to.
fn compile_sources(alloc: Global, sources: &[Source]) -> Result<Compiled, Refusal>
    requires { All (λ s. length s.text ≤ most_of_one) sources.now }
    ensures ok { IfOk result (λ c. IsCompiled (map pair_of sources.now) (written_of c)) }
    ensures refused { IfErr result (IsRefusalOf (λ fault. IsRefused (map pair_of sources.now) (fault_line (map pair_of sources.now) fault))) }
{
    compile(alloc, sources)
}

// The answer for a policy that is accepted.
fn answer_for_compiled(alloc: Global, sources: &[Source], compiled: Compiled) -> Answer
    requires { IsCompiled (map pair_of sources.now) (written_of compiled) }
    ensures { AnswersSources (map pair_of sources.now) result.status (bytes_of_message result.text) (map file_of result.files) }
{
    match summary_text(alloc, &compiled.summary) {
        Ok(summary) => Answer {
            status: 0,
            text: Message::Made(summary),
            files: compiled.files,
        },
        Err(_) => plain(alloc, 5, Message::NoRoom),
    }
}

// The answer for a policy that is refused.
fn answer_for_fault(alloc: Global, sources: &[Source], fault: Fault) -> Answer
    requires { IsRefused (map pair_of sources.now) (fault_line (map pair_of sources.now) fault) }
    ensures { AnswersSources (map pair_of sources.now) result.status (bytes_of_message result.text) (map file_of result.files) }
{
    match fault_line(alloc, fault, sources) {
        Ok(line) => plain(alloc, 1, Message::Made(line)),
        Err(_) => plain(alloc, 5, Message::NoRoom),
    }
}

/// The answer for a policy that was read.
pub fn answer_for_sources(alloc: Global, sources: &[Source]) -> Answer
    requires { All (λ s. length s.text ≤ most_of_one) sources.now }
    ensures { AnswersSources (map pair_of sources.now) result.status (bytes_of_message result.text) (map file_of result.files) }
{
    match compile_sources(alloc, sources) {
        Ok(compiled) => answer_for_compiled(alloc, sources, compiled),
        Err(Refusal::Policy(fault)) => answer_for_fault(alloc, sources, fault),
        Err(Refusal::Memory) => plain(alloc, 5, Message::NoRoom),
    }
}

/// The answer where the policy could not be read.
pub fn answer_for_fail(alloc: Global, fail: LoadFail) -> Answer
    ensures { AnswersFail fail result.status (bytes_of_message result.text) (map file_of result.files) }
{
    match fail {
        LoadFail::Read => plain(alloc, 3, Message::ReadFault),
        LoadFail::Memory => plain(alloc, 5, Message::NoRoom),
        LoadFail::Large(path) => match too_large(alloc, path.bytes()) {
            Ok(text) => plain(alloc, 9, Message::Made(text)),
            Err(_) => plain(alloc, 5, Message::NoRoom),
        },
    }
}
