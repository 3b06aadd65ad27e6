ghost use Rattle.std.specs.Prelude.{◌==◌, ◌||◌, IsTrue, true, ◌≡◌, ◌≢◌, ◌⊎◌, ◌≤◌, ℕ, List, IfSome, map, false};
ghost use Rattle.std.specs.Option.{ForSome};
ghost use Rattle.std.specs.Str.{bytes_eq};
ghost use Rattle.std.specs.List.{IsDistinct};
ghost use Rattle.spoc_io.specs.Causes.{Rose, BothTold};
ghost use Rattle.spoc_io.specs.Files.{Files, paths, Grows, GrowsPart};
ghost use Rattle.first_fault_laws.specs.Whole.{last_row};
ghost use Rattle.source_laws.specs.Table.{HaveNone};
ghost use Rattle.spoc_run.specs.Policy.{policy_of};
ghost use Rattle.spoc_run.specs.Outcome.{is_compile, text_of};
ghost use Rattle.device_files.specs.Seen.{file_of};
ghost use Rattle.spoc_run.specs.Answer.{bytes_of_message};
ghost use Rattle.spoc_run.specs.Decided.{IsExactly};
ghost use Rattle.spoc_run.specs.Held.{HoldsExact};
ghost use Rattle.spoc_run.specs.Puts.{PutsAll, PutsSome};
ghost use Rattle.spoc_run.specs.Answering.{IsDecided, Stops, Leaves, TellsFirstFault, IsByFirstFault};
ghost use Rattle.spoc_run.specs.Caused.{IsCaused, InsteadOf, NothingFailed, IsSettled, is_either, files_of};

use crate::answer::{Answer, Message, answer_for_fail, answer_for_sources, plain};
use crate::deliver::put_all;
use crate::load::load;
use spoc_base::Text;
use spoc_io::{Folder, Target, TextOut};
use std::alloc::Global;

// Whether the words are `compile POLICY CODE`.
fn is_compile(words: &[Text]) -> bool
    ensures { result ≡ is_compile words.now }
{
    match words {
        [form, policy, code] => {
            form.bytes() == b"compile".as_slice()
                && !policy.bytes().is_empty()
                && !code.bytes().is_empty()
        }
        _ => false,
    }
}

// What is to be done, before anything is written.
fn decide<P: Folder>(alloc: Global, words: &[Text], policy: &mut P) -> Answer
    ensures cause { IsCaused words.now (P.files policy.old) (P.faults policy.old) (P.faults policy.new) (P.larges policy.old) (P.larges policy.new) result.status }
    ensures text { ForSome (text_of result.status (P.files policy.old)) (λ text. bytes_of_message result.text ≡ text) }
    ensures files { result.status ≡ 0 → ForSome (P.files policy.old) (λ fs. map file_of result.files ≡ files_of fs) }
    ensures names { IsDistinct bytes_eq (paths (map file_of result.files)) }
    ensures exact { result.status ≡ 0 → ForSome (P.files policy.old) (λ fs. IsExactly (policy_of fs)) }
    ensures same { P.files policy.new ≡ P.files policy.old }
    ensures decided { IsDecided words.now (P.files policy.old) (P.faults policy.old) (P.faults policy.new) (P.larges policy.old) (P.larges policy.new) result.status (bytes_of_message result.text) (map file_of result.files) }
    ensures unread { is_compile words.now ≡ false → policy.new ≡ policy.old }
{
    if !is_compile(words) {
        return plain(alloc, 2, Message::Usage);
    }
    match load(alloc, policy) {
        Ok(sources) => answer_for_sources(alloc, &sources),
        Err(fail) => answer_for_fail(alloc, fail),
    }
}

// Writes the text of a status.
fn say<O: TextOut>(out: &mut O, status: u8, text: &[u8]) -> u8
    requires { status ≢ 4 }
    ensures which { result ≢ 4 → result ≡ status }
    ensures cause { result ≡ 4 → Rose (O.faults out.old) (O.faults out.new) }
    ensures later { O.faults out.old ≤ O.faults out.new }
    ensures whole { result ≢ 4 → BothTold (Grows text.now) (O.text out.old) (O.text out.new) }
    ensures part { result ≡ 4 → BothTold (GrowsPart text.now) (O.text out.old) (O.text out.new) }
{
    match out.write(text) {
        Ok(()) => status,
        Err(_) => 4,
    }
}

#[tactic(auto, using(crate::proofs::Putting::told_all))]
// Puts the device files, and writes the text of the status.
fn deliver<C: Folder + Target, O: TextOut>(code: &mut C, out: &mut O, answer: &Answer) -> u8
    requires status { answer.now.status ≢ 4 }
    requires names { IsDistinct bytes_eq (paths (map file_of answer.now.files)) }
    ensures which { result ≢ 4 → result ≡ answer.now.status }
    ensures cause { result ≡ 4 → Rose (C.put_faults code.old) (C.put_faults code.new) ⊎ Rose (O.faults out.old) (O.faults out.new) }
    ensures untouched { answer.now.status ≢ 0 → code.new ≡ code.old }
    ensures put { result ≡ 0 → BothTold (PutsAll (map file_of answer.now.files)) (C.files code.old) (C.files code.new) }
    ensures put_part { result ≡ 4 → answer.now.status ≡ 0 → BothTold (PutsSome (map file_of answer.now.files)) (C.files code.old) (C.files code.new) }
    ensures whole { result ≢ 4 → BothTold (Grows (bytes_of_message answer.now.text)) (O.text out.old) (O.text out.new) }
    ensures part { result ≡ 4 → BothTold (GrowsPart (bytes_of_message answer.now.text)) (O.text out.old) (O.text out.new) }
    ensures silent { result ≡ 4 → out.new ≡ out.old ⊎ Rose (O.faults out.old) (O.faults out.new) }
    ensures stops { result ≡ 4 → Stops answer.now.status (map file_of answer.now.files) (C.files code.old) (C.files code.new) (C.put_faults code.old) (C.put_faults code.new) out.old out.new (O.faults out.old) (O.faults out.new) }
{
    if answer.status != 0 {
        return say(out, answer.status, answer.text.bytes());
    }
    match put_all(code, answer.files.items()) {
        Ok(()) => say(out, 0, answer.text.bytes()),
        Err(_) => 4,
    }
}

/// Does what the words say, and answers the status that the program ends with. The words are those
/// after the program's name, and the one form is `compile POLICY CODE`.
///
/// | status | comes | text on `out` |
/// |---|---|---|
/// | 0 | the policy is accepted: the target holds the file of each managed router | the summary |
/// | 1 | the policy has a fault | `fault` and what it is |
/// | 2 | the words match no form | `usage` |
/// | 3 | the policy folder failed to be read | `read fault` |
/// | 4 | a file or the text failed to be written | a first part of the text of the status in whose place it stands |
/// | 5 | memory ran out | `memory` |
/// | 9 | a policy file has more than 4 MiB, or all together have more than 64 MiB | `too large` and the path |
pub fn run<P: Folder, C: Folder + Target, O: TextOut>(
    alloc: Global,
    words: &[Text],
    policy: &mut P,
    code: &mut C,
    out: &mut O,
) -> u8
    // Each status but 4 comes only where the words, the counts and the policy's files allow it.
    ensures cause { result ≢ 4 → IsCaused words.now (P.files policy.old) (P.faults policy.old) (P.faults policy.new) (P.larges policy.old) (P.larges policy.new) result }

    // 4 comes only where a write failed.
    ensures write { result ≡ 4 → Rose (C.put_faults code.old) (C.put_faults code.new) ⊎ Rose (O.faults out.old) (O.faults out.new) }

    // After 0 the target holds the device files, and else what it held.
    ensures put { result ≡ 0 → ForSome (P.files policy.old) (λ fs. BothTold (PutsAll (files_of fs)) (C.files code.old) (C.files code.new)) }

    // After 4 it holds some first ones, the next one perhaps in part.
    ensures put_part { result ≡ 4 → ForSome (P.files policy.old) (λ fs. BothTold (PutsSome (files_of fs)) (C.files code.old) (C.files code.new)) }

    // After any other status it is as before.
    ensures untouched { result ≢ 0 → result ≢ 4 → code.new ≡ code.old }

    // The text of the status was written, and nothing else.
    ensures text { result ≢ 4 → ForSome (text_of result (P.files policy.old)) (λ text. BothTold (Grows text) (O.text out.old) (O.text out.new)) }

    // After 4 a first part of the text of the status in whose place it stands, and nothing where a file was not put.
    ensures text_part { result ≡ 4 → InsteadOf (IsCaused words.now (P.files policy.old) (P.faults policy.old) (P.faults policy.new) (P.larges policy.old) (P.larges policy.new)) (P.files policy.old) (O.text out.old) (O.text out.new) }
    ensures silent { result ≡ 4 → out.new ≡ out.old ⊎ Rose (O.faults out.old) (O.faults out.new) }

    // After 0 the device files that the target holds do exactly what the policy says: the main theorem.
    ensures exact { result ≡ 0 → ForSome (P.files policy.old) (λ fs. ForSome (C.files code.new) (λ held. HoldsExact (policy_of fs) held)) }

    // Where the words match and nothing fails, a policy within the limits is compiled or refused, as it says, unless memory runs out.
    ensures settled { is_compile words.now ≡ true → NothingFailed (P.faults policy.old) (P.faults policy.new) (C.put_faults code.old) (C.put_faults code.new) (O.faults out.old) (O.faults out.new) → ForSome (P.files policy.old) (λ fs. IsSettled (policy_of fs) result) }

    // So it is over a folder that tells no content, where no file was found too large.
    ensures answered { is_compile words.now ≡ true → NothingFailed (P.faults policy.old) (P.faults policy.new) (C.put_faults code.old) (C.put_faults code.new) (O.faults out.old) (O.faults out.new) → (Rose (P.larges policy.old) (P.larges policy.new) → ⊥) → IsTrue (result == 0 || is_either 1 5 result) }

    // One status was being answered, by the files that the folder holds or, where it doesn't tell them, may hold: it is the answer, or 4 stands in its place.
    // Its text was written, or a first part of it, and its files were put, or first ones of them. No file is put for a status but 0.
    ensures answering { (status : ℕ) × (text : List ℕ) × (put : Files) × IsDecided words.now (P.files policy.old) (P.faults policy.old) (P.faults policy.new) (P.larges policy.old) (P.larges policy.new) status text put × Leaves status text put result code.old code.new (C.files code.old) (C.files code.new) (C.put_faults code.old) (C.put_faults code.new) out.old out.new (O.text out.old) (O.text out.new) (O.faults out.old) (O.faults out.new) }

    // After words that match no form neither folder was touched, whatever is answered.
    ensures usage { is_compile words.now ≡ false → code.new ≡ code.old }
    ensures unread { is_compile words.now ≡ false → policy.new ≡ policy.old }

    // 0 comes only where the policy has no fault in the whole table, and 1 only with the line of the first one.
    ensures clear { result ≡ 0 → ForSome (P.files policy.old) (λ fs. HaveNone (policy_of fs) last_row) }
    ensures first { result ≡ 1 → ForSome (P.files policy.old) (λ fs. TellsFirstFault (policy_of fs) (O.text out.old) (O.text out.new)) }

    // And where the words match and nothing fails, they come by that fault, unless memory runs out.
    ensures by_first { is_compile words.now ≡ true → NothingFailed (P.faults policy.old) (P.faults policy.new) (C.put_faults code.old) (C.put_faults code.new) (O.faults out.old) (O.faults out.new) → ForSome (P.files policy.old) (λ fs. IsByFirstFault (policy_of fs) result) }

    // No file that is too large was met before another status than 9, or want of memory: so none of them stands in the place of 9.
    ensures counted { result ≢ 4 → result ≢ 9 → result ≢ 5 → P.larges policy.new ≡ P.larges policy.old }

    // The policy's folder is as before.
    ensures same { P.files policy.new ≡ P.files policy.old }
{
    let answer = decide(alloc, words, policy);
    deliver(code, out, &answer)
}
