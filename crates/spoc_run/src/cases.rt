// Whole runs over folders in memory, as rows of tables: each row is a call of `run` with the words `compile p c`, and what has to come of it. What a table says is
// part of the proof of the test that walks it, and the cost of that grows with the square of the table: so there are many small ones.
use crate::run;
use spoc_base::{NoMemory, Text};
use spoc_io::{MemFolder, MemOut, Target};
use std::alloc::Global;
use std::process::Abort;

// A call of `run`, and what it has to answer, to write, and to leave in the target.
#[derive(Clone, Copy)]
pub(crate) struct Case {
    // the policy folder: the path of each file, and the parts of its text
    pub(crate) files: &'static [(&'static str, &'static [&'static str])],
    // which calls of `list` or `read` fail
    pub(crate) read_fails: &'static [u32],
    // which calls of `put` fail, and how many bytes they keep
    pub(crate) put_fails: &'static [(u32, u64)],
    pub(crate) status: u8,
    pub(crate) text: &'static str,
    pub(crate) held: &'static [(&'static str, &'static str)],
    // whether the files that the target holds are too long to be compared here
    pub(crate) only_text: bool,
}

// An empty folder, in which nothing fails: what rows have in common.
pub(crate) const CASE: Case = Case {
    files: &[],
    read_fails: &[],
    put_fails: &[],
    status: 0,
    text: "",
    held: &[],
    only_text: false,
};

// Bytes that the files of a folder take at most: more than the greatest file that is read.
const ROOM: u64 = 6_000_000;

// The words of a call.
pub(crate) fn texts(alloc: Global, words: &[&str]) -> Result<Vec<Text>, NoMemory> {
    let mut texts = Vec::new(alloc);
    for word in words {
        let text = Text::of(alloc, word.as_bytes())?;
        texts.push(text)?;
    }
    Ok(texts)
}

// The parts of a text, as one.
fn joined(alloc: Global, parts: &[&str]) -> Result<String, NoMemory> {
    let mut text = String::new(alloc);
    for part in parts {
        text.push_str(part)?;
    }
    Ok(text)
}

// An empty folder, in which some calls fail.
pub(crate) fn empty(
    alloc: Global,
    read_fails: &[u32],
    put_fails: &[(u32, u64)],
) -> Result<MemFolder, NoMemory> {
    let files = Vec::new(alloc);
    let read_fails = read_fails.to_vec(alloc)?;
    let put_fails = put_fails.to_vec(alloc)?;
    MemFolder::new(alloc, files, ROOM, read_fails, put_fails)
}

// The policy folder of a row.
fn policy_folder(alloc: Global, case: &Case) -> Result<MemFolder, NoMemory> {
    let mut folder = empty(alloc, case.read_fails, &[])?;
    for (path, parts) in case.files {
        let text = joined(alloc, parts)?;
        let _ = folder.put(path.as_bytes(), text.as_bytes());
    }
    Ok(folder)
}

// Whether the call answers and writes this.
fn answers(
    alloc: Global,
    policy: &mut MemFolder,
    code: &mut MemFolder,
    status: u8,
    text: &str,
) -> Result<bool, NoMemory> {
    let words = texts(alloc, &["compile", "p", "c"])?;
    let mut out = MemOut::new(alloc, 1000, Vec::new(alloc))?;
    let answer = run(alloc, &words, policy, code, &mut out);
    Ok(answer == status && out.text() == text.as_bytes())
}

// Whether the target holds just these files.
fn holds(code: &MemFolder, held: &[(&str, &str)]) -> bool {
    if code.held_len() != held.len() {
        return false;
    }
    for k in 0..held.len() {
        if code.held_name(k) != held[k].0.as_bytes() || code.held_bytes(k) != held[k].1.as_bytes() {
            return false;
        }
    }
    true
}

// Whether the call over this policy folder does what the row says.
pub(crate) fn fits(alloc: Global, policy: &mut MemFolder, case: &Case) -> Result<bool, NoMemory> {
    let mut code = empty(alloc, &[], case.put_fails)?;
    let answered = answers(alloc, policy, &mut code, case.status, case.text)?;
    Ok(answered && (case.only_text || holds(&code, case.held)))
}

// Makes each call of a table, and compares.
pub(crate) fn check_all(rt: &impl Abort, alloc: Global, cases: &[Case]) -> Result<(), NoMemory> {
    for (row, case) in cases.iter().enumerate() {
        let mut policy = policy_folder(alloc, case)?;
        let fitting = fits(alloc, &mut policy, case)?;
        assert!(rt; fitting, "row {row}");
    }
    Ok(())
}

// Whether a policy of one file is refused with this line, and nothing is put.
fn is_refused(alloc: Global, text: &str, line: &str) -> Result<bool, NoMemory> {
    let mut policy = empty(alloc, &[], &[])?;
    let _ = policy.put(b"p", text.as_bytes());
    let mut code = empty(alloc, &[], &[])?;
    let refused = answers(alloc, &mut policy, &mut code, 1, line)?;
    Ok(refused && code.held_len() == 0)
}

// Refuses each policy of a table, which is one text, with the line beside it.
pub(crate) fn refuse_all(
    rt: &impl Abort,
    alloc: Global,
    rows: &[(&str, &str)],
) -> Result<(), NoMemory> {
    for (text, line) in rows {
        let refused = is_refused(alloc, text, line)?;
        assert!(rt; refused, "{text}");
    }
    Ok(())
}

// Refuses each of these policies, which are one text each, with the same line.
pub(crate) fn refuse_each(
    rt: &impl Abort,
    alloc: Global,
    texts: &[&str],
    line: &str,
) -> Result<(), NoMemory> {
    for text in texts {
        let refused = is_refused(alloc, text, line)?;
        assert!(rt; refused, "{text}");
    }
    Ok(())
}
