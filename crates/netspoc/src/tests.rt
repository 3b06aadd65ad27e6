// The whole program but for its words, over two real folders.
use crate::start;
use spoc_host::HostFolder;
use spoc_io::{Folder, IoFail};
use std::alloc::{AllocError, Global};
use std::fs;
use std::test::Fail;

const POLICY: &[u8] = b"network:n1 = { ip = 10.1.1.0/24; }
network:n2 = { ip = 10.1.2.0/24; }
router:r1 = {
 managed;
 model = IOS;
 interface:n1 = { ip = 10.1.1.1; hardware = E1; }
 interface:n2 = { ip = 10.1.2.1; hardware = E2; }
}
";

const FILE: &[u8] = b"! r1 IOS
ip access-list extended E1_in
 deny ip any any
ip access-list extended E2_in
 deny ip any any
interface E1
 ip access-group E1_in in
interface E2
 ip access-group E2_in in
";

fn words_of(alloc: Global, words: &[&str]) -> Result<Vec<String>, AllocError> {
    let mut owned = Vec::new(alloc);
    for word in words {
        owned.push(String::from_str(alloc, word)?)?;
    }
    Ok(owned)
}

// Whether the folder holds this file and no other.
fn holds(rt: &HostRuntime, folder: &str, path: &[u8], bytes: &[u8]) -> Result<bool, IoFail> {
    let mut folder = HostFolder::open(rt, folder);
    let paths = folder.list(rt.alloc())?;
    let text = folder.read(rt.alloc(), path, 4096)?;
    Ok(paths.len() == 1 && text.bytes() == bytes)
}

#[test]
fn the_third_word_is_the_target(rt: HostRuntime) -> Result<(), Fail> {
    let _ = fs::remove_dir_all(&rt, "netspoc_folders");
    fs::create_dir_all(&rt, "netspoc_folders/policy")?;
    fs::create_dir(&rt, "netspoc_folders/code")?;
    fs::write(&rt, "netspoc_folders/policy/p", POLICY)?;
    let words = words_of(
        rt.alloc(),
        &["compile", "netspoc_folders/policy", "netspoc_folders/code"],
    )?;
    assert_eq!(rt; start(&rt, &words), 0);
    assert!(rt;
        holds(&rt, "netspoc_folders/policy", b"p", POLICY)?,
        "the policy is as before"
    );
    assert!(rt;
        holds(&rt, "netspoc_folders/code", b"r1", FILE)?,
        "the file is in the target"
    );
    assert_eq!(rt; start(&rt, &words[1..]), 2);
    assert!(rt; holds(&rt, "netspoc_folders/policy", b"p", POLICY)?);
    fs::remove_dir_all(&rt, "netspoc_folders")?;
    Ok(())
}
