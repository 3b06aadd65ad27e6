// Folders: the adapters over a real folder and standard output, of which no clause says what the system holds; and the folder whose calls never fail.
use spoc_base::Text;
use spoc_host::{HostFolder, HostOut};
use spoc_io::{Folder, IoFail, QuietFolder, Target, TextOut};
use std::fs;
use std::os::unix::fs::symlink;
use std::test::Fail;

const TOP: &str = "call_tests_folder";

// Whether the path is among those that are listed.
fn is_listed(paths: &[Text], path: &str) -> bool {
    paths.iter().any(|p| p.bytes() == path.as_bytes())
}

#[test]
fn folders_are_listed_read_and_written(rt: HostRuntime) -> Result<(), Fail> {
    let alloc = rt.alloc();
    let _ = fs::remove_dir_all(&rt, TOP);
    let mut folder = HostFolder::open(&rt, TOP);
    assert!(rt;
        matches!(folder.list(alloc), Err(IoFail::Failed)),
        "a missing folder"
    );
    assert!(rt; folder.put(b"r1", b"text").is_err(), "a missing folder");

    fs::create_dir(&rt, TOP)?;
    assert_eq!(rt; folder.list(alloc)?.len(), 0, "an empty folder");
    fs::create_dir_all(&rt, "call_tests_folder/a/b")?;
    fs::write(&rt, "call_tests_folder/a/b/c", b"12345".as_slice())?;
    symlink(&rt, "a", "call_tests_folder/link")?;
    symlink(&rt, "a/b/c", "call_tests_folder/linked")?;
    folder.put(b"r1", b"a longer text").or(Err("r1"))?;
    folder.put(b"r1", b"text").or(Err("r1"))?;
    folder.put(b"a/r2", b"").or(Err("r2"))?;
    let paths = folder.list(alloc)?;
    assert_eq!(rt; paths.len(), 3, "links are left out");
    for path in ["a/b/c", "r1", "a/r2"] {
        assert!(rt; is_listed(&paths, path), "{path}");
    }
    assert_eq!(rt;
        folder.read(alloc, b"a/b/c", 5)?.bytes(),
        b"12345".as_slice()
    );
    assert_eq!(rt; folder.read(alloc, b"r1", 4)?.bytes(), b"text".as_slice());
    assert!(rt; matches!(folder.read(alloc, b"a/b/c", 4), Err(IoFail::TooLarge)));

    for path in [
        "linked",
        "link/b/c",
        "a",
        "none",
        "",
        "a//b",
        "../call_tests_folder/r1",
    ] {
        let answer = folder.read(alloc, path.as_bytes(), 9);
        assert!(rt; matches!(answer, Err(IoFail::Failed)), "{path}");
    }
    for name in ["linked", "link/r3", "a", "none/r3", "", "../r3"] {
        assert!(rt; folder.put(name.as_bytes(), b"text").is_err(), "{name}");
    }
    assert_eq!(rt;
        folder.read(alloc, b"a/b/c", 5)?.bytes(),
        b"12345".as_slice()
    );
    fs::remove_dir_all(&rt, TOP)?;
    Ok(())
}

#[test]
fn folders_are_listed_32_levels_deep(rt: HostRuntime) -> Result<(), Fail> {
    let alloc = rt.alloc();
    let top = "call_tests_deep_folder";
    let _ = fs::remove_dir_all(&rt, top);
    let mut path = String::from_str(alloc, top)?;
    for _ in 0..32 {
        path.push_str("/d")?;
    }
    fs::create_dir_all(&rt, path.as_str())?;
    path.push_str("/f")?;
    fs::write(&rt, path.as_str(), b"12345".as_slice())?;
    let mut folder = HostFolder::open(&rt, top);
    let paths = folder.list(alloc)?;
    assert_eq!(rt; paths.len(), 1);
    assert_eq!(rt;
        folder.read(alloc, paths[0].bytes(), 5)?.bytes(),
        b"12345".as_slice()
    );
    fs::remove_file(&rt, path.as_str())?;
    fs::create_dir(&rt, path.as_str())?;
    assert!(rt;
        matches!(folder.list(alloc), Err(IoFail::Failed)),
        "33 levels"
    );
    fs::remove_dir_all(&rt, top)?;
    Ok(())
}

#[test]
fn text_is_written(rt: HostRuntime) -> Result<(), Fail> {
    let mut out = HostOut::new(&rt);
    assert!(rt; out.write(b"text\n").is_ok());
    Ok(())
}

#[test]
fn a_quiet_folder_lists_and_reads(rt: HostRuntime) -> Result<(), Fail> {
    let alloc = rt.alloc();
    let mut files = Vec::new(alloc);
    files.push((Text::of(alloc, b"a/b")?, Text::of(alloc, b"1234")?))?;
    let mut folder = QuietFolder::new(files);
    let paths = folder.list(alloc)?;
    assert_eq!(rt; paths.len(), 1);
    assert_eq!(rt; paths[0].bytes(), b"a/b".as_slice());
    let text = folder.read(alloc, b"a/b", 4)?;
    assert_eq!(rt; text.bytes(), b"1234".as_slice());
    assert!(rt; matches!(folder.read(alloc, b"a/b", 3), Err(IoFail::TooLarge)));
    Ok(())
}
