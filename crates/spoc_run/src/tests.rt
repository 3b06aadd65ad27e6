// Whole runs over folders in memory: words, failing calls, and texts and declarations that have a fault.
use crate::cases::{CASE, Case, check_all, empty, fits, texts};
use crate::rows::{NETS, ONE_ROUTER, RESTRICTED, SHUT_R1, SHUT_R2, TRIANGLE, WEB_SERVICE};
use crate::run;
use spoc_io::{MemOut, Target};
use std::test::Fail;

// ---- words and failing calls

#[test]
fn other_words_are_refused(rt: HostRuntime) -> Result<(), Fail> {
    let alloc = rt.alloc();
    let words = texts(alloc, &["compile", "p"])?;
    let mut policy = empty(alloc, &[], &[])?;
    let mut code = empty(alloc, &[], &[])?;
    let mut out = MemOut::new(alloc, 1000, Vec::new(alloc))?;
    assert_eq!(rt; run(alloc, &words, &mut policy, &mut code, &mut out), 2);
    assert_eq!(rt; out.text(), b"usage\n".as_slice());
    assert_eq!(rt; code.held_len(), 0);
    Ok(())
}

static CALLS: [Case; 3] = [
    // A read fails.
    Case {
        files: &[("p", &[NETS, ONE_ROUTER, WEB_SERVICE])],
        read_fails: &[2],
        status: 3,
        text: "read fault\n",
        ..CASE
    },
    // A put fails: the first call of `put` fails, and ten bytes are kept.
    Case {
        files: &[("p", &[NETS, ONE_ROUTER, WEB_SERVICE])],
        put_fails: &[(1, 10)],
        status: 4,
        text: "",
        held: &[("r1", "! r1 IOS\ni")],
        ..CASE
    },
    // The third put fails: the files before it are left whole.
    Case {
        files: &[("p", &[TRIANGLE, RESTRICTED])],
        put_fails: &[(3, 10)],
        status: 4,
        text: "",
        held: &[("r1", SHUT_R1), ("r2", SHUT_R2), ("r3", "! r3 IOS\ni")],
        ..CASE
    },
];

#[test]
fn failing_calls_give_their_status(rt: HostRuntime) -> Result<(), Fail> {
    check_all(&rt, rt.alloc(), &CALLS)?;
    Ok(())
}

#[test]
fn a_file_past_the_limit_is_refused(rt: HostRuntime) -> Result<(), Fail> {
    let alloc = rt.alloc();
    let blanks = vec![in alloc; b' '; 4_194_305]?;
    let mut policy = empty(alloc, &[], &[])?;
    assert!(rt; policy.put(b"p", &blanks).is_ok());
    let fitting = fits(alloc, &mut policy, &TOO_LARGE)?;
    assert!(rt; fitting);
    Ok(())
}

static TOO_LARGE: Case = Case {
    status: 9,
    text: "too large p\n",
    ..CASE
};

// ---- texts

// A description in each place that has one, with bytes that are no tokens elsewhere.
const DESCRIBED: &str = "\
network:a = { description = a $ ; }
 ip = 10.1.1.0/24; }
router:r = { description = a $ ; }
 interface:a; }
group:g = description = a $ ; }
 network:a;
area:x = { description = a $ ; }
 anchor = network:a; }
any:y = { description = a $ ; }
 link = network:a; }
pathrestriction:p = description = a $ ; }
 interface:r.a, interface:r.b;
service:s = { description = a $ ; }
 user = network:a; permit src = user; dst = network:a; prt = ip; }
";

// The policy of one router up to the user of its service.
const BROKEN_OFF: &str = "\
service:s1 = {
 user = network:n1;
";

static TEXTS: [Case; 6] = [
    // No token.
    Case {
        files: &[("p", &["$"])],
        status: 1,
        text: "fault Lex p 0\n",
        ..CASE
    },
    // 17 levels.
    Case {
        files: &[("p", &["[[[[[[[[[[[[[[[[["])],
        status: 1,
        text: "fault Deep p 16\n",
        ..CASE
    },
    // A declaration that breaks off.
    Case {
        files: &[("p", &[NETS, ONE_ROUTER, BROKEN_OFF])],
        status: 1,
        text: "fault Syntax p 210\n",
        ..CASE
    },
    // Descriptions.
    Case {
        files: &[("p", &[DESCRIBED])],
        status: 1,
        text: "fault Unknown interface:r.b\n",
        ..CASE
    },
    // A word that is left out.
    Case {
        files: &[
            ("p", &[NETS, ONE_ROUTER, WEB_SERVICE]),
            ("a", &["crypto:v = { }\n"]),
        ],
        status: 1,
        text: "fault LeftOut a 0 crypto:v\n",
        ..CASE
    },
    // The earliest kind of fault: a word that is left out in the second file counts before a bracket and an unread token in the first.
    Case {
        files: &[("a", &["[[[[[[[[[[[[[[[[["]), ("b", &["  owner:it = { }"])],
        status: 1,
        text: "fault LeftOut b 2 owner:it\n",
        ..CASE
    },
];

#[test]
fn texts_outside_the_language_are_refused(rt: HostRuntime) -> Result<(), Fail> {
    check_all(&rt, rt.alloc(), &TEXTS)?;
    Ok(())
}

// ---- declarations

const SAME_NAME: &str =
    "service:s1 = { user = network:n1; permit src = user; dst = network:n2; prt = ip; }\n";

const TO_NOTHING: &str = "\
service:s1 = {
 user = network:n1;
 permit src = user; dst = network:n3; prt = tcp 80;
}
";

const HOST_BIT: &str = "\
network:n1 = { ip = 10.1.1.1/24; }
network:n2 = { ip = 10.1.2.0/24; }
";

static DECLARATIONS: [Case; 4] = [
    // Declared twice.
    Case {
        files: &[("p", &[NETS, ONE_ROUTER, SAME_NAME, WEB_SERVICE])],
        status: 1,
        text: "fault Twice service:s1\n",
        ..CASE
    },
    // Not declared.
    Case {
        files: &[("p", &[NETS, ONE_ROUTER, TO_NOTHING])],
        status: 1,
        text: "fault Unknown network:n3\n",
        ..CASE
    },
    // A group of itself.
    Case {
        files: &[(
            "p",
            &[NETS, ONE_ROUTER, "group:g = group:g;\n", WEB_SERVICE],
        )],
        status: 1,
        text: "fault Circle group:g\n",
        ..CASE
    },
    // An address beside its mask.
    Case {
        files: &[("p", &[HOST_BIT, ONE_ROUTER, WEB_SERVICE])],
        status: 1,
        text: "fault Shape S4 network:n1\n",
        ..CASE
    },
];

#[test]
fn declarations_with_a_fault_are_refused(rt: HostRuntime) -> Result<(), Fail> {
    check_all(&rt, rt.alloc(), &DECLARATIONS)?;
    Ok(())
}
