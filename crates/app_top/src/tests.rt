ghost use Rattle.std.specs.Prelude.{◌≡◌, ◌<◌};

use crate::{Outcome, run};
use std::alloc::{AllocError, Global};
use std::marker::Brand;
use std::sync::ledger::{Blank, Ledger};
use std::test::Fail;
use sv_io::{MemShelf, MemSink};
use sv_meter::Steps;

fn run_counted<B: Ledger, V: Ledger>(
    alloc: Global,
    words: &[String],
    shelf: &mut MemShelf,
    out: &mut MemSink,
    diag: &mut MemSink,
    bodies: Blank,
    visits: Blank,
) -> Outcome
    requires bodies_name { bodies.name ≡ B.name }
    requires bodies_parts { bodies.parts ≡ B.parts }
    requires bodies_some { 0 < B.parts }
    requires visits_name { visits.name ≡ V.name }
    requires visits_parts { visits.parts ≡ V.parts }
    requires visits_some { 0 < V.parts }
{
    let mut bodies = Steps::<B>::new(bodies);
    let mut visits = Steps::<V>::new(visits);
    run(alloc, words, shelf, out, diag, &mut bodies, &mut visits)
}

// The one place that picks the ledgers.
fn run_in(
    alloc: Global,
    words: &[String],
    shelf: &mut MemShelf,
    out: &mut MemSink,
    diag: &mut MemSink,
) -> Outcome {
    run_counted::<Brand, Brand>(alloc, words, shelf, out, diag, Blank::new(1), Blank::new(1))
}

const APP: &[u8] =
    b"@main struct A: App { var body: some Scene { WindowGroup { Main() } } }\nstruct Main: View {\n@State private var n = 9\nvar body: some View { VStack { Text(\"n \\(n)\"); Button(\"+\") { n += 1 } } }\n}\n";

// A shelf of the files `a` and `s`.
fn shelf(
    alloc: Global,
    app: Vec<u8>,
    script: Vec<u8>,
    fails: &[u64],
) -> Result<MemShelf, AllocError> {
    let mut files = Vec::new(alloc);
    files.push((String::from_str(alloc, "a")?, app))?;
    files.push((String::from_str(alloc, "s")?, script))?;
    Ok(MemShelf::new(alloc, files, fails.to_vec(alloc)?))
}

fn words(alloc: Global, words: &[&str]) -> Result<Vec<String>, AllocError> {
    let mut all = Vec::new(alloc);
    for word in words {
        all.push(String::from_str(alloc, *word)?)?;
    }
    Ok(all)
}

// A frame, line by line.
fn frame(alloc: Global, k: u64, title: &str) -> Result<String, AllocError> {
    let mut text = format!(in alloc; "frame {k}\n")?;
    for y in 0..24 {
        let line = match y {
            11 => title,
            12 =>
                "                                       [+]                                      ",
            _ => "                                                                                ",
        };
        text.push_str(line)?;
        text.push_str("\n")?;
    }
    Ok(text)
}

// A tap beside the button, and one on it.
#[test]
fn frames_go_out(rt: HostRuntime) -> Result<(), Fail> {
    let alloc = rt.alloc();
    let words = words(alloc, &["swiftview", "a", "s"])?;
    let taps = b"tap 42 12\ntap 39 12\n".to_vec(alloc)?;
    let mut shelf = shelf(alloc, APP.to_vec(alloc)?, taps, &[])?;
    let mut out = MemSink::new(alloc, 1000, 10_000, Vec::new(alloc))?;
    let mut diag = MemSink::new(alloc, 100, 100, Vec::new(alloc))?;
    let outcome = run_in(alloc, &words, &mut shelf, &mut out, &mut diag);
    assert_eq!(rt; outcome.status, 0);
    let before = "                                       n 9                                      ";
    let after = "                                      n 10                                      ";
    let mut wanted = frame(alloc, 0, before)?;
    wanted.push_str(frame(alloc, 1, before)?.as_str())?;
    wanted.push_str(frame(alloc, 2, after)?.as_str())?;
    assert_eq!(rt; out.bytes(), wanted.as_bytes());
    assert_eq!(rt; diag.bytes().len(), 0);
    Ok(())
}

// The words, APP, SCRIPT, the failing calls of the shelf and of out, and then the status, the bytes that went out, and the line.
const CASES: [(&[&str], &[u8], &[u8], &[u64], &[u64], u8, usize, &str); 18] = [
    (&["p", "a", "s"], APP, b"", &[], &[], 0, 1952, ""),
    (
        &["p", "a", "s"],
        b"",
        b"",
        &[],
        &[],
        1,
        0,
        "swiftview: APP: no main\n",
    ),
    (
        &["p", "s", "s"],
        APP,
        b"",
        &[],
        &[],
        1,
        0,
        "swiftview: APP: no main\n",
    ),
    (&["p", "--check", "a"], APP, b"", &[], &[], 0, 9, ""),
    (
        &["p", "--check", "a"],
        b"",
        b"",
        &[],
        &[],
        1,
        0,
        "swiftview: APP: no main\n",
    ),
    (&["p", "--check", "a", "s"], APP, b"", &[], &[], 2, 0, USAGE),
    (&["p", "--check", "-a"], APP, b"", &[], &[], 2, 0, USAGE),
    (
        &["p", "--check", "b"],
        APP,
        b"",
        &[],
        &[],
        6,
        0,
        "swiftview: cannot read APP\n",
    ),
    (
        &["p", "--check", "a"],
        APP,
        b"",
        &[],
        &[0],
        7,
        0,
        "swiftview: write failed\n",
    ),
    (&["p", "a"], APP, b"", &[], &[], 2, 0, USAGE),
    (&["p", "a", "-s"], APP, b"", &[], &[], 2, 0, USAGE),
    (&["p", "a", "s", "s"], APP, b"", &[], &[], 2, 0, USAGE),
    (
        &["p", "a", "s"],
        APP,
        b"tap 1\n",
        &[],
        &[],
        3,
        0,
        "swiftview: SCRIPT: not in this form\n",
    ),
    (
        &["p", "a", "s"],
        APP,
        b"\xff\xfe\n",
        &[],
        &[],
        3,
        0,
        "swiftview: SCRIPT: not in this form\n",
    ),
    (
        &["p", "b", "s"],
        APP,
        b"",
        &[],
        &[],
        6,
        0,
        "swiftview: cannot read APP\n",
    ),
    (
        &["p", "a", "b"],
        APP,
        b"",
        &[],
        &[],
        6,
        0,
        "swiftview: cannot read SCRIPT\n",
    ),
    (
        &["p", "a", "s"],
        APP,
        b"",
        &[3],
        &[],
        6,
        0,
        "swiftview: cannot read SCRIPT\n",
    ),
    (
        &["p", "a", "s"],
        APP,
        b"",
        &[],
        &[1],
        7,
        1000,
        "swiftview: write failed\n",
    ),
];

const USAGE: &str =
    "usage: swiftview [--size WxH] [--trace] [--state] [--layout] [--prefs] APP SCRIPT\n";

#[test]
fn statuses(rt: HostRuntime) -> Result<(), Fail> {
    let alloc = rt.alloc();
    for (given, app, script, shelf_fails, out_fails, status, out_len, line) in CASES {
        let words = words(alloc, given)?;
        let mut shelf = shelf(
            alloc,
            app.to_vec(alloc)?,
            script.to_vec(alloc)?,
            shelf_fails,
        )?;
        let mut out = MemSink::new(alloc, 1000, 4096, out_fails.to_vec(alloc)?)?;
        let mut diag = MemSink::new(alloc, 100, 100, Vec::new(alloc))?;
        let outcome = run_in(alloc, &words, &mut shelf, &mut out, &mut diag);
        assert_eq!(rt; outcome.status, status);
        assert_eq!(rt; outcome.taken, 0);
        assert_eq!(rt; out.bytes().len(), out_len);
        assert_eq!(rt; diag.bytes(), line.as_bytes());
    }
    Ok(())
}

// An APP, and the line of its refusal where it is to be run; where it is only checked, `accepted` stands for no refusal.
const REFUSED: [(&[u8], &str); 14] = [
    (
        b"import SwiftUI\n/* x",
        "swiftview: APP: lex fault at 2:1\n",
    ),
    (b"import \xff", "swiftview: APP: lex fault at 1:8\n"),
    (b"let x = \"a\\q\"", "swiftview: APP: lex fault at 1:11\n"),
    (
        b"struct A { let x = (1 }",
        "swiftview: APP: unbalanced at line 1\n",
    ),
    (
        b"\n(((((((((((((((((((((((((((((((((((((((((((((((((((((((((((((((((\n)))))))))))))))))))))))))))))))))))))))))))))))))))))))))))))))))",
        "swiftview: APP: too nested at line 2\n",
    ),
    (
        b"struct A { let x = 1 < 2 < 3 }",
        "swiftview: APP: not a declaration at line 1\n",
    ),
    (
        b"\n((((((((((((((((((((((((((((((((((((((((((((((((((((((((((((((((\n))))))))))))))))))))))))))))))))))))))))))))))))))))))))))))))))",
        "swiftview: APP: not a declaration at line 2\n",
    ),
    (b"import SwiftUI", "swiftview: APP: no main\n"),
    (
        b"@main struct A: App { var body: some Scene { WindowGroup { Text(\"a\") } } }\nstruct B { var x = true + 1 }",
        "swiftview: APP: not typed at line 2\n",
    ),
    (
        b"@main struct A: App { var body: some Scene { WindowGroup { Text(\"a\") } } }\nstruct B { var b: [B] }",
        "swiftview: APP: recursive type at line 2\n",
    ),
    (
        b"@main struct A: App { var body: some Scene { WindowGroup { Text(\"a\") } } }\nstruct B { let a: Int }\nenum B { case x }",
        "swiftview: APP: declared twice at line 3\n",
    ),
    (
        b"@main struct A: App { var body: some Scene { WindowGroup { Text(\"a\") } } }\nstruct V: View { @State var n = 0\nvar k: Int { n += 1; return n }\nvar body: some View { Text(\"a\") } }",
        "swiftview: APP: writes in body at line 3\n",
    ),
    (
        b"@main struct A: App { var body: some Scene { WindowGroup { Text(\"a\") } } }",
        "swiftview: APP: not in this form\n",
    ),
    (TO_DO, "swiftview: APP: not in this form\n"),
];

const TO_DO: &[u8] = b"@main struct A: App { var body: some Scene { WindowGroup { Main() } } }
struct Item: Identifiable { let id: Int; var title: String; var done = false }
struct Main: View {
    @State private var items = [Item(id: 1, title: \"milk\"), Item(id: 2, title: \"tea\")]
    var left: Int { var k = 0; for i in items { if !i.done { k += 1 } }; return k }
    var body: some View {
        VStack(alignment: .leading) { Text(\"\\(left) left\"); ForEach($items) { $item in Toggle(item.title, isOn: $item.done) } }
    }
}
";

#[test]
fn refusals(rt: HostRuntime) -> Result<(), Fail> {
    let alloc = rt.alloc();
    let words = words(alloc, &["p", "a", "s"])?;
    for (app, line) in REFUSED {
        let mut shelf = shelf(alloc, app.to_vec(alloc)?, Vec::new(alloc), &[])?;
        let mut out = MemSink::new(alloc, 1000, 4096, Vec::new(alloc))?;
        let mut diag = MemSink::new(alloc, 100, 100, Vec::new(alloc))?;
        let outcome = run_in(alloc, &words, &mut shelf, &mut out, &mut diag);
        assert_eq!(rt; outcome.status, 1);
        assert_eq!(rt; out.bytes().len(), 0);
        assert_eq!(rt; diag.bytes(), line.as_bytes());
    }
    Ok(())
}

// The same files, only checked: a program that is no counter is accepted.
#[test]
fn checks(rt: HostRuntime) -> Result<(), Fail> {
    let alloc = rt.alloc();
    let words = words(alloc, &["p", "--check", "a"])?;
    for (app, line) in REFUSED {
        let mut shelf = shelf(alloc, app.to_vec(alloc)?, Vec::new(alloc), &[])?;
        let mut out = MemSink::new(alloc, 1000, 4096, Vec::new(alloc))?;
        let mut diag = MemSink::new(alloc, 100, 100, Vec::new(alloc))?;
        let outcome = run_in(alloc, &words, &mut shelf, &mut out, &mut diag);
        if line == "swiftview: APP: not in this form\n" {
            assert_eq!(rt; outcome.status, 0);
            assert_eq!(rt; out.bytes(), b"accepted\n".as_slice());
            assert_eq!(rt; diag.bytes().len(), 0);
        } else {
            assert_eq!(rt; outcome.status, 1);
            assert_eq!(rt; out.bytes().len(), 0);
            assert_eq!(rt; diag.bytes(), line.as_bytes());
        }
    }
    Ok(())
}

// Bytes of APP, taps of SCRIPT, and then the status, the kept count, and the line.
const SIZES: [(usize, usize, u8, u64, &str); 3] = [
    (1_048_576, 0, 1, 0, "swiftview: APP: no main\n"),
    (1_048_577, 0, 9, 1_048_577, "swiftview: APP: too long\n"),
    (0, 10_001, 3, 0, "swiftview: SCRIPT: not in this form\n"),
];

#[test]
fn sizes(rt: HostRuntime) -> Result<(), Fail> {
    let alloc = rt.alloc();
    let words = words(alloc, &["p", "a", "s"])?;
    for (spaces, taps, status, taken, line) in SIZES {
        let mut app = vec![in alloc; b' '; spaces]?;
        if spaces == 0 {
            app = APP.to_vec(alloc)?;
        }
        let mut script = Vec::new(alloc);
        for _ in 0..taps {
            script.extend_from_slice(b"tap 0 0\n")?;
        }
        let mut shelf = shelf(alloc, app, script, &[])?;
        let mut out = MemSink::new(alloc, 1000, 4096, Vec::new(alloc))?;
        let mut diag = MemSink::new(alloc, 100, 100, Vec::new(alloc))?;
        let outcome = run_in(alloc, &words, &mut shelf, &mut out, &mut diag);
        assert_eq!(rt; outcome.status, status);
        assert_eq!(rt; outcome.taken, taken);
        assert_eq!(rt; out.bytes().len(), 0);
        assert_eq!(rt; diag.bytes(), line.as_bytes());
    }
    Ok(())
}
