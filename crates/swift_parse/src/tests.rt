//! Texts from the bytes to the syntax tree, or to the first refusal.
use crate::{ParseFault, parse};
use std::alloc::{AllocError, Global};
use std::test::Fail;
use swift_lex::{LexFault, lex};

// Each line of the grammar, spelled.
const SPELLED: [&str; 27] = [
    "",
    "import SwiftUI",
    "struct A {}",
    "@main struct A: App { var body: some Scene { WindowGroup { Main() } } }",
    "private struct A: View, B { let a: Int let b: [Int]? ; var c: (Int) }",
    "enum E: CaseIterable { case a, b; case c func f() -> Int { return 1 } }",
    "extension EnvironmentValues { @Entry var tone = 0; @Entry var k: Int = 1 }",
    "#Preview { if }",
    "#Preview(\"x\") { ContentView() }",
    "struct P: PreviewProvider { static var any thing }",
    "struct A { @State private var n = 0; @Environment(\\.k) var k }",
    "struct A { func f(_ x: Int, at y: inout Int, z: () -> Int) -> [Int] { return [] } }",
    "struct A { static let a = 1; mutating func g() { } }",
    "struct A { var b: some View { Text(\"n \\(n) and \\(m + 1)\") } }",
    "struct A { func b() { if a { return 1 } else if let x = y { } else { } } }",
    "struct A { func b() { switch a { case 1, -2: b() case .a, E.b: c() default: d() } } }",
    "struct A { func b() { for i in 0..<3 { continue }; while a, let b { break } } }",
    "struct A { func b() { x = 1; y += 2\nz()\nlet w: Int = 3 } }",
    "struct A { func b() { a\n.b\n-c } }",
    "struct A { func b() { return\nx } }",
    "struct A { let x = a ? b : c ? d : e }",
    "struct A { let x = a || b && c == d ?? e...f }",
    "struct A { let x = -a * !b.c(1, y: 2)[0]! - (d) }",
    "struct A { let x = f { a, $b in c }.g(x) { } label: { } }",
    "struct A { let x = g(\\.self, { }, y: \\.name) }",
    "struct A { let x = [1, 0x1F, .a, nil, true, self.b, $c, \"t\"] }",
    "struct A { func b() { if g(y: { h { } }) { } } }",
];

// Texts, what refuses them, and the line that is named.
const REFUSED: [(&str, &str, u32); 32] = [
    ("let x = 1", "no declaration", 1),
    ("import SwiftUI;", "no declaration", 1),
    ("import A.B", "no declaration", 1),
    (
        "import SwiftUI\nstruct A {\n what }\nstruct B { nor this }",
        "no declaration",
        2,
    ),
    ("struct A { let x = 1 < 2 < 3 }", "no declaration", 1),
    ("struct A { let x = 0..<1..<2 }", "no declaration", 1),
    ("struct A { let x = a -b }", "no declaration", 1),
    ("struct A { let x = a- b }", "no declaration", 1),
    ("struct A { let x = - a }", "no declaration", 1),
    ("struct A { func b() { y =2 } }", "no declaration", 1),
    ("struct A { let x = [1,] }", "no declaration", 1),
    ("struct A { let x: Int?? }", "no declaration", 1),
    ("struct A { let x = a ? b }", "no declaration", 1),
    ("struct A { let x = a.b { } c: d }", "no declaration", 1),
    (
        "struct A { func b() { if f { } { } } }",
        "no declaration",
        1,
    ),
    (
        "struct A { func b() { if (f { a in b }.c) { } } }",
        "no declaration",
        1,
    ),
    ("struct A { func b() { a b } }", "no declaration", 1),
    (
        "struct A { func b() { a; .b\n.c } func d() { if e { }\n.f } }",
        "no declaration",
        1,
    ),
    (
        "struct A { func b() { switch a { 1: c() } } }",
        "no declaration",
        1,
    ),
    ("struct A { func f() -> { } }", "no declaration", 1),
    ("struct A { func f(x) { } }", "no declaration", 1),
    ("struct A { @Environment var k }", "no declaration", 1),
    ("enum E { case }", "no declaration", 1),
    ("extension View { }", "no declaration", 1),
    (
        "extension EnvironmentValues { @Entry let k = 1 }",
        "no declaration",
        1,
    ),
    ("struct A: View, { }", "no declaration", 1),
    ("struct A { let x = 1", "unbalanced", 1),
    ("struct A { let x = (1 }", "unbalanced", 1),
    ("struct A {\n) }", "unbalanced", 2),
    ("struct A {\n(\n[ ]", "unbalanced", 2),
    ("struct A { let x = \"a\\q\" }", "no token", 1),
    ("import SwiftUI\n/* x", "no token", 2),
];

fn verdict(alloc: Global, text: &str) -> Result<(&'static str, u32), AllocError> {
    let bytes = text.as_bytes();
    if bytes.len() > 1_048_576 {
        return Ok(("too long", 0));
    }
    let tokens = match lex(alloc, bytes) {
        Ok(tokens) => tokens,
        Err(LexFault::OutOfMemory) => return Err(AllocError),
        Err(LexFault::At { line, .. }) => return Ok(("no token", line)),
    };
    match parse(alloc, tokens) {
        Ok(source) => {
            drop(source);
            Ok(("spelled", 0))
        }
        Err(ParseFault::OutOfMemory) => Err(AllocError),
        Err(ParseFault::Unbalanced { line }) => Ok(("unbalanced", line)),
        Err(ParseFault::TooNested { line }) => Ok(("too nested", line)),
        Err(ParseFault::NotADeclaration { line }) => Ok(("no declaration", line)),
    }
}

#[test]
fn reads_what_is_spelled(rt: HostRuntime) -> Result<(), Fail> {
    let alloc = rt.alloc();
    for text in SPELLED {
        assert_eq!(rt; verdict(alloc, text)?, ("spelled", 0), "at {text}");
    }
    for (text, what, line) in REFUSED {
        assert_eq!(rt; verdict(alloc, text)?, (what, line), "at {text}");
    }
    Ok(())
}

/// A text so many times.
fn times(alloc: Global, text: &str, count: usize) -> Result<String, AllocError> {
    let mut all = String::new(alloc);
    for _turn in 0..count {
        all.push_str(text)?;
    }
    Ok(all)
}

// What stands before, what stands so many times, what stands after as many times, and what follows from how many.
const LIMITS: [(&str, usize, &str, &str, &str); 8] = [
    ("", 64, "(", ")", "no declaration"),
    ("", 65, "(", ")", "too nested"),
    ("struct A { let x = a", 64, " + a", "", "spelled"),
    ("struct A { let x = a", 65, " + a", "", "no declaration"),
    ("struct A { let x = a", 64, ".b", "", "spelled"),
    ("struct A { let x = a", 65, ".b", "", "no declaration"),
    ("struct A { let x = a", 64, " ? b : c", "", "spelled"),
    ("struct A { let x = a", 65, " ? b : c", "", "no declaration"),
];

#[test]
fn holds_the_limits(rt: HostRuntime) -> Result<(), Fail> {
    let alloc = rt.alloc();
    for (before, count, open, close, want) in LIMITS {
        let mut text = String::from_str(alloc, before)?;
        text.push_str(times(alloc, open, count)?.as_str())?;
        text.push_str(times(alloc, close, count)?.as_str())?;
        if !before.is_empty() {
            text.push_str(" }")?;
        }
        assert_eq!(rt; verdict(alloc, text.as_str())?.0, want, "at {count} {open}");
    }
    Ok(())
}
