use std::alloc::{AllocError, Global};
use std::test::Fail;
use view_check::{Refusal, check};

// What the check says of a file, without its program.
pub fn verdict(alloc: Global, text: &str) -> Result<(), Refusal> {
    let bytes = text.as_bytes();
    if bytes.len() > 1_048_576 {
        return Err(Refusal::OutOfMemory);
    }
    check(alloc, bytes).map(|_| ())
}

// A program with one more member of a view, which begins in line 7.
const BEFORE: &str = "@main struct Main: App { var body: some Scene { WindowGroup { V() } } }
enum E: CaseIterable { case a, b }
extension EnvironmentValues { @Entry var tone = 1 }
struct P: Identifiable { let id: Int; var x = 1; var on = true; var y: Int?; func twice() -> Int { x * 2 }; mutating func grow() { x += 1 } }
struct W: View { let k: Int; var body: some View { Text(\"\\(k)\") } }
struct V: View { @State var n = 0; @State var l = [1, 2]; @State var ps = [P(id: 1)]; var body: some View { Text(\"a\") }; func row(_ k: Int) -> some View { Text(\"\\(k)\") }
";

pub fn with_member(alloc: Global, parts: &[&str]) -> Result<String, AllocError> {
    let mut text = String::from_str(alloc, BEFORE)?;
    for part in parts {
        text.push_str(*part)?;
    }
    text.push_str("\n}\n")?;
    Ok(text)
}

// Each rule by a member that it accepts and one that it refuses.
const OPERATORS: [(&str, &str); 20] = [
    ("var m: Int { 1 + 2 * 3 }", "var m: Int { 1 + true }"),
    (
        "var m: String { \"a\" + \"b\" }",
        "var m: Bool { \"a\" < \"b\" }",
    ),
    ("var m: [Int] { [1] + [2] }", "var m: [Int] { [1] + [] }"),
    ("var m: Bool { 1 < 2 && !false }", "var m: Bool { 1 && 2 }"),
    ("var m: Int? { nil }", "var m: Int { nil }"),
    ("var m: Int? ? { 1 }", "func m(l: [Int]) -> [Int?] { l }"),
    (
        "var m: [Int?] { [1, nil] }",
        "var m: Bool { let x = [1, nil]; return true }",
    ),
    (
        "func m(x: Int?) -> Bool { x == nil }",
        "func m(x: Int?) -> Bool { nil == x }",
    ),
    (
        "func m(x: Int?) -> Bool { x == 1 }",
        "func m(x: Int?) -> Bool { 1 == x }",
    ),
    (
        "func m(e: E) -> Bool { e == .a }",
        "func m(e: E) -> Bool { .a == e }",
    ),
    ("var m: E? ? { .a }", "var m: E { .c }"),
    (
        "func m(x: Int?, y: Int?) -> Int { x ?? y ?? 0 }",
        "func m(x: Int) -> Int { x ?? 0 }",
    ),
    (
        "func m(x: Int?, y: Int?) -> Int? { x ?? y }",
        "func m(x: Int?) -> Int? { x ?? nil }",
    ),
    (
        "func m(b: Bool) -> Int? { b ? 1 : nil }",
        "func m(b: Bool) -> Bool { let x = b ? 1 : nil; return b }",
    ),
    (
        "func m(b: Bool, x: Int?) -> Bool { let y = b ? x : 1; return b }",
        "func m(b: Int) -> Int { b ? 1 : 2 }",
    ),
    (
        "func m(x: Int?) -> Bool { let k = [x, 1]; return true }",
        "func m(x: Int?) -> Bool { let k = [1, x]; return true }",
    ),
    (
        "var m: [Int] { [] }",
        "var m: Bool { let k = []; return true }",
    ),
    (
        "func m(n: Int, b: Bool) -> String { \"a\\(n) \\(b) \\(\"c\")\" }",
        "func m(l: [Int]) -> String { \"a\\(l)\" }",
    ),
    (
        "func m(n: Int) -> Int { -(-n) }",
        "func m(b: Bool) -> Bool { -b }",
    ),
    ("func m(a: Int) -> Int { a }", "func m(_: Int) -> Int { _ }"),
];

const CHAINS: [(&str, &str); 12] = [
    (
        "func m(p: P) -> Int { p.twice() }",
        "func m(p: P) -> Int { p.twice }",
    ),
    (
        "func m(p: P) -> Int { P(id: p.id, y: 3).x }",
        "func m(p: P) -> Int { P(id: p.id, 3).x }",
    ),
    (
        "func m(p: P) -> Int { P(id: 1, x: 2, y: 3).x }",
        "func m(p: P) -> Int { P(x: 2, id: 1).x }",
    ),
    (
        "func m(x: Int?) -> Int { x! }",
        "func m(x: Int) -> Int { x! }",
    ),
    ("func m() -> Int { l[0] }", "func m() -> Int { n[0] }"),
    ("func m() { l.append(3) }", "func m() { l.append(of: 3) }"),
    ("func m() { ps[0].grow() }", "func m(p: P) { p.grow() }"),
    ("func m() { ps[0].x = 2 }", "func m() { ps[0].id = 2 }"),
    (
        "func m() -> Int { E.allCases.count }",
        "func m() -> Int { P.allCases.count }",
    ),
    (
        "func m() -> Int { max(1, abs(-2)) }",
        "func m() -> Int { max(1) }",
    ),
    (
        "func m() -> String { String(3) }",
        "func m() -> String { String(\"a\") }",
    ),
    ("func m() { l.removeFirst() }", "func m() { l.count }"),
];

const STATEMENTS: [(&str, &str); 12] = [
    (
        "func m() -> Int { let a = 1; var b = a; b += 1; return b }",
        "func m() -> Int { let a = 1; a += 1; return a }",
    ),
    (
        "func m() -> Int { let a: Int? = 1; return a ?? 0 }",
        "func m() { let a = 1; let a = 2; n = a }",
    ),
    (
        "func m() -> Int { if n == 1 { return 2 } else { return 3 } }",
        "func m() -> Int { if n == 1 { return 2 } }",
    ),
    (
        "func m(x: Int?) -> Int { if let x { return x }; return 0 }",
        "func m(x: Int) -> Int { if let x { return x }; return 0 }",
    ),
    (
        "func m(e: E) -> Int { switch e { case .a: return 1\n case .b: return 2 } }",
        "func m(e: E) -> Int { switch e { case .a: return 1 } }",
    ),
    (
        "func m() -> Int { switch n { case 1, 2: return 1\n default: return 2 } }",
        "func m() -> Int { switch n { case 1: return 1\n case 1: return 3\n default: return 2 } }",
    ),
    (
        "func m() { for i in 0..<3 { n += i } }",
        "func m() { for i in n { n += i } }",
    ),
    (
        "func m() { for i in l.indices { l[i] = 0 } }",
        "func m() { for i in 0..<true { n += i } }",
    ),
    (
        "func m() -> Int { while true { if n == 1 { return 1 } } }",
        "func m() -> Int { while n == 1 { return 1 } }",
    ),
    (
        "func m() { for i in l { if i == 1 { break } else { continue } } }",
        "func m() { if n == 1 { break } }",
    ),
    (
        "func m() { switch n { case 1: break\n default: n = 1 } }",
        "func m() { switch n { case 1: continue\n default: n = 1 } }",
    ),
    ("func m() { return }", "func m() -> Int { return }"),
];

const BUILDERS: [(&str, &str); 14] = [
    ("Text(\"a\"); Text(verbatim: \"b\")", "Text(1)"),
    (
        "let k = n + 1; Text(\"\\(k)\")",
        "var k = 1; Text(\"\\(k)\")",
    ),
    (
        "if n == 1 { Text(\"a\") } else { Spacer() }",
        "for i in l { Text(\"\\(i)\") }",
    ),
    (
        "switch n { case 1: Text(\"a\")\n default: EmptyView() }",
        "switch n { case 1: Text(\"a\") }",
    ),
    ("Button(\"a\") { n += 1 }", "Button(1) { n += 1 }"),
    (
        "Button(action: { n += 1 }) { Text(\"a\") }",
        "Button(label: { Text(\"a\") }) { n += 1 }",
    ),
    (
        "VStack(alignment: .leading, spacing: 1) { Text(\"a\") }",
        "VStack(alignment: .top) { Text(\"a\") }",
    ),
    (
        "ZStack(alignment: .topLeading) { Text(\"a\") }",
        "ZStack(spacing: 1) { Text(\"a\") }",
    ),
    (
        "ForEach(ps) { p in Text(\"\\(p.x)\") }",
        "ForEach(l) { i in Text(\"\\(i)\") }",
    ),
    (
        "ForEach(l, id: \\.self) { i in Text(\"\\(i)\") }",
        "ForEach(l, id: \\.size) { i in Text(\"\\(i)\") }",
    ),
    (
        "ForEach(0..<3) { i in Text(\"\\(i)\") }",
        "ForEach(0..<3) { Text(\"a\") }",
    ),
    (
        "ForEach($ps) { $p in Toggle(\"a\", isOn: $p.on) }",
        "ForEach(ps) { $p in Toggle(\"a\", isOn: $p.on) }",
    ),
    ("W(k: n)", "W(n)"),
    ("row(1)", "row(true)"),
];

const MODIFIERS: [(&str, &str); 13] = [
    (".padding(.horizontal, 2)", ".padding(true)"),
    (
        ".frame(width: 3, height: 1, alignment: .leading)",
        ".frame(width: 3, maxWidth: 4)",
    ),
    (".frame(maxWidth: .infinity)", ".frame(width: \"a\")"),
    (".offset(x: 1, y: 2)", ".offset(1, 2)"),
    (".onAppear { n = 1 }", ".onAppear { n }"),
    (
        ".onChange(of: n) { old, new in n = new }",
        ".onChange(of: n) { x in n = x }",
    ),
    (".bold().foregroundStyle(.red)", ".italic()"),
    (
        ".environment(\\.tone, 2)",
        ".environment(\\.isEnabled, false)",
    ),
    (".disabled(n == 1)", ".disabled(1)"),
    (".id(n)", ".id()"),
    (".overlay { Text(\"b\") }", ".overlay(1)"),
    (".layoutPriority(1)", ".layoutPriority(\"a\")"),
    (
        ".alignmentGuide(.leading) { d in d[.leading] + 1 }",
        ".alignmentGuide(.leading) { d in d.width / 0 }",
    ),
];

#[test]
fn operators(rt: HostRuntime) -> Result<(), Fail> {
    let alloc = rt.alloc();
    for (accepted, refused) in OPERATORS {
        let text = with_member(alloc, &["", accepted, ""])?;
        assert_eq!(rt; verdict(alloc, text.as_str()), Ok(()));
        let text = with_member(alloc, &["", refused, ""])?;
        assert_eq!(rt;
            verdict(alloc, text.as_str()),
            Err(Refusal::NotTyped { line: 7 })
        );
    }
    Ok(())
}

#[test]
fn chains(rt: HostRuntime) -> Result<(), Fail> {
    let alloc = rt.alloc();
    for (accepted, refused) in CHAINS {
        let text = with_member(alloc, &["", accepted, ""])?;
        assert_eq!(rt; verdict(alloc, text.as_str()), Ok(()));
        let text = with_member(alloc, &["", refused, ""])?;
        assert_eq!(rt;
            verdict(alloc, text.as_str()),
            Err(Refusal::NotTyped { line: 7 })
        );
    }
    Ok(())
}

#[test]
fn statements(rt: HostRuntime) -> Result<(), Fail> {
    let alloc = rt.alloc();
    for (accepted, refused) in STATEMENTS {
        let text = with_member(alloc, &["", accepted, ""])?;
        assert_eq!(rt; verdict(alloc, text.as_str()), Ok(()));
        let text = with_member(alloc, &["", refused, ""])?;
        assert_eq!(rt;
            verdict(alloc, text.as_str()),
            Err(Refusal::NotTyped { line: 7 })
        );
    }
    Ok(())
}

#[test]
fn builders(rt: HostRuntime) -> Result<(), Fail> {
    let alloc = rt.alloc();
    for (accepted, refused) in BUILDERS {
        let text = with_member(alloc, &["var v: some View { ", accepted, " }"])?;
        assert_eq!(rt; verdict(alloc, text.as_str()), Ok(()));
        let text = with_member(alloc, &["var v: some View { ", refused, " }"])?;
        assert_eq!(rt;
            verdict(alloc, text.as_str()),
            Err(Refusal::NotTyped { line: 7 })
        );
    }
    Ok(())
}

#[test]
fn modifiers(rt: HostRuntime) -> Result<(), Fail> {
    let alloc = rt.alloc();
    for (accepted, refused) in MODIFIERS {
        let text = with_member(alloc, &["var v: some View { Text(\"a\")", accepted, " }"])?;
        assert_eq!(rt; verdict(alloc, text.as_str()), Ok(()));
        let text = with_member(alloc, &["var v: some View { Text(\"a\")", refused, " }"])?;
        assert_eq!(rt;
            verdict(alloc, text.as_str()),
            Err(Refusal::NotTyped { line: 7 })
        );
    }
    Ok(())
}

// Whole files, and what is said of each.
const INITIALISERS_AND_CHAINS: [(&str, Result<(), Refusal>); 31] = [
    (
        "struct P { let a: Int; var b = 2; let c = 3; private var d = 4; var e: Int? }\nstruct V: View { var body: some View { Text(\"\\(P(a: 1).b)\") } }\n@main struct M: App { var body: some Scene { WindowGroup { V() } } }\n",
        Ok(()),
    ),
    (
        "struct P { let a: Int; var b = 2; let c = 3; private var d = 4; var e: Int? }\nstruct V: View { var body: some View { Text(\"\\(P(a: 1, b: 3, e: 5).b)\") } }\n@main struct M: App { var body: some Scene { WindowGroup { V() } } }\n",
        Ok(()),
    ),
    (
        "struct P { let a: Int; let c = 3 }\nstruct V: View { var body: some View { Text(\"\\(P(a: 1, c: 3).a)\") } }\n@main struct M: App { var body: some Scene { WindowGroup { V() } } }\n",
        Err(Refusal::NotTyped { line: 2 }),
    ),
    (
        "struct P { let a: Int; private var d = 4 }\nstruct V: View { var body: some View { Text(\"\\(P(a: 1, d: 3).a)\") } }\n@main struct M: App { var body: some Scene { WindowGroup { V() } } }\n",
        Err(Refusal::NotTyped { line: 2 }),
    ),
    (
        "struct P { var a = 1; var b = 2 }\nstruct V: View { var body: some View { Text(\"\\(P(b: 1, a: 3).a)\") } }\n@main struct M: App { var body: some Scene { WindowGroup { V() } } }\n",
        Err(Refusal::NotTyped { line: 2 }),
    ),
    (
        "struct P { var a = 1; var b = 2 }\nstruct V: View { var body: some View { Text(\"\\(P(1, b: 3).a)\") } }\n@main struct M: App { var body: some Scene { WindowGroup { V() } } }\n",
        Err(Refusal::NotTyped { line: 2 }),
    ),
    (
        "struct P { let a: Int }\nstruct V: View { var body: some View { Text(\"\\(P().a)\") } }\n@main struct M: App { var body: some Scene { WindowGroup { V() } } }\n",
        Err(Refusal::NotTyped { line: 2 }),
    ),
    (
        "struct P { let a: Int; var b = 2 }\nstruct V: View {\n    @State var p = P(a: 1)\n    var body: some View { Text(\"a\").onTapGesture { p.b = 3 } }\n}\n@main struct M: App { var body: some Scene { WindowGroup { V() } } }\n",
        Ok(()),
    ),
    (
        "struct P { let a: Int; var b = 2 }\nstruct V: View {\n    @State var p = P(a: 1)\n    var body: some View { Text(\"a\").onTapGesture { p.a = 3 } }\n}\n@main struct M: App { var body: some Scene { WindowGroup { V() } } }\n",
        Err(Refusal::NotTyped { line: 4 }),
    ),
    (
        "struct P { var b = 2 }\nstruct V: View {\n    @State var p: P? = P()\n    var body: some View { Text(\"a\").onTapGesture { p!.b = 3 } }\n}\n@main struct M: App { var body: some Scene { WindowGroup { V() } } }\n",
        Err(Refusal::NotTyped { line: 4 }),
    ),
    (
        "struct V: View {\n    @State var n = 2\n    var body: some View { Text(\"\\(n.count)\") }\n}\n@main struct M: App { var body: some Scene { WindowGroup { V() } } }\n",
        Err(Refusal::NotTyped { line: 3 }),
    ),
    (
        "struct V: View {\n    @State var l = [1, 2]\n    var body: some View { Text(\"\\(l.count) \\(l.first ?? 0) \\(l.isEmpty) \\(l[0]) \\(l.contains(1)) \\(l.firstIndex(of: 2) ?? 9)\").onTapGesture { let x = l.removeFirst(); l.append(x); l.insert(x, at: 0); l.append(contentsOf: [x]); l.remove(at: 1); l.swapAt(0, 0); l.removeAll() } }\n}\n@main struct M: App { var body: some Scene { WindowGroup { V() } } }\n",
        Ok(()),
    ),
    (
        "struct V: View {\n    @State var l = [1, 2]\n    var body: some View { Text(\"a\").onTapGesture { let x = l.removeAll(); l.append(1) } }\n}\n@main struct M: App { var body: some Scene { WindowGroup { V() } } }\n",
        Err(Refusal::NotTyped { line: 3 }),
    ),
    (
        "struct V: View {\n    let l = [1, 2]\n    var body: some View { Text(\"a\").onTapGesture { l.append(1) } }\n}\n@main struct M: App { var body: some Scene { WindowGroup { V() } } }\n",
        Err(Refusal::NotTyped { line: 3 }),
    ),
    (
        "struct V: View {\n    @State var l = [1, 2]\n    var body: some View { Text(\"a\").onTapGesture { l.append(of: 1) } }\n}\n@main struct M: App { var body: some Scene { WindowGroup { V() } } }\n",
        Err(Refusal::NotTyped { line: 3 }),
    ),
    (
        "struct V: View {\n    var body: some View { Text(String(Int.max) + String(repeating: \"a\", count: max(1, min(2, abs(3)))) + String(true)) }\n}\n@main struct M: App { var body: some Scene { WindowGroup { V() } } }\n",
        Ok(()),
    ),
    (
        "struct V: View {\n    var body: some View { Text(String(\"a\")) }\n}\n@main struct M: App { var body: some Scene { WindowGroup { V() } } }\n",
        Err(Refusal::NotTyped { line: 2 }),
    ),
    (
        "struct V: View {\n    let max = 3\n    var body: some View { Text(String(max(1, 2))) }\n}\n@main struct M: App { var body: some Scene { WindowGroup { V() } } }\n",
        Err(Refusal::NotTyped { line: 3 }),
    ),
    (
        "enum E: CaseIterable { case a, b; var n: Int { 1 } }\nenum F { case a }\nstruct V: View {\n    var body: some View { Text(\"\\(E.allCases.count) \\(E.a.n) \\(E.allCases[0].n)\") }\n}\n@main struct M: App { var body: some Scene { WindowGroup { V() } } }\n",
        Ok(()),
    ),
    (
        "enum F { case a }\nstruct V: View {\n    var body: some View { Text(\"\\(F.allCases.count)\") }\n}\n@main struct M: App { var body: some Scene { WindowGroup { V() } } }\n",
        Err(Refusal::NotTyped { line: 3 }),
    ),
    (
        "struct C { var n = 0; mutating func step(by k: Int) -> Int { n += k; return n }; func plus(_ k: Int) -> Int { n + k } }\nstruct V: View {\n    @State var c = C()\n    var body: some View { Text(\"\\(c.plus(1))\").onTapGesture { let x = c.step(by: 2); c.n = x } }\n}\n@main struct M: App { var body: some Scene { WindowGroup { V() } } }\n",
        Ok(()),
    ),
    (
        "struct C { var n = 0; mutating func step(by k: Int) -> Int { n += k; return n } }\nstruct V: View {\n    let c = C()\n    var body: some View { Text(\"a\").onTapGesture { let x = c.step(by: 2) } }\n}\n@main struct M: App { var body: some Scene { WindowGroup { V() } } }\n",
        Err(Refusal::NotTyped { line: 4 }),
    ),
    (
        "struct C { var n = 0; func f() -> Int { n } }\nstruct V: View {\n    @State var c = C()\n    var body: some View { Text(\"\\(c.f)\") }\n}\n@main struct M: App { var body: some Scene { WindowGroup { V() } } }\n",
        Err(Refusal::NotTyped { line: 4 }),
    ),
    (
        "struct C { var n = 0; func plus(_ k: Int) -> Int { n + k } }\nstruct V: View {\n    @State var c = C()\n    var body: some View { Text(\"\\(c.plus(k: 1))\") }\n}\n@main struct M: App { var body: some Scene { WindowGroup { V() } } }\n",
        Err(Refusal::NotTyped { line: 4 }),
    ),
    (
        "struct I: Identifiable { let id: Int; var done = false }\nstruct R: View { @Binding var on: Bool; var body: some View { Text(\"a\").onTapGesture { on.toggle() } } }\nstruct V: View {\n    @State var l = [I(id: 1)]\n    var body: some View { ForEach($l) { $x in R(on: $x.done) } }\n}\n@main struct M: App { var body: some Scene { WindowGroup { V() } } }\n",
        Ok(()),
    ),
    (
        "struct I: Identifiable { let id: Int; let done = false }\nstruct R: View { @Binding var on: Bool; var body: some View { Text(\"a\").onTapGesture { on.toggle() } } }\nstruct V: View {\n    @State var l = [I(id: 1)]\n    var body: some View { ForEach($l) { $x in R(on: $x.done) } }\n}\n@main struct M: App { var body: some Scene { WindowGroup { V() } } }\n",
        Err(Refusal::NotTyped { line: 5 }),
    ),
    (
        "struct R: View { @Binding var on: Bool; var body: some View { Text(\"a\") } }\nstruct V: View {\n    let on = true\n    var body: some View { R(on: $on) }\n}\n@main struct M: App { var body: some Scene { WindowGroup { V() } } }\n",
        Err(Refusal::NotTyped { line: 4 }),
    ),
    (
        "struct K: PreferenceKey { static var defaultValue = 3; static func reduce(value: inout Int, nextValue: () -> Int) { value = value + nextValue() + defaultValue } }\nstruct V: View { var body: some View { Text(\"\\(K.defaultValue)\") } }\n@main struct M: App { var body: some Scene { WindowGroup { V() } } }\n",
        Ok(()),
    ),
    (
        "struct K: PreferenceKey { static var defaultValue = 3; static func reduce(value: inout Int, nextValue: () -> Int) { value = nextValue } }\nstruct V: View { var body: some View { Text(\"a\") } }\n@main struct M: App { var body: some Scene { WindowGroup { V() } } }\n",
        Err(Refusal::NotTyped { line: 1 }),
    ),
    (
        "struct C { var n = 0; mutating func step() -> Int { n += 1; return n } }\nstruct V: View {\n    @State var c = C()\n    var body: some View { Text(\"a\").onTapGesture { c.step() } }\n}\n@main struct M: App { var body: some Scene { WindowGroup { V() } } }\n",
        Err(Refusal::NotTyped { line: 4 }),
    ),
    (
        "struct C { var n = 0; mutating func step() { n += 1 } }\nstruct V: View {\n    @State var c = C()\n    var body: some View { Text(\"a\").onTapGesture { c.step() } }\n}\n@main struct M: App { var body: some Scene { WindowGroup { V() } } }\n",
        Ok(()),
    ),
];

const DECLARATIONS: [(&str, Result<(), Refusal>); 22] = [
    (
        "@main struct A: App { var body: some Scene { WindowGroup { V() } } }\nstruct V: View { var body: some View { Text(\"a\") } }\nstruct V: View { var body: some View { Text(\"b\") } }\n",
        Err(Refusal::Twice { line: 3 }),
    ),
    (
        "@main struct A: App { var body: some Scene { WindowGroup { V() } } }\n@main\nstruct V: View { var body: some View { Text(\"a\") } }\n",
        Err(Refusal::Twice { line: 2 }),
    ),
    (
        "@main struct A: App { var body: some Scene { WindowGroup { V() } } }\nstruct V: View {\n    let n = 1\n    func n() -> Int { 2 }\n    var body: some View { Text(\"a\") }\n}\n",
        Err(Refusal::Twice { line: 4 }),
    ),
    (
        "@main struct A: App { var body: some Scene { WindowGroup { V() } } }\nstruct V: View { var body: some View { Text(\"a\") } }\nenum E: CaseIterable {\n    case a\n    case allCases\n}\n",
        Err(Refusal::Twice { line: 5 }),
    ),
    (
        "@main struct A: App { var body: some Scene { WindowGroup { V() } } }\nstruct V: View { var body: some View { Text(\"a\") } }\nenum E {\n    case a, b,\n         a\n}\n",
        Err(Refusal::Twice { line: 5 }),
    ),
    (
        "@main struct A: App { var body: some Scene { WindowGroup { V() } } }\nstruct V: View { var body: some View { Text(\"a\") } }\nstruct Toggle { let on: Bool }\n",
        Err(Refusal::Twice { line: 3 }),
    ),
    (
        "@main struct A: App { var body: some Scene { WindowGroup { V() } } }\nstruct V: View { var body: some View { Text(\"a\") } }\nextension EnvironmentValues {\n    @Entry var isEnabled = true\n}\n",
        Err(Refusal::Twice { line: 4 }),
    ),
    (
        "@main struct A: App { var body: some Scene { WindowGroup { V() } } }\nstruct V: View { var body: some View { Text(\"a\") } }\nextension EnvironmentValues { @Entry var k = 1 }\nextension EnvironmentValues { @Entry var k = 2 }\n",
        Err(Refusal::Twice { line: 4 }),
    ),
    (
        "@main struct A: App { var body: some Scene { WindowGroup { V() } } }\nstruct V: View { var body: some View { Text(\"a\") } }\nstruct Tree { let kids: [Tree] }\n",
        Err(Refusal::Recursive { line: 3 }),
    ),
    (
        "@main struct A: App { var body: some Scene { WindowGroup { V() } } }\nstruct V: View { var body: some View { Text(\"a\") } }\nstruct Holder { let tree: Tree? }\nstruct Tree { let kids: [Tree] }\n",
        Err(Refusal::Recursive { line: 3 }),
    ),
    (
        "@main struct A: App { var body: some Scene { WindowGroup { V() } } }\nstruct V: View { var body: some View { Text(\"a\") } }\nstruct Tree { @State var kid: Tree? }\n",
        Err(Refusal::Recursive { line: 3 }),
    ),
    (
        "@main struct A: App { var body: some Scene { WindowGroup { V() } } }\nstruct V: View { var body: some View { Text(\"a\") } }\nstruct B { var z = C().y }\nstruct C { var y = B().z }\n",
        Err(Refusal::NotTyped { line: 3 }),
    ),
    (
        "@main struct A: App { var body: some Scene { WindowGroup { V() } } }\nstruct V: View { var body: some View { Text(\"a\") } }\nstruct B { var x = C().z }\nstruct C { var z = 1; var y = B().x }\n",
        Ok(()),
    ),
    (
        "@main struct A: App { var body: some Scene { WindowGroup { V() } } }\nstruct V: View {\n    @State let n = 1\n    var body: some View { Text(\"a\") }\n}\n",
        Err(Refusal::NotTyped { line: 2 }),
    ),
    (
        "@main struct A: App { var body: some Scene { WindowGroup { V() } } }\nstruct V: View {\n    @State private var n: Int?\n    var body: some View { Text(\"a\") }\n}\n",
        Ok(()),
    ),
    (
        "@main struct A: App { var body: some Scene { WindowGroup { V() } } }\nstruct V: View {\n    private let n: Int?\n    var body: some View { Text(\"a\") }\n}\n",
        Err(Refusal::NotTyped { line: 2 }),
    ),
    (
        "@main struct A: App { var body: some Scene { WindowGroup { V() } } }\nstruct V: View { let n = 1 }\n",
        Err(Refusal::NotTyped { line: 2 }),
    ),
    (
        "@main struct A: App { var body: some Scene { WindowGroup { V() } } }\nstruct V: View { var body: some View { Text(\"a\") } }\nstruct Item: Identifiable { var id: Int { 1 } }\n",
        Err(Refusal::NotTyped { line: 3 }),
    ),
    (
        "@main struct A: App { var body: some Scene { WindowGroup { V() } } }\nstruct V: View { var body: some View { Text(\"a\") } }\nstruct K: PreferenceKey {\n    static let defaultValue = 0\n    static func reduce(value: inout Int, next: () -> Int) { value = value + next() }\n}\n",
        Err(Refusal::NotTyped { line: 3 }),
    ),
    (
        "@main struct A: App { var body: some Scene { WindowGroup { V() } } }\nstruct V: View { var body: some View { Text(\"a\") } }\nstruct K: PreferenceKey {\n    static var defaultValue: Int { 0 }\n    static func reduce(value v: inout Int, nextValue n: () -> Int) { v = v + n() }\n}\n",
        Ok(()),
    ),
    (
        "struct A: App { var body: some Scene { WindowGroup { V() } } }\nstruct V: View { var body: some View { Text(\"a\") } }\n",
        Err(Refusal::NotTyped { line: 1 }),
    ),
    (
        "@main struct A: App { var body: some Scene { WindowGroup { V() } } }\nstruct V: View, Equatable { var body: some View { Text(\"a\") } }\n",
        Err(Refusal::NotTyped { line: 2 }),
    ),
];

const WHOLE_FILES: [(&str, Result<(), Refusal>); 30] = [
    ("\n", Err(Refusal::NoMain)),
    ("import SwiftUI\n", Err(Refusal::NoMain)),
    ("let x = \"a\\q\"\n", Err(Refusal::Lex { line: 1, col: 11 })),
    (
        "struct A { let x = (1 }\n",
        Err(Refusal::Unbalanced { line: 1 }),
    ),
    (
        "struct A { let x = 1 < 2 < 3 }\n",
        Err(Refusal::NotADeclaration { line: 1 }),
    ),
    (
        "@main struct A: App { var body: some Scene { WindowGroup { Main() } } }\nstruct Main: View {\n    @State private var n = 0\n    var body: some View { VStack { Text(\"n \\(n)\"); Button(\"+\") { n += 1 } } }\n}\n",
        Ok(()),
    ),
    (
        "import SwiftUI\nstruct ContentView: View {\n    var body: some View {\n        VStack {\n            Image(systemName: \"globe\").imageScale(.large).foregroundStyle(.tint)\n            Text(\"Hello, world!\")\n        }.padding()\n    }\n}\n#Preview { ContentView() }\nimport SwiftUI\n@main\nstruct DemoApp: App {\n    var body: some Scene {\n        WindowGroup { ContentView() }\n    }\n}\n",
        Ok(()),
    ),
    (
        "@main struct A: App { var body: some Scene { WindowGroup { Main() } } }\nstruct Item: Identifiable { let id: Int; var title: String; var done = false }\nstruct Main: View {\n    @State private var items = [Item(id: 1, title: \"milk\"), Item(id: 2, title: \"tea\")]\n    var left: Int { var k = 0; for i in items { if !i.done { k += 1 } }; return k }\n    var body: some View { VStack(alignment: .leading) { Text(\"\\(left) left\"); ForEach($items) { $item in Toggle(item.title, isOn: $item.done) } } }\n}\n",
        Ok(()),
    ),
    (
        "@main struct A: App { var body: some Scene { WindowGroup { Text(\"a\") } } }\nstruct B { var x = true + 1 }\n",
        Err(Refusal::NotTyped { line: 2 }),
    ),
    (
        "@main struct A: App { var body: some Scene { WindowGroup { Text(\"a\") } } }\nstruct B { var b: [B] }\n",
        Err(Refusal::Recursive { line: 2 }),
    ),
    (
        "@main struct A: App { var body: some Scene { WindowGroup { Text(\"a\") } } }\nstruct B { let a: Int }\nenum B { case x }\n",
        Err(Refusal::Twice { line: 3 }),
    ),
    (
        "@main struct A: App { var body: some Scene { WindowGroup { Text(\"a\") } } }\nstruct V: View { @State var n = 0\nvar k: Int { n += 1; return n }\nvar body: some View { Text(\"a\") } }\n",
        Err(Refusal::WritesInBody { line: 3 }),
    ),
    (
        "@main struct A: App { var body: some Scene { WindowGroup { Text(\"a\") } } }\nstruct V: View { @State var n = 0\nvar body: some View { Text(\"\\(k)\") }\nvar k: Int { return more() }\nfunc more() -> Int { n += 1; return n } }\n",
        Err(Refusal::WritesInBody { line: 3 }),
    ),
    (
        "@main struct A: App { var body: some Scene { WindowGroup { Text(\"a\") } } }\nstruct V: View { @State var n = 0\nfunc more() { n += 1 }\nvar body: some View { Text(\"\\(n)\").onTapGesture { more() } } }\n",
        Ok(()),
    ),
    (
        "@main struct A: App { var body: some Scene { WindowGroup { Text(\"a\") } } }\nstruct B { var x = true + 1 }\nstruct C { var c: [C] }\n",
        Err(Refusal::Recursive { line: 3 }),
    ),
    (
        "@main struct A: App { var body: some Scene { WindowGroup { Text(\"a\") } } }\nstruct B { var x = 1\nvar y = true + 1\nvar z = false + 1 }\n",
        Err(Refusal::NotTyped { line: 3 }),
    ),
    (
        "@main struct A: App { var body: some Scene { WindowGroup { Text(\"a\") } } }\nenum E { case a, b\nvar n: Int { return true }\n}\n",
        Err(Refusal::NotTyped { line: 3 }),
    ),
    (
        "@main struct A: App { var body: some Scene { WindowGroup { Text(\"a\") } } }\nstruct V: View\n{ let a: Int\nstatic func f() { }\nvar body: some View { Text(\"a\") } }\n",
        Err(Refusal::NotTyped { line: 2 }),
    ),
    (
        "@main struct A: App { var body: some Scene { WindowGroup { Text(\"a\") } } }\nenum E { case a\ncase _ }\n",
        Err(Refusal::NotTyped { line: 3 }),
    ),
    (
        "@main struct A: App { var body: some Scene { WindowGroup { Text(\"a\") } } }\nextension EnvironmentValues {\n@Entry var tone: Int = \"a\" }\n",
        Err(Refusal::NotTyped { line: 3 }),
    ),
    (
        "@main struct A: App { var body: some Scene { WindowGroup { Text(\"a\") } } }\nextension EnvironmentValues { @Entry var tone = 0 }\nstruct V: View { @Environment(\\.tone) var tone: Int\nvar body: some View { Text(\"\\(tone)\") } }\nstruct W: View { @Environment(\\.isEnabled) var on\n@Environment(\\.tone) var tone: String\nvar body: some View { Text(\"a\") } }\n",
        Err(Refusal::NotTyped { line: 6 }),
    ),
    (
        "@main struct A: App { var body: some Scene { WindowGroup { Text(\"a\") } } }\nstruct K: PreferenceKey { static var defaultValue = 3\nstatic func reduce(value: inout Int, nextValue: () -> Int) { value = value * 10 + nextValue() } }\nstruct L: PreferenceKey { static let defaultValue = 3\nstatic func reduce(value: inout String, nextValue: () -> String) { value = nextValue() } }\n",
        Err(Refusal::NotTyped { line: 5 }),
    ),
    (
        "@main struct A: App { var body: some Scene { WindowGroup { Text(\"a\") } } }\nstruct K: PreferenceKey { static var defaultValue = 3\nstatic func reduce(value: inout Int, nextValue: () -> Int) { value = nextValue } }\n",
        Err(Refusal::NotTyped { line: 3 }),
    ),
    (
        "@main struct A: App { var body: some Scene { WindowGroup { Text(\"a\") } } }\nstruct B { var x = 1\nfunc f(a: Int, a: Int) -> Int { return a } }\n",
        Err(Refusal::NotTyped { line: 3 }),
    ),
    (
        "@main struct A: App { var body: some Scene { WindowGroup { Text(\"a\") } } }\nstruct B { var x = 1\nfunc f(_ _: Int, _ _: Int, a: Int) -> Int { let a = a + 1; return a } }\n",
        Ok(()),
    ),
    (
        "@main struct A: App { var body: some Scene { WindowGroup { Text(\"a\") } } }\nstruct B { var x = 1\nmutating func f() { x = 2 }\nfunc g() { x = 2 } }\n",
        Err(Refusal::NotTyped { line: 4 }),
    ),
    (
        "@main struct A: App { var body: some Scene { WindowGroup { Text(\"a\") } } }\nstruct B { var x = 1\nvar y = x }\n",
        Err(Refusal::NotTyped { line: 3 }),
    ),
    (
        "@main struct A: App { var body: some Scene { WindowGroup { Text(\"a\") } } }\n@main struct C: App { var body: some Scene { WindowGroup { Text(\"a\") } } }\n",
        Err(Refusal::Twice { line: 2 }),
    ),
    (
        "struct V: View { var body: some View { Text(\"a\") } }\n",
        Err(Refusal::NoMain),
    ),
    (
        "struct A: App { var body: some Scene { WindowGroup { Text(\"a\") } } }\n",
        Err(Refusal::NotTyped { line: 1 }),
    ),
];

#[test]
fn initialisers_and_chains(rt: HostRuntime) -> Result<(), Fail> {
    let alloc = rt.alloc();
    for (text, wanted) in INITIALISERS_AND_CHAINS {
        assert_eq!(rt; verdict(alloc, text), wanted);
    }
    Ok(())
}

#[test]
fn declarations(rt: HostRuntime) -> Result<(), Fail> {
    let alloc = rt.alloc();
    for (text, wanted) in DECLARATIONS {
        assert_eq!(rt; verdict(alloc, text), wanted);
    }
    Ok(())
}

#[test]
fn whole_files(rt: HostRuntime) -> Result<(), Fail> {
    let alloc = rt.alloc();
    for (text, wanted) in WHOLE_FILES {
        assert_eq!(rt; verdict(alloc, text), wanted);
    }
    Ok(())
}
