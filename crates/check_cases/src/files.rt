// More of each rule, and whole files for what goes beyond one member.
use crate::tests::{verdict, with_member};
use std::test::Fail;
use view_check::Refusal;

// Members of values, built-in calls and changes: what is accepted, and what is refused.
const MORE_CHAINS: [(&str, &str); 14] = [
    (
        "func m() -> Int { min(1, 2) }",
        "func m() -> Int { min(1, 2, 3) }",
    ),
    (
        "func m() -> Int { Int.max }",
        "func m() -> Int { Int.size }",
    ),
    (
        "func m() -> String { String(repeating: \"a\", count: 2) }",
        "func m() -> String { String(count: 2, repeating: \"a\") }",
    ),
    (
        "func m(s: String) -> Bool { s.isEmpty }",
        "func m(k: Int) -> Bool { k.isEmpty }",
    ),
    ("func m() { ps[0].on.toggle() }", "func m() { n.toggle() }"),
    (
        "func m() -> Int? { l.first }",
        "func m() -> Int { l.first }",
    ),
    (
        "func m() -> Bool { l.contains(1) }",
        "func m() -> Bool { l.contains(true) }",
    ),
    (
        "func m() -> Int? { l.firstIndex(of: 1) }",
        "func m() -> Int? { l.firstIndex(1) }",
    ),
    (
        "func m() { l.insert(1, at: 0) }",
        "func m() { l.insert(at: 0, 1) }",
    ),
    (
        "func m() -> Int { return l.remove(at: 0) }",
        "func m() -> Int { return l.remove(0) }",
    ),
    (
        "func m() { l.append(contentsOf: [1]) }",
        "func m() { l.append(contentsOf: 1) }",
    ),
    ("func m() { l.swapAt(0, 1) }", "func m() { l.swapAt(0) }"),
    (
        "func m() { l.removeAll() }",
        "func m() { let k = [1]; k.removeAll() }",
    ),
    (
        "func m() { l.removeLast() }",
        "func m() { twice(1) }; func twice(_ k: Int) -> Int { k }",
    ),
];

// Assignments, loops, conditions and patterns: what is accepted, and what is refused.
const MORE_STATEMENTS: [(&str, &str); 9] = [
    ("func m() { n = 2 }", "func m() { n = true }"),
    (
        "func m() { var s = \"a\"; s += \"b\" }",
        "func m() { var s = \"a\"; s -= \"b\" }",
    ),
    ("func m() { n %= 2 }", "func m() { var b = true; b %= 2 }"),
    (
        "func m() { for i in 0...3 { n += i } }",
        "func m() { let r = 0...3 }",
    ),
    (
        "func m(x: Int?) -> Int { if let y = x, y > 1 { return y }; return 0 }",
        "func m(x: Int?) -> Int { if let y = x, y { return y }; return 0 }",
    ),
    (
        "func m() { let a = 1; if n == a { let a = 2; n = a } }",
        "func m(b: Int) { b = 2 }",
    ),
    (
        "func m(s: String) -> Int { switch s { case \"a\": return 1
 default: return 2 } }",
        "func m(s: String) -> Int { switch s { case \"a\": return 1 } }",
    ),
    (
        "func m(b: Bool) -> Int { switch b { case true: return 1
 case false: return 2 } }",
        "func m(b: Bool) -> Int { switch b { case true: return 1
 case 1: return 2 } }",
    ),
    (
        "func m() -> Int { switch n { case -1: return 1
 default: return 2 } }",
        "func m() -> Int { switch n { default: return 2
 case 1: return 1 } }",
    ),
];

// Views and what they hold: what is accepted, and what is refused.
const MORE_BUILDERS: [(&str, &str); 10] = [
    ("Image(systemName: \"a\")", "Image(\"a\")"),
    (
        "Toggle(\"a\", isOn: $ps[0].on)",
        "Toggle(\"a\", isOn: true)",
    ),
    (
        "Toggle(isOn: $ps[0].on) { Text(\"a\") }",
        "Toggle(isOn: $n) { Text(\"a\") }",
    ),
    ("Spacer(minLength: 2); Rectangle()", "Spacer(2)"),
    (
        "Group { Text(\"a\"); Text(\"b\") }",
        "Group(1) { Text(\"a\") }",
    ),
    (
        "HStack(alignment: .top) { Text(\"a\") }",
        "HStack(alignment: .leading) { Text(\"a\") }",
    ),
    (
        "ForEach(l.indices, id: \\.self) { i in Text(\"\\(l[i])\") }",
        "ForEach(0...3) { i in Text(\"\\(i)\") }",
    ),
    (
        "ForEach(0...3, id: \\.self) { i in Text(\"\\(i)\") }",
        "ForEach(n) { i in Text(\"a\") }",
    ),
    (
        "if let y = ps[0].y { Text(\"\\(y)\") }",
        "if let y = n { Text(\"\\(y)\") }",
    ),
    (
        "Button { n = 1 } label: { Text(\"a\") }",
        "Button { n } label: { Text(\"a\") }",
    ),
];

// Modifiers: what is accepted, and what is refused.
const MORE_MODIFIERS: [(&str, &str); 12] = [
    (".padding()", ".padding(.middle)"),
    (".padding(2)", ".padding(2, .top)"),
    (".fixedSize()", ".fixedSize(true)"),
    (
        ".fixedSize(horizontal: true, vertical: false)",
        ".fixedSize(horizontal: 1, vertical: 2)",
    ),
    (".lineLimit(2)", ".lineLimit(.infinity)"),
    (
        ".background(alignment: .leading) { Text(\"b\") }",
        ".background(.leading)",
    ),
    (".allowsHitTesting(n == 1)", ".allowsHitTesting()"),
    (".onDisappear { n = 1 }", ".onDisappear(1)"),
    (".onTapGesture { n = 1 }", ".onTapGesture(2)"),
    (".onChange(of: n) { n = 2 }", ".onChange(n) { n = 2 }"),
    (".tint(.blue).imageScale(.large)", ".tint(1)"),
    (".font(.title)", ".font(3)"),
];

// Whole files, and why each is refused, if it is.
const FILES: [(&str, Option<Refusal>); 13] = [
    // a binding is given as one
    (
        "@main struct A: App { var body: some Scene { WindowGroup { V() } } }
struct W: View { @Binding var n: Int; var body: some View { Button(\"+\") { n += 1 } } }
struct V: View { @State var n = 0; var body: some View { W(n: $n) } }
",
        None,
    ),
    // a value is no binding
    (
        "@main struct A: App { var body: some Scene { WindowGroup { V() } } }
struct W: View { @Binding var n: Int; var body: some View { Button(\"+\") { n += 1 } } }
struct V: View { @State var n = 0
var body: some View { W(n: n) } }
",
        Some(Refusal::NotTyped { line: 4 }),
    ),
    // a static by the name of its view
    (
        "@main struct A: App { var body: some Scene { WindowGroup { V() } } }
struct V: View { static let size = 3; var body: some View { Text(\"\\(V.size)\") } }
",
        None,
    ),
    // a static by its bare name
    (
        "@main struct A: App { var body: some Scene { WindowGroup { V() } } }
struct V: View { static let size = 3
var body: some View { Text(\"\\(size)\") } }
",
        Some(Refusal::NotTyped { line: 3 }),
    ),
    // a preference and its reader
    (
        "@main struct A: App { var body: some Scene { WindowGroup { V() } } }
struct K: PreferenceKey { static let defaultValue = 0
static func reduce(value: inout Int, nextValue: () -> Int) { value += nextValue() } }
struct V: View { var body: some View { Text(\"a\").preference(key: K.self, value: 1).overlayPreferenceValue(K.self) { v in Text(\"\\(v)\") } } }
",
        None,
    ),
    // a preference of another type than its key's
    (
        "@main struct A: App { var body: some Scene { WindowGroup { V() } } }
struct K: PreferenceKey { static let defaultValue = 0
static func reduce(value: inout Int, nextValue: () -> Int) { value += nextValue() } }
struct V: View { var body: some View { Text(\"a\").preference(key: K.self, value: true) } }
",
        Some(Refusal::NotTyped { line: 4 }),
    ),
    // declared twice is asked before recursive
    (
        "@main struct A: App { var body: some Scene { WindowGroup { Text(\"a\") } } }
struct B { var b: [B] }
struct B { let a: Int }
",
        Some(Refusal::Twice { line: 3 }),
    ),
    // an argument of a modifier that writes
    (
        "@main struct A: App { var body: some Scene { WindowGroup { V() } } }
struct V: View { @State var n = 0
func write() -> Bool { n += 1; return true }
var body: some View { Text(\"a\").disabled(write()) } }
",
        Some(Refusal::WritesInBody { line: 4 }),
    ),
    // writes in body is asked before no main
    (
        "struct V: View { @State var n = 0
func write() -> Bool { n += 1; return true }
var body: some View { Text(\"a\").disabled(write()) } }
",
        Some(Refusal::WritesInBody { line: 3 }),
    ),
    // not typed is asked before writes in body
    (
        "@main struct A: App { var body: some Scene { WindowGroup { V() } } }
struct V: View { @State var n = 0
var k: Int { n += 1; return n }
var body: some View { Text(k) } }
",
        Some(Refusal::NotTyped { line: 4 }),
    ),
    // `self` in a view stands before a name alone
    (
        "@main struct A: App { var body: some Scene { WindowGroup { V() } } }
struct V: View { var n = 1
var m: Int { return self.n }
var body: some View { let s = self; Text(\"a\") } }
",
        Some(Refusal::NotTyped { line: 4 }),
    ),
    // a bracket within 63 others
    (
        "@main struct A: App { var body: some Scene { WindowGroup { Text(\"a\") } } }
struct B { var a = (((((((((((((((((((((((((((((((((((((((((((((((((((((((((((((((1))))))))))))))))))))))))))))))))))))))))))))))))))))))))))))))) }
",
        None,
    ),
    // a bracket within 64 others
    (
        "@main struct A: App { var body: some Scene { WindowGroup { Text(\"a\") } } }
struct B { var a = ((((((((((((((((((((((((((((((((((((((((((((((((((((((((((((((((1)))))))))))))))))))))))))))))))))))))))))))))))))))))))))))))))) }
",
        Some(Refusal::TooNested { line: 2 }),
    ),
];

#[test]
fn more_chains(rt: HostRuntime) -> Result<(), Fail> {
    let alloc = rt.alloc();
    for (accepted, refused) in MORE_CHAINS {
        let text = with_member(alloc, &["", accepted, ""])?;
        assert_eq!(rt; verdict(alloc, text.as_str()), Ok(()));
        let text = with_member(alloc, &["", refused, ""])?;
        assert_eq!(rt;
            verdict(alloc, text.as_str()),
            Err(Refusal::NotTyped { line: 7 })
        );
    }
    Ok(())
}

#[test]
fn more_statements(rt: HostRuntime) -> Result<(), Fail> {
    let alloc = rt.alloc();
    for (accepted, refused) in MORE_STATEMENTS {
        let text = with_member(alloc, &["", accepted, ""])?;
        assert_eq!(rt; verdict(alloc, text.as_str()), Ok(()));
        let text = with_member(alloc, &["", refused, ""])?;
        assert_eq!(rt;
            verdict(alloc, text.as_str()),
            Err(Refusal::NotTyped { line: 7 })
        );
    }
    Ok(())
}

#[test]
fn more_builders(rt: HostRuntime) -> Result<(), Fail> {
    let alloc = rt.alloc();
    for (accepted, refused) in MORE_BUILDERS {
        let text = with_member(alloc, &["var v: some View { ", accepted, " }"])?;
        assert_eq!(rt; verdict(alloc, text.as_str()), Ok(()));
        let text = with_member(alloc, &["var v: some View { ", refused, " }"])?;
        assert_eq!(rt;
            verdict(alloc, text.as_str()),
            Err(Refusal::NotTyped { line: 7 })
        );
    }
    Ok(())
}

#[test]
fn more_modifiers(rt: HostRuntime) -> Result<(), Fail> {
    let alloc = rt.alloc();
    for (accepted, refused) in MORE_MODIFIERS {
        let text = with_member(alloc, &["var v: some View { Text(\"a\")", accepted, " }"])?;
        assert_eq!(rt; verdict(alloc, text.as_str()), Ok(()));
        let text = with_member(alloc, &["var v: some View { Text(\"a\")", refused, " }"])?;
        assert_eq!(rt;
            verdict(alloc, text.as_str()),
            Err(Refusal::NotTyped { line: 7 })
        );
    }
    Ok(())
}

#[test]
fn files(rt: HostRuntime) -> Result<(), Fail> {
    let alloc = rt.alloc();
    for (text, refusal) in FILES {
        assert_eq!(rt; verdict(alloc, text).err(), refusal);
    }
    Ok(())
}
