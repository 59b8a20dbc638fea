// Bodies, and their descriptions and what they looked up, or their traps.
//
// A node is `{STEPS KIND INPUTS NUMBERS PARTS}`; behind the root views stand the sources in the order of the first look-up.
use crate::runs::body_of;
use std::alloc::{AllocError, Global};
use std::test::Fail;
use sv_items::Items;
use sv_value::{Value, Values};

const COUNTER: &str = "@main struct A: App { var body: some Scene { WindowGroup { Main() } } }
struct Main: View {
    @State private var n = 0
    var body: some View { VStack { Text(\"n \\(n)\"); Button(\"+\") { n += 1 } } }
}
";

// The body of a view of three state slots; the rest is what the bodies name.
const BEFORE: &str = "struct V: View { @State var n = 0; @State var l = [0]; @State var on = false
@Environment(\\.tone) var tone: Int
var body: some View { ";

const AFTER: &str = " }
var row: some View { Text(\"r\"); Text(\"\\(n)\") }
func spin() -> Int { var k = 0; while true { k += 1; if k < 0 { return k } } } }
struct W: View { let k: Int; @State var s = 2; var body: some View { Text(\"w\") } }
struct K: PreferenceKey { static let defaultValue = 0
static func reduce(value: inout Int, nextValue: () -> Int) { value += nextValue() } }
extension EnvironmentValues { @Entry var tone = 1 }
@main struct A: App { var body: some Scene { WindowGroup { V() } } }
";

// The slots have 4, [7, 7, 8] and true, and the key has 5. Of the last two rows the first counts 20,000 for its items and
// their texts and one more for the `ForEach`; in the second each text holds a weight of 64 and counts 2.
const BODIES: [(&str, &str); 22] = [
    ("Text(\"a\")", "{/0 text \"a\"}"),
    (
        "Text(\"\\(tone) \\(n) \\(n)\")",
        "{/0 text \"5 4 4\"}; key 1 = 5; slot 0 = 4",
    ),
    (
        "if n == 4 { Text(\"a\") } else { Text(\"\\(tone)\") }",
        "{/0 branches {/?0/0 text \"a\"}}; slot 0 = 4",
    ),
    (
        "if n == 5 { Text(\"a\") } else if on { Text(\"b\"); Text(\"c\") }",
        "{/0 branches {/?1/0 text \"b\"} {/?1/1 text \"c\"}}; slot 0 = 4; slot 2 = true",
    ),
    ("if n == 5 { Text(\"a\") }", "{/0 branches}; slot 0 = 4"),
    (
        "switch n { case 1: Text(\"a\")\ncase 4, 5: Text(\"b\")\ndefault: EmptyView() }",
        "{/0 branches {/?1/0 text \"b\"}}; slot 0 = 4",
    ),
    (
        "ForEach(l, id: \\.self) { i in Text(\"\\(i)\") }",
        "{/0 foreach {/[7;0] item 7 {/0 text \"7\"}} {/[7;1] item 7 {/0 text \"7\"}} {/[8;0] item 8 {/0 text \"8\"}}}; slot 1 = [7, 7, 8]",
    ),
    (
        "ForEach(0..<2) { i in Text(\"\\(i + n)\") }",
        "{/0 foreach {/[0;0] item 0 {/0 text \"4\"}} {/[1;0] item 1 {/0 text \"5\"}}}; slot 0 = 4",
    ),
    (
        "Toggle(\"t\", isOn: $on)",
        "{/0 toggle place 2.0 true {/0 text \"t\"}}; place 2 = true",
    ),
    (
        "Button(\"a\") { l.append(n) }",
        "{/0 button {/0 text \"a\"}}",
    ),
    (
        "Text(\"a\").padding(2).id(n)",
        "{/0 id 4 {/=4 padding 2 { text \"a\"}}}; slot 0 = 4",
    ),
    (
        "Text(\"a\").overlay { Text(\"b\") }",
        "{/0 overlay { text \"a\"} {/+0/0 text \"b\"}}",
    ),
    (
        "let k = n + 1; Text(\"\\(k)\")",
        "{/0 text \"5\"}; slot 0 = 4",
    ),
    ("W(k: n)", "{/0/#1 custom 4 with 2}; slot 0 = 4"),
    (
        "Text(\"a\"); row",
        "{/0 text \"a\"}{/1 group {/0 text \"r\"} {/1 text \"4\"}}; slot 0 = 4",
    ),
    (
        "let k = n; Text(\"a\").overlayPreferenceValue(K.self) { v in Text(\"\\(v + k + tone)\") }",
        "{/0 reader 0 4 { text \"a\"}}; slot 0 = 4",
    ),
    ("Text(\"\\(l[9])\")", "trap index"),
    ("Text(\"\\(1 / (n - 4))\")", "trap zero"),
    ("Text(\"\\(spin())\")", "trap fuel"),
    ("body", "trap calls"),
    ("ForEach(0..<10000) { i in Text(\"a\") }", "trap nodes"),
    (
        "ForEach(0..<6667) { i in Text(String(repeating: \"a\", count: 63)) }",
        "trap nodes",
    ),
];

// The slots of the counter.
fn one_slot(alloc: Global, value: Value) -> Result<Values, AllocError> {
    let mut slots = Items::new(alloc);
    slots.push(value)?;
    Ok(slots)
}

// The slots of the bodies.
fn three_slots(alloc: Global) -> Result<Values, AllocError> {
    let mut list = Items::new(alloc);
    list.push(Value::Int(7))?;
    list.push(Value::Int(7))?;
    list.push(Value::Int(8))?;
    let mut slots = Items::new(alloc);
    slots.push(Value::Int(4))?;
    slots.push(Value::List(list))?;
    slots.push(Value::Bool(true))?;
    Ok(slots)
}

#[test]
fn bodies(rt: HostRuntime) -> Result<(), Fail> {
    let alloc = rt.alloc();
    for (body, wanted) in BODIES {
        let told = body_of(alloc, &[BEFORE, body, AFTER], 0, three_slots(alloc)?)?;
        assert_eq!(rt; told.as_str(), wanted, "{body}");
    }
    Ok(())
}

// The block of the counter names the slot too, and that is no look-up.
#[test]
fn counter_at_four(rt: HostRuntime) -> Result<(), Fail> {
    let alloc = rt.alloc();
    let told = body_of(alloc, &[COUNTER], 1, one_slot(alloc, Value::Int(4))?)?;
    assert_eq!(rt;
        told.as_str(),
        "{/0 stack - {/0 text \"n 4\"} {/1 button {/0 text \"+\"}}}; slot 0 = 4"
    );
    Ok(())
}

// A slot of another type, and none at all.
#[test]
fn cells_that_do_not_fit(rt: HostRuntime) -> Result<(), Fail> {
    let alloc = rt.alloc();
    let told = body_of(alloc, &[COUNTER], 1, one_slot(alloc, Value::Bool(true))?)?;
    assert_eq!(rt; told.as_str(), "refused");
    let told = body_of(alloc, &[COUNTER], 1, Items::new(alloc))?;
    assert_eq!(rt; told.as_str(), "refused");
    Ok(())
}
