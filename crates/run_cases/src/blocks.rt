// Action blocks, and how they end with what the state slots have then.
use crate::runs::{Given, block_of, sum_of};
use std::alloc::{AllocError, Global};
use std::test::Fail;
use sv_items::Items;
use sv_value::{Value, Values};

// The block of a button of a view with two state slots.
const BEFORE: &str = "struct V: View { @State var n = 0; @State var l = [0]
var body: some View { Button(\"a\") { ";

const AFTER: &str = " } }
func up(_ k: Int) { n += k }
func endless() { endless() } }
@main struct A: App { var body: some Scene { WindowGroup { V() } } }
";

// The slots have 4 and [7] before. What was written before a trap stays written.
const BLOCKS: [(&str, &str); 17] = [
    ("n += 1", "ended: 5, [7]"),
    ("n = n * n - 1; n -= 5", "ended: 10, [7]"),
    ("up(3); up(n)", "ended: 14, [7]"),
    (
        "l.append(n); l.insert(n + 1, at: 0); n = l.removeLast() * 2",
        "ended: 8, [5, 7]",
    ),
    ("l[0] += 1; l.swapAt(0, 0)", "ended: 4, [8]"),
    ("l.removeAll(); n = l.count", "ended: 0, []"),
    ("for i in 0..<3 { n += i }", "ended: 7, [7]"),
    ("if n > 3 { n = 0; return }; n = 8", "ended: 0, [7]"),
    (
        "switch n { case 4: n = 1; break\ndefault: n = 2 }; l.append(n)",
        "ended: 1, [7, 1]",
    ),
    ("n = 9; n = 1 / 0", "trap zero: 9, [7]"),
    ("n += Int.max", "trap overflow: 4, [7]"),
    ("l.append(8); l[2] = 0", "trap index: 4, [7, 8]"),
    (
        "n = l.removeFirst(); n += l.removeFirst()",
        "trap index: 7, []",
    ),
    ("n = 6; n = [1].firstIndex(of: 2)!", "trap nil: 6, [7]"),
    ("n = 6; for i in 3...n - 5 { n = i }", "trap range: 6, [7]"),
    ("n = 0; endless()", "trap calls: 0, [7]"),
    ("n = 0; while n >= 0 { l.removeAll() }", "trap fuel: 0, []"),
];

// The slots of the blocks.
fn two_slots(alloc: Global) -> Result<Values, AllocError> {
    let mut list = Items::new(alloc);
    list.push(Value::Int(7))?;
    let mut slots = Items::new(alloc);
    slots.push(Value::Int(4))?;
    slots.push(Value::List(list))?;
    Ok(slots)
}

#[test]
fn blocks(rt: HostRuntime) -> Result<(), Fail> {
    let alloc = rt.alloc();
    for (block, wanted) in BLOCKS {
        let told = block_of(alloc, &[BEFORE, block, AFTER], two_slots(alloc)?)?;
        assert_eq!(rt; told.as_str(), wanted, "{block}");
    }
    Ok(())
}

// A slot that is missing.
#[test]
fn cells_that_do_not_fit(rt: HostRuntime) -> Result<(), Fail> {
    let alloc = rt.alloc();
    let told = block_of(alloc, &[BEFORE, "n += 1", AFTER], Items::new(alloc))?;
    assert_eq!(rt; told.as_str(), "refused: ");
    Ok(())
}

// A function of a parameter and a state slot: what each is given, and what the function answers.
const FRAMES: [(Given, Given, &str); 6] = [
    (Given::Number(4), Given::Number(3), "7"),
    (Given::Number(i64::MAX), Given::Number(1), "trap overflow"),
    (Given::Number(4), Given::Nothing, "refused"),
    (Given::Nothing, Given::Number(3), "refused"),
    (Given::Truth(true), Given::Number(3), "refused"),
    (Given::Number(4), Given::Truth(true), "refused"),
];

#[test]
fn frames(rt: HostRuntime) -> Result<(), Fail> {
    let alloc = rt.alloc();
    for (slot, local, wanted) in FRAMES {
        let told = sum_of(alloc, slot, local)?;
        assert_eq!(rt; told.as_str(), wanted);
    }
    Ok(())
}
