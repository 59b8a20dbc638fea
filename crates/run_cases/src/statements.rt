// Statements of a function, and what it returns, or its trap.
use crate::runs::value_of;
use std::test::Fail;

// A static calls the function, of this result and with these statements; the rest is what they name.
const BEFORE: &str = "struct V: View { static let m = F().f()
var body: some View { Text(\"a\") } }
struct F { func f() -> ";

const BEGIN: &str = " {\n";

const AFTER: &str = "
}
func power(_ b: Int, _ e: Int) -> Int { if e == 0 { return 1 }; return b * power(b, e - 1) }
func loops(_ n: Int) -> Int { return loops(n) } }
struct C { var n = 0; var l = [1]
mutating func up(_ k: Int) { n += k } }
@main struct A: App { var body: some Scene { WindowGroup { V() } } }
";

// Locals, assignments and calls.
const LOCALS: [(&str, &str, &str); 16] = [
    (
        "Int",
        "var n = 1; n += 2; n -= 5; n *= -4; n /= 3; n %= 3; return n",
        "2",
    ),
    ("Int", "var n = Int.max; n += 1; return n", "trap overflow"),
    ("Int", "var n = Int.min; n -= 1; return n", "trap overflow"),
    ("Int", "var n = Int.max; n *= 2; return n", "trap overflow"),
    ("Int", "var n = Int.min; n /= -1; return n", "trap overflow"),
    ("Int", "var n = 1; n %= 0; return n", "trap zero"),
    ("String", "var s = \"a\"; s += \"b\"; return s", "\"ab\""),
    ("Bool", "var b = true; b.toggle(); return b", "false"),
    (
        "Int",
        "let a = 1; var n = 0; if true { let a = 5; n = a }; return n + a",
        "6",
    ),
    (
        "Int",
        "let x: Int? = 3; let y: Int? = nil; return (x ?? 1) + (y ?? 10)",
        "13",
    ),
    ("Int", "var c = C(); c.up(3); c.up(4); return c.n", "7"),
    (
        "[Int]",
        "var c = C(); c.l[0] = 9; c.l.append(c.n); return c.l",
        "[9, 0]",
    ),
    ("Int", "return power(3, 4)", "81"),
    ("Int", "return power(2, 64)", "trap overflow"),
    ("Int", "return loops(1)", "trap calls"),
    (
        "Int",
        "let s = String(repeating: \"a\", count: 40000); return [s, s].count",
        "trap weight",
    ),
];

// Changes of lists. An assignment evaluates the indexes of its target and then its right side, and tests the indexes last.
const LISTS: [(&str, &str, &str); 26] = [
    ("[Int]", "var l = [3, 4]; l[0] = 9; return l", "[9, 4]"),
    ("[Int]", "var l = [3, 4]; l[1] += 5; return l", "[3, 9]"),
    ("[Int]", "var l = [3, 4]; l[2] = 9; return l", "trap index"),
    ("[Int]", "var l = [3, 4]; l[-1] = 9; return l", "trap index"),
    ("[Int]", "var l = [3]; l[7] = 1 / 0; return l", "trap zero"),
    (
        "[Int]",
        "var l = [3]; l[1 / 0] = [0][5]; return l",
        "trap zero",
    ),
    ("[Int]", "var l = [3]; l += [4]; return l", "[3, 4]"),
    ("[Int]", "var l = [3]; l += []; return l", "[3]"),
    ("[Int]", "var l = [3]; l.append(4); return l", "[3, 4]"),
    (
        "[Int]",
        "var l = [3]; l.append(contentsOf: [4, 5]); return l",
        "[3, 4, 5]",
    ),
    (
        "[Int]",
        "var l = [3, 4]; l.insert(5, at: 1); return l",
        "[3, 5, 4]",
    ),
    (
        "[Int]",
        "var l = [3, 4]; l.insert(5, at: 2); return l",
        "[3, 4, 5]",
    ),
    (
        "[Int]",
        "var l = [3, 4]; l.insert(5, at: 3); return l",
        "trap index",
    ),
    (
        "[Int]",
        "var l = [3, 4]; l.insert(5, at: -1); return l",
        "trap index",
    ),
    (
        "[Int]",
        "var l = [3, 4, 5]; l.remove(at: 1); return l",
        "[3, 5]",
    ),
    ("Int", "var l = [3, 4, 5]; return l.remove(at: 1)", "4"),
    (
        "[Int]",
        "var l = [3, 4]; l.remove(at: 2); return l",
        "trap index",
    ),
    (
        "[Int]",
        "var l = [3, 4]; let x = l.removeFirst(); l.append(x * 10); return l",
        "[4, 30]",
    ),
    (
        "[Int]",
        "var l = [3, 4]; let x = l.removeLast(); l.append(x * 10); return l",
        "[3, 40]",
    ),
    (
        "[Int]",
        "var l = [3]; l.removeFirst(); l.removeFirst(); return l",
        "trap index",
    ),
    (
        "[Int]",
        "var l = [3]; l.removeLast(); l.removeLast(); return l",
        "trap index",
    ),
    ("[Int]", "var l = [3, 4]; l.removeAll(); return l", "[]"),
    (
        "[Int]",
        "var l = [3, 4, 5]; l.swapAt(0, 2); return l",
        "[5, 4, 3]",
    ),
    (
        "[Int]",
        "var l = [3, 4]; l.swapAt(1, 1); return l",
        "[3, 4]",
    ),
    (
        "[Int]",
        "var l = [3, 4]; l.swapAt(0, 2); return l",
        "trap index",
    ),
    (
        "[[Int]]",
        "var l = [[1], [2]]; l[0].append(3); l[1][0] = 4; return l",
        "[[1, 3], [4]]",
    ),
];

// Loops, conditions and `switch`.
const FLOW: [(&str, &str, &str); 22] = [
    (
        "Int",
        "var s = 0; for i in 2..<5 { s = s * 10 + i }; return s",
        "234",
    ),
    (
        "Int",
        "var s = 0; for i in 2...5 { s = s * 10 + i }; return s",
        "2345",
    ),
    ("Int", "var s = 7; for i in 3..<3 { s = i }; return s", "7"),
    ("Int", "var s = 7; for i in 3...3 { s = i }; return s", "3"),
    (
        "Int",
        "var s = 7; for i in 3..<2 { s = i }; return s",
        "trap range",
    ),
    (
        "Int",
        "var s = 7; for i in 3...2 { s = i }; return s",
        "trap range",
    ),
    (
        "Int",
        "var s = 0; for i in Int.max...Int.max { s = i }; return s",
        "9223372036854775807",
    ),
    (
        "Int",
        "var s = 0; for x in [5, 6] { s = s * 10 + x }; return s",
        "56",
    ),
    (
        "Int",
        "let l = [7, 8]; var s = 0; for i in l.indices { s = s * 10 + l[i] * i }; return s",
        "8",
    ),
    (
        "[Int]",
        "var l = [1, 2]; for x in l { l.append(x) }; return l",
        "[1, 2, 1, 2]",
    ),
    ("Int", "var n = 0; while n < 5 { n += 2 }; return n", "6"),
    (
        "Int",
        "var n = 0; while true { n += 1; if n == 3 { return n } }",
        "3",
    ),
    (
        "Int",
        "var s = 0; for i in 0..<10 { if i == 2 { continue }; if i == 4 { break }; s = s * 10 + i }; return s",
        "13",
    ),
    (
        "Int",
        "var l = [1, 2, 3]; var s = 0; while let x = l.first { s = s * 10 + x; l.removeFirst() }; return s",
        "123",
    ),
    (
        "Int",
        "let x = [3].first; if let x, x > 5 { return 1 } else if let y = x { return y }; return 0",
        "3",
    ),
    (
        "Int",
        "if let x = [3].firstIndex(of: 5) { return x } else { return -1 }",
        "-1",
    ),
    (
        "Int",
        "switch 2 { case 1: return 10\ncase 2, 3: return 20\ndefault: return 30 }",
        "20",
    ),
    (
        "Int",
        "switch -1 { case -1: return 10\ndefault: return 30 }",
        "10",
    ),
    (
        "Int",
        "switch \"ab\" { case \"a\": return 10\ndefault: return 30 }",
        "30",
    ),
    (
        "Int",
        "switch [1].isEmpty { case true: return 10\ncase false: return 20 }",
        "20",
    ),
    (
        "Int",
        "var n = 0; for i in 0..<3 { switch i { case 1: break\ndefault: n = n * 10 + i } }; return n",
        "2",
    ),
    (
        "Int",
        "var n = 0; while true { n += 1; if n < 0 { return n } }",
        "trap fuel",
    ),
];

#[test]
fn locals(rt: HostRuntime) -> Result<(), Fail> {
    let alloc = rt.alloc();
    for (result, statements, wanted) in LOCALS {
        let told = value_of(alloc, &[BEFORE, result, BEGIN, statements, AFTER])?;
        assert_eq!(rt; told.as_str(), wanted, "{statements}");
    }
    Ok(())
}

#[test]
fn lists(rt: HostRuntime) -> Result<(), Fail> {
    let alloc = rt.alloc();
    for (result, statements, wanted) in LISTS {
        let told = value_of(alloc, &[BEFORE, result, BEGIN, statements, AFTER])?;
        assert_eq!(rt; told.as_str(), wanted, "{statements}");
    }
    Ok(())
}

#[test]
fn flow(rt: HostRuntime) -> Result<(), Fail> {
    let alloc = rt.alloc();
    for (result, statements, wanted) in FLOW {
        let told = value_of(alloc, &[BEFORE, result, BEGIN, statements, AFTER])?;
        assert_eq!(rt; told.as_str(), wanted, "{statements}");
    }
    Ok(())
}
