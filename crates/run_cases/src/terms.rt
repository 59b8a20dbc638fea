// Terms, and the value or the trap of each.
use crate::runs::value_of;
use std::test::Fail;

// A static of a view is the term; the rest is what the terms name.
const BEFORE: &str = "struct V: View { static let m ";

const AFTER: &str = "
var body: some View { Text(\"a\") } }
enum E: CaseIterable { case a, b
var other: E { switch self { case .a: return .b
case .b: return .a } } }
struct P { var x: Int; var y = 2; let z = 3; var w: Int?
var twice: Int { x * 2 }
func plus(_ k: Int) -> Int { x + k } }
struct L { func isEmpty(_ l: [Int]) -> Bool { l.isEmpty }
func first(_ l: [Int]) -> Int? { l.first }
func last(_ l: [Int]) -> Int? { l.last } }
@main struct A: App { var body: some Scene { WindowGroup { V() } } }
";

// Whole numbers: signs, groups, and what does not fit 64 bits. Operands go from left to right, and a divisor is tested behind
// both.
const NUMBERS: [(&str, &str); 31] = [
    ("= 7 / -2", "-3"),
    ("= -7 / 2", "-3"),
    ("= 7 % -2", "1"),
    ("= -7 % 2", "-1"),
    ("= 2 + 3 * 4 - 10 / 3", "11"),
    ("= 9 - 4 - 3", "2"),
    ("= 100 / 7 / 2", "7"),
    ("= -(-5)", "5"),
    ("= 0x1F + 0b11 + 0o7 + 1_000", "1041"),
    ("= Int.max", "9223372036854775807"),
    ("= Int.min", "-9223372036854775808"),
    ("= Int.max + Int.min", "-1"),
    ("= Int.max + 1", "trap overflow"),
    ("= Int.min - 1", "trap overflow"),
    ("= Int.max * 2", "trap overflow"),
    ("= Int.min * -1", "trap overflow"),
    ("= -Int.min", "trap overflow"),
    ("= Int.min / -1", "trap overflow"),
    ("= Int.min % -1", "trap overflow"),
    ("= 1 / 0", "trap zero"),
    ("= 1 % 0", "trap zero"),
    ("= Int.min % 0", "trap zero"),
    ("= abs(-5)", "5"),
    ("= abs(Int.min)", "trap overflow"),
    ("= abs(Int.max)", "9223372036854775807"),
    ("= min(2, -9)", "-9"),
    ("= max(2, -9)", "2"),
    ("= 1 / 0 + Int.max * 2", "trap zero"),
    ("= Int.max * 2 + 1 / 0", "trap overflow"),
    ("= 1 / [0][1]", "trap index"),
    ("= [1][5] / 0", "trap index"),
];

// Comparisons and truth values. The right side of `&&` and `||` and the branches of a ternary run only where they are needed.
const TRUTHS: [(&str, &str); 26] = [
    ("= 3 < 4", "true"),
    ("= 4 < 4", "false"),
    ("= 4 <= 4", "true"),
    ("= 3 > 4", "false"),
    ("= 4 >= 4", "true"),
    ("= 4 >= 5", "false"),
    ("= Int.min < Int.max", "true"),
    ("= 3 == 3", "true"),
    ("= 3 != 3", "false"),
    ("= \"a\" == \"a\"", "true"),
    ("= \"a\" == \"ab\"", "false"),
    ("= [1, 2] == [2, 1]", "false"),
    ("= [[1], []] == [[1], []]", "true"),
    ("= !true", "false"),
    ("= true && false", "false"),
    ("= false || true", "true"),
    ("= true || false && false", "true"),
    ("= false && 1 / 0 == 1", "false"),
    ("= true && 1 / 0 == 1", "trap zero"),
    ("= true || 1 / 0 == 1", "true"),
    ("= false || 1 / 0 == 1", "trap zero"),
    ("= 1 / 0 == 1 && false", "trap zero"),
    ("= true ? 1 : 1 / 0", "1"),
    ("= false ? 1 / 0 : 2", "2"),
    ("= false ? 1 : 1 / 0", "trap zero"),
    ("= false ? 1 : false ? 2 : 3", "3"),
];

// Strings, interpolation, clusters and the limit of weight.
const TEXTS: [(&str, &str); 20] = [
    ("= \"ab\" + \"c\"", "\"abc\""),
    ("= \"a\\(1 + 2)b\\(true)\\(\"c\")\"", "\"a3btruec\""),
    ("= \"\\(Int.max + 1)\"", "trap overflow"),
    ("= String(-12)", "\"-12\""),
    ("= String(Int.min)", "\"-9223372036854775808\""),
    ("= String(false)", "\"false\""),
    ("= \"e\\u{301}\".count", "1"),
    ("= \"abc\".count", "3"),
    ("= \"\".count", "0"),
    ("= \"\\r\\n\".count", "1"),
    ("= \"\\u{1F1E9}\\u{1F1EA}\".count", "1"),
    ("= \"\".isEmpty", "true"),
    ("= \"a\".isEmpty", "false"),
    ("= String(repeating: \"ab\", count: 3)", "\"ababab\""),
    ("= String(repeating: \"ab\", count: 0)", "\"\""),
    ("= String(repeating: \"\", count: Int.max)", "\"\""),
    ("= String(repeating: \"\", count: -1)", "trap range"),
    ("= String(repeating: \"a\", count: 65535).count", "65535"),
    (
        "= String(repeating: \"a\", count: 65536).count",
        "trap weight",
    ),
    (
        "= String(repeating: \"a\", count: 65535) + \"a\" == \"\"",
        "trap weight",
    ),
];

// Optionals. The right side of `??` runs only where the left one is nil.
const OPTIONALS: [(&str, &str); 16] = [
    (": Int? = nil", "nil"),
    (": Int? = 3", "some 3"),
    (": Int? ? = 3", "some some 3"),
    (": [Int?] = [1, nil]", "[some 1, nil]"),
    ("= [3].first!", "3"),
    ("= [3].firstIndex(of: 5)!", "trap nil"),
    ("= [3].first ?? 9", "3"),
    ("= [3].first ?? 1 / 0", "3"),
    ("= [3].firstIndex(of: 5) ?? 9", "9"),
    ("= [3].firstIndex(of: 5) ?? 1 / 0", "trap zero"),
    ("= [3].firstIndex(of: 5) ?? [3].firstIndex(of: 6) ?? 7", "7"),
    ("= [4].first ?? [3].first", "some 4"),
    ("= [4].firstIndex(of: 5) ?? [3].first", "some 3"),
    ("= [3].firstIndex(of: 5) == nil", "true"),
    ("= [3].first == nil", "false"),
    ("= [3].first == 3", "true"),
];

// Lists.
const LISTS: [(&str, &str); 21] = [
    ("= [3, 4]", "[3, 4]"),
    (": [Int] = []", "[]"),
    ("= [3, 4][0]", "3"),
    ("= [3, 4][1]", "4"),
    ("= [3, 4][2]", "trap index"),
    ("= [3, 4][-1]", "trap index"),
    ("= [[1], [2, 3]][1][0]", "2"),
    ("= [3, 4].count", "2"),
    ("= [3, 4].isEmpty", "false"),
    ("= L().isEmpty([])", "true"),
    ("= [3, 4].first", "some 3"),
    ("= [3, 4].last", "some 4"),
    ("= L().first([])", "nil"),
    ("= L().last([])", "nil"),
    ("= [3, 4].contains(4)", "true"),
    ("= [3, 4].contains(5)", "false"),
    ("= [3, 4, 3].firstIndex(of: 3)", "some 0"),
    ("= [3, 4, 3].firstIndex(of: 4)", "some 1"),
    ("= [3, 4].firstIndex(of: 5)", "nil"),
    ("= [3] + [4, 5]", "[3, 4, 5]"),
    ("= [1, 1 / 0, [2][3]]", "trap zero"),
];

// Data structs and enums.
const KINDS: [(&str, &str); 15] = [
    ("= P(x: 1)", "(1, 2, 3, nil)"),
    ("= P(x: 1, y: 4)", "(1, 4, 3, nil)"),
    ("= P(x: 1, w: 5)", "(1, 2, 3, some 5)"),
    ("= P(x: 4).x", "4"),
    ("= P(x: 4).twice", "8"),
    ("= P(x: 4).plus(3)", "7"),
    ("= P(x: 1) == P(x: 1, y: 2)", "true"),
    ("= P(x: 1) == P(x: 1, w: 1)", "false"),
    ("= P(x: 1 / 0, y: [0][1])", "trap zero"),
    ("= E.b", "case 1"),
    ("= E.a == E.a", "true"),
    ("= E.a != E.b", "true"),
    ("= E.allCases", "[case 0, case 1]"),
    ("= E.a.other", "case 1"),
    ("= E.allCases[2]", "trap index"),
];

#[test]
fn numbers(rt: HostRuntime) -> Result<(), Fail> {
    let alloc = rt.alloc();
    for (term, wanted) in NUMBERS {
        let told = value_of(alloc, &[BEFORE, term, AFTER])?;
        assert_eq!(rt; told.as_str(), wanted, "{term}");
    }
    Ok(())
}

#[test]
fn truths(rt: HostRuntime) -> Result<(), Fail> {
    let alloc = rt.alloc();
    for (term, wanted) in TRUTHS {
        let told = value_of(alloc, &[BEFORE, term, AFTER])?;
        assert_eq!(rt; told.as_str(), wanted, "{term}");
    }
    Ok(())
}

#[test]
fn texts(rt: HostRuntime) -> Result<(), Fail> {
    let alloc = rt.alloc();
    for (term, wanted) in TEXTS {
        let told = value_of(alloc, &[BEFORE, term, AFTER])?;
        assert_eq!(rt; told.as_str(), wanted, "{term}");
    }
    Ok(())
}

#[test]
fn optionals(rt: HostRuntime) -> Result<(), Fail> {
    let alloc = rt.alloc();
    for (term, wanted) in OPTIONALS {
        let told = value_of(alloc, &[BEFORE, term, AFTER])?;
        assert_eq!(rt; told.as_str(), wanted, "{term}");
    }
    Ok(())
}

#[test]
fn lists(rt: HostRuntime) -> Result<(), Fail> {
    let alloc = rt.alloc();
    for (term, wanted) in LISTS {
        let told = value_of(alloc, &[BEFORE, term, AFTER])?;
        assert_eq!(rt; told.as_str(), wanted, "{term}");
    }
    Ok(())
}

#[test]
fn kinds(rt: HostRuntime) -> Result<(), Fail> {
    let alloc = rt.alloc();
    for (term, wanted) in KINDS {
        let told = value_of(alloc, &[BEFORE, term, AFTER])?;
        assert_eq!(rt; told.as_str(), wanted, "{term}");
    }
    Ok(())
}
