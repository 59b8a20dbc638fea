ghost use Rattle.std.specs.Prelude.{◌≡◌, ◌≤◌, ◌<◌, length, IfSome, true};
ghost use Rattle.swift_lex.specs.Runs as runs;
ghost use Rattle.swift_lex.specs.Spellings as spec;

/// The value of a digit of base 16 or less, and 16 for any other byte.
pub fn digit_value(b: u8) -> u8
    ensures value { result ≡ spec.digit_value b }
    ensures within { result ≤ 16 }
{
    if b >= b'0' && b <= b'9' {
        b - 48
    } else if b >= b'a' && b <= b'f' {
        b - 87
    } else if b >= b'A' && b <= b'F' {
        b - 55
    } else {
        16
    }
}

fn is_digit(base: u8, b: u8) -> bool
    ensures { result ≡ spec.is_digit base b }
{
    digit_value(b) < base
}

/// How many bytes of digits, with `_` between them, go on behind a digit.
#[tactic(auto, using(crate::proofs::NumberRuns::digits_step, crate::proofs::NumberRuns::digits_end, crate::proofs::NumberRuns::settle_digit, crate::proofs::NumberRuns::settle_line, crate::proofs::NumberRuns::settle_none))]
fn digits_more(base: u8, bytes: &[u8]) -> usize
    ensures value { result ≡ runs.digits_more base bytes.now }
    ensures within { result ≤ length bytes.now }
{
    let mut taken: usize = 0;
    let mut at: usize = 0;
    for b in bytes {
        if is_digit(base, *b) {
            taken = at + 1;
        } else if *b != b'_' {
            return taken;
        }
        at += 1;
    }
    taken
}

/// How many bytes of digits, with `_` between them, stand at the front.
#[tactic(auto, unfolding(crate::specs::Runs::digits_len))]
pub fn digits_len(base: u8, bytes: &[u8]) -> usize
    ensures value { result ≡ runs.digits_len base bytes.now }
    ensures within { result ≤ length bytes.now }
{
    match bytes {
        [] => 0,
        [first, rest @ ..] => {
            if is_digit(base, *first) {
                digits_more(base, rest) + 1
            } else {
                0
            }
        }
    }
}

/// The number that the digits mean, where it is in range.
#[tactic(auto, using(crate::proofs::ByteRuns::value_step, crate::proofs::ByteRuns::value_end, crate::proofs::ByteRuns::value_grows, crate::proofs::ByteRuns::int_over, crate::proofs::ByteRuns::int_some))]
pub fn int_of(base: u8, bytes: &[u8]) -> Option<u64>
    requires low { 2 ≤ base }
    requires high { base ≤ 16 }
    ensures value { result ≡ spec.int_of base bytes.now }
    ensures within { IfSome result (λ n. n ≤ spec.max_int) }
{
    let mut n: u64 = 0;
    for b in bytes {
        if *b != b'_' {
            let digit = u64::from(digit_value(*b));
            if n > (9223372036854775807 - digit) / u64::from(base) {
                return None;
            }
            n = u64::from(base) * n + digit;
        }
    }
    Some(n)
}

fn has_base(base: u8, letter: u8, bytes: &[u8]) -> bool
    ensures value { result ≡ runs.has_base base letter bytes.now }
    ensures room { result ≡ true → 2 ≤ length bytes.now }
{
    match bytes {
        [b'0', second, digits @ ..] => *second == letter && digits_len(base, digits) > 0,
        _ => false,
    }
}

/// The base of the number at the front.
#[tactic(auto, unfolding(crate::specs::Runs::base_at))]
pub fn base_at(bytes: &[u8]) -> u8
    ensures value { result ≡ runs.base_at bytes.now }
    ensures room { runs.prefix_len result ≤ length bytes.now }
    ensures low { 2 ≤ result }
    ensures high { result ≤ 16 }
{
    if has_base(16, b'x', bytes) {
        16
    } else if has_base(8, b'o', bytes) {
        8
    } else if has_base(2, b'b', bytes) {
        2
    } else {
        10
    }
}
