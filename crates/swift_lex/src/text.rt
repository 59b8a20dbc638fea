ghost use Rattle.std.specs.Prelude.{◌≡◌, ◌≤◌, ◌<◌, ◌+◌, length, IfOk, IfSome};
ghost use Rattle.swift_lex.specs.Spellings as spec;

use crate::chars::{char_at, ends_line};
use crate::numbers::digit_value;
use crate::word::Word;
use std::alloc::{AllocError, Global};

fn escape(c: u8) -> Option<char>
    ensures { result ≡ spec.escape c }
{
    match c {
        b'n' => Some('\n'),
        b't' => Some('\t'),
        b'r' => Some('\r'),
        b'0' => Some('\0'),
        b'\\' => Some('\\'),
        b'"' => Some('"'),
        b'\'' => Some('\''),
        _ => None,
    }
}

/// How many bytes of hexadecimal digits stand at the front.
#[tactic(auto, using(crate::proofs::ByteRuns::run_step, crate::proofs::ByteRuns::run_end, crate::proofs::ByteRuns::run_within))]
fn hex_len(bytes: &[u8]) -> usize
    ensures value { result ≡ spec.hex_len bytes.now }
    ensures within { result ≤ length bytes.now }
{
    let mut n: usize = 0;
    for b in bytes {
        if digit_value(*b) >= 16 {
            return n;
        }
        n += 1;
    }
    n
}

/// The number that up to eight hexadecimal digits mean.
#[tactic(auto, using(crate::proofs::HexRuns::hex_step, crate::proofs::HexRuns::hex_end, crate::proofs::HexRuns::hex_small, crate::proofs::HexRuns::hex_grows))]
fn hex_value(bytes: &[u8]) -> u64
    requires { length bytes.now ≤ 8 }
    ensures { result ≡ spec.hex_value 0 bytes.now }
{
    let mut n: u64 = 0;
    for b in bytes {
        n = 16 * n + u64::from(digit_value(*b));
    }
    n
}

fn scalar(code: u64) -> Option<char>
    ensures { result ≡ spec.scalar code }
{
    if code < 0xD800 || (code >= 0xE000 && code < 0x110000) {
        char::from_u32(code as u32)
    } else {
        None
    }
}

fn closes_hex(bytes: &[u8], digits: usize) -> bool
    requires { digits ≤ length bytes.now }
    ensures { result ≡ spec.closes_hex digits bytes.now }
{
    let (_, after) = bytes.split_at(digits);
    1 <= digits && (digits <= 8 && after.starts_with(b"}"))
}

/// Behind `\u{`: the character that 1 to 8 hexadecimal digits name, and how many bytes the escape takes with its `}`.
#[tactic(auto, unfolding(crate::specs::Spellings::scalar_at))]
fn scalar_at(bytes: &[u8]) -> Option<(char, usize)>
    ensures value { result ≡ spec.scalar_at bytes.now }
    ensures within { IfSome result (λ m. m.1 ≤ length bytes.now + 3) }
{
    let digits = hex_len(bytes);
    if !closes_hex(bytes, digits) {
        return None;
    }
    match scalar(hex_value(&bytes[..digits])) {
        None => None,
        Some(c) => Some((c, digits + 4)),
    }
}

/// The character that a piece of text at the front means, and how many bytes the piece takes.
#[tactic(auto, unfolding(crate::specs::Spellings::piece))]
fn piece(bytes: &[u8]) -> Option<(char, usize)>
    ensures value { result ≡ spec.piece bytes.now }
    ensures within { IfSome result (λ m. m.1 ≤ length bytes.now) }
{
    if ends_line(bytes) {
        return None;
    }
    match bytes {
        [] => None,
        [b'"', ..] => None,
        [b'\\'] => None,
        [b'\\', b'u', b'{', rest @ ..] => scalar_at(rest),
        [b'\\', c, ..] => match escape(*c) {
            None => None,
            Some(m) => Some((m, 2)),
        },
        _ => char_at(bytes),
    }
}

/// The longest run of text and escapes at the front: what it means, and how many bytes it takes.
#[tactic(auto, using(crate::proofs::CharRuns::text_turn, crate::proofs::CharRuns::text_end))]
pub fn text(alloc: Global, bytes: &[u8]) -> Result<(Word, usize), AllocError>
    ensures value { IfOk result (λ r. r ≡ spec.text bytes.now) }
    ensures within { IfOk result (λ r. r.1 ≤ length bytes.now) }
{
    let mut meant = String::new(alloc);
    let mut at: usize = 0;
    let mut rest = bytes;
    for _turn in 0..bytes.len() {
        match piece(rest) {
            None => return Ok((Word::new(meant.into_bytes()), at)),
            Some((m, len)) => {
                meant.push(m)?;
                at += len;
                let (_, after) = rest.split_at(len);
                rest = after;
            }
        }
    }
    Ok((Word::new(meant.into_bytes()), at))
}
