ghost use Rattle.std.specs.Prelude.{◌≡◌, ◌≤◌, ◌<◌, ◌+◌, ◌==◌, ◌&&◌, length, slice_index, IfSome};
ghost use Rattle.swift_lex.specs.Spellings as spec;

use bstr::decode_utf8;

/// The character at the front, and how many bytes it takes.
#[tactic(auto, unfolding(crate::specs::Spellings::char_at), using(crate::proofs::CharRuns::size_within))]
pub fn char_at(bytes: &[u8]) -> Option<(char, usize)>
    ensures value { result ≡ spec.char_at bytes.now }
    ensures within { IfSome result (λ m. m.1 ≤ length bytes.now) }
{
    let (found, len) = decode_utf8(bytes);
    match found {
        None => None,
        Some(c) => Some((c, len)),
    }
}

/// Whether a line ends at the front.
pub fn ends_line(bytes: &[u8]) -> bool
    ensures { result ≡ spec.ends_line bytes.now }
{
    match bytes {
        [b'\n', ..] => true,
        [b'\r', b'\n', ..] => true,
        _ => false,
    }
}

/// How many bytes the character at the front takes, where it is UTF-8 and, if asked, on this line; else 0.
fn char_len(bytes: &[u8], in_line: bool) -> usize
    ensures value { result ≡ spec.char_len in_line bytes.now }
    ensures within { result ≤ length bytes.now }
{
    if in_line && ends_line(bytes) {
        return 0;
    }
    match char_at(bytes) {
        None => 0,
        Some((_, len)) => len,
    }
}

/// How many bytes of characters stand at the front: up to the first that is not UTF-8 and, if asked, the line end.
#[tactic(auto, using(crate::proofs::CharRuns::chars_turn, crate::proofs::CharRuns::chars_end))]
pub fn chars_len(bytes: &[u8], in_line: bool) -> usize
    ensures value { result ≡ spec.chars_len in_line bytes.now }
    ensures within { result ≤ length bytes.now }
{
    let mut at: usize = 0;
    let mut rest = bytes;
    for _turn in 0..bytes.len() {
        let len = char_len(rest, in_line);
        if len == 0 {
            return at;
        }
        at += len;
        let (_, after) = rest.split_at(len);
        rest = after;
    }
    at
}

fn is_pair(bytes: &[u8], at: usize, first: u8, second: u8) -> bool
    requires { at + 1 < length bytes.now }
    ensures { result ≡ (slice_index bytes.now at == first && slice_index bytes.now (at + 1) == second) }
{
    bytes[at] == first && bytes[at + 1] == second
}

/// How many bytes a comment takes from its `/*` on. None where it does not end.
#[tactic(auto, using(crate::proofs::ByteRuns::comment_at, crate::proofs::ByteRuns::comment_end, crate::proofs::ByteRuns::more_more))]
pub fn comment(bytes: &[u8]) -> Option<usize>
    ensures value { result ≡ spec.comment 0 bytes.now }
    ensures within { IfSome result (λ n. n ≤ length bytes.now) }
{
    let mut depth: usize = 0;
    let mut at: usize = 0;
    while at + 1 < bytes.len() {
        if is_pair(bytes, at, b'/', b'*') {
            depth += 1;
            at += 2;
        } else if is_pair(bytes, at, b'*', b'/') {
            at += 2;
            if depth <= 1 {
                return Some(at);
            }
            depth -= 1;
        } else {
            at += 1;
        }
    }
    None
}
