ghost use Rattle.std.specs.Prelude.{◌≡◌, ◌≤◌, ◌<◌, ◌+◌, ◌^◌, length};
ghost use Rattle.swift_lex.specs.Tokens as spec;

use crate::token::Gap;

/// Where the next token or separator stands, and its gap to the token before.
#[derive(Clone, Copy, Debug)]
pub struct Place {
    pub line: u32,
    pub col: u32,
    pub gap: Gap,
}

fn past(b: u8, place: Place) -> Place
    requires line { place.line < 2 ^ 31 }
    requires col { place.col < 2 ^ 31 }
    requires start { 1 ≤ place.col }
    ensures value { result ≡ spec.past b place }
    ensures line { result.line ≤ place.line + 1 }
    ensures col { result.col ≤ place.col + 1 }
    ensures start { 1 ≤ result.col }
{
    if b == b'\n' {
        Place {
            line: place.line + 1,
            col: 1,
            gap: Gap::NewLine,
        }
    } else {
        Place {
            line: place.line,
            col: place.col + 1,
            gap: place.gap,
        }
    }
}

/// The place behind these bytes.
#[tactic(auto, using(crate::proofs::Places::moved_turn, crate::proofs::Places::moved_end))]
pub fn moved(bytes: &[u8], place: Place) -> Place
    requires line { place.line + length bytes.now < 2 ^ 31 }
    requires col { place.col + length bytes.now < 2 ^ 31 }
    requires start { 1 ≤ place.col }
    ensures value { result ≡ spec.moved bytes.now place }
    ensures line { result.line ≤ place.line + length bytes.now }
    ensures col { result.col ≤ place.col + length bytes.now }
    ensures start { 1 ≤ result.col }
{
    let mut at = place;
    for b in bytes {
        at = past(*b, at);
    }
    at
}

/// The gap behind a token or a separator, where it was `gap` before.
pub fn gap_behind(is_token: bool, gap: Gap) -> Gap
    ensures { result ≡ spec.gap_by is_token gap }
{
    if is_token {
        return Gap::Joined;
    }
    match gap {
        Gap::Joined => Gap::Spaced,
        other => other,
    }
}
