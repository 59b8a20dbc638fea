ghost use Rattle.std.specs.Prelude.{◌≡◌, ◌≤◌, length};
ghost use Rattle.swift_lex.specs.Runs as spec;

#[tactic(auto, unfolding(crate::specs::Runs::two_len))]
fn two_len(bytes: &[u8]) -> usize
    ensures value { result ≡ spec.two_len bytes.now }
    ensures within { result ≤ length bytes.now }
{
    if bytes.starts_with(b"==") {
        2
    } else if bytes.starts_with(b"!=") {
        2
    } else if bytes.starts_with(b"<=") {
        2
    } else if bytes.starts_with(b">=") {
        2
    } else if bytes.starts_with(b"+=") {
        2
    } else if bytes.starts_with(b"-=") {
        2
    } else if bytes.starts_with(b"*=") {
        2
    } else if bytes.starts_with(b"/=") {
        2
    } else if bytes.starts_with(b"%=") {
        2
    } else if bytes.starts_with(b"&&") {
        2
    } else if bytes.starts_with(b"||") {
        2
    } else if bytes.starts_with(b"??") {
        2
    } else if bytes.starts_with(b"->") {
        2
    } else {
        0
    }
}

fn one_len(bytes: &[u8]) -> usize
    ensures value { result ≡ spec.one_len bytes.now }
    ensures within { result ≤ length bytes.now }
{
    match bytes {
        [first, ..] if b"()[]{},;:.@#\\=<>+-*/%!?".contains(first) => 1,
        _ => 0,
    }
}

/// How many bytes the longest sign at the front takes, or 0.
pub fn sign_len(bytes: &[u8]) -> usize
    ensures value { result ≡ spec.sign_len bytes.now }
    ensures within { result ≤ length bytes.now }
{
    if bytes.starts_with(b"..<") || bytes.starts_with(b"...") {
        return 3;
    }
    let two = two_len(bytes);
    if two != 0 { two } else { one_len(bytes) }
}
