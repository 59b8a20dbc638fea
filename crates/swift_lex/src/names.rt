ghost use Rattle.std.specs.Prelude.{◌≡◌, ◌≤◌, ◌<◌, length};
ghost use Rattle.swift_lex.specs.Runs as runs;
ghost use Rattle.swift_lex.specs.Spellings as spec;

pub fn is_letter(b: u8) -> bool
    ensures { result ≡ spec.is_letter b }
{
    (b >= b'a' && b <= b'z') || ((b >= b'A' && b <= b'Z') || b == b'_')
}

pub fn is_decimal(b: u8) -> bool
    ensures { result ≡ spec.is_decimal b }
{
    b >= b'0' && b <= b'9'
}

fn is_name_byte(b: u8) -> bool
    ensures { result ≡ spec.is_name_byte b }
{
    is_letter(b) || is_decimal(b)
}

pub fn begins_name(bytes: &[u8]) -> bool
    ensures { result ≡ runs.begins_name bytes.now }
{
    match bytes {
        [] => false,
        [first, ..] => is_letter(*first),
    }
}

/// How many bytes of a name stand at the front.
#[tactic(auto, using(crate::proofs::ByteRuns::run_step, crate::proofs::ByteRuns::run_end, crate::proofs::ByteRuns::run_within))]
pub fn name_len(bytes: &[u8]) -> usize
    ensures value { result ≡ spec.run spec.is_name_byte bytes.now }
    ensures within { result ≤ length bytes.now }
{
    let mut n: usize = 0;
    for b in bytes {
        if !is_name_byte(*b) {
            return n;
        }
        n += 1;
    }
    n
}

fn same(word: &[u8], other: &[u8]) -> bool
    ensures { result ≡ spec.same word.now other.now }
{
    word == other
}

fn is_declaring(word: &[u8]) -> bool
    ensures { result ≡ spec.is_among spec.declaring word.now }
{
    same(word, b"struct")
        || (same(word, b"enum")
            || (same(word, b"extension")
                || (same(word, b"import")
                    || (same(word, b"var")
                        || (same(word, b"let")
                            || (same(word, b"func") || same(word, b"static")))))))
}

fn is_opening(word: &[u8]) -> bool
    ensures { result ≡ spec.is_among spec.opening word.now }
{
    same(word, b"private")
        || (same(word, b"fileprivate")
            || (same(word, b"internal")
                || (same(word, b"public")
                    || (same(word, b"mutating") || (same(word, b"inout") || same(word, b"some"))))))
}

fn is_branching(word: &[u8]) -> bool
    ensures { result ≡ spec.is_among spec.branching word.now }
{
    same(word, b"if")
        || (same(word, b"else")
            || (same(word, b"switch")
                || (same(word, b"case")
                    || (same(word, b"default")
                        || (same(word, b"for") || (same(word, b"in") || same(word, b"while")))))))
}

fn is_leaving(word: &[u8]) -> bool
    ensures { result ≡ spec.is_among spec.leaving word.now }
{
    same(word, b"return")
        || (same(word, b"break")
            || (same(word, b"continue")
                || (same(word, b"true")
                    || (same(word, b"false") || (same(word, b"nil") || same(word, b"self"))))))
}

/// Whether the word is reserved.
#[tactic(auto, unfolding(crate::specs::Spellings::is_reserved))]
pub fn is_reserved(word: &[u8]) -> bool
    ensures { result ≡ spec.is_reserved word.now }
{
    is_declaring(word) || (is_opening(word) || (is_branching(word) || is_leaving(word)))
}
