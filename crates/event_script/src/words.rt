// Lines and words, taken from the front of the bytes that are left.
ghost use Rattle.std.specs.Prelude.{◌≡◌, ◌<◌, ◌==◌, [], ◌∷◌, not, length, position, MatchOption};
ghost use Rattle.std.specs.Str.Lines.{lines, strip_carriage_return};
ghost use Rattle.event_script.specs.Words.{is_blank, words, number_of};

/// The first line of bytes, without its end, and what stands after it.
pub fn first_line(bytes: &[u8]) -> (&[u8], &[u8])
    requires some { 0 < length bytes.now }
    ensures lines { lines bytes.now ≡ result.0.now ∷ lines result.1.now }
    ensures shorter { length result.1.now < length bytes.now }
{
    match line_end(bytes) {
        Some(end) => (without_return(&bytes[..end]), &bytes[end + 1..]),
        None => (bytes, &[]),
    }
}

// The place of the first line feed.
fn line_end(bytes: &[u8]) -> Option<usize>
    ensures end { result ≡ position (λ b. b == 10) bytes.now }
{
    bytes.iter().position(|b| *b == b'\n')
}

// The line without the carriage return at its end, if it has one.
fn without_return(line: &[u8]) -> &[u8]
    ensures line { result.now ≡ strip_carriage_return line.now }
{
    match line {
        [front @ .., b'\r'] => front,
        _ => line,
    }
}

/// The first word of a line and what stands after it, or nothing where the line is blank.
pub fn first_word(line: &[u8]) -> Option<(&[u8], &[u8])>
    ensures words { MatchOption result (words line.now ≡ [])
        (λ found. words line.now ≡ found.0.now ∷ words found.1.now) }
    ensures some { MatchOption result (words line.now ≡ []) (λ found. 0 < length found.0.now) }
{
    let Some(start) = word_start(line) else {
        return None;
    };
    let rest = &line[start..];
    match word_end(rest) {
        Some(end) => Some((&rest[..end], &rest[end + 1..])),
        None => Some((rest, &[])),
    }
}

// The place of the first byte that is no blank.
fn word_start(line: &[u8]) -> Option<usize>
    ensures start { result ≡ position (λ b. not (is_blank b)) line.now }
{
    line.iter().position(|b| *b != b' ' && *b != b'\t')
}

// The place of the first blank.
fn word_end(line: &[u8]) -> Option<usize>
    ensures end { result ≡ position is_blank line.now }
{
    line.iter().position(|b| *b == b' ' || *b == b'\t')
}

/// The number that a word of one to four digits spells.
pub fn number(word: &[u8]) -> Option<u32>
    ensures number { result ≡ number_of word.now }
{
    if word.is_empty() || word.len() > 4 {
        return None;
    }
    let mut value = 0;
    for byte in word {
        if !byte.is_ascii_digit() {
            return None;
        }
        value = 10 * value + (*byte - b'0') as u32;
    }
    Some(value)
}
