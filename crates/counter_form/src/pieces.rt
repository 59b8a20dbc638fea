// The pieces of the two forms, and how one is cut off the front of some bytes.
ghost use Rattle.std.specs.Prelude.{◌≡◌, ◌<◌, ◌≤◌, ◌++◌, ◌^◌, ℕ, List, true, false, length, MatchOption};
ghost use Rattle.std.specs.List.{take_while, list_all};
ghost use Rattle.counter_form.specs.Pieces.{is_in, has_length, is_of, value, is_digit, kind_of, word_of, Cut};

/// What a text in a form is made of.
#[derive(Clone, Copy)]
pub enum Kind {
    Nothing,
    Spaces,
    Caption,
    Number,
    Coordinate,
}

/// A text that may vary, and a fixed word behind it.
#[derive(Clone, Copy)]
pub enum Piece {
    AppLine,
    ViewLine,
    BeforeInit,
    AfterInit,
    BeforePrefix,
    BeforeLabel,
    BeforeStep,
    AfterStep,
    LastLine,
    Tap,
    Gap,
    TapEnd,
}

fn text_kind(piece: Piece) -> Kind
    ensures { result ≡ kind_of piece }
{
    match piece {
        Piece::AppLine
        | Piece::ViewLine
        | Piece::BeforeInit
        | Piece::BeforePrefix
        | Piece::LastLine => Kind::Spaces,
        Piece::BeforeLabel | Piece::BeforeStep => Kind::Caption,
        Piece::AfterInit | Piece::AfterStep => Kind::Number,
        Piece::Tap => Kind::Nothing,
        Piece::Gap | Piece::TapEnd => Kind::Coordinate,
    }
}

#[tactic(auto, unfolding(crate::specs::Pieces::word_of))]
fn word(piece: Piece) -> &'static str
    ensures { result.now ≡ word_of piece }
{
    match piece {
        Piece::AppLine =>
            "@main struct A: App { var body: some Scene { WindowGroup { Main() } } }\n",
        Piece::ViewLine => "struct Main: View {\n",
        Piece::BeforeInit => "@State private var n = ",
        Piece::AfterInit => "\n",
        Piece::BeforePrefix => "var body: some View { VStack { Text(\"",
        Piece::BeforeLabel => "\\(n)\"); Button(\"",
        Piece::BeforeStep => "\") { n += ",
        Piece::AfterStep => " } } }\n",
        Piece::LastLine => "}",
        Piece::Tap => "tap ",
        Piece::Gap => " ",
        Piece::TapEnd => "\n",
    }
}

fn is_made_of(kind: Kind, byte: u8) -> bool
    ensures { result ≡ is_in kind byte }
{
    match kind {
        Kind::Nothing => false,
        Kind::Spaces => byte == b' ',
        Kind::Caption => b' ' <= byte && byte <= b'~' && byte != b'"' && byte != b'\\',
        Kind::Number | Kind::Coordinate => b'0' <= byte && byte <= b'9',
    }
}

fn may_have(kind: Kind, length: usize) -> bool
    ensures { result ≡ has_length kind length }
{
    match kind {
        Kind::Nothing | Kind::Spaces => true,
        Kind::Caption => length <= 40,
        Kind::Number => 1 <= length && length <= 9,
        Kind::Coordinate => 1 <= length && length <= 4,
    }
}

/// How many bytes at the front are of this kind.
fn run_length(bytes: &[u8], kind: Kind) -> usize
    ensures { result ≡ length (take_while (is_in kind) bytes.now) }
{
    bytes
        .iter()
        .take_while(|byte| is_made_of(kind, **byte))
        .count()
}

/// What stands behind a piece's word.
fn after_word(bytes: &[u8], piece: Piece) -> Option<&[u8]>
    ensures { MatchOption result ((rest : List ℕ) → bytes.now ≡ word_of piece ++ rest → ⊥) (λ rest. bytes.now ≡ word_of piece ++ rest.now) }
{
    bytes.strip_prefix(word(piece).as_bytes())
}

/// A piece at the front: its text, and what stands behind it.
pub fn cut(bytes: &[u8], piece: Piece) -> Option<(&[u8], &[u8])>
    ensures { MatchOption result ((text rest : List ℕ) → Cut piece bytes.now text rest → ⊥) (λ found. Cut piece bytes.now found.0.now found.1.now) }
{
    let kind = text_kind(piece);
    let length = run_length(bytes, kind);
    if !may_have(kind, length) {
        return None;
    }
    let (text, behind) = bytes.split_at(length);
    let rest = after_word(behind, piece)?;
    Some((text, rest))
}

/// The number that digits spell.
pub fn number(digits: &[u8]) -> u64
    requires digits { list_all is_digit digits.now ≡ true }
    requires few { length digits.now ≤ 9 }
    ensures value { result ≡ value digits.now }
    ensures small { result < 10 ^ length digits.now }
{
    let mut number = 0;
    for digit in digits {
        number = number * 10 + u64::from(*digit - b'0');
    }
    number
}
