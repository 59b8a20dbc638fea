//! Laws of the definitions. Each function does nothing; its clauses are the law.

ghost use Rattle.std.specs.Prelude.{◌≡◌, ◌<◌, ◌≤◌, ℕ, List, [], length, take, true, false};
ghost use Rattle.swift_lex.specs.Tokens.{tokens_from, tokens_of, start};
ghost use Rattle.swift_lex.specs.Words.{is_word, longest};

/// The longest word at the front of a text is one of the words, and no longer front of the text is one.
pub fn longest_word()
    ensures taken { (bs : List ℕ) → 0 < longest is_word bs → is_word (take (longest is_word bs) bs) ≡ true }
    ensures longer { (bs : List ℕ) → (n : ℕ) → longest is_word bs < n → n ≤ length bs → is_word (take n bs) ≡ false }
{}

/// The tokens of a text do not depend on the number that bounds their search, once it is above that of the bytes.
pub fn count_of_turns()
    ensures enough { (n : ℕ) → (bs : List ℕ) → length bs < n → tokens_from n start bs [] ≡ tokens_of bs }
{}
