ghost use Rattle.std.specs.Prelude.{◌≡◌, ◌≤◌, length, take, IfOk, IfSome};
ghost use Rattle.swift_lex.specs.Items as spec;
ghost use Rattle.swift_lex.specs.Runs as runs;
ghost use Rattle.swift_lex.specs.Words as words;

use crate::brackets::Brackets;
use crate::chars::{chars_len, comment, ends_line};
use crate::names::{begins_name, is_decimal, is_letter, is_reserved, name_len};
use crate::numbers::{base_at, digits_len, int_of};
use crate::signs::sign_len;
use crate::text::text;
use crate::token::TokenKind;
use crate::word::Word;
use std::alloc::{AllocError, Global};

/// What stands at the front of a text: a token, or a separator where `token` is None.
#[derive(Debug, Drop)]
pub struct Item {
    pub len: usize,
    pub token: Option<TokenKind>,
}

fn separator(len: usize) -> Item
    ensures { result ≡ spec.separator len }
{
    Item { len, token: None }
}

fn token(len: usize, kind: TokenKind) -> Item
    ensures { result ≡ spec.as_token len kind }
{
    Item {
        len,
        token: Some(kind),
    }
}

fn front(alloc: Global, bytes: &[u8], len: usize) -> Result<Word, AllocError>
    requires { len ≤ length bytes.now }
    ensures { IfOk result (λ w. w ≡ take len bytes.now) }
{
    let (word, _) = bytes.split_at(len);
    Ok(Word::new(word.to_vec(alloc)?))
}

fn is_blank(b: u8) -> bool
    ensures { result ≡ spec.is_blank b }
{
    b == b' ' || b == b'\t' || b == b'\r' || b == b'\n'
}

fn blank_item(bytes: &[u8], in_hole: bool) -> Option<Item>
    ensures { result ≡ spec.blank_item in_hole bytes.now }
{
    if in_hole && ends_line(bytes) {
        None
    } else {
        Some(separator(1))
    }
}

fn comment_item(bytes: &[u8], in_hole: bool) -> Option<Item>
    ensures value { result ≡ spec.comment_item in_hole bytes.now }
    ensures within { IfSome result (λ i. i.len ≤ length bytes.now) }
{
    match comment(bytes) {
        None => None,
        Some(len) => {
            let (whole, _) = bytes.split_at(len);
            Some(separator(chars_len(whole, in_hole)))
        }
    }
}

fn number_in(base: u8, prefix: usize, bytes: &[u8]) -> Option<Item>
    requires low { 2 ≤ base }
    requires high { base ≤ 16 }
    requires room { prefix ≤ length bytes.now }
    ensures value { result ≡ runs.number_item base prefix bytes.now }
    ensures within { IfSome result (λ i. i.len ≤ length bytes.now) }
{
    let (_, digits) = bytes.split_at(prefix);
    let len = digits_len(base, digits);
    let (number, _) = digits.split_at(len);
    match int_of(base, number) {
        None => None,
        Some(n) => Some(token(prefix + len, TokenKind::Int(n as i64))),
    }
}

fn number_item(bytes: &[u8]) -> Option<Item>
    ensures value { result ≡ runs.number_item (runs.base_at bytes.now) (runs.prefix_len (runs.base_at bytes.now)) bytes.now }
    ensures within { IfSome result (λ i. i.len ≤ length bytes.now) }
{
    let base = base_at(bytes);
    number_in(base, if base == 10 { 0 } else { 2 }, bytes)
}

fn word_item(alloc: Global, bytes: &[u8]) -> Result<Item, AllocError>
    ensures value { IfOk result (λ i. i ≡ runs.word_item bytes.now) }
    ensures within { IfOk result (λ i. i.len ≤ length bytes.now) }
{
    let len = name_len(bytes);
    let word = front(alloc, bytes, len)?;
    if is_reserved(word.as_bytes()) {
        Ok(token(len, TokenKind::Reserved(word)))
    } else {
        Ok(token(len, TokenKind::Name(word)))
    }
}

fn is_mark(b: u8) -> bool
    ensures { result ≡ words.is_mark b }
{
    b == b'$' || b == b'@' || b == b'#'
}

fn marked_kind(mark: u8, word: Word) -> TokenKind
    ensures { result ≡ words.marked_kind mark word }
{
    match mark {
        b'$' => TokenKind::Dollar(word),
        b'@' => TokenKind::AtName(word),
        _ => TokenKind::HashName(word),
    }
}

fn marked_item(alloc: Global, mark: u8, bytes: &[u8]) -> Result<Item, AllocError>
    requires { 1 ≤ length bytes.now }
    ensures value { IfOk result (λ i. i ≡ runs.marked_item mark bytes.now) }
    ensures within { IfOk result (λ i. i.len ≤ length bytes.now) }
{
    let (_, name) = bytes.split_at(1);
    let len = name_len(name) + 1;
    let word = front(alloc, bytes, len)?;
    Ok(token(len, marked_kind(mark, word)))
}

fn sign_item(alloc: Global, bytes: &[u8]) -> Result<Option<Item>, AllocError>
    ensures value { IfOk result (λ i. i ≡ runs.sign_item bytes.now) }
    ensures within { IfOk result (λ o. IfSome o (λ i. i.len ≤ length bytes.now)) }
{
    let len = sign_len(bytes);
    if len == 0 {
        return Ok(None);
    }
    let word = front(alloc, bytes, len)?;
    Ok(Some(token(len, TokenKind::Sign(word))))
}

fn begins_marked(mark: u8, bytes: &[u8]) -> bool
    requires { 1 ≤ length bytes.now }
    ensures { result ≡ runs.begins_marked mark bytes.now }
{
    let (_, name) = bytes.split_at(1);
    is_mark(mark) && begins_name(name)
}

fn token_at(alloc: Global, first: u8, bytes: &[u8]) -> Result<Option<Item>, AllocError>
    requires { 1 ≤ length bytes.now }
    ensures value { IfOk result (λ i. i ≡ runs.token_at first bytes.now) }
    ensures within { IfOk result (λ o. IfSome o (λ i. i.len ≤ length bytes.now)) }
{
    if first == b'"' {
        return Ok(Some(token(1, TokenKind::StrOpen)));
    }
    if is_decimal(first) {
        return Ok(number_item(bytes));
    }
    if is_letter(first) {
        return Ok(Some(word_item(alloc, bytes)?));
    }
    if begins_marked(first, bytes) {
        return Ok(Some(marked_item(alloc, first, bytes)?));
    }
    sign_item(alloc, bytes)
}

/// The token or the separator at the front, outside the text of a string.
#[tactic(auto, unfolding(crate::specs::Runs::found_item))]
pub fn code_item(alloc: Global, bytes: &[u8], in_hole: bool) -> Result<Option<Item>, AllocError>
    ensures value { IfOk result (λ i. i ≡ runs.found_item in_hole bytes.now) }
    ensures within { IfOk result (λ o. IfSome o (λ i. i.len ≤ length bytes.now)) }
{
    let first = match bytes {
        [] => return Ok(None),
        [first, ..] => *first,
    };
    if is_blank(first) {
        return Ok(blank_item(bytes, in_hole));
    }
    if bytes.starts_with(b"//") {
        return Ok(Some(separator(chars_len(bytes, true))));
    }
    if bytes.starts_with(b"/*") {
        return Ok(comment_item(bytes, in_hole));
    }
    token_at(alloc, first, bytes)
}

/// The token at the front, in the text of a string.
#[tactic(auto, unfolding(crate::specs::Items::text_item))]
pub fn text_item(alloc: Global, bytes: &[u8]) -> Result<Option<Item>, AllocError>
    ensures value { IfOk result (λ i. i ≡ spec.text_item bytes.now) }
    ensures within { IfOk result (λ o. IfSome o (λ i. i.len ≤ length bytes.now)) }
{
    let first = match bytes {
        [] => return Ok(None),
        [first, ..] => *first,
    };
    if first == b'"' {
        return Ok(Some(token(1, TokenKind::StrClose)));
    }
    if bytes.starts_with(b"\\(") {
        return Ok(Some(token(2, TokenKind::StrHole)));
    }
    let (meant, len) = text(alloc, bytes)?;
    if len == 0 {
        return Ok(None);
    }
    Ok(Some(token(len, TokenKind::StrText(meant))))
}

/// The token or the separator at the front, with these brackets open, in the text of a string or outside of it.
#[tactic(auto, unfolding(crate::specs::Items::item), using(crate::proofs::TokenWords::found_is))]
pub fn item_at(
    alloc: Global,
    brackets: &Brackets,
    in_text: bool,
    bytes: &[u8],
) -> Result<Option<Item>, AllocError>
    ensures value { IfOk result (λ i. i ≡ spec.item brackets.now in_text bytes.now) }
    ensures within { IfOk result (λ o. IfSome o (λ i. i.len ≤ length bytes.now)) }
{
    if in_text {
        text_item(alloc, bytes)
    } else {
        code_item(alloc, bytes, !brackets.is_empty())
    }
}

fn pass_sign(sign: &Word, brackets: &mut Brackets, in_text: bool) -> Result<bool, AllocError>
    ensures { IfOk result (λ t. (brackets.new, t) ≡ spec.after_sign sign.now brackets.old in_text) }
{
    if sign.is(b"(") {
        brackets.begin()?;
        return Ok(in_text);
    }
    if sign.is(b")") {
        return Ok(brackets.end());
    }
    Ok(in_text)
}

/// Opens and closes what a token opens and closes. Answers whether the text of a string goes on behind it.
#[tactic(auto, unfolding(crate::specs::Items::passed))]
pub fn pass(
    token: &Option<TokenKind>,
    brackets: &mut Brackets,
    in_text: bool,
) -> Result<bool, AllocError>
    ensures { IfOk result (λ t. (brackets.new, t) ≡ spec.passed token.now brackets.old in_text) }
{
    match token {
        None => Ok(in_text),
        Some(TokenKind::StrOpen) => Ok(true),
        Some(TokenKind::StrClose) => Ok(false),
        Some(TokenKind::StrHole) => {
            brackets.begin_hole()?;
            Ok(false)
        }
        Some(TokenKind::Sign(sign)) => pass_sign(sign, brackets, in_text),
        Some(_) => Ok(in_text),
    }
}
