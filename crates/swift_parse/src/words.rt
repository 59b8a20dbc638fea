ghost use Rattle.std.specs.Prelude.{◌≡◌, is_some, IfOk, None, Result};
ghost use Rattle.parse_base.specs.Parser.{Reads, perhaps, starts, take_one};
ghost use Rattle.swift_parse.specs.Parse as spec;
ghost use Rattle.swift_parse.specs.Words as words;

use parse_base::{Stop, Tokens};
use parse_terms::sees_binder;
use std::alloc::{AllocError, Global};
use swift_ast::{Access, Attribute, Modifier};
use swift_lex::{TokenKind, Word};

fn access_word(word: &Word) -> Option<Access>
    ensures { result ≡ words.access_word word.now }
{
    if word.is(b"private") {
        Some(Access::Private)
    } else if word.is(b"fileprivate") {
        Some(Access::FilePrivate)
    } else if word.is(b"internal") {
        Some(Access::Internal)
    } else if word.is(b"public") {
        Some(Access::Public)
    } else {
        None
    }
}

/// Whether an access word stands here.
#[tactic(auto, unfolding(parse_base::specs::Parser::starts))]
pub fn sees_access(tokens: &Tokens<'_>) -> bool
    ensures { result ≡ starts words.an_access tokens.now.rest.now }
{
    match tokens.rest {
        [] => false,
        [first, ..] => match &first.kind {
            TokenKind::Reserved(word) => access_word(word).is_some(),
            _ => false,
        },
    }
}

/// Takes an access word.
#[tactic(auto, unfolding(parse_base::specs::Parser::take_one))]
pub fn access(tokens: &mut Tokens<'_>) -> Result<Access, Stop>
    ensures { Reads (take_one words.an_access tokens.old.rest.now) result tokens.new.rest.now }
{
    let Some((first, rest)) = tokens.rest.split_first() else {
        return Err(Stop::Refused);
    };
    tokens.rest = rest;
    match &first.kind {
        TokenKind::Reserved(word) => match access_word(word) {
            Some(found) => Ok(found),
            None => Err(Stop::Refused),
        },
        _ => Err(Stop::Refused),
    }
}

/// Takes an access word where one stands.
#[tactic(auto, unfolding(parse_base::specs::Parser::perhaps))]
pub fn maybe_access(tokens: &mut Tokens<'_>) -> Result<Option<Access>, Stop>
    ensures { Reads (perhaps (starts words.an_access) (take_one words.an_access) tokens.old.rest.now) result tokens.new.rest.now }
{
    if sees_access(tokens) {
        Ok(Some(access(tokens)?))
    } else {
        Ok(None)
    }
}

fn word_modifier(word: &Word) -> Option<Modifier>
    ensures { result ≡ words.word_modifier word.now }
{
    if word.is(b"static") {
        Some(Modifier::Static)
    } else if word.is(b"mutating") {
        Some(Modifier::Mutating)
    } else {
        access_word(word).map(Modifier::Access)
    }
}

fn is_modifier_word(word: &Word) -> bool
    ensures { result ≡ is_some (words.word_modifier word.now) }
{
    word_modifier(word).is_some()
}

fn is_plain_attribute(word: &Word) -> bool
    ensures { result ≡ words.is_plain_attribute word.now }
{
    word.is(b"@State") || (word.is(b"@Binding") || word.is(b"@ViewBuilder"))
}

/// Whether a modifier of one token stands here.
#[tactic(auto, unfolding(parse_base::specs::Parser::starts))]
pub fn sees_modifier(tokens: &Tokens<'_>) -> bool
    ensures { result ≡ starts words.a_modifier tokens.now.rest.now }
{
    match tokens.rest {
        [] => false,
        [first, ..] => match &first.kind {
            TokenKind::Reserved(word) => is_modifier_word(word),
            TokenKind::AtName(word) => is_plain_attribute(word),
            _ => false,
        },
    }
}

fn attribute_of(alloc: Global, word: &Word) -> Result<Modifier, AllocError>
    ensures { IfOk result (λ m. m ≡ words.attribute word.now None) }
{
    Ok(Modifier::Attribute(Attribute {
        name: word.copy(alloc)?,
        argument: None,
    }))
}

/// Takes a modifier of one token.
#[tactic(auto, unfolding(parse_base::specs::Parser::take_one))]
pub fn one_modifier(alloc: Global, tokens: &mut Tokens<'_>) -> Result<Modifier, Stop>
    ensures { Reads (take_one words.a_modifier tokens.old.rest.now) result tokens.new.rest.now }
{
    let Some((first, rest)) = tokens.rest.split_first() else {
        return Err(Stop::Refused);
    };
    tokens.rest = rest;
    match &first.kind {
        TokenKind::Reserved(word) => match word_modifier(word) {
            Some(found) => Ok(found),
            None => Err(Stop::Refused),
        },
        TokenKind::AtName(word) if is_plain_attribute(word) => Ok(attribute_of(alloc, word)?),
        _ => Err(Stop::Refused),
    }
}

/// Takes the name that is spelled so.
#[tactic(auto, unfolding(parse_base::specs::Parser::take_one))]
pub fn expect_name(tokens: &mut Tokens<'_>, spelling: &[u8]) -> Result<(), Stop>
    ensures { Reads (take_one (words.the_name spelling.now) tokens.old.rest.now) result tokens.new.rest.now }
{
    let Some((first, rest)) = tokens.rest.split_first() else {
        return Err(Stop::Refused);
    };
    tokens.rest = rest;
    match &first.kind {
        TokenKind::Name(word) if word.is(spelling) => Ok(()),
        _ => Err(Stop::Refused),
    }
}

/// Whether a second name stands behind the first token.
#[tactic(auto, unfolding(parse_base::specs::Parser::starts))]
pub fn name_next(tokens: &Tokens<'_>) -> bool
    ensures { result ≡ spec.name_next tokens.now.rest.now }
{
    match tokens.rest {
        [_, second, ..] => match &second.kind {
            TokenKind::Name(_) => true,
            _ => false,
        },
        _ => false,
    }
}

/// Whether `(` and `)` stand here.
#[tactic(auto, unfolding(crate::specs::Parse::pair_ahead))]
pub fn pair_ahead(tokens: &Tokens<'_>) -> bool
    ensures { result ≡ spec.pair_ahead tokens.now.rest.now }
{
    tokens.sees(b"(") && tokens.sign_next(b")")
}

/// Whether a modifier stands here.
#[tactic(auto, unfolding(crate::specs::Parse::begins_mod))]
pub fn begins_mod(tokens: &Tokens<'_>) -> bool
    ensures { result ≡ spec.begins_mod tokens.now.rest.now }
{
    sees_modifier(tokens) || tokens.sees_attribute(b"@Environment")
}

/// Whether a member begins here.
#[tactic(auto, unfolding(crate::specs::Parse::begins_member, crate::specs::Parse::begins_form))]
pub fn begins_member(tokens: &Tokens<'_>) -> bool
    ensures { result ≡ spec.begins_member tokens.now.rest.now }
{
    begins_mod(tokens) || (sees_binder(tokens) || tokens.sees_word(b"func"))
}

/// Whether a line of an enum begins here.
#[tactic(auto, unfolding(crate::specs::Parse::begins_enum_line))]
pub fn begins_enum_line(tokens: &Tokens<'_>) -> bool
    ensures { result ≡ spec.begins_enum_line tokens.now.rest.now }
{
    tokens.sees_word(b"case") || begins_member(tokens)
}

/// Whether a struct begins here.
#[tactic(auto, unfolding(crate::specs::Parse::begins_struct))]
pub fn begins_struct(tokens: &Tokens<'_>) -> bool
    ensures { result ≡ spec.begins_struct tokens.now.rest.now }
{
    tokens.sees_attribute(b"@main")
        || (tokens.sees_word(b"struct") || (sees_access(tokens) && tokens.word_next(b"struct")))
}

/// Whether an enum begins here.
#[tactic(auto, unfolding(crate::specs::Parse::begins_enum))]
pub fn begins_enum(tokens: &Tokens<'_>) -> bool
    ensures { result ≡ spec.begins_enum tokens.now.rest.now }
{
    tokens.sees_word(b"enum") || (sees_access(tokens) && tokens.word_next(b"enum"))
}

/// Takes a `;` where one stands.
#[tactic(auto, unfolding(crate::specs::Parse::semicolon, parse_base::specs::Parser::perhaps))]
pub fn semicolon(tokens: &mut Tokens<'_>) -> Result<Option<()>, Stop>
    ensures { Reads (spec.semicolon tokens.old.rest.now) result tokens.new.rest.now }
{
    if tokens.sees(b";") {
        tokens.expect(b";")?;
        Ok(Some(()))
    } else {
        Ok(None)
    }
}
