ghost use Rattle.std.specs.Prelude.{◌≡◌, codes, is_some, IfOk};
ghost use Rattle.parse_base.specs.Parser.{Reads, starts, take_one};
ghost use Rattle.parse_terms.specs.Words as words;
ghost use Rattle.parse_terms.specs.Words.{a_binder, a_force, a_jump, a_literal, a_minus, a_number, a_param, a_plain, a_prefix, a_selector, an_assign, an_op, tail_open};

use parse_base::{Stop, Tokens, is_joined, is_on_new_line, is_sign, joined_next};
use std::alloc::Global;
use swift_ast::{
    AssignSign, BinarySign, Binder, ClosureParam, ExprForm, Part, Pattern, PrefixSign, Selector,
    StmtForm,
};
use swift_lex::{Token, TokenKind, Word};

/// The most links of a chain.
pub const MAX_LINKS: usize = 64;

/// The operand that a reserved word is.
fn word_literal(word: &Word) -> Option<ExprForm>
    ensures { result ≡ words.word_literal word.now }
{
    if word.is(b"true") {
        Some(ExprForm::True)
    } else if word.is(b"false") {
        Some(ExprForm::False)
    } else if word.is(b"nil") {
        Some(ExprForm::Nil)
    } else if word.is(b"self") {
        Some(ExprForm::Itself)
    } else {
        None
    }
}

fn is_literal_word(word: &Word) -> bool
    ensures { result ≡ is_some (words.word_literal word.now) }
{
    word.is(b"true") || (word.is(b"false") || (word.is(b"nil") || word.is(b"self")))
}

/// Whether an operand of one token stands here: a number, a name or one of the words for values.
#[tactic(auto, unfolding(parse_base::specs::Parser::starts))]
pub fn sees_literal(tokens: &Tokens<'_>) -> bool
    ensures { result ≡ starts a_literal tokens.now.rest.now }
{
    match tokens.rest {
        [] => false,
        [first, ..] => match &first.kind {
            TokenKind::Int(_) => true,
            TokenKind::Name(_) => true,
            TokenKind::Dollar(_) => true,
            TokenKind::Reserved(word) => is_literal_word(word),
            _ => false,
        },
    }
}

/// Takes an operand of one token.
#[tactic(auto, unfolding(parse_base::specs::Parser::take_one))]
pub fn literal(tokens: &mut Tokens<'_>, alloc: Global) -> Result<ExprForm, Stop>
    ensures { Reads (take_one a_literal tokens.old.rest.now) result tokens.new.rest.now }
{
    let Some((first, rest)) = tokens.rest.split_first() else {
        return Err(Stop::Refused);
    };
    tokens.rest = rest;
    match &first.kind {
        TokenKind::Int(n) => Ok(ExprForm::Int(*n)),
        TokenKind::Name(word) => Ok(ExprForm::Name(word.copy(alloc)?)),
        TokenKind::Dollar(word) => Ok(ExprForm::Dollar(word.copy(alloc)?)),
        TokenKind::Reserved(word) => match word_literal(word) {
            Some(form) => Ok(form),
            None => Err(Stop::Refused),
        },
        _ => Err(Stop::Refused),
    }
}

/// Whether a parameter of a closure stands here.
#[tactic(auto, unfolding(parse_base::specs::Parser::starts))]
pub fn sees_param(tokens: &Tokens<'_>) -> bool
    ensures { result ≡ starts a_param tokens.now.rest.now }
{
    match tokens.rest {
        [] => false,
        [first, ..] => is_param(first),
    }
}

/// Whether the token is a name, with or without a `$`.
pub fn is_param(token: &Token) -> bool
    ensures { result ≡ is_some (words.param_by token.now.kind) }
{
    match &token.kind {
        TokenKind::Name(_) => true,
        TokenKind::Dollar(_) => true,
        _ => false,
    }
}

/// Takes a parameter of a closure.
#[tactic(auto, unfolding(parse_base::specs::Parser::take_one))]
pub fn param(tokens: &mut Tokens<'_>, alloc: Global) -> Result<ClosureParam, Stop>
    ensures { Reads (take_one a_param tokens.old.rest.now) result tokens.new.rest.now }
{
    let Some((first, rest)) = tokens.rest.split_first() else {
        return Err(Stop::Refused);
    };
    tokens.rest = rest;
    match &first.kind {
        TokenKind::Name(word) => Ok(ClosureParam::Name(word.copy(alloc)?)),
        TokenKind::Dollar(word) => Ok(ClosureParam::Dollar(word.copy(alloc)?)),
        _ => Err(Stop::Refused),
    }
}

/// Takes a name or `self`.
#[tactic(auto, unfolding(parse_base::specs::Parser::take_one))]
pub fn selector(tokens: &mut Tokens<'_>, alloc: Global) -> Result<Selector, Stop>
    ensures { Reads (take_one a_selector tokens.old.rest.now) result tokens.new.rest.now }
{
    let Some((first, rest)) = tokens.rest.split_first() else {
        return Err(Stop::Refused);
    };
    tokens.rest = rest;
    match &first.kind {
        TokenKind::Name(word) => Ok(Selector::Name(word.copy(alloc)?)),
        TokenKind::Reserved(word) if word.is(b"self") => Ok(Selector::Itself),
        _ => Err(Stop::Refused),
    }
}

/// The binary operator with this spelling, and its rule: 1 binds the tightest.
fn op_of(word: &Word) -> Option<(BinarySign, u8)>
    ensures { result ≡ words.op_by words.operators word.now }
{
    if word.is(b"*") {
        Some((BinarySign::Times, 1))
    } else if word.is(b"/") {
        Some((BinarySign::Divide, 1))
    } else if word.is(b"%") {
        Some((BinarySign::Remainder, 1))
    } else if word.is(b"+") {
        Some((BinarySign::Plus, 2))
    } else if word.is(b"-") {
        Some((BinarySign::Minus, 2))
    } else if word.is(b"...") {
        Some((BinarySign::Through, 3))
    } else if word.is(b"..<") {
        Some((BinarySign::UpTo, 3))
    } else if word.is(b"??") {
        Some((BinarySign::Coalesce, 4))
    } else if word.is(b"==") {
        Some((BinarySign::Equal, 5))
    } else if word.is(b"!=") {
        Some((BinarySign::NotEqual, 5))
    } else if word.is(b"<") {
        Some((BinarySign::Less, 5))
    } else if word.is(b"<=") {
        Some((BinarySign::AtMost, 5))
    } else if word.is(b">") {
        Some((BinarySign::Greater, 5))
    } else if word.is(b">=") {
        Some((BinarySign::AtLeast, 5))
    } else if word.is(b"&&") {
        Some((BinarySign::And, 6))
    } else if word.is(b"||") {
        Some((BinarySign::Or, 7))
    } else {
        None
    }
}

#[tactic(auto, unfolding(crate::specs::Words::operator))]
fn operator(token: &Token) -> Option<(BinarySign, u8)>
    ensures { result ≡ words.operator token.now }
{
    match &token.kind {
        TokenKind::Sign(word) => op_of(word),
        _ => None,
    }
}

fn op_at(level: u8, token: &Token, rest: &[Token]) -> Option<BinarySign>
    ensures { result ≡ an_op level token.now rest.now }
{
    match operator(token) {
        Some((op, at)) if at == level && is_joined(token) == joined_next(rest) => Some(op),
        _ => None,
    }
}

fn prefix_of(token: &Token) -> Option<PrefixSign>
    ensures { result ≡ words.prefix_by token.now }
{
    if is_sign(token, b"-") {
        Some(PrefixSign::Minus)
    } else if is_sign(token, b"!") {
        Some(PrefixSign::Not)
    } else {
        None
    }
}

fn prefix_at(token: &Token, rest: &[Token]) -> Option<PrefixSign>
    ensures { result ≡ a_prefix token.now rest.now }
{
    match prefix_of(token) {
        Some(prefix) if joined_next(rest) => Some(prefix),
        _ => None,
    }
}

fn assign_of(token: &Token) -> Option<AssignSign>
    ensures { result ≡ words.assign_by token.now }
{
    if is_sign(token, b"=") {
        Some(AssignSign::Set)
    } else if is_sign(token, b"+=") {
        Some(AssignSign::Plus)
    } else if is_sign(token, b"-=") {
        Some(AssignSign::Minus)
    } else if is_sign(token, b"*=") {
        Some(AssignSign::Times)
    } else if is_sign(token, b"/=") {
        Some(AssignSign::Divide)
    } else if is_sign(token, b"%=") {
        Some(AssignSign::Remainder)
    } else {
        None
    }
}

fn assign_at(token: &Token, rest: &[Token]) -> Option<AssignSign>
    ensures { result ≡ an_assign token.now rest.now }
{
    match assign_of(token) {
        Some(sign) if is_joined(token) == joined_next(rest) => Some(sign),
        _ => None,
    }
}

/// Whether a binary operator of this rule stands here, with gaps on both sides or on none.
#[tactic(auto, unfolding(parse_base::specs::Parser::starts))]
pub fn sees_op(tokens: &Tokens<'_>, level: u8) -> bool
    ensures { result ≡ starts (an_op level) tokens.now.rest.now }
{
    match tokens.rest {
        [] => false,
        [first, rest @ ..] => op_at(level, first, rest).is_some(),
    }
}

/// Takes a binary operator of this rule.
#[tactic(auto, unfolding(parse_base::specs::Parser::take_one))]
pub fn op(tokens: &mut Tokens<'_>, level: u8) -> Result<BinarySign, Stop>
    ensures { Reads (take_one (an_op level) tokens.old.rest.now) result tokens.new.rest.now }
{
    let Some((first, rest)) = tokens.rest.split_first() else {
        return Err(Stop::Refused);
    };
    tokens.rest = rest;
    match op_at(level, first, rest) {
        Some(found) => Ok(found),
        None => Err(Stop::Refused),
    }
}

/// Whether a prefix operator stands here, joined to what follows.
#[tactic(auto, unfolding(parse_base::specs::Parser::starts))]
pub fn sees_prefix(tokens: &Tokens<'_>) -> bool
    ensures { result ≡ starts a_prefix tokens.now.rest.now }
{
    match tokens.rest {
        [] => false,
        [first, rest @ ..] => prefix_at(first, rest).is_some(),
    }
}

/// Takes a prefix operator.
#[tactic(auto, unfolding(parse_base::specs::Parser::take_one))]
pub fn prefix(tokens: &mut Tokens<'_>) -> Result<PrefixSign, Stop>
    ensures { Reads (take_one a_prefix tokens.old.rest.now) result tokens.new.rest.now }
{
    let Some((first, rest)) = tokens.rest.split_first() else {
        return Err(Stop::Refused);
    };
    tokens.rest = rest;
    match prefix_at(first, rest) {
        Some(found) => Ok(found),
        None => Err(Stop::Refused),
    }
}

/// Whether an assignment sign stands here, with gaps on both sides or on none.
#[tactic(auto, unfolding(parse_base::specs::Parser::starts))]
pub fn sees_assign(tokens: &Tokens<'_>) -> bool
    ensures { result ≡ starts an_assign tokens.now.rest.now }
{
    match tokens.rest {
        [] => false,
        [first, rest @ ..] => assign_at(first, rest).is_some(),
    }
}

/// Takes an assignment sign.
#[tactic(auto, unfolding(parse_base::specs::Parser::take_one))]
pub fn assign(tokens: &mut Tokens<'_>) -> Result<AssignSign, Stop>
    ensures { Reads (take_one an_assign tokens.old.rest.now) result tokens.new.rest.now }
{
    let Some((first, rest)) = tokens.rest.split_first() else {
        return Err(Stop::Refused);
    };
    tokens.rest = rest;
    match assign_at(first, rest) {
        Some(found) => Ok(found),
        None => Err(Stop::Refused),
    }
}

/// Whether `!` stands here, joined to what stands before.
#[tactic(auto, unfolding(parse_base::specs::Parser::starts))]
pub fn sees_force(tokens: &Tokens<'_>) -> bool
    ensures { result ≡ starts a_force tokens.now.rest.now }
{
    match tokens.rest {
        [] => false,
        [first, ..] => is_sign(first, b"!") && is_joined(first),
    }
}

/// Takes `!` behind an operand.
#[tactic(auto, unfolding(parse_base::specs::Parser::take_one))]
pub fn force(tokens: &mut Tokens<'_>) -> Result<Part, Stop>
    ensures { Reads (take_one a_force tokens.old.rest.now) result tokens.new.rest.now }
{
    let Some((first, rest)) = tokens.rest.split_first() else {
        return Err(Stop::Refused);
    };
    tokens.rest = rest;
    if is_sign(first, b"!") && is_joined(first) {
        Ok(Part::Force)
    } else {
        Err(Stop::Refused)
    }
}

/// Whether the `{` of a trailing closure stands here.
#[tactic(auto, unfolding(parse_base::specs::Parser::starts))]
pub fn sees_tail(tokens: &Tokens<'_>, tails: bool) -> bool
    ensures { result ≡ starts (tail_open tails) tokens.now.rest.now }
{
    match tokens.rest {
        [] => false,
        [first, ..] => is_sign(first, b"{") && (tails && !is_on_new_line(first)),
    }
}

/// Takes the `{` of a trailing closure.
#[tactic(auto, unfolding(parse_base::specs::Parser::take_one))]
pub fn open_tail(tokens: &mut Tokens<'_>, tails: bool) -> Result<(), Stop>
    ensures { Reads (take_one (tail_open tails) tokens.old.rest.now) result tokens.new.rest.now }
{
    let Some((first, rest)) = tokens.rest.split_first() else {
        return Err(Stop::Refused);
    };
    tokens.rest = rest;
    if is_sign(first, b"{") && (tails && !is_on_new_line(first)) {
        Ok(())
    } else {
        Err(Stop::Refused)
    }
}

fn binder_of(word: &Word) -> Option<Binder>
    ensures { result ≡ words.binder_word word.now }
{
    if word.is(b"let") {
        Some(Binder::Let)
    } else if word.is(b"var") {
        Some(Binder::Var)
    } else {
        None
    }
}

fn jump_of(word: &Word) -> Option<StmtForm>
    ensures { result ≡ words.jump_word word.now }
{
    if word.is(b"break") {
        Some(StmtForm::Break)
    } else if word.is(b"continue") {
        Some(StmtForm::Continue)
    } else {
        None
    }
}

fn is_jump(word: &Word) -> bool
    ensures { result ≡ is_some (words.jump_word word.now) }
{
    word.is(b"break") || word.is(b"continue")
}

fn truth_of(word: &Word) -> Option<Pattern>
    ensures { result ≡ words.truth_word word.now }
{
    if word.is(b"true") {
        Some(Pattern::True)
    } else if word.is(b"false") {
        Some(Pattern::False)
    } else {
        None
    }
}

fn is_truth(word: &Word) -> bool
    ensures { result ≡ is_some (words.truth_word word.now) }
{
    word.is(b"true") || word.is(b"false")
}

/// Whether `let` or `var` stands here.
#[tactic(auto, unfolding(parse_base::specs::Parser::starts))]
pub fn sees_binder(tokens: &Tokens<'_>) -> bool
    ensures { result ≡ starts a_binder tokens.now.rest.now }
{
    match tokens.rest {
        [] => false,
        [first, ..] => match &first.kind {
            TokenKind::Reserved(word) => binder_of(word).is_some(),
            _ => false,
        },
    }
}

/// Takes `let` or `var`.
#[tactic(auto, unfolding(parse_base::specs::Parser::take_one))]
pub fn binder(tokens: &mut Tokens<'_>) -> Result<Binder, Stop>
    ensures { Reads (take_one a_binder tokens.old.rest.now) result tokens.new.rest.now }
{
    let Some((first, rest)) = tokens.rest.split_first() else {
        return Err(Stop::Refused);
    };
    tokens.rest = rest;
    match &first.kind {
        TokenKind::Reserved(word) => match binder_of(word) {
            Some(found) => Ok(found),
            None => Err(Stop::Refused),
        },
        _ => Err(Stop::Refused),
    }
}

/// Whether `break` or `continue` stands here.
#[tactic(auto, unfolding(parse_base::specs::Parser::starts))]
pub fn sees_jump(tokens: &Tokens<'_>) -> bool
    ensures { result ≡ starts a_jump tokens.now.rest.now }
{
    match tokens.rest {
        [] => false,
        [first, ..] => match &first.kind {
            TokenKind::Reserved(word) => is_jump(word),
            _ => false,
        },
    }
}

/// Takes `break` or `continue`.
#[tactic(auto, unfolding(parse_base::specs::Parser::take_one))]
pub fn jump(tokens: &mut Tokens<'_>) -> Result<StmtForm, Stop>
    ensures { Reads (take_one a_jump tokens.old.rest.now) result tokens.new.rest.now }
{
    let Some((first, rest)) = tokens.rest.split_first() else {
        return Err(Stop::Refused);
    };
    tokens.rest = rest;
    match &first.kind {
        TokenKind::Reserved(word) => match jump_of(word) {
            Some(found) => Ok(found),
            None => Err(Stop::Refused),
        },
        _ => Err(Stop::Refused),
    }
}

/// Whether a number, `true` or `false` stands here.
#[tactic(auto, unfolding(parse_base::specs::Parser::starts))]
pub fn sees_plain(tokens: &Tokens<'_>) -> bool
    ensures { result ≡ starts a_plain tokens.now.rest.now }
{
    match tokens.rest {
        [] => false,
        [first, ..] => match &first.kind {
            TokenKind::Int(_) => true,
            TokenKind::Reserved(word) => is_truth(word),
            _ => false,
        },
    }
}

/// Takes a number, `true` or `false` as a pattern.
#[tactic(auto, unfolding(parse_base::specs::Parser::take_one))]
pub fn plain(tokens: &mut Tokens<'_>) -> Result<Pattern, Stop>
    ensures { Reads (take_one a_plain tokens.old.rest.now) result tokens.new.rest.now }
{
    let Some((first, rest)) = tokens.rest.split_first() else {
        return Err(Stop::Refused);
    };
    tokens.rest = rest;
    match &first.kind {
        TokenKind::Int(n) => Ok(Pattern::Int(*n)),
        TokenKind::Reserved(word) => match truth_of(word) {
            Some(found) => Ok(found),
            None => Err(Stop::Refused),
        },
        _ => Err(Stop::Refused),
    }
}

/// Takes a number.
#[tactic(auto, unfolding(parse_base::specs::Parser::take_one))]
pub fn number(tokens: &mut Tokens<'_>) -> Result<i64, Stop>
    ensures { Reads (take_one a_number tokens.old.rest.now) result tokens.new.rest.now }
{
    let Some((first, rest)) = tokens.rest.split_first() else {
        return Err(Stop::Refused);
    };
    tokens.rest = rest;
    match &first.kind {
        TokenKind::Int(n) => Ok(*n),
        _ => Err(Stop::Refused),
    }
}

/// Whether `-` stands here, joined to what follows.
#[tactic(auto, unfolding(parse_base::specs::Parser::starts))]
pub fn sees_minus(tokens: &Tokens<'_>) -> bool
    ensures { result ≡ starts a_minus tokens.now.rest.now }
{
    match tokens.rest {
        [] => false,
        [first, rest @ ..] => is_sign(first, b"-") && joined_next(rest),
    }
}

/// Takes `-` where it is joined to what follows.
#[tactic(auto, unfolding(parse_base::specs::Parser::take_one))]
pub fn minus(tokens: &mut Tokens<'_>) -> Result<(), Stop>
    ensures { Reads (take_one a_minus tokens.old.rest.now) result tokens.new.rest.now }
{
    let Some((first, rest)) = tokens.rest.split_first() else {
        return Err(Stop::Refused);
    };
    tokens.rest = rest;
    if is_sign(first, b"-") && joined_next(rest) {
        Ok(())
    } else {
        Err(Stop::Refused)
    }
}
