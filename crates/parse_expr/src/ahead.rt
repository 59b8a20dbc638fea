//! Tests of the tokens ahead.

ghost use Rattle.std.specs.Prelude.{◌≡◌, ◌<◌, ◌||◌, length, false, true, IfSome, IfNone};
ghost use Rattle.parse_expr.specs.Tests.{params_from, starts_in};
ghost use Rattle.parse_expr.specs.Tests as tests;

use parse_base::{Tokens, is_on_new_line, is_reserved, is_sign};
use parse_terms::{
    MAX_LINKS, is_param, sees_binder, sees_force, sees_jump, sees_literal, sees_prefix, sees_tail,
};
use sv_items::Items;
use swift_ast::{Arm, Stmt};
use swift_lex::Token;

#[tactic(auto, unfolding(crate::specs::Tests::string_goes_on))]
pub fn string_goes_on(tokens: &Tokens<'_>) -> bool
    ensures { result ≡ tests.string_goes_on tokens.now.rest.now }
{
    tokens.sees_text() || tokens.sees_hole()
}

#[tactic(auto, unfolding(crate::specs::Tests::goes_on))]
pub fn goes_on(tokens: &Tokens<'_>, tails: bool) -> bool
    ensures { result ≡ tests.goes_on tails tokens.now.rest.now }
{
    sees_force(tokens)
        || (tokens.sees(b".")
            || (tokens.sees_on_line(b"[")
                || (tokens.sees_on_line(b"(") || sees_tail(tokens, tails))))
}

#[tactic(auto, unfolding(crate::specs::Tests::begins_prim, crate::specs::Tests::begins_form))]
pub fn begins_prim(tokens: &Tokens<'_>) -> bool
    ensures { result ≡ tests.begins_prim tokens.now.rest.now }
{
    tokens.sees(b"(")
        || (sees_literal(tokens)
            || (tokens.sees_string() || (tokens.sees(b".") || tokens.sees(b"["))))
}

#[tactic(auto, unfolding(crate::specs::Tests::begins_expr))]
pub fn begins_expr(tokens: &Tokens<'_>) -> bool
    ensures { result ≡ tests.begins_expr tokens.now.rest.now }
{
    sees_prefix(tokens) || begins_prim(tokens)
}

#[tactic(auto, unfolding(crate::specs::Tests::can_begin))]
pub fn can_begin(tokens: &Tokens<'_>) -> bool
    ensures { result ≡ tests.can_begin tokens.now.rest.now }
{
    begins_prim(tokens) || (tokens.sees(b"-") || tokens.sees(b"!"))
}

#[tactic(auto, unfolding(crate::specs::Tests::begins_arg))]
pub fn begins_arg(tokens: &Tokens<'_>) -> bool
    ensures { result ≡ tests.begins_arg tokens.now.rest.now }
{
    tokens.sees(b"\\") || (tokens.sees(b"{") || begins_expr(tokens))
}

/// The tokens behind a parameter, if one stands here.
#[tactic(auto, using(crate::proofs::AheadTurns::no_param), unfolding(crate::specs::Tests::params_from, parse_base::specs::Parser::starts))]
fn behind_param(tokens: &[Token]) -> Option<&[Token]>
    ensures found { IfSome result (λ rest. params_from false tokens.now ≡ params_from true rest.now) }
    ensures fewer { IfSome result (λ rest. length rest.now < length tokens.now) }
    ensures none { IfNone result (params_from false tokens.now ≡ false) }
{
    match tokens {
        [first, rest @ ..] if is_param(first) => Some(rest),
        _ => None,
    }
}

fn sees_in(tokens: &[Token]) -> bool
    ensures { result ≡ starts_in tokens.now }
{
    match tokens {
        [] => false,
        [first, ..] => is_reserved(first, b"in"),
    }
}

/// The tokens behind a comma, if one stands here.
#[tactic(auto, using(crate::proofs::AheadTurns::no_comma), unfolding(crate::specs::Tests::params_from))]
fn behind_comma(tokens: &[Token]) -> Option<&[Token]>
    ensures found { IfSome result (λ rest. params_from true tokens.now ≡ (starts_in tokens.now || params_from false rest.now)) }
    ensures fewer { IfSome result (λ rest. length rest.now < length tokens.now) }
    ensures none { IfNone result (params_from true tokens.now ≡ starts_in tokens.now) }
{
    match tokens {
        [first, rest @ ..] if is_sign(first, b",") => Some(rest),
        _ => None,
    }
}

/// Whether parameters of a closure stand here: names with commas between, and then `in`. It looks no further than the
/// first token that cannot be in such a list.
#[tactic(auto, using(crate::proofs::AheadTurns::in_found, crate::proofs::AheadTurns::no_tokens), unfolding(crate::specs::Tests::params_ahead))]
pub fn params_ahead(tokens: &[Token]) -> bool
    ensures { result ≡ tests.params_ahead tokens.now }
{
    let mut rest = tokens;
    for _turn in 0..tokens.len() {
        let Some(behind) = behind_param(rest) else {
            return false;
        };
        if sees_in(behind) {
            return true;
        }
        let Some(more) = behind_comma(behind) else {
            return false;
        };
        rest = more;
    }
    false
}

/// Whether a new line begins here, but for one that begins with `.` and so goes on with what stands before.
pub fn on_new_line(tokens: &Tokens<'_>) -> bool
    ensures { result ≡ tests.on_new_line tokens.now.rest.now }
{
    match tokens.rest {
        [] => false,
        [first, ..] => is_on_new_line(first) && !is_sign(first, b"."),
    }
}

#[tactic(auto, unfolding(crate::specs::Tests::begins_stmt))]
pub fn begins_stmt(tokens: &Tokens<'_>) -> bool
    ensures { result ≡ tests.begins_stmt tokens.now.rest.now }
{
    sees_binder(tokens)
        || (tokens.sees_word(b"return")
            || (sees_jump(tokens)
                || (tokens.sees_word(b"if")
                    || (tokens.sees_word(b"switch")
                        || (tokens.sees_word(b"for")
                            || (tokens.sees_word(b"while") || begins_expr(tokens)))))))
}

fn stmt_next(tokens: &Tokens<'_>) -> bool
    ensures { result ≡ tests.stmt_next tokens.now.rest.now }
{
    match tokens.rest {
        [] => false,
        [_, rest @ ..] => begins_stmt(&Tokens { rest }),
    }
}

#[tactic(auto, unfolding(crate::specs::Tests::next_stmt))]
pub fn next_stmt(tokens: &Tokens<'_>) -> bool
    ensures { result ≡ tests.next_stmt tokens.now.rest.now }
{
    let semi = tokens.sees(b";") && stmt_next(tokens);
    let line = on_new_line(tokens) && begins_stmt(tokens);
    semi || line
}

#[tactic(auto, unfolding(crate::specs::Tests::begins_case))]
pub fn begins_case(tokens: &Tokens<'_>) -> bool
    ensures { result ≡ tests.begins_case tokens.now.rest.now }
{
    tokens.sees_word(b"case") || tokens.sees_word(b"default")
}

#[tactic(auto, unfolding(crate::specs::Tests::else_if))]
pub fn else_if(tokens: &Tokens<'_>) -> bool
    ensures { result ≡ tests.else_if tokens.now.rest.now }
{
    tokens.sees_word(b"else") && tokens.word_next(b"if")
}

/// Whether all `else`, the last one too, are at most as many links as a chain has.
pub fn few_elses(arms: &Items<Arm>, last: &Option<Items<Stmt>>) -> bool
    ensures { result ≡ tests.few_elses (arms.now, last.now) }
{
    arms.len() < MAX_LINKS || last.is_none()
}
