//! Expressions. The rules take the readers of what nests as parameters, so that each rule is proved by itself.

ghost use Rattle.std.specs.Prelude.{◌≡◌, ◌<◌, [], ◌∷◌, codes};
ghost use Rattle.parse_base.specs.Parser.{Reads, all, both, listed, made, many, perhaps, starts, take_one};
ghost use Rattle.parse_base.specs.Terminals.{a_sign, label_ahead};
ghost use Rattle.parse_terms.specs.Words.{a_param, a_prefix, an_op, limit, max_links, tail_open};
ghost use Rattle.parse_expr.specs.Nests.{NestsExpr, NestsStmts};
ghost use Rattle.parse_expr.specs.Parse as spec;
ghost use Rattle.parse_expr.specs.Tests as tests;
ghost use Rattle.parse_expr.specs.Ladder.{branches_after, link_at};

use crate::ahead::{begins_arg, begins_expr, goes_on, params_ahead, string_goes_on};
use parse_base::{Stop, Tokens};
use parse_terms::{
    MAX_LINKS, expr_node, force, limit, literal, op, open_tail, param, prefix, sees_force,
    sees_literal, sees_op, sees_prefix, sees_tail, selector, with_branches, with_front, with_links,
    with_parts, with_prefixes,
};
use std::alloc::Global;
use sv_items::{Boxed, Items};
use swift_ast::{
    Arg, ArgValue, Closure, ClosureParam, Expr, ExprForm, LabelledClosure, Link, Part, PrefixSign,
    Stmt, StringPart, Tail,
};
use swift_lex::Word;

/// What the rules stand on: the readers of expressions and statements that nest inside brackets or behind a token.
#[derive(Clone, Copy)]
pub struct Grammar<E, S> {
    pub alloc: Global,
    /// How many tokens the file has.
    pub total: usize,
    /// How deep what nests may still nest.
    pub depth: usize,
    /// Reads an expression: whether closures may trail, and the links to spare for ternaries.
    pub expr: E,
    /// Reads statements.
    pub stmts: S,
}

impl<
    E: Fn(Global, &mut Tokens<'_>, usize, usize, bool, usize) -> Result<(Expr, usize), Stop>,
    S: Fn(Global, &mut Tokens<'_>, usize, usize) -> Result<Items<Stmt>, Stop>,
> Grammar<E, S> {
    /// An expression inside brackets or behind a token, which has all its links to spare.
    #[tactic(auto, unfolding(crate::specs::Parse::inside, parse_base::specs::Parser::made))]
    pub fn inside(&self, tokens: &mut Tokens<'_>, tails: bool) -> Result<Expr, Stop>
        requires exprs { NestsExpr self.now.total self.now.depth (E.pre self.now.expr) (E.post self.now.expr) }
        requires stmts { NestsStmts self.now.total self.now.depth (S.pre self.now.stmts) (S.post self.now.stmts) }
        ensures { Reads (spec.inside self.now.total (spec.nested self.now.total self.now.depth) tails tokens.old.rest.now) result tokens.new.rest.now }
    {
        let (expr, _left) = (self.expr)(
            self.alloc, tokens, self.total, self.depth, tails, MAX_LINKS,
        )?;
        Ok(expr)
    }

    /// The statements inside brackets.
    pub fn statements(&self, tokens: &mut Tokens<'_>) -> Result<Items<Stmt>, Stop>
        requires exprs { NestsExpr self.now.total self.now.depth (E.pre self.now.expr) (E.post self.now.expr) }
        requires stmts { NestsStmts self.now.total self.now.depth (S.pre self.now.stmts) (S.post self.now.stmts) }
        ensures { Reads ((spec.nested self.now.total self.now.depth).stmts' tokens.old.rest.now) result tokens.new.rest.now }
    {
        (self.stmts)(self.alloc, tokens, self.total, self.depth)
    }

    #[tactic(auto, unfolding(crate::specs::Parse::hole, parse_base::specs::Parser::made, parse_base::specs::Parser::both))]
    fn hole(&self, tokens: &mut Tokens<'_>, tails: bool) -> Result<StringPart, Stop>
        requires exprs { NestsExpr self.now.total self.now.depth (E.pre self.now.expr) (E.post self.now.expr) }
        requires stmts { NestsStmts self.now.total self.now.depth (S.pre self.now.stmts) (S.post self.now.stmts) }
        ensures { Reads (spec.hole self.now.total (spec.nested self.now.total self.now.depth) tails tokens.old.rest.now) result tokens.new.rest.now }
    {
        tokens.open_hole()?;
        let inner = self.inside(tokens, tails)?;
        tokens.expect(b")")?;
        Ok(StringPart::Hole(Boxed::new(self.alloc, inner)?))
    }

    #[tactic(auto, unfolding(crate::specs::Parse::string_piece, parse_base::specs::Parser::choose, parse_base::specs::Parser::made))]
    fn string_piece(&self, tokens: &mut Tokens<'_>, tails: bool) -> Result<StringPart, Stop>
        requires exprs { NestsExpr self.now.total self.now.depth (E.pre self.now.expr) (E.post self.now.expr) }
        requires stmts { NestsStmts self.now.total self.now.depth (S.pre self.now.stmts) (S.post self.now.stmts) }
        ensures { Reads (spec.string_piece self.now.total (spec.nested self.now.total self.now.depth) tails tokens.old.rest.now) result tokens.new.rest.now }
    {
        if tokens.sees_text() {
            return Ok(StringPart::Text(tokens.text(self.alloc)?));
        }
        self.hole(tokens, tails)
    }

    #[tactic(auto, using(parse_base::proofs::Turns::many_turn, parse_base::proofs::Turns::many_end), unfolding(parse_base::specs::Parser::all))]
    fn string_pieces(&self, tokens: &mut Tokens<'_>, tails: bool) -> Result<Items<StringPart>, Stop>
        requires exprs { NestsExpr self.now.total self.now.depth (E.pre self.now.expr) (E.post self.now.expr) }
        requires stmts { NestsStmts self.now.total self.now.depth (S.pre self.now.stmts) (S.post self.now.stmts) }
        ensures { Reads (all tests.string_goes_on (spec.string_piece self.now.total (spec.nested self.now.total self.now.depth) tails) tokens.old.rest.now) result tokens.new.rest.now }
    {
        let mut found = Items::new(self.alloc);
        for _turn in 0..tokens.rest.len() {
            if !string_goes_on(tokens) {
                return Ok(found);
            }
            let item = self.string_piece(tokens, tails)?;
            found.push(item)?;
        }
        if string_goes_on(tokens) {
            return Err(Stop::Refused);
        }
        Ok(found)
    }

    /// A string with the expressions in it.
    #[tactic(auto, unfolding(crate::specs::Parse::string_of, parse_base::specs::Parser::made, parse_base::specs::Parser::both))]
    pub fn string(&self, tokens: &mut Tokens<'_>, tails: bool) -> Result<Items<StringPart>, Stop>
        requires exprs { NestsExpr self.now.total self.now.depth (E.pre self.now.expr) (E.post self.now.expr) }
        requires stmts { NestsStmts self.now.total self.now.depth (S.pre self.now.stmts) (S.post self.now.stmts) }
        ensures { Reads (spec.string_of self.now.total (spec.nested self.now.total self.now.depth) tails tokens.old.rest.now) result tokens.new.rest.now }
    {
        tokens.open_string()?;
        let pieces = self.string_pieces(tokens, tails)?;
        tokens.close_string()?;
        Ok(pieces)
    }

    #[tactic(auto, unfolding(crate::specs::Parse::implicit_of, parse_base::specs::Parser::made, parse_base::specs::Parser::both))]
    fn implicit(&self, tokens: &mut Tokens<'_>) -> Result<ExprForm, Stop>
        requires exprs { NestsExpr self.now.total self.now.depth (E.pre self.now.expr) (E.post self.now.expr) }
        requires stmts { NestsStmts self.now.total self.now.depth (S.pre self.now.stmts) (S.post self.now.stmts) }
        ensures { Reads (spec.implicit_of self.now.total (spec.nested self.now.total self.now.depth) tokens.old.rest.now) result tokens.new.rest.now }
    {
        tokens.expect(b".")?;
        Ok(ExprForm::Implicit(tokens.name(self.alloc)?))
    }

    #[tactic(auto, using(parse_base::proofs::Turns::many_turn, parse_base::proofs::Turns::many_end), unfolding(parse_base::specs::Parser::all, parse_base::specs::Parser::made, parse_base::specs::Parser::both))]
    fn more_elements(&self, tokens: &mut Tokens<'_>, tails: bool) -> Result<Items<Expr>, Stop>
        requires exprs { NestsExpr self.now.total self.now.depth (E.pre self.now.expr) (E.post self.now.expr) }
        requires stmts { NestsStmts self.now.total self.now.depth (S.pre self.now.stmts) (S.post self.now.stmts) }
        ensures { Reads (all (starts (a_sign (codes ","))) (made (λ x. x.1) (both (take_one (a_sign (codes ","))) (spec.inside self.now.total (spec.nested self.now.total self.now.depth) tails))) tokens.old.rest.now) result tokens.new.rest.now }
    {
        let mut found = Items::new(self.alloc);
        for _turn in 0..tokens.rest.len() {
            if !tokens.sees(b",") {
                return Ok(found);
            }
            tokens.expect(b",")?;
            let element = self.inside(tokens, tails)?;
            found.push(element)?;
        }
        if tokens.sees(b",") {
            return Err(Stop::Refused);
        }
        Ok(found)
    }

    #[tactic(auto, unfolding(parse_base::specs::Parser::perhaps, parse_base::specs::Parser::listed, parse_base::specs::Parser::made, parse_base::specs::Parser::both))]
    fn elements(&self, tokens: &mut Tokens<'_>, tails: bool) -> Result<Option<Items<Expr>>, Stop>
        requires exprs { NestsExpr self.now.total self.now.depth (E.pre self.now.expr) (E.post self.now.expr) }
        requires stmts { NestsStmts self.now.total self.now.depth (S.pre self.now.stmts) (S.post self.now.stmts) }
        ensures { Reads (perhaps tests.begins_expr (listed (a_sign (codes ",")) (spec.inside self.now.total (spec.nested self.now.total self.now.depth) tails)) tokens.old.rest.now) result tokens.new.rest.now }
    {
        if !begins_expr(tokens) {
            return Ok(None);
        }
        let first = self.inside(tokens, tails)?;
        let more = self.more_elements(tokens, tails)?;
        Ok(Some(with_front(first, more)?))
    }

    #[tactic(auto, unfolding(crate::specs::Parse::list_of, parse_base::specs::Parser::made, parse_base::specs::Parser::both))]
    fn list(&self, tokens: &mut Tokens<'_>, tails: bool) -> Result<ExprForm, Stop>
        requires exprs { NestsExpr self.now.total self.now.depth (E.pre self.now.expr) (E.post self.now.expr) }
        requires stmts { NestsStmts self.now.total self.now.depth (S.pre self.now.stmts) (S.post self.now.stmts) }
        ensures { Reads (spec.list_of self.now.total (spec.nested self.now.total self.now.depth) tails tokens.old.rest.now) result tokens.new.rest.now }
    {
        tokens.expect(b"[")?;
        let found = self.elements(tokens, tails)?;
        tokens.expect(b"]")?;
        Ok(ExprForm::List(match found {
            None => Items::new(self.alloc),
            Some(elements) => elements,
        }))
    }

    #[tactic(auto, unfolding(crate::specs::Parse::paren, parse_base::specs::Parser::made, parse_base::specs::Parser::both))]
    fn paren(&self, tokens: &mut Tokens<'_>, tails: bool) -> Result<Expr, Stop>
        requires exprs { NestsExpr self.now.total self.now.depth (E.pre self.now.expr) (E.post self.now.expr) }
        requires stmts { NestsStmts self.now.total self.now.depth (S.pre self.now.stmts) (S.post self.now.stmts) }
        ensures { Reads (spec.paren self.now.total (spec.nested self.now.total self.now.depth) tails tokens.old.rest.now) result tokens.new.rest.now }
    {
        tokens.expect(b"(")?;
        let inner = self.inside(tokens, tails)?;
        tokens.expect(b")")?;
        Ok(inner)
    }

    #[tactic(auto, unfolding(crate::specs::Parse::prim_form, parse_base::specs::Parser::choose, parse_base::specs::Parser::made))]
    fn prim_form(&self, tokens: &mut Tokens<'_>, tails: bool) -> Result<ExprForm, Stop>
        requires exprs { NestsExpr self.now.total self.now.depth (E.pre self.now.expr) (E.post self.now.expr) }
        requires stmts { NestsStmts self.now.total self.now.depth (S.pre self.now.stmts) (S.post self.now.stmts) }
        ensures { Reads (spec.prim_form self.now.total (spec.nested self.now.total self.now.depth) tails tokens.old.rest.now) result tokens.new.rest.now }
    {
        if sees_literal(tokens) {
            literal(tokens, self.alloc)
        } else if tokens.sees_string() {
            Ok(ExprForm::Text(self.string(tokens, tails)?))
        } else if tokens.sees(b".") {
            self.implicit(tokens)
        } else {
            self.list(tokens, tails)
        }
    }

    #[tactic(auto, unfolding(crate::specs::Parse::prim, parse_base::specs::Parser::choose, parse_base::specs::Parser::spanned))]
    fn prim(&self, tokens: &mut Tokens<'_>, tails: bool) -> Result<Expr, Stop>
        requires exprs { NestsExpr self.now.total self.now.depth (E.pre self.now.expr) (E.post self.now.expr) }
        requires stmts { NestsStmts self.now.total self.now.depth (S.pre self.now.stmts) (S.post self.now.stmts) }
        ensures { Reads (spec.prim self.now.total (spec.nested self.now.total self.now.depth) tails tokens.old.rest.now) result tokens.new.rest.now }
    {
        if tokens.sees(b"(") {
            return self.paren(tokens, tails);
        }
        let before = tokens.rest;
        let form = self.prim_form(tokens, tails)?;
        Ok(expr_node(tokens.span_since(self.total, before), form))
    }

    #[tactic(auto, using(parse_base::proofs::Turns::many_turn, parse_base::proofs::Turns::many_end), unfolding(parse_base::specs::Parser::all, parse_base::specs::Parser::made, parse_base::specs::Parser::both))]
    fn more_params(&self, tokens: &mut Tokens<'_>) -> Result<Items<ClosureParam>, Stop>
        requires exprs { NestsExpr self.now.total self.now.depth (E.pre self.now.expr) (E.post self.now.expr) }
        requires stmts { NestsStmts self.now.total self.now.depth (S.pre self.now.stmts) (S.post self.now.stmts) }
        ensures { Reads (all (starts (a_sign (codes ","))) (made (λ x. x.1) (both (take_one (a_sign (codes ","))) (take_one a_param))) tokens.old.rest.now) result tokens.new.rest.now }
    {
        let mut found = Items::new(self.alloc);
        for _turn in 0..tokens.rest.len() {
            if !tokens.sees(b",") {
                return Ok(found);
            }
            tokens.expect(b",")?;
            let name = param(tokens, self.alloc)?;
            found.push(name)?;
        }
        if tokens.sees(b",") {
            return Err(Stop::Refused);
        }
        Ok(found)
    }

    #[tactic(auto, unfolding(crate::specs::Parse::params, parse_base::specs::Parser::listed, parse_base::specs::Parser::made, parse_base::specs::Parser::both))]
    fn params(&self, tokens: &mut Tokens<'_>) -> Result<Items<ClosureParam>, Stop>
        requires exprs { NestsExpr self.now.total self.now.depth (E.pre self.now.expr) (E.post self.now.expr) }
        requires stmts { NestsStmts self.now.total self.now.depth (S.pre self.now.stmts) (S.post self.now.stmts) }
        ensures { Reads (spec.params self.now.total (spec.nested self.now.total self.now.depth) tokens.old.rest.now) result tokens.new.rest.now }
    {
        let first = param(tokens, self.alloc)?;
        let more = self.more_params(tokens)?;
        tokens.expect_word(b"in")?;
        Ok(with_front(first, more)?)
    }

    #[tactic(auto, unfolding(crate::specs::Parse::closure_in, parse_base::specs::Parser::perhaps, parse_base::specs::Parser::made, parse_base::specs::Parser::both))]
    fn closure_in(&self, tokens: &mut Tokens<'_>) -> Result<Closure, Stop>
        requires exprs { NestsExpr self.now.total self.now.depth (E.pre self.now.expr) (E.post self.now.expr) }
        requires stmts { NestsStmts self.now.total self.now.depth (S.pre self.now.stmts) (S.post self.now.stmts) }
        ensures { Reads (spec.closure_in self.now.total (spec.nested self.now.total self.now.depth) tokens.old.rest.now) result tokens.new.rest.now }
    {
        let params = if params_ahead(tokens.rest) {
            Some(self.params(tokens)?)
        } else {
            None
        };
        let body = self.statements(tokens)?;
        Ok(Closure { params, body })
    }

    #[tactic(auto, unfolding(crate::specs::Parse::closure_of, parse_base::specs::Parser::made, parse_base::specs::Parser::both))]
    fn closure(&self, tokens: &mut Tokens<'_>) -> Result<Closure, Stop>
        requires exprs { NestsExpr self.now.total self.now.depth (E.pre self.now.expr) (E.post self.now.expr) }
        requires stmts { NestsStmts self.now.total self.now.depth (S.pre self.now.stmts) (S.post self.now.stmts) }
        ensures { Reads (spec.closure_of self.now.total (spec.nested self.now.total self.now.depth) tokens.old.rest.now) result tokens.new.rest.now }
    {
        tokens.expect(b"{")?;
        let closure = self.closure_in(tokens)?;
        tokens.expect(b"}")?;
        Ok(closure)
    }

    #[tactic(auto, unfolding(crate::specs::Parse::first_closure, parse_base::specs::Parser::made, parse_base::specs::Parser::both))]
    fn first_closure(&self, tokens: &mut Tokens<'_>, tails: bool) -> Result<Closure, Stop>
        requires exprs { NestsExpr self.now.total self.now.depth (E.pre self.now.expr) (E.post self.now.expr) }
        requires stmts { NestsStmts self.now.total self.now.depth (S.pre self.now.stmts) (S.post self.now.stmts) }
        ensures { Reads (spec.first_closure self.now.total (spec.nested self.now.total self.now.depth) tails tokens.old.rest.now) result tokens.new.rest.now }
    {
        open_tail(tokens, tails)?;
        let closure = self.closure_in(tokens)?;
        tokens.expect(b"}")?;
        Ok(closure)
    }

    #[tactic(auto, unfolding(crate::specs::Parse::label_of, parse_base::specs::Parser::made, parse_base::specs::Parser::both))]
    fn label(&self, tokens: &mut Tokens<'_>) -> Result<Word, Stop>
        requires exprs { NestsExpr self.now.total self.now.depth (E.pre self.now.expr) (E.post self.now.expr) }
        requires stmts { NestsStmts self.now.total self.now.depth (S.pre self.now.stmts) (S.post self.now.stmts) }
        ensures { Reads (spec.label_of self.now.total (spec.nested self.now.total self.now.depth) tokens.old.rest.now) result tokens.new.rest.now }
    {
        let name = tokens.name(self.alloc)?;
        tokens.expect(b":")?;
        Ok(name)
    }

    #[tactic(auto, unfolding(crate::specs::Parse::labelled_of, parse_base::specs::Parser::made, parse_base::specs::Parser::both))]
    fn labelled(&self, tokens: &mut Tokens<'_>) -> Result<LabelledClosure, Stop>
        requires exprs { NestsExpr self.now.total self.now.depth (E.pre self.now.expr) (E.post self.now.expr) }
        requires stmts { NestsStmts self.now.total self.now.depth (S.pre self.now.stmts) (S.post self.now.stmts) }
        ensures { Reads (spec.labelled_of self.now.total (spec.nested self.now.total self.now.depth) tokens.old.rest.now) result tokens.new.rest.now }
    {
        let label = self.label(tokens)?;
        let closure = self.closure(tokens)?;
        Ok(LabelledClosure { label, closure })
    }

    #[tactic(auto, using(parse_base::proofs::Turns::many_turn, parse_base::proofs::Turns::many_end), unfolding(parse_base::specs::Parser::all))]
    fn more_closures(&self, tokens: &mut Tokens<'_>) -> Result<Items<LabelledClosure>, Stop>
        requires exprs { NestsExpr self.now.total self.now.depth (E.pre self.now.expr) (E.post self.now.expr) }
        requires stmts { NestsStmts self.now.total self.now.depth (S.pre self.now.stmts) (S.post self.now.stmts) }
        ensures { Reads (all label_ahead (spec.labelled_of self.now.total (spec.nested self.now.total self.now.depth)) tokens.old.rest.now) result tokens.new.rest.now }
    {
        let mut found = Items::new(self.alloc);
        for _turn in 0..tokens.rest.len() {
            if !tokens.label_ahead() {
                return Ok(found);
            }
            let item = self.labelled(tokens)?;
            found.push(item)?;
        }
        if tokens.label_ahead() {
            return Err(Stop::Refused);
        }
        Ok(found)
    }

    #[tactic(auto, unfolding(crate::specs::Parse::tail_of, parse_base::specs::Parser::made, parse_base::specs::Parser::both))]
    fn tail(&self, tokens: &mut Tokens<'_>, tails: bool) -> Result<Tail, Stop>
        requires exprs { NestsExpr self.now.total self.now.depth (E.pre self.now.expr) (E.post self.now.expr) }
        requires stmts { NestsStmts self.now.total self.now.depth (S.pre self.now.stmts) (S.post self.now.stmts) }
        ensures { Reads (spec.tail_of self.now.total (spec.nested self.now.total self.now.depth) tails tokens.old.rest.now) result tokens.new.rest.now }
    {
        let closure = self.first_closure(tokens, tails)?;
        let others = self.more_closures(tokens)?;
        Ok(Tail { closure, others })
    }

    #[tactic(auto, unfolding(crate::specs::Parse::key_of, parse_base::specs::Parser::made, parse_base::specs::Parser::both))]
    fn key(&self, tokens: &mut Tokens<'_>) -> Result<ArgValue, Stop>
        requires exprs { NestsExpr self.now.total self.now.depth (E.pre self.now.expr) (E.post self.now.expr) }
        requires stmts { NestsStmts self.now.total self.now.depth (S.pre self.now.stmts) (S.post self.now.stmts) }
        ensures { Reads (spec.key_of self.now.total (spec.nested self.now.total self.now.depth) tokens.old.rest.now) result tokens.new.rest.now }
    {
        tokens.expect(b"\\")?;
        tokens.expect(b".")?;
        Ok(ArgValue::Key(selector(tokens, self.alloc)?))
    }

    #[tactic(auto, unfolding(crate::specs::Parse::value_of, parse_base::specs::Parser::choose, parse_base::specs::Parser::made))]
    fn value(&self, tokens: &mut Tokens<'_>, tails: bool) -> Result<ArgValue, Stop>
        requires exprs { NestsExpr self.now.total self.now.depth (E.pre self.now.expr) (E.post self.now.expr) }
        requires stmts { NestsStmts self.now.total self.now.depth (S.pre self.now.stmts) (S.post self.now.stmts) }
        ensures { Reads (spec.value_of self.now.total (spec.nested self.now.total self.now.depth) tails tokens.old.rest.now) result tokens.new.rest.now }
    {
        if tokens.sees(b"\\") {
            self.key(tokens)
        } else if tokens.sees(b"{") {
            Ok(ArgValue::Closure(self.closure(tokens)?))
        } else {
            let inner = self.inside(tokens, tails)?;
            Ok(ArgValue::Expr(Boxed::new(self.alloc, inner)?))
        }
    }

    #[tactic(auto, unfolding(parse_base::specs::Parser::perhaps))]
    fn maybe_label(&self, tokens: &mut Tokens<'_>) -> Result<Option<Word>, Stop>
        requires exprs { NestsExpr self.now.total self.now.depth (E.pre self.now.expr) (E.post self.now.expr) }
        requires stmts { NestsStmts self.now.total self.now.depth (S.pre self.now.stmts) (S.post self.now.stmts) }
        ensures { Reads (perhaps label_ahead (spec.label_of self.now.total (spec.nested self.now.total self.now.depth)) tokens.old.rest.now) result tokens.new.rest.now }
    {
        if !tokens.label_ahead() {
            return Ok(None);
        }
        Ok(Some(self.label(tokens)?))
    }

    #[tactic(auto, unfolding(crate::specs::Parse::arg_of, parse_base::specs::Parser::made, parse_base::specs::Parser::both))]
    fn arg(&self, tokens: &mut Tokens<'_>, tails: bool) -> Result<Arg, Stop>
        requires exprs { NestsExpr self.now.total self.now.depth (E.pre self.now.expr) (E.post self.now.expr) }
        requires stmts { NestsStmts self.now.total self.now.depth (S.pre self.now.stmts) (S.post self.now.stmts) }
        ensures { Reads (spec.arg_of self.now.total (spec.nested self.now.total self.now.depth) tails tokens.old.rest.now) result tokens.new.rest.now }
    {
        let label = self.maybe_label(tokens)?;
        let value = self.value(tokens, tails)?;
        Ok(Arg { label, value })
    }

    #[tactic(auto, using(parse_base::proofs::Turns::many_turn, parse_base::proofs::Turns::many_end), unfolding(parse_base::specs::Parser::all, parse_base::specs::Parser::made, parse_base::specs::Parser::both))]
    fn more_args(&self, tokens: &mut Tokens<'_>, tails: bool) -> Result<Items<Arg>, Stop>
        requires exprs { NestsExpr self.now.total self.now.depth (E.pre self.now.expr) (E.post self.now.expr) }
        requires stmts { NestsStmts self.now.total self.now.depth (S.pre self.now.stmts) (S.post self.now.stmts) }
        ensures { Reads (all (starts (a_sign (codes ","))) (made (λ x. x.1) (both (take_one (a_sign (codes ","))) (spec.arg_of self.now.total (spec.nested self.now.total self.now.depth) tails))) tokens.old.rest.now) result tokens.new.rest.now }
    {
        let mut found = Items::new(self.alloc);
        for _turn in 0..tokens.rest.len() {
            if !tokens.sees(b",") {
                return Ok(found);
            }
            tokens.expect(b",")?;
            let arg = self.arg(tokens, tails)?;
            found.push(arg)?;
        }
        if tokens.sees(b",") {
            return Err(Stop::Refused);
        }
        Ok(found)
    }

    #[tactic(auto, unfolding(parse_base::specs::Parser::perhaps, parse_base::specs::Parser::listed, parse_base::specs::Parser::made, parse_base::specs::Parser::both))]
    fn maybe_args(&self, tokens: &mut Tokens<'_>, tails: bool) -> Result<Option<Items<Arg>>, Stop>
        requires exprs { NestsExpr self.now.total self.now.depth (E.pre self.now.expr) (E.post self.now.expr) }
        requires stmts { NestsStmts self.now.total self.now.depth (S.pre self.now.stmts) (S.post self.now.stmts) }
        ensures { Reads (perhaps tests.begins_arg (listed (a_sign (codes ",")) (spec.arg_of self.now.total (spec.nested self.now.total self.now.depth) tails)) tokens.old.rest.now) result tokens.new.rest.now }
    {
        if !begins_arg(tokens) {
            return Ok(None);
        }
        let first = self.arg(tokens, tails)?;
        let more = self.more_args(tokens, tails)?;
        Ok(Some(with_front(first, more)?))
    }

    #[tactic(auto, unfolding(crate::specs::Parse::args, parse_base::specs::Parser::made, parse_base::specs::Parser::both))]
    fn args(&self, tokens: &mut Tokens<'_>, tails: bool) -> Result<Items<Arg>, Stop>
        requires exprs { NestsExpr self.now.total self.now.depth (E.pre self.now.expr) (E.post self.now.expr) }
        requires stmts { NestsStmts self.now.total self.now.depth (S.pre self.now.stmts) (S.post self.now.stmts) }
        ensures { Reads (spec.args self.now.total (spec.nested self.now.total self.now.depth) tails tokens.old.rest.now) result tokens.new.rest.now }
    {
        tokens.expect_on_line(b"(")?;
        let found = self.maybe_args(tokens, tails)?;
        tokens.expect(b")")?;
        Ok(match found {
            None => Items::new(self.alloc),
            Some(args) => args,
        })
    }

    #[tactic(auto, unfolding(parse_base::specs::Parser::perhaps))]
    fn maybe_tail(&self, tokens: &mut Tokens<'_>, tails: bool) -> Result<Option<Tail>, Stop>
        requires exprs { NestsExpr self.now.total self.now.depth (E.pre self.now.expr) (E.post self.now.expr) }
        requires stmts { NestsStmts self.now.total self.now.depth (S.pre self.now.stmts) (S.post self.now.stmts) }
        ensures { Reads (perhaps (starts (tail_open tails)) (spec.tail_of self.now.total (spec.nested self.now.total self.now.depth) tails) tokens.old.rest.now) result tokens.new.rest.now }
    {
        if !sees_tail(tokens, tails) {
            return Ok(None);
        }
        Ok(Some(self.tail(tokens, tails)?))
    }

    #[tactic(auto, unfolding(crate::specs::Parse::call, parse_base::specs::Parser::made, parse_base::specs::Parser::both))]
    fn call(&self, tokens: &mut Tokens<'_>, tails: bool) -> Result<Part, Stop>
        requires exprs { NestsExpr self.now.total self.now.depth (E.pre self.now.expr) (E.post self.now.expr) }
        requires stmts { NestsStmts self.now.total self.now.depth (S.pre self.now.stmts) (S.post self.now.stmts) }
        ensures { Reads (spec.call self.now.total (spec.nested self.now.total self.now.depth) tails tokens.old.rest.now) result tokens.new.rest.now }
    {
        let args = self.args(tokens, tails)?;
        let tail = self.maybe_tail(tokens, tails)?;
        Ok(Part::Call(args, tail))
    }

    #[tactic(auto, unfolding(crate::specs::Parse::member_of, parse_base::specs::Parser::made, parse_base::specs::Parser::both))]
    fn member(&self, tokens: &mut Tokens<'_>) -> Result<Part, Stop>
        requires exprs { NestsExpr self.now.total self.now.depth (E.pre self.now.expr) (E.post self.now.expr) }
        requires stmts { NestsStmts self.now.total self.now.depth (S.pre self.now.stmts) (S.post self.now.stmts) }
        ensures { Reads (spec.member_of self.now.total (spec.nested self.now.total self.now.depth) tokens.old.rest.now) result tokens.new.rest.now }
    {
        tokens.expect(b".")?;
        Ok(Part::Member(selector(tokens, self.alloc)?))
    }

    #[tactic(auto, unfolding(crate::specs::Parse::index_of, parse_base::specs::Parser::made, parse_base::specs::Parser::both))]
    fn index(&self, tokens: &mut Tokens<'_>, tails: bool) -> Result<Part, Stop>
        requires exprs { NestsExpr self.now.total self.now.depth (E.pre self.now.expr) (E.post self.now.expr) }
        requires stmts { NestsStmts self.now.total self.now.depth (S.pre self.now.stmts) (S.post self.now.stmts) }
        ensures { Reads (spec.index_of self.now.total (spec.nested self.now.total self.now.depth) tails tokens.old.rest.now) result tokens.new.rest.now }
    {
        tokens.expect_on_line(b"[")?;
        let inner = self.inside(tokens, tails)?;
        tokens.expect(b"]")?;
        Ok(Part::Index(Boxed::new(self.alloc, inner)?))
    }

    #[tactic(auto, unfolding(crate::specs::Parse::part_of, parse_base::specs::Parser::choose, parse_base::specs::Parser::made))]
    fn part(&self, tokens: &mut Tokens<'_>, tails: bool) -> Result<Part, Stop>
        requires exprs { NestsExpr self.now.total self.now.depth (E.pre self.now.expr) (E.post self.now.expr) }
        requires stmts { NestsStmts self.now.total self.now.depth (S.pre self.now.stmts) (S.post self.now.stmts) }
        ensures { Reads (spec.part_of self.now.total (spec.nested self.now.total self.now.depth) tails tokens.old.rest.now) result tokens.new.rest.now }
    {
        if sees_force(tokens) {
            force(tokens)
        } else if tokens.sees(b".") {
            self.member(tokens)
        } else if tokens.sees_on_line(b"[") {
            self.index(tokens, tails)
        } else if tokens.sees_on_line(b"(") {
            self.call(tokens, tails)
        } else {
            Ok(Part::Tail(self.tail(tokens, tails)?))
        }
    }

    #[tactic(auto, using(parse_base::proofs::Turns::many_turn, parse_base::proofs::Turns::many_end))]
    fn parts(&self, tokens: &mut Tokens<'_>, tails: bool) -> Result<Items<Part>, Stop>
        requires exprs { NestsExpr self.now.total self.now.depth (E.pre self.now.expr) (E.post self.now.expr) }
        requires stmts { NestsStmts self.now.total self.now.depth (S.pre self.now.stmts) (S.post self.now.stmts) }
        ensures { Reads (many (tests.goes_on tails) (spec.part_of self.now.total (spec.nested self.now.total self.now.depth) tails) max_links [] tokens.old.rest.now) result tokens.new.rest.now }
    {
        let mut found = Items::new(self.alloc);
        for _turn in 0..MAX_LINKS {
            if !goes_on(tokens, tails) {
                return Ok(found);
            }
            let item = self.part(tokens, tails)?;
            found.push(item)?;
        }
        if goes_on(tokens, tails) {
            return Err(Stop::Refused);
        }
        Ok(found)
    }

    #[tactic(auto, unfolding(crate::specs::Parse::post, parse_base::specs::Parser::spanned, parse_base::specs::Parser::both))]
    fn post(&self, tokens: &mut Tokens<'_>, tails: bool) -> Result<Expr, Stop>
        requires exprs { NestsExpr self.now.total self.now.depth (E.pre self.now.expr) (E.post self.now.expr) }
        requires stmts { NestsStmts self.now.total self.now.depth (S.pre self.now.stmts) (S.post self.now.stmts) }
        ensures { Reads (spec.post self.now.total (spec.nested self.now.total self.now.depth) tails tokens.old.rest.now) result tokens.new.rest.now }
    {
        let before = tokens.rest;
        let first = self.prim(tokens, tails)?;
        let parts = self.parts(tokens, tails)?;
        let span = tokens.span_since(self.total, before);
        Ok(with_parts(self.alloc, span, first, parts)?)
    }

    #[tactic(auto, using(parse_base::proofs::Turns::many_turn, parse_base::proofs::Turns::many_end))]
    fn prefixes(&self, tokens: &mut Tokens<'_>) -> Result<Items<PrefixSign>, Stop>
        requires exprs { NestsExpr self.now.total self.now.depth (E.pre self.now.expr) (E.post self.now.expr) }
        requires stmts { NestsStmts self.now.total self.now.depth (S.pre self.now.stmts) (S.post self.now.stmts) }
        ensures { Reads (many (starts a_prefix) (take_one a_prefix) max_links [] tokens.old.rest.now) result tokens.new.rest.now }
    {
        let mut found = Items::new(self.alloc);
        for _turn in 0..MAX_LINKS {
            if !sees_prefix(tokens) {
                return Ok(found);
            }
            let item = prefix(tokens)?;
            found.push(item)?;
        }
        if sees_prefix(tokens) {
            return Err(Stop::Refused);
        }
        Ok(found)
    }

    #[tactic(auto, unfolding(crate::specs::Parse::unary, parse_base::specs::Parser::spanned, parse_base::specs::Parser::both))]
    fn unary(&self, tokens: &mut Tokens<'_>, tails: bool) -> Result<Expr, Stop>
        requires exprs { NestsExpr self.now.total self.now.depth (E.pre self.now.expr) (E.post self.now.expr) }
        requires stmts { NestsStmts self.now.total self.now.depth (S.pre self.now.stmts) (S.post self.now.stmts) }
        ensures { Reads (spec.unary self.now.total (spec.nested self.now.total self.now.depth) tails tokens.old.rest.now) result tokens.new.rest.now }
    {
        let before = tokens.rest;
        let prefixes = self.prefixes(tokens)?;
        let operand = self.post(tokens, tails)?;
        let span = tokens.span_since(self.total, before);
        Ok(with_prefixes(self.alloc, span, prefixes, operand)?)
    }

    #[tactic(auto, using(crate::proofs::Ladder::branches_zero, crate::proofs::Ladder::branches_step))]
    fn branches(
        &self,
        tokens: &mut Tokens<'_>,
        tails: bool,
        links: usize,
    ) -> Result<((Expr, Expr), usize), Stop>
        requires exprs { NestsExpr self.now.total self.now.depth (E.pre self.now.expr) (E.post self.now.expr) }
        requires stmts { NestsStmts self.now.total self.now.depth (S.pre self.now.stmts) (S.post self.now.stmts) }
        ensures { Reads (spec.branches self.now.total (spec.nested self.now.total self.now.depth) tails links tokens.old.rest.now) result tokens.new.rest.now }
    {
        if links == 0 {
            return Err(Stop::Refused);
        }
        self.one_link(tokens, tails, links - 1)
    }

    /// One link of a ternary: `? then : other`, where `left` links are left for both.
    #[tactic(auto, unfolding(crate::specs::Ladder::branches_after, parse_base::specs::Parser::then_by, parse_base::specs::Parser::made, parse_base::specs::Parser::both))]
    fn one_link(
        &self,
        tokens: &mut Tokens<'_>,
        tails: bool,
        left: usize,
    ) -> Result<((Expr, Expr), usize), Stop>
        requires exprs { NestsExpr self.now.total self.now.depth (E.pre self.now.expr) (E.post self.now.expr) }
        requires stmts { NestsStmts self.now.total self.now.depth (S.pre self.now.stmts) (S.post self.now.stmts) }
        ensures { Reads (branches_after self.now.total (spec.nested self.now.total self.now.depth) tails left tokens.old.rest.now) result tokens.new.rest.now }
    {
        tokens.expect(b"?")?;
        let (then, left) = (self.expr)(self.alloc, tokens, self.total, self.depth, tails, left)?;
        tokens.expect(b":")?;
        let (other, left) = (self.expr)(self.alloc, tokens, self.total, self.depth, tails, left)?;
        Ok(((then, other), left))
    }

    #[tactic(auto, unfolding(parse_base::specs::Parser::perhaps))]
    fn maybe_branches(
        &self,
        tokens: &mut Tokens<'_>,
        tails: bool,
        links: usize,
    ) -> Result<Option<((Expr, Expr), usize)>, Stop>
        requires exprs { NestsExpr self.now.total self.now.depth (E.pre self.now.expr) (E.post self.now.expr) }
        requires stmts { NestsStmts self.now.total self.now.depth (S.pre self.now.stmts) (S.post self.now.stmts) }
        ensures { Reads (perhaps (starts (a_sign (codes "?"))) (spec.branches self.now.total (spec.nested self.now.total self.now.depth) tails links) tokens.old.rest.now) result tokens.new.rest.now }
    {
        if !tokens.sees(b"?") {
            return Ok(None);
        }
        Ok(Some(self.branches(tokens, tails, links)?))
    }

    /// An expression, with so many links to spare for ternaries; answers how many are left.
    #[tactic(auto, unfolding(crate::specs::Parse::expr_of, parse_base::specs::Parser::spanned, parse_base::specs::Parser::both))]
    pub fn expr_of(
        &self,
        tokens: &mut Tokens<'_>,
        tails: bool,
        links: usize,
    ) -> Result<(Expr, usize), Stop>
        requires exprs { NestsExpr self.now.total self.now.depth (E.pre self.now.expr) (E.post self.now.expr) }
        requires stmts { NestsStmts self.now.total self.now.depth (S.pre self.now.stmts) (S.post self.now.stmts) }
        ensures { Reads (spec.expr_of self.now.total (spec.nested self.now.total self.now.depth) tails links tokens.old.rest.now) result tokens.new.rest.now }
    {
        let before = tokens.rest;
        let first = self.level(tokens, tails, 7)?;
        let branches = self.maybe_branches(tokens, tails, links)?;
        let span = tokens.span_since(self.total, before);
        Ok(with_branches(self.alloc, span, links, first, branches)?)
    }

    #[cycle(ladder)]
    #[tactic(auto, using(crate::proofs::Ladder::level_zero, crate::proofs::Ladder::level_step))]
    fn level(&self, tokens: &mut Tokens<'_>, tails: bool, k: u8) -> Result<Expr, Stop>
        requires exprs { NestsExpr self.now.total self.now.depth (E.pre self.now.expr) (E.post self.now.expr) }
        requires stmts { NestsStmts self.now.total self.now.depth (S.pre self.now.stmts) (S.post self.now.stmts) }
        ensures { Reads (spec.level self.now.total (spec.nested self.now.total self.now.depth) tails k tokens.old.rest.now) result tokens.new.rest.now }
    {
        if k == 0 {
            return self.unary(tokens, tails);
        }
        let before = tokens.rest;
        let first = self.level(tokens, tails, k - 1)?;
        let links = self.links(tokens, tails, k)?;
        let span = tokens.span_since(self.total, before);
        Ok(with_links(self.alloc, span, first, links)?)
    }

    #[cycle(ladder)]
    #[tactic(auto, unfolding(crate::specs::Ladder::link_at, parse_base::specs::Parser::made, parse_base::specs::Parser::both))]
    fn link(&self, tokens: &mut Tokens<'_>, tails: bool, k: u8) -> Result<Link, Stop>
        requires some { 0 < k }
        requires exprs { NestsExpr self.now.total self.now.depth (E.pre self.now.expr) (E.post self.now.expr) }
        requires stmts { NestsStmts self.now.total self.now.depth (S.pre self.now.stmts) (S.post self.now.stmts) }
        ensures { Reads (link_at self.now.total (spec.nested self.now.total self.now.depth) tails k tokens.old.rest.now) result tokens.new.rest.now }
    {
        let sign = op(tokens, k)?;
        let right = self.level(tokens, tails, k - 1)?;
        Ok(Link { sign, right })
    }

    #[cycle(ladder)]
    #[tactic(auto, using(parse_base::proofs::Turns::many_turn, parse_base::proofs::Turns::many_end))]
    fn links(&self, tokens: &mut Tokens<'_>, tails: bool, k: u8) -> Result<Items<Link>, Stop>
        requires some { 0 < k }
        requires exprs { NestsExpr self.now.total self.now.depth (E.pre self.now.expr) (E.post self.now.expr) }
        requires stmts { NestsStmts self.now.total self.now.depth (S.pre self.now.stmts) (S.post self.now.stmts) }
        ensures { Reads (many (starts (an_op k)) (link_at self.now.total (spec.nested self.now.total self.now.depth) tails k) (limit k) [] tokens.old.rest.now) result tokens.new.rest.now }
    {
        let mut found = Items::new(self.alloc);
        for _turn in 0..limit(k) {
            if !sees_op(tokens, k) {
                return Ok(found);
            }
            let item = self.link(tokens, tails, k)?;
            found.push(item)?;
        }
        if sees_op(tokens, k) {
            return Err(Stop::Refused);
        }
        Ok(found)
    }
}
