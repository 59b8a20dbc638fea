//! Statements, over the same readers of what nests.

ghost use Rattle.std.specs.Prelude.{◌≡◌, [], codes, false, true};
ghost use Rattle.parse_base.specs.Parser.{Reads, all, both, made, many, perhaps, starts, take_one};
ghost use Rattle.parse_base.specs.Terminals.{a_sign, a_word};
ghost use Rattle.parse_terms.specs.Words.{an_assign, max_links};
ghost use Rattle.parse_expr.specs.Nests.{NestsExpr, NestsStmts};
ghost use Rattle.parse_expr.specs.Parse as spec;
ghost use Rattle.parse_expr.specs.Tests as tests;
ghost use Rattle.parse_terms.specs.Patterns.{read_pattern};

use crate::ahead::{
    begins_case, begins_stmt, can_begin, else_if, few_elses, next_stmt, on_new_line,
};
use crate::expressions::Grammar;
use parse_base::{Stop, Tokens};
use parse_terms::{
    MAX_LINKS, assign, binder, jump, pattern, sees_assign, sees_binder, sees_jump, stmt_node,
    type_name, with_front,
};
use std::alloc::Global;
use sv_items::Items;
use swift_ast::{
    Arm, AssignSign, Condition, Expr, Pattern, Stmt, StmtForm, SwitchCase, SwitchLabel, TypeName,
};

impl<
    E: Fn(Global, &mut Tokens<'_>, usize, usize, bool, usize) -> Result<(Expr, usize), Stop>,
    S: Fn(Global, &mut Tokens<'_>, usize, usize) -> Result<Items<Stmt>, Stop>,
> Grammar<E, S> {
    #[tactic(auto, unfolding(crate::specs::Parse::block, parse_base::specs::Parser::made, parse_base::specs::Parser::both))]
    fn block(&self, tokens: &mut Tokens<'_>) -> Result<Items<Stmt>, Stop>
        requires exprs { NestsExpr self.now.total self.now.depth (E.pre self.now.expr) (E.post self.now.expr) }
        requires stmts { NestsStmts self.now.total self.now.depth (S.pre self.now.stmts) (S.post self.now.stmts) }
        ensures { Reads (spec.block self.now.total (spec.nested self.now.total self.now.depth) tokens.old.rest.now) result tokens.new.rest.now }
    {
        tokens.expect(b"{")?;
        let body = self.statements(tokens)?;
        tokens.expect(b"}")?;
        Ok(body)
    }

    #[tactic(auto, unfolding(crate::specs::Parse::declared_of, parse_base::specs::Parser::perhaps, parse_base::specs::Parser::made, parse_base::specs::Parser::both))]
    fn maybe_declared(&self, tokens: &mut Tokens<'_>) -> Result<Option<TypeName>, Stop>
        requires exprs { NestsExpr self.now.total self.now.depth (E.pre self.now.expr) (E.post self.now.expr) }
        requires stmts { NestsStmts self.now.total self.now.depth (S.pre self.now.stmts) (S.post self.now.stmts) }
        ensures { Reads (perhaps (starts (a_sign (codes ":"))) (spec.declared_of self.now.total (spec.nested self.now.total self.now.depth)) tokens.old.rest.now) result tokens.new.rest.now }
    {
        if !tokens.sees(b":") {
            return Ok(None);
        }
        tokens.expect(b":")?;
        Ok(Some(type_name(self.alloc, tokens)?))
    }

    #[tactic(auto, unfolding(crate::specs::Parse::local_of, parse_base::specs::Parser::made, parse_base::specs::Parser::both))]
    fn local(&self, tokens: &mut Tokens<'_>) -> Result<StmtForm, Stop>
        requires exprs { NestsExpr self.now.total self.now.depth (E.pre self.now.expr) (E.post self.now.expr) }
        requires stmts { NestsStmts self.now.total self.now.depth (S.pre self.now.stmts) (S.post self.now.stmts) }
        ensures { Reads (spec.local_of self.now.total (spec.nested self.now.total self.now.depth) tokens.old.rest.now) result tokens.new.rest.now }
    {
        let binder = binder(tokens)?;
        let name = tokens.name(self.alloc)?;
        let declared = self.maybe_declared(tokens)?;
        tokens.expect(b"=")?;
        let value = self.inside(tokens, true)?;
        Ok(StmtForm::Local(binder, name, declared, value))
    }

    #[tactic(auto, unfolding(crate::specs::Parse::return_of, parse_base::specs::Parser::perhaps, parse_base::specs::Parser::made, parse_base::specs::Parser::both))]
    fn returned(&self, tokens: &mut Tokens<'_>) -> Result<StmtForm, Stop>
        requires exprs { NestsExpr self.now.total self.now.depth (E.pre self.now.expr) (E.post self.now.expr) }
        requires stmts { NestsStmts self.now.total self.now.depth (S.pre self.now.stmts) (S.post self.now.stmts) }
        ensures { Reads (spec.return_of self.now.total (spec.nested self.now.total self.now.depth) tokens.old.rest.now) result tokens.new.rest.now }
    {
        tokens.expect_word(b"return")?;
        if !can_begin(tokens) {
            return Ok(StmtForm::Return(None));
        }
        Ok(StmtForm::Return(Some(self.inside(tokens, true)?)))
    }

    #[tactic(auto, unfolding(parse_base::specs::Parser::perhaps, parse_base::specs::Parser::made, parse_base::specs::Parser::both))]
    fn maybe_value(&self, tokens: &mut Tokens<'_>) -> Result<Option<Expr>, Stop>
        requires exprs { NestsExpr self.now.total self.now.depth (E.pre self.now.expr) (E.post self.now.expr) }
        requires stmts { NestsStmts self.now.total self.now.depth (S.pre self.now.stmts) (S.post self.now.stmts) }
        ensures { Reads (perhaps (starts (a_sign (codes "="))) (made (λ x. x.1) (both (take_one (a_sign (codes "="))) (spec.inside self.now.total (spec.nested self.now.total self.now.depth) false))) tokens.old.rest.now) result tokens.new.rest.now }
    {
        if !tokens.sees(b"=") {
            return Ok(None);
        }
        tokens.expect(b"=")?;
        Ok(Some(self.inside(tokens, false)?))
    }

    #[tactic(auto, unfolding(crate::specs::Parse::let_of, parse_base::specs::Parser::made, parse_base::specs::Parser::both))]
    fn let_of(&self, tokens: &mut Tokens<'_>) -> Result<Condition, Stop>
        requires exprs { NestsExpr self.now.total self.now.depth (E.pre self.now.expr) (E.post self.now.expr) }
        requires stmts { NestsStmts self.now.total self.now.depth (S.pre self.now.stmts) (S.post self.now.stmts) }
        ensures { Reads (spec.let_of self.now.total (spec.nested self.now.total self.now.depth) tokens.old.rest.now) result tokens.new.rest.now }
    {
        tokens.expect_word(b"let")?;
        let name = tokens.name(self.alloc)?;
        let value = self.maybe_value(tokens)?;
        Ok(Condition::Let(name, value))
    }

    #[tactic(auto, unfolding(crate::specs::Parse::condition_of, parse_base::specs::Parser::choose, parse_base::specs::Parser::made))]
    fn condition(&self, tokens: &mut Tokens<'_>) -> Result<Condition, Stop>
        requires exprs { NestsExpr self.now.total self.now.depth (E.pre self.now.expr) (E.post self.now.expr) }
        requires stmts { NestsStmts self.now.total self.now.depth (S.pre self.now.stmts) (S.post self.now.stmts) }
        ensures { Reads (spec.condition_of self.now.total (spec.nested self.now.total self.now.depth) tokens.old.rest.now) result tokens.new.rest.now }
    {
        if tokens.sees_word(b"let") {
            return self.let_of(tokens);
        }
        Ok(Condition::Expr(self.inside(tokens, false)?))
    }

    #[tactic(auto, using(parse_base::proofs::Turns::many_turn, parse_base::proofs::Turns::many_end), unfolding(parse_base::specs::Parser::all, parse_base::specs::Parser::made, parse_base::specs::Parser::both))]
    fn more_conditions(&self, tokens: &mut Tokens<'_>) -> Result<Items<Condition>, Stop>
        requires exprs { NestsExpr self.now.total self.now.depth (E.pre self.now.expr) (E.post self.now.expr) }
        requires stmts { NestsStmts self.now.total self.now.depth (S.pre self.now.stmts) (S.post self.now.stmts) }
        ensures { Reads (all (starts (a_sign (codes ","))) (made (λ x. x.1) (both (take_one (a_sign (codes ","))) (spec.condition_of self.now.total (spec.nested self.now.total self.now.depth)))) tokens.old.rest.now) result tokens.new.rest.now }
    {
        let mut found = Items::new(self.alloc);
        for _turn in 0..tokens.rest.len() {
            if !tokens.sees(b",") {
                return Ok(found);
            }
            tokens.expect(b",")?;
            let condition = self.condition(tokens)?;
            found.push(condition)?;
        }
        if tokens.sees(b",") {
            return Err(Stop::Refused);
        }
        Ok(found)
    }

    #[tactic(auto, unfolding(crate::specs::Parse::conditions, parse_base::specs::Parser::listed, parse_base::specs::Parser::made, parse_base::specs::Parser::both))]
    fn conditions(&self, tokens: &mut Tokens<'_>) -> Result<Items<Condition>, Stop>
        requires exprs { NestsExpr self.now.total self.now.depth (E.pre self.now.expr) (E.post self.now.expr) }
        requires stmts { NestsStmts self.now.total self.now.depth (S.pre self.now.stmts) (S.post self.now.stmts) }
        ensures { Reads (spec.conditions self.now.total (spec.nested self.now.total self.now.depth) tokens.old.rest.now) result tokens.new.rest.now }
    {
        let first = self.condition(tokens)?;
        let more = self.more_conditions(tokens)?;
        Ok(with_front(first, more)?)
    }

    #[tactic(auto, unfolding(crate::specs::Parse::arm_of, parse_base::specs::Parser::made, parse_base::specs::Parser::both))]
    fn arm(&self, tokens: &mut Tokens<'_>) -> Result<Arm, Stop>
        requires exprs { NestsExpr self.now.total self.now.depth (E.pre self.now.expr) (E.post self.now.expr) }
        requires stmts { NestsStmts self.now.total self.now.depth (S.pre self.now.stmts) (S.post self.now.stmts) }
        ensures { Reads (spec.arm_of self.now.total (spec.nested self.now.total self.now.depth) tokens.old.rest.now) result tokens.new.rest.now }
    {
        tokens.expect_word(b"if")?;
        let conditions = self.conditions(tokens)?;
        let body = self.block(tokens)?;
        Ok(Arm { conditions, body })
    }

    #[tactic(auto, unfolding(crate::specs::Parse::else_if_of, parse_base::specs::Parser::made, parse_base::specs::Parser::both))]
    fn else_if(&self, tokens: &mut Tokens<'_>) -> Result<Arm, Stop>
        requires exprs { NestsExpr self.now.total self.now.depth (E.pre self.now.expr) (E.post self.now.expr) }
        requires stmts { NestsStmts self.now.total self.now.depth (S.pre self.now.stmts) (S.post self.now.stmts) }
        ensures { Reads (spec.else_if_of self.now.total (spec.nested self.now.total self.now.depth) tokens.old.rest.now) result tokens.new.rest.now }
    {
        tokens.expect_word(b"else")?;
        self.arm(tokens)
    }

    #[tactic(auto, using(parse_base::proofs::Turns::many_turn, parse_base::proofs::Turns::many_end))]
    fn else_ifs(&self, tokens: &mut Tokens<'_>) -> Result<Items<Arm>, Stop>
        requires exprs { NestsExpr self.now.total self.now.depth (E.pre self.now.expr) (E.post self.now.expr) }
        requires stmts { NestsStmts self.now.total self.now.depth (S.pre self.now.stmts) (S.post self.now.stmts) }
        ensures { Reads (many tests.else_if (spec.else_if_of self.now.total (spec.nested self.now.total self.now.depth)) max_links [] tokens.old.rest.now) result tokens.new.rest.now }
    {
        let mut found = Items::new(self.alloc);
        for _turn in 0..MAX_LINKS {
            if !else_if(tokens) {
                return Ok(found);
            }
            let item = self.else_if(tokens)?;
            found.push(item)?;
        }
        if else_if(tokens) {
            return Err(Stop::Refused);
        }
        Ok(found)
    }

    #[tactic(auto, unfolding(crate::specs::Parse::else_of, parse_base::specs::Parser::perhaps, parse_base::specs::Parser::made, parse_base::specs::Parser::both))]
    fn maybe_else(&self, tokens: &mut Tokens<'_>) -> Result<Option<Items<Stmt>>, Stop>
        requires exprs { NestsExpr self.now.total self.now.depth (E.pre self.now.expr) (E.post self.now.expr) }
        requires stmts { NestsStmts self.now.total self.now.depth (S.pre self.now.stmts) (S.post self.now.stmts) }
        ensures { Reads (perhaps (starts (a_word (codes "else"))) (spec.else_of self.now.total (spec.nested self.now.total self.now.depth)) tokens.old.rest.now) result tokens.new.rest.now }
    {
        if !tokens.sees_word(b"else") {
            return Ok(None);
        }
        tokens.expect_word(b"else")?;
        Ok(Some(self.block(tokens)?))
    }

    #[tactic(auto, unfolding(crate::specs::Parse::elses, parse_base::specs::Parser::such, parse_base::specs::Parser::both))]
    fn elses(&self, tokens: &mut Tokens<'_>) -> Result<(Items<Arm>, Option<Items<Stmt>>), Stop>
        requires exprs { NestsExpr self.now.total self.now.depth (E.pre self.now.expr) (E.post self.now.expr) }
        requires stmts { NestsStmts self.now.total self.now.depth (S.pre self.now.stmts) (S.post self.now.stmts) }
        ensures { Reads (spec.elses self.now.total (spec.nested self.now.total self.now.depth) tokens.old.rest.now) result tokens.new.rest.now }
    {
        let arms = self.else_ifs(tokens)?;
        let last = self.maybe_else(tokens)?;
        if !few_elses(&arms, &last) {
            return Err(Stop::Refused);
        }
        Ok((arms, last))
    }

    #[tactic(auto, unfolding(crate::specs::Parse::if_of, parse_base::specs::Parser::made, parse_base::specs::Parser::both))]
    fn if_of(&self, tokens: &mut Tokens<'_>) -> Result<StmtForm, Stop>
        requires exprs { NestsExpr self.now.total self.now.depth (E.pre self.now.expr) (E.post self.now.expr) }
        requires stmts { NestsStmts self.now.total self.now.depth (S.pre self.now.stmts) (S.post self.now.stmts) }
        ensures { Reads (spec.if_of self.now.total (spec.nested self.now.total self.now.depth) tokens.old.rest.now) result tokens.new.rest.now }
    {
        let first = self.arm(tokens)?;
        let (more, last) = self.elses(tokens)?;
        Ok(StmtForm::If(with_front(first, more)?, last))
    }

    #[tactic(auto, using(parse_base::proofs::Turns::many_turn, parse_base::proofs::Turns::many_end), unfolding(parse_base::specs::Parser::all, parse_base::specs::Parser::made, parse_base::specs::Parser::both))]
    fn more_patterns(&self, tokens: &mut Tokens<'_>) -> Result<Items<Pattern>, Stop>
        requires exprs { NestsExpr self.now.total self.now.depth (E.pre self.now.expr) (E.post self.now.expr) }
        requires stmts { NestsStmts self.now.total self.now.depth (S.pre self.now.stmts) (S.post self.now.stmts) }
        ensures { Reads (all (starts (a_sign (codes ","))) (made (λ x. x.1) (both (take_one (a_sign (codes ","))) read_pattern)) tokens.old.rest.now) result tokens.new.rest.now }
    {
        let mut found = Items::new(self.alloc);
        for _turn in 0..tokens.rest.len() {
            if !tokens.sees(b",") {
                return Ok(found);
            }
            tokens.expect(b",")?;
            let another = pattern(self.alloc, tokens)?;
            found.push(another)?;
        }
        if tokens.sees(b",") {
            return Err(Stop::Refused);
        }
        Ok(found)
    }

    #[tactic(auto, unfolding(crate::specs::Parse::case_label, parse_base::specs::Parser::choose, parse_base::specs::Parser::listed, parse_base::specs::Parser::made, parse_base::specs::Parser::both))]
    fn case_label(&self, tokens: &mut Tokens<'_>) -> Result<SwitchLabel, Stop>
        requires exprs { NestsExpr self.now.total self.now.depth (E.pre self.now.expr) (E.post self.now.expr) }
        requires stmts { NestsStmts self.now.total self.now.depth (S.pre self.now.stmts) (S.post self.now.stmts) }
        ensures { Reads (spec.case_label self.now.total (spec.nested self.now.total self.now.depth) tokens.old.rest.now) result tokens.new.rest.now }
    {
        if tokens.sees_word(b"case") {
            tokens.expect_word(b"case")?;
            let first = pattern(self.alloc, tokens)?;
            let more = self.more_patterns(tokens)?;
            return Ok(SwitchLabel::Case(with_front(first, more)?));
        }
        tokens.expect_word(b"default")?;
        Ok(SwitchLabel::Default)
    }

    #[tactic(auto, unfolding(crate::specs::Parse::case_of, parse_base::specs::Parser::made, parse_base::specs::Parser::both))]
    fn case_of(&self, tokens: &mut Tokens<'_>) -> Result<SwitchCase, Stop>
        requires exprs { NestsExpr self.now.total self.now.depth (E.pre self.now.expr) (E.post self.now.expr) }
        requires stmts { NestsStmts self.now.total self.now.depth (S.pre self.now.stmts) (S.post self.now.stmts) }
        ensures { Reads (spec.case_of self.now.total (spec.nested self.now.total self.now.depth) tokens.old.rest.now) result tokens.new.rest.now }
    {
        let label = self.case_label(tokens)?;
        tokens.expect(b":")?;
        let body = self.statements(tokens)?;
        Ok(SwitchCase { label, body })
    }

    #[tactic(auto, using(parse_base::proofs::Turns::many_turn, parse_base::proofs::Turns::many_end), unfolding(parse_base::specs::Parser::all))]
    fn cases(&self, tokens: &mut Tokens<'_>) -> Result<Items<SwitchCase>, Stop>
        requires exprs { NestsExpr self.now.total self.now.depth (E.pre self.now.expr) (E.post self.now.expr) }
        requires stmts { NestsStmts self.now.total self.now.depth (S.pre self.now.stmts) (S.post self.now.stmts) }
        ensures { Reads (all tests.begins_case (spec.case_of self.now.total (spec.nested self.now.total self.now.depth)) tokens.old.rest.now) result tokens.new.rest.now }
    {
        let mut found = Items::new(self.alloc);
        for _turn in 0..tokens.rest.len() {
            if !begins_case(tokens) {
                return Ok(found);
            }
            let item = self.case_of(tokens)?;
            found.push(item)?;
        }
        if begins_case(tokens) {
            return Err(Stop::Refused);
        }
        Ok(found)
    }

    #[tactic(auto, unfolding(crate::specs::Parse::switch_of, parse_base::specs::Parser::made, parse_base::specs::Parser::both))]
    fn switch(&self, tokens: &mut Tokens<'_>) -> Result<StmtForm, Stop>
        requires exprs { NestsExpr self.now.total self.now.depth (E.pre self.now.expr) (E.post self.now.expr) }
        requires stmts { NestsStmts self.now.total self.now.depth (S.pre self.now.stmts) (S.post self.now.stmts) }
        ensures { Reads (spec.switch_of self.now.total (spec.nested self.now.total self.now.depth) tokens.old.rest.now) result tokens.new.rest.now }
    {
        tokens.expect_word(b"switch")?;
        let subject = self.inside(tokens, false)?;
        tokens.expect(b"{")?;
        let cases = self.cases(tokens)?;
        tokens.expect(b"}")?;
        Ok(StmtForm::Switch(subject, cases))
    }

    #[tactic(auto, unfolding(crate::specs::Parse::for_of, parse_base::specs::Parser::made, parse_base::specs::Parser::both))]
    fn for_of(&self, tokens: &mut Tokens<'_>) -> Result<StmtForm, Stop>
        requires exprs { NestsExpr self.now.total self.now.depth (E.pre self.now.expr) (E.post self.now.expr) }
        requires stmts { NestsStmts self.now.total self.now.depth (S.pre self.now.stmts) (S.post self.now.stmts) }
        ensures { Reads (spec.for_of self.now.total (spec.nested self.now.total self.now.depth) tokens.old.rest.now) result tokens.new.rest.now }
    {
        tokens.expect_word(b"for")?;
        let name = tokens.name(self.alloc)?;
        tokens.expect_word(b"in")?;
        let over = self.inside(tokens, false)?;
        let body = self.block(tokens)?;
        Ok(StmtForm::For(name, over, body))
    }

    #[tactic(auto, unfolding(crate::specs::Parse::while_of, parse_base::specs::Parser::made, parse_base::specs::Parser::both))]
    fn while_of(&self, tokens: &mut Tokens<'_>) -> Result<StmtForm, Stop>
        requires exprs { NestsExpr self.now.total self.now.depth (E.pre self.now.expr) (E.post self.now.expr) }
        requires stmts { NestsStmts self.now.total self.now.depth (S.pre self.now.stmts) (S.post self.now.stmts) }
        ensures { Reads (spec.while_of self.now.total (spec.nested self.now.total self.now.depth) tokens.old.rest.now) result tokens.new.rest.now }
    {
        tokens.expect_word(b"while")?;
        let conditions = self.conditions(tokens)?;
        let body = self.block(tokens)?;
        Ok(StmtForm::While(conditions, body))
    }

    #[tactic(auto, unfolding(parse_base::specs::Parser::perhaps, parse_base::specs::Parser::both))]
    fn maybe_assigned(&self, tokens: &mut Tokens<'_>) -> Result<Option<(AssignSign, Expr)>, Stop>
        requires exprs { NestsExpr self.now.total self.now.depth (E.pre self.now.expr) (E.post self.now.expr) }
        requires stmts { NestsStmts self.now.total self.now.depth (S.pre self.now.stmts) (S.post self.now.stmts) }
        ensures { Reads (perhaps (starts an_assign) (both (take_one an_assign) (spec.inside self.now.total (spec.nested self.now.total self.now.depth) true)) tokens.old.rest.now) result tokens.new.rest.now }
    {
        if !sees_assign(tokens) {
            return Ok(None);
        }
        let sign = assign(tokens)?;
        let value = self.inside(tokens, true)?;
        Ok(Some((sign, value)))
    }

    #[tactic(auto, unfolding(crate::specs::Parse::expr_stmt_of, parse_base::specs::Parser::made, parse_base::specs::Parser::both))]
    fn expr_stmt(&self, tokens: &mut Tokens<'_>) -> Result<StmtForm, Stop>
        requires exprs { NestsExpr self.now.total self.now.depth (E.pre self.now.expr) (E.post self.now.expr) }
        requires stmts { NestsStmts self.now.total self.now.depth (S.pre self.now.stmts) (S.post self.now.stmts) }
        ensures { Reads (spec.expr_stmt_of self.now.total (spec.nested self.now.total self.now.depth) tokens.old.rest.now) result tokens.new.rest.now }
    {
        let (target, _left) = self.expr_of(tokens, true, MAX_LINKS)?;
        let assigned = self.maybe_assigned(tokens)?;
        Ok(match assigned {
            None => StmtForm::Expr(target),
            Some((sign, value)) => StmtForm::Assign(target, sign, value),
        })
    }

    #[tactic(auto, unfolding(crate::specs::Parse::stmt_form, parse_base::specs::Parser::choose))]
    fn stmt_form(&self, tokens: &mut Tokens<'_>) -> Result<StmtForm, Stop>
        requires exprs { NestsExpr self.now.total self.now.depth (E.pre self.now.expr) (E.post self.now.expr) }
        requires stmts { NestsStmts self.now.total self.now.depth (S.pre self.now.stmts) (S.post self.now.stmts) }
        ensures { Reads (spec.stmt_form self.now.total (spec.nested self.now.total self.now.depth) tokens.old.rest.now) result tokens.new.rest.now }
    {
        if sees_binder(tokens) {
            self.local(tokens)
        } else if tokens.sees_word(b"return") {
            self.returned(tokens)
        } else if sees_jump(tokens) {
            jump(tokens)
        } else if tokens.sees_word(b"if") {
            self.if_of(tokens)
        } else if tokens.sees_word(b"switch") {
            self.switch(tokens)
        } else if tokens.sees_word(b"for") {
            self.for_of(tokens)
        } else if tokens.sees_word(b"while") {
            self.while_of(tokens)
        } else {
            self.expr_stmt(tokens)
        }
    }

    #[tactic(auto, unfolding(crate::specs::Parse::stmt_of, parse_base::specs::Parser::spanned))]
    fn stmt(&self, tokens: &mut Tokens<'_>) -> Result<Stmt, Stop>
        requires exprs { NestsExpr self.now.total self.now.depth (E.pre self.now.expr) (E.post self.now.expr) }
        requires stmts { NestsStmts self.now.total self.now.depth (S.pre self.now.stmts) (S.post self.now.stmts) }
        ensures { Reads (spec.stmt_of self.now.total (spec.nested self.now.total self.now.depth) tokens.old.rest.now) result tokens.new.rest.now }
    {
        let before = tokens.rest;
        let form = self.stmt_form(tokens)?;
        Ok(stmt_node(tokens.span_since(self.total, before), form))
    }

    #[tactic(auto, unfolding(crate::specs::Parse::next_of, parse_base::specs::Parser::choose, parse_base::specs::Parser::only_where, parse_base::specs::Parser::made, parse_base::specs::Parser::both))]
    fn next(&self, tokens: &mut Tokens<'_>) -> Result<Stmt, Stop>
        requires exprs { NestsExpr self.now.total self.now.depth (E.pre self.now.expr) (E.post self.now.expr) }
        requires stmts { NestsStmts self.now.total self.now.depth (S.pre self.now.stmts) (S.post self.now.stmts) }
        ensures { Reads (spec.next_of self.now.total (spec.nested self.now.total self.now.depth) tokens.old.rest.now) result tokens.new.rest.now }
    {
        if tokens.sees(b";") {
            tokens.expect(b";")?;
            return self.stmt(tokens);
        }
        if !on_new_line(tokens) {
            return Err(Stop::Refused);
        }
        self.stmt(tokens)
    }

    #[tactic(auto, using(parse_base::proofs::Turns::many_turn, parse_base::proofs::Turns::many_end), unfolding(parse_base::specs::Parser::all))]
    fn nexts(&self, tokens: &mut Tokens<'_>) -> Result<Items<Stmt>, Stop>
        requires exprs { NestsExpr self.now.total self.now.depth (E.pre self.now.expr) (E.post self.now.expr) }
        requires stmts { NestsStmts self.now.total self.now.depth (S.pre self.now.stmts) (S.post self.now.stmts) }
        ensures { Reads (all tests.next_stmt (spec.next_of self.now.total (spec.nested self.now.total self.now.depth)) tokens.old.rest.now) result tokens.new.rest.now }
    {
        let mut found = Items::new(self.alloc);
        for _turn in 0..tokens.rest.len() {
            if !next_stmt(tokens) {
                return Ok(found);
            }
            let item = self.next(tokens)?;
            found.push(item)?;
        }
        if next_stmt(tokens) {
            return Err(Stop::Refused);
        }
        Ok(found)
    }

    #[tactic(auto, unfolding(parse_base::specs::Parser::perhaps))]
    fn maybe_semi(&self, tokens: &mut Tokens<'_>) -> Result<Option<()>, Stop>
        requires exprs { NestsExpr self.now.total self.now.depth (E.pre self.now.expr) (E.post self.now.expr) }
        requires stmts { NestsStmts self.now.total self.now.depth (S.pre self.now.stmts) (S.post self.now.stmts) }
        ensures { Reads (perhaps (starts (a_sign (codes ";"))) (take_one (a_sign (codes ";"))) tokens.old.rest.now) result tokens.new.rest.now }
    {
        if !tokens.sees(b";") {
            return Ok(None);
        }
        tokens.expect(b";")?;
        Ok(Some(()))
    }

    #[tactic(auto, unfolding(parse_base::specs::Parser::both))]
    fn others(&self, tokens: &mut Tokens<'_>) -> Result<(Items<Stmt>, Option<()>), Stop>
        requires exprs { NestsExpr self.now.total self.now.depth (E.pre self.now.expr) (E.post self.now.expr) }
        requires stmts { NestsStmts self.now.total self.now.depth (S.pre self.now.stmts) (S.post self.now.stmts) }
        ensures { Reads (both (all tests.next_stmt (spec.next_of self.now.total (spec.nested self.now.total self.now.depth))) (perhaps (starts (a_sign (codes ";"))) (take_one (a_sign (codes ";")))) tokens.old.rest.now) result tokens.new.rest.now }
    {
        let more = self.nexts(tokens)?;
        let semi = self.maybe_semi(tokens)?;
        Ok((more, semi))
    }

    #[tactic(auto, unfolding(crate::specs::Parse::stmts_of, parse_base::specs::Parser::perhaps, parse_base::specs::Parser::made, parse_base::specs::Parser::both))]
    fn some_stmts(&self, tokens: &mut Tokens<'_>) -> Result<Items<Stmt>, Stop>
        requires begins { tests.begins_stmt tokens.old.rest.now ≡ true }
        requires exprs { NestsExpr self.now.total self.now.depth (E.pre self.now.expr) (E.post self.now.expr) }
        requires stmts { NestsStmts self.now.total self.now.depth (S.pre self.now.stmts) (S.post self.now.stmts) }
        ensures { Reads (spec.stmts_of self.now.total (spec.nested self.now.total self.now.depth) tokens.old.rest.now) result tokens.new.rest.now }
    {
        let first = self.stmt(tokens)?;
        let (more, _semi) = self.others(tokens)?;
        Ok(with_front(first, more)?)
    }

    /// Statements, each on a new line, after `;` or as the first.
    #[tactic(auto, unfolding(crate::specs::Parse::stmts_of, parse_base::specs::Parser::perhaps, parse_base::specs::Parser::made))]
    pub fn stmts_of(&self, tokens: &mut Tokens<'_>) -> Result<Items<Stmt>, Stop>
        requires exprs { NestsExpr self.now.total self.now.depth (E.pre self.now.expr) (E.post self.now.expr) }
        requires stmts { NestsStmts self.now.total self.now.depth (S.pre self.now.stmts) (S.post self.now.stmts) }
        ensures { Reads (spec.stmts_of self.now.total (spec.nested self.now.total self.now.depth) tokens.old.rest.now) result tokens.new.rest.now }
    {
        if begins_stmt(tokens) {
            self.some_stmts(tokens)
        } else {
            Ok(Items::new(self.alloc))
        }
    }
}
