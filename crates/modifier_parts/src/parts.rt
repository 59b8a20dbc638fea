//! Parts of the syntax, by their form.
#![tactic(auto, unfolding(type_base::specs::Claims::and_then))]

ghost use Rattle.std.specs.Prelude.{◌≡◌, option_copied, option_map};
ghost use Rattle.modifier_rules.specs.Parts as parts;
ghost use Rattle.modifier_rules.specs.Parts.{IsCall};

use swift_ast::{
    Arg, ArgValue, Closure, ClosureParam, Expr, ExprForm, Part, Selector, Stmt, StmtForm, Tail,
};
use swift_lex::Word;

/// The name that the expression is.
pub fn name_of(e: &Expr) -> Option<&Word>
    ensures value { option_copied result ≡ parts.name_of e.now }
{
    match &e.form {
        ExprForm::Name(w) => Some(w),
        _ => None,
    }
}

/// The name behind the dot, where the expression is `.name`.
pub fn implicit_of(e: &Expr) -> Option<&Word>
    ensures value { option_copied result ≡ parts.implicit_of e.now }
{
    match &e.form {
        ExprForm::Implicit(w) => Some(w),
        _ => None,
    }
}

/// What stands behind the dot, where the part is `.name` or `.self`.
pub fn selector_at(part: &Part) -> Option<&Selector>
    ensures value { option_copied result ≡ parts.selector_at part.now }
{
    match part {
        Part::Member(selector) => Some(selector),
        _ => None,
    }
}

/// The name that stands behind a dot.
pub fn word_of(selector: &Selector) -> Option<&Word>
    ensures value { option_copied result ≡ parts.word_of selector.now }
{
    match selector {
        Selector::Name(w) => Some(w),
        Selector::Itself => None,
    }
}

/// The name K, where the expression is `K.self`.
pub fn key_word(e: &Expr) -> Option<&Word>
    ensures value { option_copied result ≡ parts.key_word e.now }
{
    match name_with(e) {
        Some((w, part)) => match selector_at(part) {
            Some(Selector::Itself) => Some(w),
            Some(Selector::Name(_)) => None,
            None => None,
        },
        None => None,
    }
}

/// The two names of `Name.name`.
pub fn qualified(e: &Expr) -> Option<(&Word, &Word)>
    ensures value { option_map (λ x. (x.0.now, x.1.now)) result ≡ parts.qualified e.now }
{
    match name_with(e) {
        Some((w, part)) => match selector_at(part) {
            Some(Selector::Name(v)) => Some((w, v)),
            Some(Selector::Itself) => None,
            None => None,
        },
        None => None,
    }
}

/// The index, where the part is `[index]`.
fn index_at(part: &Part) -> Option<&Expr>
    ensures value { option_copied result ≡ parts.index_at part.now }
{
    match part {
        Part::Index(e) => Some(e.get()),
        _ => None,
    }
}

/// The name and the index of `name[index]`.
pub fn indexed(e: &Expr) -> Option<(&Word, &Expr)>
    ensures value { option_map (λ x. (x.0.now, x.1.now)) result ≡ parts.indexed e.now }
{
    match name_with(e) {
        Some((w, part)) => match index_at(part) {
            Some(index) => Some((w, index)),
            None => None,
        },
        None => None,
    }
}

/// A name and the one postfix part behind it.
pub fn name_with(e: &Expr) -> Option<(&Word, &Part)>
    ensures value { option_map (λ x. (x.0.now, x.1.now)) result ≡ parts.name_with e.now }
{
    match &e.form {
        ExprForm::Post(operand, parts) => match parts.as_slice() {
            [part] => match name_of(operand.get()) {
                Some(w) => Some((w, part)),
                None => None,
            },
            _ => None,
        },
        _ => None,
    }
}

/// The expression that an argument is.
pub fn expr_at(value: &ArgValue) -> Option<&Expr>
    ensures value { option_copied result ≡ parts.expr_at value.now }
{
    match value {
        ArgValue::Expr(e) => Some(e.get()),
        _ => None,
    }
}

/// Whether the argument has this label.
pub fn label_is(arg: &Arg, label: &[u8]) -> bool
    ensures value { result ≡ parts.label_is arg.now label.now }
{
    match &arg.label {
        Some(w) => w.is(label),
        None => false,
    }
}

/// Whether the argument has no label.
pub fn is_plain(arg: &Arg) -> bool
    ensures value { result ≡ parts.is_plain arg.now }
{
    arg.label.is_none()
}

/// The arguments and the trailing closures, where the part is a call.
pub fn called_at(part: &Part) -> Option<(&[Arg], Option<&Tail>)>
    ensures value { IsCall result (parts.called_at part.now) }
{
    match part {
        Part::Call(args, tail) => Some((args.as_slice(), tail.as_ref())),
        Part::Tail(tail) => Some((&[], Some(tail))),
        _ => None,
    }
}

/// The trailing closure that stands alone.
pub fn sole_closure(tail: &Tail) -> Option<&Closure>
    ensures value { option_copied result ≡ parts.sole_closure tail.now }
{
    match tail.others.as_slice() {
        [] => Some(&tail.closure),
        _ => None,
    }
}

/// The closure that an argument is.
pub fn closure_at(value: &ArgValue) -> Option<&Closure>
    ensures value { option_copied result ≡ parts.closure_at value.now }
{
    match value {
        ArgValue::Closure(closure) => Some(closure),
        _ => None,
    }
}

/// What stands behind `\.` in an argument.
pub fn path_at(value: &ArgValue) -> Option<&Selector>
    ensures value { option_copied result ≡ parts.path_at value.now }
{
    match value {
        ArgValue::Key(selector) => Some(selector),
        _ => None,
    }
}

/// The value of an argument without a label.
pub fn plain_value(arg: &Arg) -> Option<&ArgValue>
    ensures value { option_copied result ≡ parts.plain_value arg.now }
{
    match &arg.label {
        Some(_) => None,
        None => Some(&arg.value),
    }
}

/// The value of an argument with this label.
pub fn labelled_value<'t>(label: &[u8], arg: &'t Arg) -> Option<&'t ArgValue>
    ensures value { option_copied result ≡ parts.labelled_value label.now arg.now }
{
    if label_is(arg, label) {
        Some(&arg.value)
    } else {
        None
    }
}

/// The expression of an argument without a label.
pub fn plain_expr(arg: &Arg) -> Option<&Expr>
    ensures value { option_copied result ≡ parts.plain_expr arg.now }
{
    match plain_value(arg) {
        Some(value) => expr_at(value),
        None => None,
    }
}

/// The expression of an argument with this label.
pub fn labelled_expr<'t>(label: &[u8], arg: &'t Arg) -> Option<&'t Expr>
    ensures value { option_copied result ≡ parts.labelled_expr label.now arg.now }
{
    match labelled_value(label, arg) {
        Some(value) => expr_at(value),
        None => None,
    }
}

/// The expression that is the one argument, and has no label.
pub fn sole_expr(args: &[Arg]) -> Option<&Expr>
    ensures value { option_copied result ≡ parts.sole_expr args.now }
{
    match args {
        [arg] => plain_expr(arg),
        _ => None,
    }
}

/// The statements of a closure without parameters.
pub fn body_of(closure: &Closure) -> Option<&[Stmt]>
    ensures value { option_copied result ≡ parts.body_of closure.now }
{
    match &closure.params {
        None => Some(closure.body.as_slice()),
        Some(_) => None,
    }
}

/// The parameter of a closure that has one, without a `$` before it.
pub fn sole_param(closure: &Closure) -> Option<&Word>
    ensures value { option_copied result ≡ parts.sole_param closure.now }
{
    match &closure.params {
        Some(params) => match params.as_slice() {
            [param] => param_word(param),
            _ => None,
        },
        None => None,
    }
}

/// The name of a parameter without a `$` before it.
pub fn param_word(param: &ClosureParam) -> Option<&Word>
    ensures value { option_copied result ≡ parts.param_word param.now }
{
    match param {
        ClosureParam::Name(w) => Some(w),
        ClosureParam::Dollar(_) => None,
    }
}

/// The expression that is the one statement.
pub fn sole_statement(statements: &[Stmt]) -> Option<&Expr>
    ensures value { option_copied result ≡ parts.sole_statement statements.now }
{
    match statements {
        [statement] => match &statement.form {
            StmtForm::Expr(e) => Some(e),
            _ => None,
        },
        _ => None,
    }
}
