//! How views are written: the head of a view expression, arguments and closures.
#![tactic(auto, unfolding(type_base::specs::Claims::and_then, type_base::specs::Claims::or_else))]

ghost use Rattle.std.specs.Prelude.{◌≡◌, codes, option_copied, option_map};
ghost use Rattle.view_rules.specs.Forms as forms;
ghost use Rattle.type_leaves.specs.Lent.{IsHead};

use modifier_parts::{
    body_of, closure_at, labelled_expr, labelled_value, name_of, path_at, plain_expr, selector_at,
    sole_closure, word_of,
};
use swift_ast::{
    Arg, Closure, ClosureParam, Expr, ExprForm, LabelledClosure, Part, Selector, Stmt, Tail,
};
use swift_lex::Word;

/// The head of a view expression, and the postfix parts behind it.
#[derive(Clone, Copy)]
pub enum Headed<'t> {
    /// A name, and whether `self.` stands before it.
    Named(bool, &'t Word, &'t [Part]),
    /// A view expression in brackets.
    Inside(&'t Expr, &'t [Part]),
    Nothing,
}

fn is_itself(e: &Expr) -> bool
    ensures value { result ≡ forms.is_itself e.now }
{
    match &e.form {
        ExprForm::Itself => true,
        _ => false,
    }
}

/// The name, where the part is `.name`.
pub fn dot_name(part: &Part) -> Option<&Word>
    ensures value { option_copied result ≡ forms.dot_name part.now }
{
    match selector_at(part) {
        Some(selector) => word_of(selector),
        None => None,
    }
}

fn own_part<'t>(operand: &Expr, parts: &'t [Part]) -> Option<&'t Word>
    ensures value { option_copied result ≡ forms.own_part operand.now parts.now }
{
    if is_itself(operand) {
        match parts {
            [part] => dot_name(part),
            _ => None,
        }
    } else {
        None
    }
}

fn own_name(e: &Expr) -> Option<&Word>
    ensures value { option_copied result ≡ forms.own_name e.now }
{
    match &e.form {
        ExprForm::Post(operand, parts) => own_part(operand.get(), parts.as_slice()),
        _ => None,
    }
}

fn inside_head<'t>(operand: &'t Expr, parts: &'t [Part]) -> Headed<'t>
    ensures value { IsHead result (forms.inside_head operand.now parts.now) }
{
    match own_name(operand) {
        Some(w) => Headed::Named(true, w, parts),
        None => Headed::Inside(operand, parts),
    }
}

fn self_head(parts: &[Part]) -> Headed<'_>
    ensures value { IsHead result (forms.self_head parts.now) }
{
    match parts {
        [] => Headed::Nothing,
        [part, rest @ ..] => match dot_name(part) {
            Some(w) => Headed::Named(true, w, rest),
            None => Headed::Nothing,
        },
    }
}

fn plain_head<'t>(operand: &'t Expr, parts: &'t [Part]) -> Headed<'t>
    ensures value { IsHead result (forms.plain_head operand.now parts.now) }
{
    match name_of(operand) {
        Some(w) => Headed::Named(false, w, parts),
        None => inside_head(operand, parts),
    }
}

fn post_head<'t>(operand: &'t Expr, parts: &'t [Part]) -> Headed<'t>
    ensures value { IsHead result (forms.post_head operand.now parts.now) }
{
    if is_itself(operand) {
        self_head(parts)
    } else {
        plain_head(operand, parts)
    }
}

/// The head of a view expression. Brackets round a name, or round a view with its modifiers, leave no trace.
pub fn head_of(e: &Expr) -> Headed<'_>
    ensures value { IsHead result (forms.head_of e.now) }
{
    match &e.form {
        ExprForm::Name(w) => Headed::Named(false, w, &[]),
        ExprForm::Post(operand, parts) => post_head(operand.get(), parts.as_slice()),
        _ => Headed::Nothing,
    }
}

/// The statements of the one trailing closure, which has no parameters.
pub fn tail_body(tail: &Tail) -> Option<&[Stmt]>
    ensures value { option_copied result ≡ forms.tail_body tail.now }
{
    match sole_closure(tail) {
        Some(closure) => body_of(closure),
        None => None,
    }
}

/// The text of `Text(s)` and `Text(verbatim: s)`.
pub fn text_argument(args: &[Arg]) -> Option<&Expr>
    ensures value { option_copied result ≡ forms.text_argument args.now }
{
    match args {
        [arg] => match plain_expr(arg) {
            Some(e) => Some(e),
            None => labelled_expr(b"verbatim", arg),
        },
        _ => None,
    }
}

/// The name of `Image(systemName: s)`.
pub fn image_argument(args: &[Arg]) -> Option<&Expr>
    ensures value { option_copied result ≡ forms.image_argument args.now }
{
    match args {
        [arg] => labelled_expr(b"systemName", arg),
        _ => None,
    }
}

fn labelled_body(closure: &LabelledClosure) -> Option<&[Stmt]>
    ensures value { option_copied result ≡ forms.labelled_body closure.now }
{
    if closure.label.is(b"label") {
        body_of(&closure.closure)
    } else {
        None
    }
}

fn labelled_bodies(tail: &Tail) -> Option<(&[Stmt], &[Stmt])>
    ensures value { option_map (λ x. (x.0.now, x.1.now)) result ≡ forms.labelled_bodies tail.now }
{
    match body_of(&tail.closure) {
        Some(action) => match tail.others.as_slice() {
            [other] => match labelled_body(other) {
                Some(content) => Some((action, content)),
                None => None,
            },
            _ => None,
        },
        None => None,
    }
}

fn action_body(arg: &Arg) -> Option<&[Stmt]>
    ensures value { option_copied result ≡ forms.action_body arg.now }
{
    match labelled_value(b"action", arg) {
        Some(value) => match closure_at(value) {
            Some(closure) => body_of(closure),
            None => None,
        },
        None => None,
    }
}

/// The action and the label of a button whose label is content.
pub fn button_bodies<'t>(args: &'t [Arg], tail: &'t Tail) -> Option<(&'t [Stmt], &'t [Stmt])>
    ensures value { option_map (λ x. (x.0.now, x.1.now)) result ≡ forms.button_bodies args.now tail.now }
{
    match args {
        [] => labelled_bodies(tail),
        [arg] => match action_body(arg) {
            Some(action) => match tail_body(tail) {
                Some(content) => Some((action, content)),
                None => None,
            },
            None => None,
        },
        _ => None,
    }
}

/// The text and the place of `Toggle(s, isOn: b)`.
pub fn toggle_arguments(args: &[Arg]) -> Option<(&Expr, &Expr)>
    ensures value { option_map (λ x. (x.0.now, x.1.now)) result ≡ forms.toggle_arguments args.now }
{
    match args {
        [first, second] => match plain_expr(first) {
            Some(text) => match labelled_expr(b"isOn", second) {
                Some(e) => Some((text, e)),
                None => None,
            },
            None => None,
        },
        _ => None,
    }
}

/// The place of `Toggle(isOn: b)`.
pub fn toggle_argument(args: &[Arg]) -> Option<&Expr>
    ensures value { option_copied result ≡ forms.toggle_argument args.now }
{
    match args {
        [arg] => labelled_expr(b"isOn", arg),
        _ => None,
    }
}

fn id_argument(arg: &Arg) -> Option<&Selector>
    ensures value { option_copied result ≡ forms.id_argument arg.now }
{
    match labelled_value(b"id", arg) {
        Some(value) => path_at(value),
        None => None,
    }
}

/// What a ForEach goes over, and what tells the ids apart, if that is written.
pub fn each_arguments(args: &[Arg]) -> Option<(&Expr, Option<&Selector>)>
    ensures value { option_map (λ x. (x.0.now, option_copied x.1)) result ≡ forms.each_arguments args.now }
{
    match args {
        [first] => match plain_expr(first) {
            Some(e) => Some((e, None)),
            None => None,
        },
        [first, second] => match plain_expr(first) {
            Some(e) => match id_argument(second) {
                Some(selector) => Some((e, Some(selector))),
                None => None,
            },
            None => None,
        },
        _ => None,
    }
}

/// The one parameter of a closure.
pub fn each_param(closure: &Closure) -> Option<&ClosureParam>
    ensures value { option_copied result ≡ forms.each_param closure.now }
{
    match &closure.params {
        Some(params) => match params.as_slice() {
            [param] => Some(param),
            _ => None,
        },
        None => None,
    }
}
