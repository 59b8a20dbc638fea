use crate::span::Span;
use crate::type_name::TypeName;
use sv_items::{Boxed, Items};
use swift_lex::Word;

/// A binary operator.
#[derive(Clone, Copy, Debug, PartialEq, Eq)]
pub enum BinarySign {
    /// `||`
    Or,
    /// `&&`
    And,
    /// `==`
    Equal,
    /// `!=`
    NotEqual,
    /// `<`
    Less,
    /// `<=`
    AtMost,
    /// `>`
    Greater,
    /// `>=`
    AtLeast,
    /// `??`
    Coalesce,
    /// `...`
    Through,
    /// `..<`
    UpTo,
    /// `+`
    Plus,
    /// `-`
    Minus,
    /// `*`
    Times,
    /// `/`
    Divide,
    /// `%`
    Remainder,
}

/// A prefix operator.
#[derive(Clone, Copy, Debug, PartialEq, Eq)]
pub enum PrefixSign {
    /// `-`
    Minus,
    /// `!`
    Not,
}

/// An assignment sign.
#[derive(Clone, Copy, Debug, PartialEq, Eq)]
pub enum AssignSign {
    /// `=`
    Set,
    /// `+=`
    Plus,
    /// `-=`
    Minus,
    /// `*=`
    Times,
    /// `/=`
    Divide,
    /// `%=`
    Remainder,
}

/// The word that introduces a local or a stored property.
#[derive(Clone, Copy, Debug, PartialEq, Eq)]
pub enum Binder {
    Let,
    Var,
}

/// What stands after a `.`: a name, or `self`.
#[derive(Drop)]
pub enum Selector {
    Name(Word),
    Itself,
}

/// An expression and where it stands.
#[cycle(ast)]
#[derive(Drop)]
pub struct Expr {
    pub span: Span,
    pub form: ExprForm,
}

/// The forms of an expression. Brackets round an expression leave no form.
#[cycle(ast)]
#[derive(Drop)]
pub enum ExprForm {
    /// `condition ? first : second`
    Ternary(Boxed<Expr>, Boxed<Expr>, Boxed<Expr>),
    /// An operand and one link or more, all of one rule: `||`, `&&`, one comparison, `??`, one range, `+ -` or `* / %`.
    /// The links stand from left to right, those of `??` too.
    Chain(Boxed<Expr>, Items<Link>),
    /// One prefix operator or more, the outermost first, and their operand.
    Prefix(Items<PrefixSign>, Boxed<Expr>),
    /// An operand and one postfix part or more.
    Post(Boxed<Expr>, Items<Part>),
    Int(i64),
    Text(Items<StringPart>),
    True,
    False,
    Nil,
    /// `self`
    Itself,
    Name(Word),
    /// `$name`, with the `$` in the word.
    Dollar(Word),
    /// `.name`, without the `.` in the word.
    Implicit(Word),
    List(Items<Expr>),
}

/// An operator and the operand behind it.
#[cycle(ast)]
#[derive(Drop)]
pub struct Link {
    pub sign: BinarySign,
    pub right: Expr,
}

/// A part of a string: the bytes that a run of text means, or an expression in `\( )`.
#[cycle(ast)]
#[derive(Drop)]
pub enum StringPart {
    Text(Word),
    Hole(Boxed<Expr>),
}

/// A postfix part.
#[cycle(ast)]
#[derive(Drop)]
pub enum Part {
    /// `.name` or `.self`
    Member(Selector),
    /// The arguments in brackets, and the closures that trail them.
    Call(Items<Arg>, Option<Tail>),
    /// Trailing closures with no arguments in brackets.
    Tail(Tail),
    /// `[index]`
    Index(Boxed<Expr>),
    /// `!`
    Force,
}

/// A trailing closure, and those with labels behind it.
#[cycle(ast)]
#[derive(Drop)]
pub struct Tail {
    pub closure: Closure,
    pub others: Items<LabelledClosure>,
}

/// `label: { .. }` behind a trailing closure.
#[cycle(ast)]
#[derive(Drop)]
pub struct LabelledClosure {
    pub label: Word,
    pub closure: Closure,
}

/// An argument with its label, if it has one.
#[cycle(ast)]
#[derive(Drop)]
pub struct Arg {
    pub label: Option<Word>,
    pub value: ArgValue,
}

/// The value of an argument.
#[cycle(ast)]
#[derive(Drop)]
pub enum ArgValue {
    Expr(Boxed<Expr>),
    Closure(Closure),
    /// `\.name` or `\.self`
    Key(Selector),
}

/// The parameters, if `in` stands, and the statements.
#[cycle(ast)]
#[derive(Drop)]
pub struct Closure {
    pub params: Option<Items<ClosureParam>>,
    pub body: Items<Stmt>,
}

/// A parameter of a closure. `$name` has the `$` in its word.
#[derive(Drop)]
pub enum ClosureParam {
    Name(Word),
    Dollar(Word),
}

/// A statement and where it stands.
#[cycle(ast)]
#[derive(Drop)]
pub struct Stmt {
    pub span: Span,
    pub form: StmtForm,
}

/// The forms of a statement.
#[cycle(ast)]
#[derive(Drop)]
pub enum StmtForm {
    /// `let` or `var`, a name, its type if that is written, and its value.
    Local(Binder, Word, Option<TypeName>, Expr),
    Assign(Expr, AssignSign, Expr),
    /// The first arm and one for each `else if`, and the statements of a last `else`.
    If(Items<Arm>, Option<Items<Stmt>>),
    Switch(Expr, Items<SwitchCase>),
    /// The name, the range or list, and the statements.
    For(Word, Expr, Items<Stmt>),
    While(Items<Condition>, Items<Stmt>),
    Return(Option<Expr>),
    Break,
    Continue,
    Expr(Expr),
}

/// The conditions of an `if`, and its statements.
#[cycle(ast)]
#[derive(Drop)]
pub struct Arm {
    pub conditions: Items<Condition>,
    pub body: Items<Stmt>,
}

/// A condition: an expression, or `let name` with its value, if that is written.
#[cycle(ast)]
#[derive(Drop)]
pub enum Condition {
    Expr(Expr),
    Let(Word, Option<Expr>),
}

/// A case of a `switch`.
#[cycle(ast)]
#[derive(Drop)]
pub struct SwitchCase {
    pub label: SwitchLabel,
    pub body: Items<Stmt>,
}

/// `case` with its patterns, or `default`.
#[derive(Drop)]
pub enum SwitchLabel {
    Case(Items<Pattern>),
    Default,
}

/// A pattern of a `case`.
#[derive(Drop)]
pub enum Pattern {
    Int(i64),
    /// `-` and a number, which is kept without its sign.
    Minus(i64),
    /// The texts of a string with no `\( )`.
    Text(Items<Word>),
    True,
    False,
    /// `.name`
    Implicit(Word),
    /// `Kind.name`
    Member(Word, Word),
}
