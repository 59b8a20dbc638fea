// The ways in which a run ends, and what is said of them.
ghost use Rattle.std.specs.Prelude.{◌≡◌, string_bytes, IfOk};
ghost use Rattle.app_top.specs.declared.end.End.TheVariants as end;
ghost use Rattle.app_top.specs.Ends.{line_of, status_of, taken_of, IsFixed, Said, Told};

use std::alloc::{AllocError, Global};
use sv_io::{Sink, write_whole};

/// One of the two files.
#[derive(Clone, Copy, Debug, PartialEq, Eq)]
pub enum FileOf {
    App,
    Script,
}

/// Why APP is refused.
#[derive(Clone, Copy, Debug, PartialEq, Eq)]
pub enum AppRefusal {
    /// Neither a token nor a separator begins at this line and column.
    Lex { line: u32, col: u32 },
    /// A bracket without its partner stands in this line.
    Unbalanced { line: u32 },
    /// A bracket that stands within 64 others stands in this line.
    TooNested { line: u32 },
    /// A piece of the file that the grammar does not spell begins in this line.
    NotADeclaration { line: u32 },
    /// A name, a member or a key that was declared before, or a second `@main`, is declared in this line.
    Twice { line: u32 },
    /// A data struct that holds itself, or whose type is too deep, begins in this line.
    Recursive { line: u32 },
    /// A member that the typing rules give no core begins in this line, or a declaration that does not fit its kind.
    NotTyped { line: u32 },
    /// A builder or a computed property that writes outside action blocks begins in this line.
    WritesInBody { line: u32 },
    /// No declaration carries `@main`.
    NoMain,
    /// It is a program, but not that of a counter.
    NotThisApp,
}

/// Why SCRIPT is refused.
#[derive(Clone, Copy, Debug, PartialEq, Eq)]
pub enum ScriptRefusal {
    NotThisScript,
}

/// How a run ends.
#[derive(Clone, Copy, Debug, PartialEq, Eq)]
pub enum End {
    Done,
    AppRefused { refusal: AppRefusal },
    Usage,
    ScriptRefused { refusal: ScriptRefusal },
    CannotRead { file: FileOf },
    WriteFailed,
    OutOfMemory,
    TooLong { file: FileOf, taken: u64 },
}

/// What the program ends with: its status, and the bytes that were taken of a file that is too long, else 0.
#[derive(Clone, Copy, Debug, PartialEq, Eq)]
pub struct Outcome {
    pub status: u8,
    pub taken: u64,
}

fn status(end: End) -> u8
    ensures { result ≡ status_of end }
{
    match end {
        End::Done => 0,
        End::AppRefused { .. } => 1,
        End::Usage => 2,
        End::ScriptRefused { .. } => 3,
        End::CannotRead { .. } => 6,
        End::WriteFailed => 7,
        End::OutOfMemory => 8,
        End::TooLong { .. } => 9,
    }
}

fn taken(end: End) -> u64
    ensures { result ≡ taken_of end }
{
    match end {
        End::TooLong { taken, .. } => taken,
        _ => 0,
    }
}

/// The line of a refusal of APP.
#[tactic(auto, unfolding(crate::specs::Ends::line_of))]
fn refusal_line(alloc: Global, refusal: AppRefusal) -> Result<String, AllocError>
    ensures { IfOk result (λ text. string_bytes text ≡ line_of (end.AppRefused refusal)) }
{
    match refusal {
        AppRefusal::Lex { line, col } => format!(in alloc;
            "swiftview: APP: lex fault at {line}:{col}\n"
        ),
        AppRefusal::Unbalanced { line } => format!(in alloc;
            "swiftview: APP: unbalanced at line {line}\n"
        ),
        AppRefusal::TooNested { line } => format!(in alloc;
            "swiftview: APP: too nested at line {line}\n"
        ),
        AppRefusal::NotADeclaration { line } => format!(in alloc;
            "swiftview: APP: not a declaration at line {line}\n"
        ),
        AppRefusal::Twice { line } => format!(in alloc;
            "swiftview: APP: declared twice at line {line}\n"
        ),
        AppRefusal::Recursive { line } => format!(in alloc;
            "swiftview: APP: recursive type at line {line}\n"
        ),
        AppRefusal::NotTyped { line } => format!(in alloc;
            "swiftview: APP: not typed at line {line}\n"
        ),
        AppRefusal::WritesInBody { line } => format!(in alloc;
            "swiftview: APP: writes in body at line {line}\n"
        ),
        AppRefusal::NoMain => String::from_str(alloc, "swiftview: APP: no main\n"),
        AppRefusal::NotThisApp => String::from_str(alloc, "swiftview: APP: not in this form\n"),
    }
}

/// The line of an end that is no refusal of APP.
#[tactic(auto, unfolding(crate::specs::Ends::line_of))]
fn line(end: End) -> &'static str
    requires { IsFixed end }
    ensures { result.now ≡ line_of end }
{
    match end {
        End::Done => "",
        End::AppRefused { .. } => unreachable!(),
        End::Usage =>
            "usage: swiftview [--size WxH] [--trace] [--state] [--layout] [--prefs] APP SCRIPT\n",
        End::ScriptRefused {
            refusal: ScriptRefusal::NotThisScript,
        } => "swiftview: SCRIPT: not in this form\n",
        End::CannotRead { file: FileOf::App } => "swiftview: cannot read APP\n",
        End::CannotRead {
            file: FileOf::Script,
        } => "swiftview: cannot read SCRIPT\n",
        End::WriteFailed => "swiftview: write failed\n",
        End::OutOfMemory => "swiftview: out of memory\n",
        End::TooLong {
            file: FileOf::App,
            ..
        } => "swiftview: APP: too long\n",
        End::TooLong {
            file: FileOf::Script,
            ..
        } => "swiftview: SCRIPT: too long\n",
    }
}

/// Writes the line of this end, and gives the status.
fn say<E: Sink>(diag: &mut E, end: End, line: &str) -> Outcome
    requires { line.now ≡ line_of end }
    ensures { Told end (E.seen diag.old) (E.seen diag.new) result }
{
    match write_whole(diag, line.as_bytes()) {
        Ok(()) => Outcome {
            status: status(end),
            taken: taken(end),
        },
        Err(_) => Outcome {
            status: 7,
            taken: 0,
        },
    }
}

/// Writes the line, and gives the status. The line of a refusal of APP takes memory: where there is none, the run ends
/// for want of it.
pub fn tell<E: Sink>(alloc: Global, diag: &mut E, end: End) -> Outcome
    ensures { Said end (E.seen diag.old) (E.seen diag.new) result }
{
    match end {
        End::AppRefused { refusal } => match refusal_line(alloc, refusal) {
            Ok(line) => say(diag, end, line.as_str()),
            Err(_) => say(diag, End::OutOfMemory, line(End::OutOfMemory)),
        },
        _ => say(diag, end, line(end)),
    }
}
