// A run that only checks APP.
ghost use Rattle.std.specs.Prelude.{◌≡◌, Option, string_bytes, codes};
ghost use Rattle.std.specs.Str.{bytes_eq};
ghost use Rattle.app_top.specs.Words.{Names};
ghost use Rattle.app_top.specs.Checking.{CheckedTo, CheckEnded, Sent, accepted_line};

use crate::end::{End, FileOf, Outcome, tell};
use crate::input::fetch;
use crate::source::{refused_as, why_not};
use std::alloc::Global;
use std::sync::ledger::Ledger;
use sv_io::{Shelf, Sink, write_whole};
use sv_meter::Steps;

/// Whether a word asks for a check.
pub fn is_check(word: &String) -> bool
    ensures value { result ≡ bytes_eq (string_bytes word.now) (codes "--check") }
{
    word.as_bytes() == b"--check".as_slice()
}

/// What goes out for a file that is accepted.
#[tactic(auto, unfolding(crate::specs::Checking::accepted_line))]
fn accepted() -> &'static str
    ensures value { result.now ≡ accepted_line }
{
    "accepted\n"
}

/// Writes what goes out for a file that is accepted.
fn accept<O: Sink>(out: &mut O) -> End
    ensures sent { Sent result (O.seen out.old) (O.seen out.new) }
{
    match write_whole(out, accepted().as_bytes()) {
        Ok(()) => End::Done,
        Err(_) => End::WriteFailed,
    }
}

/// Checks the file, and says so on `out` where it is accepted.
fn judge<F: Shelf, O: Sink>(alloc: Global, app: &String, shelf: &mut F, out: &mut O) -> End
    ensures came { CheckedTo result (string_bytes app.now) (F.seen shelf.old) (F.seen shelf.new) (O.seen out.old) (O.seen out.new) }
{
    let bytes = match fetch(alloc, shelf, app, FileOf::App) {
        Ok(bytes) => bytes,
        Err(end) => return end,
    };
    match why_not(alloc, &bytes) {
        Some(refusal) => refused_as(refusal),
        None => accept(out),
    }
}

/// Checks the file, and says the line.
pub fn check_file<F: Shelf, O: Sink, E: Sink, B: Ledger>(
    alloc: Global,
    app: &String,
    shelf: &mut F,
    out: &mut O,
    diag: &mut E,
    bodies: &Steps<B>,
) -> Outcome
    ensures ended { (form : Option Names) → CheckEnded (string_bytes app.now) (record {
      form = form;
      shelf = F.seen shelf.old;
      shelf' = F.seen shelf.new;
      out = O.seen out.old;
      out' = O.seen out.new;
      diag = E.seen diag.old;
      diag' = E.seen diag.new;
      bodies = bodies.now;
      bodies' = bodies.now;
      outcome = result;
    }) }
{
    let end = judge(alloc, app, shelf, out);
    tell(alloc, diag, end)
}
