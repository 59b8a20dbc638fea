// The top call.
ghost use Rattle.std.specs.Prelude.{◌≡◌, map, option_map, string_bytes};
ghost use Rattle.app_top.specs.Words.{form_of, is_option};
ghost use Rattle.app_top.specs.Ends.{CameTo, Came, Ended};
ghost use Rattle.app_top.specs.Checking.{TableOf, checks_of};

use crate::checked::{check_file, is_check};
use crate::end::{End, Outcome, tell};
use crate::frames::{PlayStop, play};
use crate::input::inputs;
use std::alloc::Global;
use std::sync::ledger::Ledger;
use sv_io::{Shelf, Sink};
use sv_meter::Steps;

/// Runs the program of two files.
fn serve<F: Shelf, O: Sink, B: Ledger, V: Ledger>(
    alloc: Global,
    app: &String,
    script: &String,
    shelf: &mut F,
    out: &mut O,
    bodies: &mut Steps<B>,
    visits: &mut Steps<V>,
) -> End
    ensures visits { visits.new ≡ visits.old }
    ensures came { CameTo result (record { app = string_bytes app.now; script = string_bytes script.now })
        (F.seen shelf.old) (F.seen shelf.new) (O.seen out.old) (O.seen out.new) bodies.old bodies.new }
{
    let (form, events) = match inputs(alloc, shelf, app, script) {
        Ok(pair) => pair,
        Err(end) => return end,
    };
    match play(alloc, form, &events, out, bodies, visits) {
        Ok(()) => End::Done,
        Err(PlayStop::OutOfMemory) => End::OutOfMemory,
        Err(PlayStop::WriteFailed) => End::WriteFailed,
    }
}

/// Whether a word begins as an option.
fn is_flag(word: &String) -> bool
    ensures { result ≡ is_option (string_bytes word.now) }
{
    match word.as_bytes() {
        [] => false,
        [first, ..] => *first == b'-',
    }
}

/// Does all the work, but for the line on diag.
fn work<F: Shelf, O: Sink, B: Ledger, V: Ledger>(
    alloc: Global,
    words: &[String],
    shelf: &mut F,
    out: &mut O,
    bodies: &mut Steps<B>,
    visits: &mut Steps<V>,
) -> End
    ensures visits { visits.new ≡ visits.old }
    ensures came { Came result (form_of (map string_bytes words.now)) (F.seen shelf.old) (F.seen shelf.new) (O.seen out.old) (O.seen out.new) bodies.old bodies.new }
{
    let [_, app, script] = words else {
        return End::Usage;
    };
    if is_flag(app) || is_flag(script) {
        return End::Usage;
    }
    serve(alloc, app, script, shelf, out, bodies, visits)
}

/// Does all the work, and says the line.
fn conduct<F: Shelf, O: Sink, E: Sink, B: Ledger, V: Ledger>(
    alloc: Global,
    words: &[String],
    shelf: &mut F,
    out: &mut O,
    diag: &mut E,
    bodies: &mut Steps<B>,
    visits: &mut Steps<V>,
) -> Outcome
    ensures visits { visits.new ≡ visits.old }
    ensures ended { Ended (record {
      form = form_of (map string_bytes words.now);
      shelf = F.seen shelf.old;
      shelf' = F.seen shelf.new;
      out = O.seen out.old;
      out' = O.seen out.new;
      diag = E.seen diag.old;
      diag' = E.seen diag.new;
      bodies = bodies.old;
      bodies' = bodies.new;
      outcome = result;
    }) }
{
    let end = work(alloc, words, shelf, out, bodies, visits);
    tell(alloc, diag, end)
}

/// The file that the words ask to check.
fn checks(words: &[String]) -> Option<&String>
    ensures value { option_map (λ app. string_bytes app.now) result ≡ checks_of (map string_bytes words.now) }
{
    let [_, flag, app] = words else {
        return None;
    };
    if is_check(flag) && !is_flag(app) {
        return Some(app);
    }
    None
}

/// The program: reads the words, of which the first is the program's name, and the two files that they name,
/// writes the frames to `out`, and a line to `diag` where it ends in another way. Where the words ask for a check it reads
/// and judges the one file alone.
pub fn run<F: Shelf, O: Sink, E: Sink, B: Ledger, V: Ledger>(
    alloc: Global,
    words: &[String],
    shelf: &mut F,
    out: &mut O,
    diag: &mut E,
    bodies: &mut Steps<B>,
    visits: &mut Steps<V>,
) -> Outcome
    ensures table { TableOf (checks_of (map string_bytes words.now)) (record {
      form = form_of (map string_bytes words.now);
      shelf = F.seen shelf.old;
      shelf' = F.seen shelf.new;
      out = O.seen out.old;
      out' = O.seen out.new;
      diag = E.seen diag.old;
      diag' = E.seen diag.new;
      bodies = bodies.old;
      bodies' = bodies.new;
      outcome = result;
    }) }
    ensures visits { visits.new ≡ visits.old }
{
    match checks(words) {
        Some(app) => check_file(alloc, app, shelf, out, diag, bodies),
        None => conduct(alloc, words, shelf, out, diag, bodies, visits),
    }
}
