//! The program over real files and the two standard outputs: `swiftview APP SCRIPT`.
#![tactic(auto)]

ghost use Rattle.std.specs.Prelude.{◌≡◌, ◌<◌};

use app_top::run;
use std::alloc::{AllocError, Global};
use std::env;
use std::io::ErrorKind;
use std::marker::Brand;
use std::process::ExitCode;
use std::rt::Env;
use std::sync::ledger::{Blank, Ledger};
use sv_io::{FileShelf, OutSink, write_whole};
use sv_meter::Steps;

/// The words of the command line. Where they can't be read as text there are none, which is no form.
fn words_of(alloc: Global, rt: &(impl Env + AllocGlobal)) -> Result<Vec<String>, AllocError> {
    let mut words = Vec::new(alloc);
    match env::args(rt) {
        Ok(args) => {
            for word in args {
                words.push(word)?;
            }
        }
        Err(error) => {
            if error.kind() == ErrorKind::OutOfMemory {
                return Err(AllocError);
            }
        }
    }
    Ok(words)
}

/// Runs with counts of its own, and gives the status.
fn start<B: Ledger, V: Ledger>(
    rt: HostRuntime,
    words: &[String],
    bodies: Blank,
    visits: Blank,
) -> u8
    requires bodies_name { bodies.name ≡ B.name }
    requires bodies_parts { bodies.parts ≡ B.parts }
    requires bodies_some { 0 < B.parts }
    requires visits_name { visits.name ≡ V.name }
    requires visits_parts { visits.parts ≡ V.parts }
    requires visits_some { 0 < V.parts }
{
    let alloc = rt.alloc();
    let mut out = OutSink::new(rt.stdout());
    let mut diag = OutSink::new(rt.stderr());
    let mut shelf = FileShelf::new(alloc, rt);
    let mut bodies = Steps::<B>::new(bodies);
    let mut visits = Steps::<V>::new(visits);
    run(
        alloc,
        words,
        &mut shelf,
        &mut out,
        &mut diag,
        &mut bodies,
        &mut visits,
    )
    .status
}

fn main(rt: HostRuntime) -> ExitCode {
    let Ok(words) = words_of(rt.alloc(), &rt) else {
        let mut diag = OutSink::new(rt.stderr());
        let told = write_whole(&mut diag, b"swiftview: out of memory\n").is_ok();
        return ExitCode::from(if told { 8 } else { 7 });
    };
    ExitCode::from(start::<Brand, Brand>(rt, &words, Blank::new(1), Blank::new(1)))
}
