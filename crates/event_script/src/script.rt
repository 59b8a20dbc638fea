// The events of all lines.
ghost use Rattle.std.specs.Prelude.{◌≡◌, ◌≢◌, ◌≤◌, length, OnOk, IfErr};
ghost use Rattle.event_script.specs.declared.line.Line.TheVariants.{Says, Wrong};
ghost use Rattle.event_script.specs.Script.{line_of, kept_after, AnswersScript, StoppedAt};

use crate::line::{Line, read_line};
use crate::words::first_line;
use crate::{Event, ScriptFault};
use std::alloc::{AllocError, Global};

// The most events of a script.
const MOST: usize = 10_000;

/// The events of a script: of its lines, each of which ends with LF or CR LF (the end of the last
/// may be missing). A line is blank, or a comment, whose first character that is no space or tab is
/// `#`, or a tap, the words `tap X Y` with numbers of one to four digits.
///
/// Refused are the first line that is none of these and, where there is none, more than 10,000
/// events.
pub fn read_script(alloc: Global, bytes: &[u8]) -> Result<Vec<Event>, ScriptFault>
    requires size { length bytes.now ≤ 1048576 }
    ensures script { AnswersScript bytes.now result }
{
    let mut events = Vec::new(alloc);
    let mut rest = bytes;
    let mut number = 1;
    while !rest.is_empty() {
        let (line, after) = first_line(rest);
        take_line(&mut events, line, number)?;
        number += 1;
        rest = after;
    }
    if events.len() > MOST {
        return Err(ScriptFault::TooMany);
    }
    Ok(events)
}

// Takes what this line says, which has this number.
fn take_line(events: &mut Vec<Event>, line: &[u8], number: u32) -> Result<(), ScriptFault>
    ensures kept { OnOk result (events.new.items ≡ kept_after events.old.items (line_of line.now)) }
    ensures right { OnOk result (line_of line.now ≢ Wrong) }
    ensures stop { IfErr result (λ fault. StoppedAt fault number (line_of line.now)) }
{
    match read_line(line) {
        Line::Silent => Ok(()),
        Line::Says(event) => Ok(keep(events, event)?),
        Line::Wrong => Err(ScriptFault::NotAnEvent { line: number }),
    }
}

// Keeps an event. One more than a script may have is kept, so that it shows.
fn keep(events: &mut Vec<Event>, event: Event) -> Result<(), AllocError>
    ensures kept { OnOk result (events.new.items ≡ kept_after events.old.items (Says event)) }
{
    if events.len() <= MOST {
        events.push(event)?;
    }
    Ok(())
}
