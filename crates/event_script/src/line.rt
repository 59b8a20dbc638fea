// What a line says.
ghost use Rattle.std.specs.Prelude.{◌≡◌};
ghost use Rattle.event_script.specs.Words.{words};
ghost use Rattle.event_script.specs.Script.{line_of, tap_of};

use crate::Event;
use crate::words::{first_word, number};

/// What a line says: nothing (it is blank or a comment), an event, or neither of these.
#[derive(Clone, Copy)]
pub enum Line {
    Silent,
    Says(Event),
    Wrong,
}

/// What this line says.
pub fn read_line(line: &[u8]) -> Line
    ensures said { result ≡ line_of line.now }
{
    let Some((word, rest)) = first_word(line) else {
        return Line::Silent;
    };
    if word.starts_with(b"#") {
        return Line::Silent;
    }
    if word != b"tap".as_slice() {
        return Line::Wrong;
    }
    match tap(rest) {
        Some(event) => Line::Says(event),
        None => Line::Wrong,
    }
}

/// The tap that two numbers name, with nothing after them.
fn tap(rest: &[u8]) -> Option<Event>
    ensures tap { result ≡ tap_of (words rest.now) }
{
    let (first, rest) = first_word(rest)?;
    let (second, rest) = first_word(rest)?;
    if first_word(rest).is_some() {
        return None;
    }
    let x = number(first)?;
    let y = number(second)?;
    Some(Event::Tap { x, y })
}
