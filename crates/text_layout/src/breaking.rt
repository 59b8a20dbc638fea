ghost use Rattle.std.specs.Prelude.{◌≡◌, ◌==◌, ◌&&◌, ◌++◌, map, chars, string_bytes, encode_utf8_all, IfOk, OnOk};
ghost use Rattle.text_layout.specs.Paragraphs.{printable, begins_with_feed, cleaned, paragraphs, bracketed};
ghost use Rattle.text_layout.specs.Clusters.{clusters_of};

use crate::pieces::{Cluster, ClusterText, Line};
use std::alloc::{AllocError as OutOfMemory, Global};
use std::mem;
use unicode_segmentation::UnicodeSegmentation;
use unicode_width::UnicodeWidthStr;

fn printable(c: char) -> char
    ensures { result ≡ printable c }
{
    if c < ' ' || ('\u{7f}'..='\u{9f}').contains(&c) {
        '?'
    } else {
        c
    }
}

fn begins_with_feed(text: &str) -> bool
    ensures { result ≡ begins_with_feed (chars text.now) }
{
    match text.chars().next() {
        Some(c) => c == '\n',
        None => false,
    }
}

/// A carriage return before a line feed.
fn is_dropped(c: char, rest: &str) -> bool
    ensures { result ≡ (c == 13 && begins_with_feed (chars rest.now)) }
{
    c == '\r' && begins_with_feed(rest)
}

/// The paragraphs of a text, without control characters.
pub fn paragraphs(alloc: Global, text: &str) -> Result<Vec<String>, OutOfMemory>
    ensures { IfOk result (λ all. map string_bytes all.items ≡ paragraphs text.now) }
{
    let mut done = Vec::new(alloc);
    let mut current = String::new(alloc);
    let mut rest = text.chars();
    while let Some(c) = rest.next() {
        if c == '\n' {
            done.push(mem::replace(&mut current, String::new(alloc)))?;
        } else if !is_dropped(c, rest.as_str()) {
            current.push(printable(c))?;
        }
    }
    done.push(current)?;
    Ok(done)
}

/// Adds a name on one line, where a line feed is a control too.
fn push_name(out: &mut String, name: &str) -> Result<(), OutOfMemory>
    ensures { OnOk result (string_bytes out.new ≡ string_bytes out.old ++ encode_utf8_all (map printable (cleaned (chars name.now)))) }
{
    let mut rest = name.chars();
    while let Some(c) = rest.next() {
        if is_dropped(c, rest.as_str()) {
            continue;
        }
        out.push(printable(c))?;
    }
    Ok(())
}

/// A name in brackets on one line.
pub fn bracketed(alloc: Global, name: &str) -> Result<String, OutOfMemory>
    ensures { IfOk result (λ out. string_bytes out ≡ bracketed name.now) }
{
    let mut out = String::from_str(alloc, "[")?;
    push_name(&mut out, name)?;
    out.push_str("]")?;
    Ok(out)
}

/// The clusters of a paragraph that take columns.
pub fn clusters_of(alloc: Global, paragraph: &str) -> Result<Line, OutOfMemory>
    ensures { IfOk result (λ line. line ≡ clusters_of paragraph.now) }
{
    let mut clusters = Vec::new(alloc);
    for text in paragraph.graphemes(true) {
        let width = text.width();
        if width != 0 {
            let text = ClusterText::from_bytes(alloc, text.as_bytes())?;
            clusters.push(Cluster { text, width })?;
        }
    }
    Ok(Line::from_clusters(clusters))
}

/// Each paragraph as one line.
pub fn clusters_of_all(alloc: Global, paragraphs: &[String]) -> Result<Vec<Line>, OutOfMemory>
    ensures { IfOk result (λ all. all.items ≡ map clusters_of (map string_bytes paragraphs.now)) }
{
    let mut all = Vec::new(alloc);
    for paragraph in paragraphs {
        all.push(clusters_of(alloc, paragraph.as_str())?)?;
    }
    Ok(all)
}
