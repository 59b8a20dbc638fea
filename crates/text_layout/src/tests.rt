ghost use Rattle.std.specs.Prelude.{◌<◌};
ghost use Rattle.std.specs.Option.{ForSome};

use crate::{Line, Lines, image_line, lines_of};
use std::alloc::{AllocError, Global};
use std::process::Abort;
use std::test::Fail;
use sv_value::Text;

fn print_line(line: &Line, out: &mut Vec<u8>) -> Result<(), AllocError> {
    for cluster in line.clusters() {
        out.extend_from_slice(cluster.text.as_bytes())?;
    }
    out.push(b'|')?;
    Ok(())
}

/// What the lines print, with a stroke after each.
fn printed(alloc: Global, lines: &Lines) -> Result<Vec<u8>, AllocError> {
    let mut out = Vec::new(alloc);
    for line in lines.lines() {
        print_line(line, &mut out)?;
    }
    Ok(out)
}

/// No limit at 0.
fn limit(most: u32) -> Option<u32>
    ensures { ForSome result (λ n. 0 < n) }
{
    if most == 0 { None } else { Some(most) }
}

/// A text, a width, a limit of lines, what the lines print, and the columns of the widest.
type Row = (&'static str, Option<u32>, u32, &'static str, u32);

fn assert_row(rt: &impl Abort, alloc: Global, row: &Row) -> Result<(), AllocError> {
    let (text, width, most, want, widest) = *row;
    let lines = lines_of(alloc, &Text::from_str(alloc, text)?, width, limit(most))?;
    let out = printed(alloc, &lines)?;
    assert_eq!(rt;
        out.as_slice(),
        want.as_bytes(),
        "{text} at {width:?}, {most}"
    );
    assert_eq!(rt; lines.widest(), widest, "{text} at {width:?}, {most}");
    Ok(())
}

#[test]
fn cuts(rt: HostRuntime) -> Result<(), Fail> {
    let rows: [Row; 16] = [
        ("abcdef xy", Some(9), 0, "abcdef xy|", 9),
        ("abcdef xy", Some(7), 0, "abcdef|xy|", 6),
        ("abcdef xy", Some(6), 0, "abcdef|xy|", 6),
        ("abcdef xy", Some(5), 0, "abcde|f xy|", 5),
        ("abcdef xy", Some(4), 0, "abcd|ef|xy|", 4),
        ("abcdef xy", Some(2), 0, "ab|cd|ef|xy|", 2),
        ("a bc de f", Some(4), 0, "a bc|de f|", 4),
        ("ab ", Some(2), 0, "ab||", 2),
        ("  ab", Some(2), 0, "  |ab|", 2),
        ("a   b", Some(2), 0, "a|b|", 1),
        ("e\u{301}日本語", Some(5), 0, "e\u{301}日本|語|", 5),
        ("日本", Some(1), 0, "…|…||", 1),
        ("abc", Some(0), 0, "|", 0),
        ("a\nb", Some(0), 3, "|", 0),
        ("", Some(5), 0, "|", 0),
        ("", None, 1, "|", 0),
    ];
    for row in &rows {
        assert_row(&rt, rt.alloc(), row)?;
    }
    Ok(())
}

#[test]
fn limits(rt: HostRuntime) -> Result<(), Fail> {
    let rows: [Row; 10] = [
        ("abcdef", Some(4), 1, "abc…|", 4),
        ("abcdef xy", Some(4), 2, "abcd|ef…|", 4),
        ("abcdef xy", Some(4), 3, "abcd|ef|xy|", 4),
        ("abcdef xy", Some(6), 1, "abcde…|", 6),
        ("e\u{301}日本語", Some(5), 1, "e\u{301}日…|", 4),
        ("ab\ncd", Some(5), 1, "ab…|", 3),
        ("ab\ncd", Some(5), 2, "ab|cd|", 2),
        ("ab\ncd", Some(2), 1, "a…|", 2),
        ("ab", Some(1), 1, "…|", 1),
        ("a\nb", None, 1, "a…|", 2),
    ];
    for row in &rows {
        assert_row(&rt, rt.alloc(), row)?;
    }
    Ok(())
}

#[test]
fn paragraphs(rt: HostRuntime) -> Result<(), Fail> {
    let rows: [Row; 8] = [
        ("a b\nccc", None, 0, "a b|ccc|", 3),
        ("a\n\nb\n", None, 0, "a||b||", 1),
        ("a\r\nb", None, 0, "a|b|", 1),
        ("a\rb\r", None, 0, "a?b?|", 4),
        ("\u{7}\u{1f}x\u{7f}\u{9f}", None, 0, "??x??|", 5),
        ("\u{7}\u{301}", None, 0, "?\u{301}|", 1),
        ("\u{301}a\u{200b}", None, 0, "a|", 1),
        ("日本", None, 0, "日本|", 4),
    ];
    for row in &rows {
        assert_row(&rt, rt.alloc(), row)?;
    }
    Ok(())
}

#[test]
fn images(rt: HostRuntime) -> Result<(), Fail> {
    let rows = [
        ("globe", "[globe]|", 7),
        ("a\nb\r\nc", "[a?b?c]|", 7),
        ("\u{301}\r日", "[\u{301}?日]|", 5),
    ];
    for (name, want, width) in rows {
        let line = image_line(rt.alloc(), &Text::from_str(rt.alloc(), name)?)?;
        let mut out = Vec::new(rt.alloc());
        print_line(&line, &mut out)?;
        assert_eq!(rt; out.as_slice(), want.as_bytes(), "{name}");
        assert_eq!(rt; line.width(), width, "{name}");
    }
    Ok(())
}
