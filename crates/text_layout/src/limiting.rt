ghost use Rattle.std.specs.Prelude.{◌≡◌, ◌<◌, ◌≤◌, [], ◌∷◌, map, length, IfOk, IfSome};
ghost use Rattle.std.specs.Option.{ForSome};
ghost use Rattle.text_layout.specs.Paragraphs.{bracketed};
ghost use Rattle.text_layout.specs.Clusters.{clusters_of};
ghost use Rattle.text_layout.specs.CutLines.{with_dots, row_of};
ghost use Rattle.text_layout.specs.Lines.{columns, line_of, shortened, limited, lines_of, widest_of, IsCutAgain};

use crate::breaking::{bracketed, clusters_of, clusters_of_all, paragraphs};
use crate::cutting::{CutLine, count_fitting, rows_of_all, trimmed_len};
use crate::pieces::{Cluster, ClusterText, Line, Lines};
use std::alloc::{AllocError as OutOfMemory, Global};
use sv_value::Text;

const ELLIPSIS: &[u8; 3] = b"\xE2\x80\xA6";

fn copy_line(alloc: Global, clusters: &[Cluster], dots: bool) -> Result<Line, OutOfMemory>
    ensures { IfOk result (λ line. line ≡ with_dots dots clusters.now) }
{
    let mut copies = copies_of(alloc, clusters)?;
    if dots {
        let text = ClusterText::from_bytes(alloc, ELLIPSIS)?;
        copies.push(Cluster { text, width: 1 })?;
    }
    Ok(Line::from_clusters(copies))
}

fn copies_of(alloc: Global, clusters: &[Cluster]) -> Result<Vec<Cluster>, OutOfMemory>
    ensures { IfOk result (λ copies. copies.items ≡ clusters.now) }
{
    let mut copies = Vec::with_capacity(alloc, clusters.len())?;
    for cluster in clusters {
        copies.push(cluster.copy(alloc)?)?;
    }
    Ok(copies)
}

fn copy_rows(alloc: Global, rows: &[CutLine]) -> Result<Vec<Line>, OutOfMemory>
    ensures { IfOk result (λ lines. lines.items ≡ map line_of (map row_of rows.now)) }
{
    let mut lines = Vec::with_capacity(alloc, rows.len())?;
    for row in rows {
        lines.push(copy_line(alloc, row.line, row.dots)?)?;
    }
    Ok(lines)
}

/// The longest part from the beginning of a line that leaves room for the ellipsis, and the ellipsis.
fn shortened(alloc: Global, row: &CutLine, width: usize) -> Result<Line, OutOfMemory>
    ensures { IfOk result (λ line. line ≡ shortened width (row_of row.now)) }
{
    let fits = count_fitting(row.onward, width.saturating_sub(1));
    let end = trimmed_len(&row.onward[..fits]);
    copy_line(alloc, &row.onward[..end], true)
}

/// At most so many lines.
fn limited(
    alloc: Global,
    rows: &[CutLine],
    width: usize,
    most: Option<u32>,
) -> Result<Vec<Line>, OutOfMemory>
    requires { ForSome most (λ n. 0 < n) }
    ensures { IfOk result (λ lines. lines.items ≡ limited most width (map row_of rows.now)) }
{
    match most {
        None => copy_rows(alloc, rows),
        Some(n) => {
            let n = n as usize;
            if rows.len() <= n {
                copy_rows(alloc, rows)
            } else {
                let mut lines = copy_rows(alloc, &rows[..n - 1])?;
                lines.push(shortened(alloc, &rows[n - 1], width)?)?;
                Ok(lines)
            }
        }
    }
}

fn columns(width: Option<u32>) -> usize
    ensures { result ≡ columns width }
{
    match width {
        Some(width) => width as usize,
        None => 1_000_000,
    }
}

fn one_empty_line(alloc: Global) -> Result<Lines, OutOfMemory>
    ensures { IfOk result (λ lines. lines ≡ [] ∷ []) }
{
    let mut lines = Vec::new(alloc);
    lines.push(Line::from_clusters(Vec::new(alloc)))?;
    Ok(Lines::from_lines(lines))
}

/// The lines of a text that is no more than its bytes.
fn lines_of_str(
    alloc: Global,
    text: &str,
    width: Option<u32>,
    max_lines: Option<u32>,
) -> Result<Lines, OutOfMemory>
    requires { ForSome max_lines (λ n. 0 < n) }
    ensures { IfOk result (λ lines. lines ≡ lines_of text.now width max_lines) }
{
    let across = columns(width);
    if across == 0 {
        return one_empty_line(alloc);
    }
    let texts = paragraphs(alloc, text)?;
    let parts = clusters_of_all(alloc, &texts)?;
    let rows = rows_of_all(alloc, &parts, width)?;
    let lines = limited(alloc, &rows, across, max_lines)?;
    Ok(Lines::from_lines(lines))
}

/// The lines of a text in so many columns, at most so many of them.
///
/// Without a width each paragraph is a line, and at width 0 there is one empty line. Where more lines would follow, the last one is
/// shortened and ends with an ellipsis.
pub fn lines_of(
    alloc: Global,
    text: &Text,
    width: Option<u32>,
    max_lines: Option<u32>,
) -> Result<Lines, OutOfMemory>
    requires { ForSome max_lines (λ n. 0 < n) }
    ensures value { IfOk result (λ lines. lines ≡ lines_of text.now width max_lines) }

    // What follows from it, for callers that need no more.
    ensures fits { IfOk result (λ lines. IfSome width (λ w. widest_of lines ≤ w)) }
    ensures at_most { IfOk result (λ lines. IfSome max_lines (λ n. length lines ≤ n)) }
    ensures some { IfOk result (λ lines. 0 < length lines) }

    // A painter may cut the text again at the size that the lines take.
    ensures again { IfOk result (IsCutAgain text.now width) }
{
    lines_of_str(alloc, text.as_str(), width, max_lines)
}

/// The line of an image: its name in brackets, without control characters.
pub fn image_line(alloc: Global, name: &Text) -> Result<Line, OutOfMemory>
    ensures { IfOk result (λ line. line ≡ clusters_of (bracketed name.now)) }
{
    let text = bracketed(alloc, name.as_str())?;
    clusters_of(alloc, text.as_str())
}
