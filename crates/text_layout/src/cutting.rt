ghost use Rattle.std.specs.Prelude.{◌≡◌, ℕ, ◌+◌, ◌-◌, ◌≤◌, ◌<◌, length, take, drop, map, flat_map, IfOk, IfSome, OnOk, ◌++◌, ◌∷◌, [], Some, None};
ghost use Rattle.std.specs.List.{prefix_len, suffix_len};
ghost use Rattle.text_layout.specs.Clusters.{is_blank, is_space};
ghost use Rattle.text_layout.specs.Cuts.{fit, last_space, first_cut, cut_hard, cut_at, cut_rows};
ghost use Rattle.text_layout.specs.Lines.{rows_of};
ghost use Rattle.text_layout.specs.CutLines.{with_dots, row_of};

use crate::pieces::{Cluster, Line};
use std::alloc::{AllocError as OutOfMemory, Global};

/// U+0020 alone.
fn is_space(cluster: &Cluster) -> bool
    ensures { result ≡ is_space cluster.now }
{
    is_blank(cluster.text.as_bytes())
}

fn is_blank(bytes: &[u8]) -> bool
    ensures { result ≡ is_blank bytes.now }
{
    bytes.len() == 1 && bytes[0] == b' '
}

/// How many clusters fit.
pub fn count_fitting(cs: &[Cluster], width: usize) -> usize
    ensures value { result ≡ fit width cs.now }
    ensures within { result ≤ length cs.now }
{
    let mut left = width;
    for (i, c) in cs.iter().enumerate() {
        if c.width > left {
            return i;
        }
        left -= c.width;
    }
    cs.len()
}

/// Where the last space stands.
fn find_last_space(cs: &[Cluster]) -> Option<usize>
    ensures value { result ≡ last_space cs.now }
    ensures within { IfSome result (λ i. i < length cs.now) }
{
    let mut i = cs.len();
    while i > 0 {
        i -= 1;
        if is_space(&cs[i]) {
            return Some(i);
        }
    }
    None
}

/// The length without trailing spaces.
pub fn trimmed_len(cs: &[Cluster]) -> usize
    ensures value { result ≡ length cs.now - suffix_len is_space cs.now }
    ensures within { result ≤ length cs.now }
{
    let mut n = cs.len();
    while n > 0 && is_space(&cs[n - 1]) {
        n -= 1;
    }
    n
}

/// How many spaces lead.
fn leading_spaces(cs: &[Cluster]) -> usize
    ensures value { result ≡ prefix_len is_space cs.now }
    ensures within { result ≤ length cs.now }
{
    cs.iter().take_while(|c| is_space(c)).count()
}

/// Where a line ends, whether the ellipsis follows there, and where the next line begins.
#[derive(Clone, Copy)]
struct Step {
    end: usize,
    dots: bool,
    next: usize,
}

/// The line is what fits, or the ellipsis in place of a cluster that does not.
fn cut_hard(rest: &[Cluster], k: usize) -> Step
    requires room { k < length rest.now }
    ensures line { with_dots result.dots (take result.end rest.now) ≡ (cut_hard k rest.now).line }
    ensures rest { drop result.next rest.now ≡ (cut_hard k rest.now).rest }
    ensures ends { result.end ≤ length rest.now }
    ensures further { 0 < result.next }
    ensures within { result.next ≤ length rest.now }
{
    let _count = rest.len();
    let dots = k == 0;
    Step {
        end: k,
        dots,
        next: k.max(1),
    }
}

/// The line before the space at `i`, or else what fits.
fn cut_soft(rest: &[Cluster], i: usize, k: usize) -> Step
    requires space { i < length rest.now }
    requires room { k < length rest.now }
    ensures line { with_dots result.dots (take result.end rest.now) ≡ (cut_at (Some i) k rest.now).line }
    ensures rest { drop result.next rest.now ≡ (cut_at (Some i) k rest.now).rest }
    ensures ends { result.end ≤ length rest.now }
    ensures further { 0 < result.next }
    ensures within { result.next ≤ length rest.now }
{
    let n = trimmed_len(&rest[..i]);
    if n == 0 {
        cut_hard(rest, k)
    } else {
        let after = i + 1;
        let skipped = leading_spaces(&rest[after..]);
        Step {
            end: n,
            dots: false,
            next: after + skipped,
        }
    }
}

/// The first line of clusters of which only `k` fit.
fn cut_first(rest: &[Cluster], k: usize) -> Step
    requires room { k < length rest.now }
    ensures line { with_dots result.dots (take result.end rest.now) ≡ (first_cut k rest.now).line }
    ensures rest { drop result.next rest.now ≡ (first_cut k rest.now).rest }
    ensures ends { result.end ≤ length rest.now }
    ensures further { 0 < result.next }
    ensures within { result.next ≤ length rest.now }
{
    match find_last_space(&rest[..k + 1]) {
        None => cut_hard(rest, k),
        Some(i) => cut_soft(rest, i, k),
    }
}

/// A line of a paragraph, whether the ellipsis follows on it, and what stands from its beginning to the end of the paragraph.
#[derive(Clone, Copy)]
pub struct CutLine<'a> {
    pub line: &'a [Cluster],
    pub dots: bool,
    pub onward: &'a [Cluster],
}

/// Cuts a paragraph at a width.
fn cut<'a>(
    paragraph: &'a [Cluster],
    width: usize,
    rows: &mut Vec<CutLine<'a>>,
) -> Result<(), OutOfMemory>
    ensures { OnOk result (map row_of rows.new.items ≡ map row_of rows.old.items ++ cut_rows width paragraph.now) }
{
    let mut rest = paragraph;
    loop {
        let k = count_fitting(rest, width);
        if k == rest.len() {
            break;
        }
        let step = cut_first(rest, k);
        rows.push(CutLine {
            line: &rest[..step.end],
            dots: step.dots,
            onward: rest,
        })?;
        rest = rest.split_at(step.next).1;
    }
    rows.push(CutLine {
        line: rest,
        dots: false,
        onward: rest,
    })?;
    Ok(())
}

/// The lines of a paragraph, which is one line where there is no width.
fn push_rows<'a>(
    paragraph: &'a [Cluster],
    width: Option<u32>,
    rows: &mut Vec<CutLine<'a>>,
) -> Result<(), OutOfMemory>
    ensures { OnOk result (map row_of rows.new.items ≡ map row_of rows.old.items ++ rows_of width paragraph.now) }
{
    match width {
        Some(width) => cut(paragraph, width as usize, rows),
        None => {
            rows.push(CutLine {
                line: paragraph,
                dots: false,
                onward: paragraph,
            })?;
            Ok(())
        }
    }
}

/// The lines of all paragraphs.
pub fn rows_of_all<'a>(
    alloc: Global,
    paragraphs: &'a [Line],
    width: Option<u32>,
) -> Result<Vec<CutLine<'a>>, OutOfMemory>
    ensures { IfOk result (λ rows. map row_of rows.items ≡ flat_map (rows_of width) paragraphs.now) }
{
    let mut rows = Vec::new(alloc);
    for paragraph in paragraphs {
        push_rows(paragraph.clusters(), width, &mut rows)?;
    }
    Ok(rows)
}
