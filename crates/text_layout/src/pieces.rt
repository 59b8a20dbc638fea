ghost use Rattle.std.specs.Prelude.{◌≡◌, ◌<◌, ◌++◌, ◌∷◌, [], ℕ, List, length, IfOk, OnOk, slice_index_or, min};
ghost use Rattle.text_layout.specs.Lines.{width_of, widest_of};

use smallvec::SmallVec;
use std::alloc::{AllocError as OutOfMemory, Global};
use std::marker::Model;

/// The UTF-8 bytes of a cluster, which contracts see as a list.
#[derive(Debug, Drop)]
pub struct ClusterText {
    bytes: SmallVec<u8, 8>,
}

impl Model for ClusterText {
    ghost use Rattle.std.specs.Prelude.{List, ℕ};

    ghost Value = { List ℕ };

    ghost view = { λ text. text.bytes.items };
}

impl ClusterText {
    /// A copy of these bytes.
    pub fn from_bytes(alloc: Global, bytes: &[u8]) -> Result<ClusterText, OutOfMemory>
        ensures { IfOk result (λ text. text ≡ bytes.now) }
    {
        Ok(ClusterText {
            bytes: SmallVec::from_slice(alloc, bytes)?,
        })
    }

    pub fn as_bytes(&self) -> &[u8]
        ensures { result.now ≡ self.now }
    {
        self.bytes.as_slice()
    }
}

/// A grapheme cluster: what is printed, and how many columns it takes.
#[derive(Debug, Drop)]
pub struct Cluster {
    pub text: ClusterText,
    /// Columns of a terminal.
    pub width: usize,
}

impl Cluster {
    pub fn copy(&self, alloc: Global) -> Result<Cluster, OutOfMemory>
        ensures { IfOk result (λ cluster. cluster ≡ self.now) }
    {
        Ok(Cluster {
            text: ClusterText::from_bytes(alloc, self.text.as_bytes())?,
            width: self.width,
        })
    }
}

/// A line, which contracts see as the list of its clusters.
#[derive(Debug, Drop)]
pub struct Line {
    clusters: Vec<Cluster>,
}

impl Model for Line {
    ghost use Rattle.std.specs.Prelude.{List};
    ghost use Rattle.text_layout.specs.declared.pieces.Cluster.{Cluster};

    ghost Value = { List Cluster };

    ghost view = { λ line. line.clusters.items };
}

impl Line {
    pub(crate) fn from_clusters(clusters: Vec<Cluster>) -> Line
        ensures { result ≡ clusters.items }
    {
        Line { clusters }
    }

    /// The clusters from left to right.
    pub fn clusters(&self) -> &[Cluster]
        ensures { result.now ≡ self.now }
    {
        self.clusters.as_slice()
    }

    /// How many columns the line takes, and 1,000,000 where it takes more.
    pub fn width(&self) -> u32
        ensures { result ≡ min (width_of self.now) 1000000 }
    {
        columns_of(self.clusters.as_slice())
    }
}

/// The lines of a text, which contracts see as a list of lists of clusters.
#[derive(Debug, Drop)]
pub struct Lines {
    lines: Vec<Line>,
}

impl Model for Lines {
    ghost use Rattle.std.specs.Prelude.{List};
    ghost use Rattle.text_layout.specs.declared.pieces.Cluster.{Cluster};

    ghost Value = { List (List Cluster) };

    ghost view = { λ lines. lines.lines.items };
}

impl Lines {
    pub(crate) fn from_lines(lines: Vec<Line>) -> Lines
        ensures { result ≡ lines.items }
    {
        Lines { lines }
    }

    /// The lines from top to bottom.
    pub fn lines(&self) -> &[Line]
        ensures { result.now ≡ self.now }
    {
        self.lines.as_slice()
    }

    /// How many lines there are.
    pub fn count(&self) -> usize
        ensures { result ≡ length self.now }
    {
        self.lines.len()
    }

    /// The columns of the widest line, and 1,000,000 where it takes more.
    pub fn widest(&self) -> u32
        ensures { result ≡ min (widest_of self.now) 1000000 }
    {
        widest_line(self.lines.as_slice())
    }
}

const MOST_COLUMNS: usize = 1_000_000;

fn columns_of(clusters: &[Cluster]) -> u32
    ensures { result ≡ min (width_of clusters.now) 1000000 }
{
    let mut total = 0;
    for cluster in clusters {
        total = cluster.width.saturating_add(total).min(MOST_COLUMNS);
    }
    total as u32
}

fn widest_line(lines: &[Line]) -> u32
    ensures { result ≡ min (widest_of lines.now) 1000000 }
{
    let mut widest = 0;
    for line in lines {
        widest = widest.max(line.width());
    }
    widest
}
