ghost use Rattle.std.specs.Prelude.{◌≡◌, ◌≢◌, ◌≤◌, ◌↔◌, IsTrue, IfOk, Some, min, map, sum};
ghost use Rattle.std.specs.List.{AllByRecursion};
ghost use Rattle.view_tree.specs.Counts.{count_of, depth_of, greatest};
ghost use Rattle.view_tree.specs.Trees.{AreDistinct, IsTree, app_count, app_depth, node_names};

use crate::built::{Built, BuiltApp};
use crate::standing::{Name, names_of, standing_of};
use std::alloc::{AllocError, Global};

/// How much a tree may count.
pub const MAX_COUNT: u32 = 20_000;

/// How many nodes of a tree may stand one within the other.
pub const MAX_DEPTH: u32 = 128;

#[cycle(count)]
fn count_all(nodes: &[Built]) -> u32
    ensures { result ≡ min (sum (map count_of nodes.now)) 20001 }
{
    let mut total: u32 = 0;
    for node in nodes {
        total = (total + node.count()).min(20_001);
    }
    total
}

impl Built {
    /// How much the node counts with all below it. 20,001 stands for all that is more.
    #[cycle(count)]
    pub fn count(&self) -> u32
        ensures value { result ≡ min (count_of self.now) 20001 }
    {
        match self {
            Built::Plain { label, parts, .. } => {
                (label.count() + count_all(parts.as_slice())).min(20_001)
            }
            Built::Custom { custom, body, .. } => {
                (custom.count() + count_all(body.as_slice())).min(20_001)
            }
            Built::Reader {
                reader,
                content,
                body,
                ..
            } => (reader.count() + content.get().count() + count_all(body.as_slice())).min(20_001),
        }
    }
}

#[cycle(depth)]
fn all_within(nodes: &[Built], room: u32) -> bool
    ensures { IsTrue result ↔ (greatest (map depth_of nodes.now) ≤ room) }
{
    for node in nodes {
        if !node.is_within(room) {
            return false;
        }
    }
    true
}

impl Built {
    /// Whether at most `room` nodes stand one within the other, from this one down.
    #[cycle(depth)]
    pub fn is_within(&self, room: u32) -> bool
        ensures value { IsTrue result ↔ (depth_of self.now ≤ room) }
    {
        match self {
            Built::Plain { parts, .. } => room > 0 && all_within(parts.as_slice(), room - 1),
            Built::Custom { body, .. } => room > 0 && all_within(body.as_slice(), room - 1),
            Built::Reader { content, body, .. } => {
                room > 0
                    && content.get().is_within(room - 1)
                    && all_within(body.as_slice(), room - 1)
            }
        }
    }
}

fn is_small(app: &BuiltApp) -> bool
    ensures { IsTrue result ↔ ((app_count app.now ≤ 20000) × (app_depth app.now ≤ 128)) }
{
    let roots = app.roots.as_slice();
    all_within(roots, MAX_DEPTH) && count_all(roots) <= MAX_COUNT
}

fn same_number(left: Option<u32>, right: Option<u32>) -> bool
    ensures { IsTrue result ↔ (left ≡ right) }
{
    match (left, right) {
        (Some(a), Some(b)) => a == b,
        (None, None) => true,
        _ => false,
    }
}

impl Name {
    /// Whether both are the same name.
    pub fn same(&self, other: &Name) -> bool
        ensures value { IsTrue result ↔ (self.now ≡ other.now) }
    {
        same_number(self.number, other.number) && self.path.same(&other.path)
    }
}

fn is_apart(name: &Name, names: &[Name]) -> bool
    ensures { IsTrue result ↔ AllByRecursion (λ other. name.now ≢ other) names.now }
{
    let mut rest = names;
    while let [other, more @ ..] = rest {
        if name.same(other) {
            return false;
        }
        rest = more;
    }
    true
}

fn are_distinct(names: &[Name]) -> bool
    ensures { IsTrue result ↔ AreDistinct names.now }
{
    let mut rest = names;
    while let [name, more @ ..] = rest {
        if !is_apart(name, more) {
            return false;
        }
        rest = more;
    }
    true
}

fn has_distinct_names(alloc: Global, app: &BuiltApp) -> Result<bool, AllocError>
    ensures { IfOk result (λ are. IsTrue are ↔ AreDistinct (node_names app.now)) }
{
    let all = standing_of(alloc, app)?;
    let names = names_of(alloc, all.as_slice())?;
    Ok(are_distinct(names.as_slice()))
}

impl BuiltApp {
    /// Whether the app may be made a tree: no two views have one path, no two modifiers one path and number, it counts at most
    /// 20,000, and it is at most 128 deep. The time goes by the square of the number of nodes.
    pub fn is_tree(&self, alloc: Global) -> Result<bool, AllocError>
        ensures value { IfOk result (λ is. IsTrue is ↔ IsTree (Some self.now)) }
    {
        if is_small(self) {
            has_distinct_names(alloc, self)
        } else {
            Ok(false)
        }
    }
}
