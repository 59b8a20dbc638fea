//! The walk over a source's edges after some were taken out.
ghost use Rattle.std.specs.Prelude.{◌≡◌, ◌+◌, ◌<◌, ◌≤◌};

use crate::EdgeLists;
use std::alloc::{AllocError, Global};
use std::marker::Brand;
use std::sync::ledger::{Blank, Ledger};
use std::test::Fail;
use sv_meter::Steps;

/// The reader of the edge after so many others of the source.
fn reader_after(lists: &EdgeLists, source: u32, others: usize) -> Option<u32>
    requires { source < lists.now.sources }
{
    let mut edge = lists.first(source)?;
    for other in 0..others {
        edge = lists.next(edge)?;
    }
    Some(lists.reader_of(edge))
}

/// Readers 0, 1, .. of the source 0.
fn link_readers<V: Ledger>(lists: &mut EdgeLists, readers: u32, visits: &mut Steps<V>)
    requires heads { (readers ≤ lists.old.readers) × (0 < lists.old.sources) }
    requires spare { readers ≤ lists.old.spare }
    ensures heads { (lists.new.readers ≡ lists.old.readers) × (lists.new.sources ≡ lists.old.sources) }
    ensures visits { visits.new ≡ visits.old + readers }
{
    for reader in 0..readers {
        lists.link(reader, 0, visits);
    }
}

/// Links so many readers of one source, takes one out, and answers the readers after so many edges.
fn with_one_out<V: Ledger>(
    alloc: Global,
    blank: Blank,
    readers: u32,
    out: u32,
    others: usize,
) -> Result<[Option<u32>; 2], AllocError>
    requires name { blank.name ≡ V.name }
    requires parts { blank.parts ≡ V.parts }
    requires some { 0 < V.parts }
{
    let mut visits = Steps::<V>::new(blank);
    let mut lists = EdgeLists::new(alloc);
    lists.reserve_heads(readers, 1)?;
    lists.reserve(readers as usize)?;
    link_readers(&mut lists, readers, &mut visits);
    if out < readers {
        lists.unlink_reader(out, &mut visits);
    }
    let after = reader_after(&lists, 0, others);
    let next = reader_after(&lists, 0, others.saturating_add(1));
    Ok([after, next])
}

// Readers, the one that is taken out, how many edges are passed, and the readers of the next two edges.
const CASES: [(u32, u32, usize, [Option<u32>; 2]); 3] = [
    (2, 0, 0, [Some(1), None]),
    (4, 1, 0, [Some(0), Some(2)]),
    (20_000, 9_999, 9_998, [Some(9_998), Some(10_000)]),
];

#[test]
fn walks_past_what_was_taken_out(rt: HostRuntime) -> Result<(), Fail> {
    let alloc = rt.alloc();
    for (readers, out, others, want) in CASES {
        let blank = Blank::new(1);
        let got = with_one_out::<Brand>(alloc, blank, readers, out, others)?;
        assert_eq!(rt; got, want);
    }
    Ok(())
}
