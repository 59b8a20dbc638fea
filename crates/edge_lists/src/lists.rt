//! Edges on two linked lists at once: the list of their reader and the list of their source.
ghost use Rattle.std.specs.Prelude.{◌≡◌, ℕ, ◌+◌, ◌<◌, ◌≤◌, ◌++◌, [], ◌∷◌, replicate, vec_len, vec_capacity};
ghost use Rattle.edge_lists.specs.Ends.{followed, no_ends, parted};

use crate::heap::Heap;
use crate::loose::Loose;
use crate::node::{Node, NodePtr};
use crate::spare::Spare;
use std::alloc::{AllocError, Global};
use std::marker::{Model, PhantomData};
use std::sync::ledger::Ledger;
use sv_meter::Steps;

/// The ends of the list of a source.
#[derive(Clone, Copy, Drop)]
pub struct Ends {
    pub(crate) first: Option<NodePtr>,
    pub(crate) last: Option<NodePtr>,
}

impl Ends {
    /// Those of an empty list.
    fn none() -> Ends
        ensures { result ≡ no_ends }
    {
        Ends {
            first: None,
            last: None,
        }
    }

    fn followed(self, p: NodePtr) -> Ends
        ensures { result ≡ followed self p }
    {
        let first = match self.first {
            Some(q) => Some(q),
            None => Some(p),
        };
        Ends {
            first,
            last: Some(p),
        }
    }

    fn parted(self, prev: Option<NodePtr>, next: Option<NodePtr>) -> Ends
        ensures { result ≡ parted self prev next }
    {
        let first = match prev {
            Some(_) => self.first,
            None => next,
        };
        let last = match next {
            Some(_) => self.last,
            None => prev,
        };
        Ends { first, last }
    }
}

/// Appends so many copies. There is room for them.
fn append_copies<T: Copy + Drop>(items: &mut Vec<T>, count: usize, value: T)
    requires room { vec_len items.old + count ≤ vec_capacity items.old }
    ensures items { items.new.items ≡ items.old.items ++ replicate count value }
{
    for appended in 0..count {
        items.push_reserved(value);
    }
}

/// The edges, each a pair of a reader and a source. Readers and sources are numbers below the numbers of heads.
///
/// Each edge stands on two linked lists, that of its reader and that of its source, so that an edge is linked in
/// and taken out without a search. Contracts see the pairs in order of linking, the numbers of heads, and `spare`,
/// the number of edges that can be linked before more memory is wanted.
pub struct EdgeLists {
    heap: Heap,
    spare: Spare,
    linked: usize,
    readers: Vec<Option<NodePtr>>,
    sources: Vec<Ends>,
    alloc: Global,
}

impl Model for EdgeLists {
    ghost use Rattle.std.specs.Prelude.{◌≡◌, ◌+◌, ◌^◌, ◌<◌, length};
    ghost use Rattle.edge_lists.specs.Edges.{Edges, pairs, places, IsWhole};

    ghost Value = { Edges };

    ghost view = { λ a. record { pairs = pairs a.heap.nodes; places = places a.heap.nodes; readers = length a.readers.items; sources = length a.sources.items; spare = a.spare } };

    ghost invariant = { λ a. IsWhole a.heap.nodes a.readers.items a.sources.items × (a.linked ≡ length a.heap.nodes) × (a.linked + a.spare < 2 ^ 64) };
}

/// An edge of the lists that it borrows.
#[derive(Clone, Copy)]
pub struct Edge<'a> {
    pub(crate) at: NodePtr,
    mark: PhantomData<&'a EdgeLists>,
}

impl EdgeLists {
    ghost use Rattle.std.specs.Prelude.{MatchOption, List, IfOk, IfErr, Some, max, length, slice_get};
    ghost use denote.RawPtr.{Ptr};
    ghost use Rattle.edge_lists.specs.Edges.{chain, IsFirst, AllFrom, readers_of};
    ghost use Rattle.edge_lists.specs.Edges.{others, mine, Dropped};

    /// Links an edge of this reader and this source in, after all others. It takes no memory and never fails.
    pub fn link<V: Ledger>(&mut self, reader: u32, source: u32, visits: &mut Steps<V>)
        requires spare { 0 < self.old.spare }
        requires heads { (reader < self.old.readers) × (source < self.old.sources) }
        ensures pairs { self.new.pairs ≡ self.old.pairs ++ (reader, source) ∷ [] }
        ensures spare { self.old.spare ≡ self.new.spare + 1 }
        ensures visits { visits.new ≡ visits.old + 1 }
        ensures heads { (self.new.readers ≡ self.old.readers) × (self.new.sources ≡ self.old.sources) }
    {
        let Some(block) = self.spare.pop() else {
            unreachable!()
        };
        let below = self.readers[reader as usize];
        let ends = self.sources[source as usize];
        let p = self.heap.put(Loose::of(block));
        self.heap.set(
            p,
            Node {
                reader,
                source,
                below,
                prev: ends.last,
                next: None,
            },
        );
        self.heap.set_next(ends.last, Some(p));
        self.readers[reader as usize] = Some(p);
        self.sources[source as usize] = ends.followed(p);
        self.linked += 1;
        visits.tick();
    }

    /// Takes the newest edge of the reader out of both lists. False: it has none.
    fn unlink_newest(&mut self, reader: usize) -> bool
        requires { reader < self.old.readers }
        ensures kept { others reader self.new.pairs ≡ others reader self.old.pairs }
        ensures dropped { Dropped result reader self.old self.new }
        ensures heads { (self.new.readers ≡ self.old.readers) × (self.new.sources ≡ self.old.sources) }
    {
        let Some(p) = self.readers[reader] else {
            return false;
        };
        let block = self.heap.take(self.alloc, p).into_box();
        let node = *block;
        self.heap.set_next(node.prev, node.next);
        self.heap.set_prev(node.next, node.prev);
        self.readers[reader] = node.below;
        let ends = self.sources[node.source as usize];
        self.sources[node.source as usize] = ends.parted(node.prev, node.next);
        self.linked -= 1;
        self.spare.push(block);
        true
    }

    /// Takes all edges of the reader out, in as many steps as there are such edges.
    pub fn unlink_reader<V: Ledger>(&mut self, reader: u32, visits: &mut Steps<V>)
        requires { reader < self.old.readers }
        ensures pairs { self.new.pairs ≡ others reader self.old.pairs }
        ensures spare { self.new.spare ≡ self.old.spare + mine reader self.old.pairs }
        ensures visits { visits.new ≡ visits.old + mine reader self.old.pairs }
        ensures heads { (self.new.readers ≡ self.old.readers) × (self.new.sources ≡ self.old.sources) }
    {
        while self.unlink_newest(reader as usize) {
            visits.tick();
        }
    }

    /// No edges, no heads, no room. The allocator gives the memory of all that follows.
    pub fn new(alloc: Global) -> EdgeLists
        ensures pairs { (result.pairs ≡ []) × (result.places ≡ []) }
        ensures counts { (result.readers ≡ 0) × (result.sources ≡ 0) × (result.spare ≡ 0) }
    {
        EdgeLists {
            heap: Heap::new(),
            spare: Spare::new(alloc),
            linked: 0,
            readers: Vec::new(alloc),
            sources: Vec::new(alloc),
            alloc,
        }
    }

    /// The first edge of the source, in order of linking.
    pub fn first(&self, source: u32) -> Option<Edge<'_>>
        requires { source < self.now.sources }
        ensures many { length (chain source self.now) ≡ length (readers_of source self.now.pairs) }
        ensures edge { MatchOption result (chain source self.now ≡ []) (λ e. IsFirst e.at.ptr (chain source self.now)) }
    {
        match self.sources[source as usize].first {
            None => None,
            Some(at) => Some(Edge {
                at,
                mark: PhantomData,
            }),
        }
    }

    /// The edge after it on the list of its source.
    pub fn next<'a>(&'a self, edge: Edge<'a>) -> Option<Edge<'a>>
        requires { (s : ℕ) × (xs : List Ptr) × (ys : List Ptr) × (chain s self.now ≡ xs ++ edge.at.ptr ∷ ys) }
        ensures { (s : ℕ) (xs : List Ptr) (ys : List Ptr) → chain s self.now ≡ xs ++ edge.entry.at.ptr ∷ ys → MatchOption result (ys ≡ []) (λ e. IsFirst e.at.ptr ys) }
    {
        match self.heap.get(edge.at).next {
            None => None,
            Some(at) => Some(Edge {
                at,
                mark: PhantomData,
            }),
        }
    }

    /// The reader of the edge.
    pub fn reader_of<'a>(&'a self, edge: Edge<'a>) -> u32
        requires { (s : ℕ) × (xs : List Ptr) × (ys : List Ptr) × (chain s self.now ≡ xs ++ edge.at.ptr ∷ ys) }
        ensures { (s : ℕ) (xs : List Ptr) (ys : List Ptr) → chain s self.now ≡ xs ++ edge.entry.at.ptr ∷ ys → slice_get (readers_of s self.now.pairs) (length xs) ≡ Some result }
    {
        self.heap.get(edge.at).reader
    }

    /// At least so many heads of each kind.
    pub fn reserve_heads(&mut self, readers: u32, sources: u32) -> Result<(), AllocError>
        ensures edges { (self.new.pairs ≡ self.old.pairs) × (self.new.places ≡ self.old.places) × (self.new.spare ≡ self.old.spare) }
        ensures ok { IfOk result (λ _. (self.new.readers ≡ max self.old.readers readers) × (self.new.sources ≡ max self.old.sources sources)) }
        ensures err { IfErr result (λ _. self.new ≡ self.old) }
    {
        let more_readers = (readers as usize).saturating_sub(self.readers.len());
        let more_sources = (sources as usize).saturating_sub(self.sources.len());
        self.readers.reserve(more_readers)?;
        self.sources.reserve(more_sources)?;
        append_copies(&mut self.readers, more_readers, None);
        append_copies(&mut self.sources, more_sources, Ends::none());
        Ok(())
    }

    /// Room for at least `n` edges more.
    pub fn reserve(&mut self, n: usize) -> Result<(), AllocError>
        ensures edges { (self.new.pairs ≡ self.old.pairs) × (self.new.places ≡ self.old.places) × (self.new.readers ≡ self.old.readers) × (self.new.sources ≡ self.old.sources) }
        ensures ok { IfOk result (λ _. self.new.spare ≡ max self.old.spare n) }
        ensures err { IfErr result (λ _. self.new ≡ self.old) }
    {
        let missing = n.saturating_sub(self.spare.len());
        for made in 0..missing {
            if let Err(refused) = self.reserve_one() {
                self.give_back(made);
                return Err(refused);
            }
        }
        Ok(())
    }

    fn reserve_one(&mut self) -> Result<(), AllocError>
        ensures edges { (self.new.pairs ≡ self.old.pairs) × (self.new.places ≡ self.old.places) × (self.new.readers ≡ self.old.readers) × (self.new.sources ≡ self.old.sources) }
        ensures ok { IfOk result (λ _. self.new.spare ≡ self.old.spare + 1) }
        ensures err { IfErr result (λ _. self.new ≡ self.old) }
    {
        // So many blocks are never there: a count past the numbers of a `usize` is refused, as a `Vec` does.
        if usize::MAX - self.linked == self.spare.len() {
            return Err(AllocError);
        }
        let node = Node {
            reader: 0,
            source: 0,
            below: None,
            prev: None,
            next: None,
        };
        let block = Box::new(self.alloc, node)?;
        self.spare.push(block);
        Ok(())
    }

    /// Frees so many of the spare blocks.
    fn give_back(&mut self, count: usize)
        requires { count ≤ self.old.spare }
        ensures edges { (self.new.pairs ≡ self.old.pairs) × (self.new.places ≡ self.old.places) × (self.new.readers ≡ self.old.readers) × (self.new.sources ≡ self.old.sources) }
        ensures spare { self.new.spare + count ≡ self.old.spare }
    {
        for freed in 0..count {
            self.give_back_one();
        }
    }

    fn give_back_one(&mut self)
        requires { 0 < self.old.spare }
        ensures edges { (self.new.pairs ≡ self.old.pairs) × (self.new.places ≡ self.old.places) × (self.new.readers ≡ self.old.readers) × (self.new.sources ≡ self.old.sources) }
        ensures spare { self.new.spare + 1 ≡ self.old.spare }
    {
        drop(self.spare.pop());
    }

    fn clear_reader(&mut self, reader: usize)
        requires head { reader < self.old.readers }
        requires from { AllFrom reader self.old.pairs }
        ensures pairs { AllFrom (reader + 1) self.new.pairs }
        ensures heads { self.new.readers ≡ self.old.readers }
    {
        while self.unlink_newest(reader) {}
    }

    fn close(self)
        requires { AllFrom self.readers self.pairs }
    {
        let EdgeLists {
            heap,
            spare: _,
            linked: _,
            readers: _,
            sources: _,
            alloc: _,
        } = self;
        heap.close();
    }
}

impl Drop for EdgeLists {
    fn drop(mut self) {
        let readers = self.readers.len();
        for r in 0..readers {
            self.clear_reader(r);
        }
        self.close();
    }
}
