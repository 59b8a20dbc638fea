//! The blocks that no edge uses: a stack through their `below`.
ghost use Rattle.std.specs.Prelude.{◌≡◌, ◌+◌, ◌-◌, ◌^◌, ◌<◌};

use crate::heap::Heap;
use crate::loose::Loose;
use crate::node::{Node, NodePtr};
use std::alloc::Global;
use std::boxed::Box;
use std::marker::Model;

/// A stack of blocks. Its length is kept, so that it is known without a walk.
pub struct Spare {
    heap: Heap,
    top: Option<NodePtr>,
    len: usize,
    alloc: Global,
}

impl Model for Spare {
    ghost use Rattle.std.specs.Prelude.{ℕ, length};
    ghost use Rattle.std.specs.Prelude.{◌≡◌};
    ghost use Rattle.edge_lists.specs.Stack.{IsStack};

    ghost Value = { ℕ };

    ghost view = { λ s. length s.heap.nodes };

    ghost invariant = { λ s. IsStack s.top s.heap.nodes × (s.len ≡ length s.heap.nodes) };
}

impl Spare {
    ghost use Rattle.edge_lists.specs.Stack.{Popped};

    pub fn new(alloc: Global) -> Spare
        ensures { result ≡ 0 }
    {
        Spare {
            heap: Heap::new(),
            top: None,
            len: 0,
            alloc,
        }
    }

    /// How many blocks there are.
    pub fn len(&self) -> usize
        ensures { result ≡ self.now }
    {
        self.len
    }

    /// A block more.
    pub fn push(&mut self, b: Box<Node>)
        requires { self.old < 2 ^ 64 - 1 }
        ensures { self.new ≡ self.old + 1 }
    {
        let p = self.heap.put(Loose::of(b));
        self.heap.set(
            p,
            Node {
                reader: 0,
                source: 0,
                below: self.top,
                prev: None,
                next: None,
            },
        );
        self.top = Some(p);
        self.len += 1;
    }

    /// The newest block, if there is one.
    pub fn pop(&mut self) -> Option<Box<Node>>
        ensures { Popped result self.old self.new }
    {
        match self.top {
            None => None,
            Some(p) => {
                self.top = self.heap.get(p).below;
                self.len -= 1;
                Some(self.heap.take(self.alloc, p).into_box())
            }
        }
    }
}

impl Drop for Spare {
    fn drop(mut self) {
        while let Some(b) = self.pop() {
            drop(b);
        }
        let Spare {
            heap,
            top: _,
            len: _,
            alloc: _,
        } = self;
        heap.close();
    }
}
