ghost use Rattle.std.specs.Prelude.{◌≡◌, [], ◌∷◌, ◌++◌, IfOk};
ghost use Rattle.body_means.specs.Each as goes;
ghost use Rattle.body_means.specs.Elements.{narrow};
ghost use Rattle.body_nodes.specs.Seen.{key_of, counted_at};

use identity_path::{Path, Step};
use indexmap::IndexMap;
use std::alloc::{AllocError, Global};
use std::marker::Model;
use sv_items::Items;
use sv_value::{Value, Values};

/// The ids of the items so far, with a table of how often each stands among them. Contracts see the list of the ids alone.
#[derive(Drop)]
pub struct Ids {
    ids: Values,
    counts: IndexMap<Path, u32>,
}

impl Model for Ids {
    ghost use Rattle.std.specs.Prelude.{◌≡◌, List};
    ghost use Rattle.std.specs.Coded.{coded_list};
    ghost use Rattle.sv_value.specs.contracts.value.Value as value;
    ghost use Rattle.sv_value.specs.declared.value.Value.{Value as Datum};
    ghost use Rattle.body_means.specs.Each.{again};
    ghost use Rattle.body_means.specs.Elements.{narrow};
    ghost use Rattle.body_nodes.specs.Seen.{key_of, counted_at};

    ghost Value = { List Datum };

    ghost coded = { coded_list value.the_row.coded };

    ghost view = { λ s. s.ids };

    ghost invariant = { λ s. (id : Datum) → counted_at s.counts.entries (key_of id) ≡ narrow (again id s.ids) };
}

// The key of an id in the table.
fn key_path(alloc: Global, id: &Value) -> Result<Path, AllocError>
    ensures value { IfOk result (λ path. path ≡ key_of id.now) }
{
    let copy = id.copy(alloc)?;
    let root = Path::root(alloc);
    let path = root.with(Step::Id(copy))?;
    Ok(path)
}

fn count_at(counts: &IndexMap<Path, u32>, key: &Path) -> u32
    ensures value { result ≡ counted_at counts.now.entries key.now }
{
    match counts.get(key) {
        Some(count) => *count,
        None => 0,
    }
}

impl Ids {
    /// No ids.
    #[tactic(auto, unfolding(body_means::specs::Each::again))]
    pub fn new(alloc: Global) -> Ids
        ensures value { result ≡ [] }
    {
        let ids = Items::new(alloc);
        let counts = IndexMap::new(alloc);
        Ids { ids, counts }
    }

    /// How often the id stands among them.
    pub fn again(&self, id: &Value) -> Result<u32, AllocError>
        ensures value { IfOk result (λ count. count ≡ narrow (goes.again id.now self.now)) }
    {
        let key = key_path(self.ids.allocator(), id)?;
        let count = count_at(&self.counts, &key);
        Ok(count)
    }

    /// The ids with one more at the end.
    pub fn with(self, id: Value) -> Result<Ids, AllocError>
        ensures value { IfOk result (λ ids. ids ≡ self ++ id ∷ []) }
    {
        let Ids {
            mut ids,
            mut counts,
        } = self;
        let key = key_path(ids.allocator(), &id)?;
        let count = count_at(&counts, &key);
        let next = count.saturating_add(1);
        match counts.insert(key, next) {
            Ok(_) => (),
            Err(refused) => return Err(AllocError::from(refused)),
        }
        ids.push(id)?;
        Ok(Ids { ids, counts })
    }
}
