//! The environment of a view: the value of each key, which is its default where no view above set it.
#![tactic(auto)]

ghost use Rattle.std.specs.Prelude.{◌≡◌, ◌<◌, Some, IfOk, length, slice_get, slice_set};

use indexmap::IndexMap;
use std::alloc::{AllocError, Global};
use std::marker::Model;
use sv_value::{Value, Values, copy_of_all};

/// The values of the keys, numbered from 0: the default of each key, and the changed values by key. Contracts see the list
/// of the values that the keys have.
#[derive(Drop)]
pub struct EnvMap {
    defaults: Values,
    changed: IndexMap<u32, Value>,
}

impl Model for EnvMap {
    ghost use Rattle.std.specs.Prelude.{List};
    ghost use Rattle.std.specs.Coded.{coded_list};
    ghost use Rattle.sv_value.specs.contracts.value.Value as value;
    ghost use Rattle.sv_value.specs.declared.value.Value.{Value as Datum};

    ghost Value = { List Datum };

    ghost coded = { coded_list value.the_row.coded };

    ghost use Rattle.environment.specs.Overlaid.{overlaid};

    ghost view = { λ e. overlaid e.defaults e.changed.entries };
}

impl EnvMap {
    /// Every key with its default. A key is declared where it is below their number.
    pub fn new(defaults: Values) -> EnvMap
        ensures { result ≡ defaults }
    {
        let alloc = defaults.allocator();
        EnvMap {
            defaults,
            changed: IndexMap::new(alloc),
        }
    }

    /// The number of declared keys.
    pub fn len(&self) -> usize
        ensures { result ≡ length self.now }
    {
        self.defaults.len()
    }

    /// The value of a declared key.
    pub fn value(&self, key: u32) -> &Value
        requires { key < length self.now }
        ensures { slice_get self.now key ≡ Some result.now }
    {
        match self.changed.get(&key) {
            Some(value) => value,
            None => &self.defaults.as_slice()[key as usize],
        }
    }

    /// An equal environment.
    pub fn copy(&self) -> Result<EnvMap, AllocError>
        ensures { IfOk result (λ e. e ≡ self.now) }
    {
        let alloc = self.defaults.allocator();
        let defaults = copy_of_all(&self.defaults)?;
        let mut changed = IndexMap::new(alloc);
        for i in 0..self.changed.len() {
            let (key, value) = match self.changed.get_index(i) {
                Some((key, value)) => (*key, value.copy(alloc)?),
                None => unreachable!(),
            };
            match changed.insert(key, value) {
                Ok(_) => (),
                Err(refused) => return Err(AllocError::from(refused)),
            }
        }
        Ok(EnvMap { defaults, changed })
    }

    /// The same values, but for this one at a declared key.
    pub fn with(&self, key: u32, value: Value) -> Result<EnvMap, AllocError>
        requires { key < length self.now }
        ensures { IfOk result (λ e. e ≡ slice_set self.now key value) }
    {
        let mut copy = self.copy()?;
        match copy.changed.insert(key, value) {
            Ok(_) => Ok(copy),
            Err(refused) => Err(AllocError::from(refused)),
        }
    }
}

#[cfg(test)]
mod tests {
    use super::*;
    use std::test::Fail;
    use sv_items::Items;

    #[test]
    fn one_key(rt: HostRuntime) -> Result<(), Fail> {
        let mut defaults = Items::new(rt.alloc());
        defaults.push(Value::Bool(true))?;
        let environment = EnvMap::new(defaults);
        let changed = environment.with(0, Value::Int(5))?;
        assert!(rt; changed.value(0).same(&Value::Int(5)));
        assert!(rt; environment.value(0).same(&Value::Bool(true)));
        assert!(rt; changed.copy()?.value(0).same(&Value::Int(5)));
        Ok(())
    }
}
