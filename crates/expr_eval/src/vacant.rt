use identity_path::{Cells, Path, Place, WriteStop};
use sv_value::{Missing, Value, Values};

/// Cells of no path. A body has these to write, and none to write to.
#[derive(Drop)]
pub struct Vacant {}

impl Cells for Vacant {
    ghost use Rattle.std.specs.FinMap as fin;

    ghost map = { λ _. fin.empty };

    fn cells(&self, _path: &Path) -> Option<&Values> {
        None
    }

    fn value(&self, _place: &Place) -> Result<&Value, Missing> {
        unreachable!()
    }

    fn write(&mut self, _place: &Place, _value: Value) -> Result<(), WriteStop> {
        unreachable!()
    }
}
