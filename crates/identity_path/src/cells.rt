ghost use Rattle.std.specs.Prelude.{◌≡◌, Some, IsSome, OnOk, OnErr, MatchResult};
ghost use Rattle.std.specs.Option.{option_copied};
ghost use Rattle.std.specs.FinMap as fin;
ghost use Rattle.identity_path.specs.Cells.{CellMap, value_at, written, write_answer};

use crate::path::Path;
use crate::place::{Place, WriteStop};
use sv_value::{Missing, Value, Values};

/// What holds cells: a finite map from paths to the values of their slots, read and written at places.
pub trait Cells {
    ghost map: { Self → CellMap };

    /// The values of the slots of a path, and `None` exactly where the path is not held.
    fn cells(&self, path: &Path) -> Option<&Values>
        ensures { option_copied result ≡ fin.get (map self.now) path.now };

    /// The value at a place. Path and slot are held, and the hops fit the slot's value.
    /// `Missing` exactly where that index is the first one out of range.
    fn value(&self, place: &Place) -> Result<&Value, Missing>
        requires { IsSome (value_at (map self.now) place.now) }
        ensures { MatchResult result
            (λ part. value_at (map self.now) place.now ≡ Some (Ok part.now))
            (λ missing. value_at (map self.now) place.now ≡ Some (Err missing)) };

    /// Replaces the value at a place, under the same condition, and changes nothing else.
    /// Tried in this order: `Missing` where an index is out of range; `Heavy` where the slot's whole value would weigh more
    /// than 65,536; `Heavy` where all cells would weigh more than 4,000,000. Nothing changes at a refusal.
    fn write(&mut self, place: &Place, value: Value) -> Result<(), WriteStop>
        requires { IsSome (value_at (map self.old) place.now) }
        ensures answer { result ≡ write_answer (map self.old) place.now value }
        ensures ok { OnOk result (map self.new ≡ written (map self.old) place.now value) }
        ensures err { OnErr result (map self.new ≡ map self.old) };
}
