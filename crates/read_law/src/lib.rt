//! The law on reads: what a body gives depends on nothing but what it looked up.
#![tactic(auto)]

ghost use Rattle.read_law.specs.Law.{DependsOnReads, OtherValueOtherReads};

/// A run that gave a value gives the same value, after the same reads, wherever each of its reads has the same value. And where
/// a read has another value, or none, a run there that gives a value has other reads.
pub fn depends_on_reads()
    ensures same { DependsOnReads }
    ensures other { OtherValueOtherReads }
{}
