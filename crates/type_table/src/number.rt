ghost use Rattle.std.specs.Prelude.{◌≡◌, ◌+◌, OnOk, if◌then◌else◌};
ghost use Rattle.type_table.specs.Along as along;

use name_map::NameMap;
use std::alloc::{AllocError, Global};
use swift_lex::Word;

/// A number of 32 bits. What is greater stays at the greatest.
#[tactic(auto, unfolding(crate::specs::Along::narrow, crate::specs::Along::greatest))]
pub fn narrow(number: usize) -> u32
    ensures { result ≡ along.narrow number }
{
    if number > 4294967295 {
        4294967295
    } else {
        number as u32
    }
}

/// The number that comes so many after this one.
#[tactic(auto, unfolding(crate::specs::Along::narrow, crate::specs::Along::greatest))]
pub fn after(number: u32, more: usize) -> u32
    ensures { result ≡ along.narrow (number + more) }
{
    let room = 4294967295 - number;
    if more > room as usize {
        4294967295
    } else {
        number + more as u32
    }
}

/// The number that comes so many after this one.
#[tactic(auto, unfolding(crate::specs::Along::wide, crate::specs::Along::widest))]
pub fn wide_after(number: usize, more: usize) -> usize
    ensures { result ≡ along.wide (number + more) }
{
    number.saturating_add(more)
}

/// Gives a name its place, where it has none and the place is a number of 32 bits.
#[tactic(auto, unfolding(crate::specs::Along::with_place, crate::specs::Along::greatest))]
pub fn add_place(
    alloc: Global,
    places: &mut NameMap,
    name: &Word,
    at: usize,
) -> Result<(), AllocError>
    ensures ok { OnOk result (places.new ≡ along.with_place places.old name.now at) }
{
    if at > 4294967295 || places.get(name.as_bytes()).is_some() {
        return Ok(());
    }
    places.insert(name.copy(alloc)?.into_vec(), at as u32)?;
    Ok(())
}

/// The next number, where this one is taken.
pub fn next_if(number: u32, taken: bool) -> u32
    ensures { result ≡ along.narrow (number + (if taken then 1 else 0)) }
{
    if taken {
        after(number, 1)
    } else {
        after(number, 0)
    }
}
