// What is remembered: results under three numbers.
ghost use Rattle.std.specs.Prelude.{◌≡◌, ◌<◌, ◌⊎◌, ℕ, [], IfOk, IfSome, Some, length};
ghost use Rattle.type_store.specs.Inner.Memo.{IsNoted, Remembers, first_at};

use indexmap::IndexMap;
use omega_kinds::Mem;
use std::alloc::Global;

/// Results, each under a number, a place and a further number. Most are asked for at place 0, and there with one further
/// number for each number: these stand in a list, so nothing is hashed for them.
#[derive(Drop)]
pub(crate) struct Memo {
    // of a number, the first result at place 0
    firsts: Vec<Option<First>>,
    // the other results
    rest: IndexMap<(u64, u64, u64), u64>,
}

/// The result that came first at place 0, and the further number that it came with.
#[derive(Clone, Copy)]
pub(crate) struct First {
    with: u64,
    value: u64,
}

impl Memo {
    // Nothing is remembered.
    pub(crate) fn new(alloc: Global) -> Memo
        ensures firsts { result.firsts.items ≡ [] }
        ensures rest { result.rest.entries ≡ [] }
    {
        Memo {
            firsts: Vec::new(alloc),
            rest: IndexMap::new(alloc),
        }
    }

    // The result under these numbers, where it is remembered.
    pub(crate) fn get(&self, number: u64, place: u64, with: u64) -> Option<u64>
        ensures { IfSome result (λ v. Remembers self.now (number, place, with) v) }
    {
        if place == 0 {
            let first = first_of(self.firsts.as_slice(), number)?;
            if first.with == with {
                return Some(first.value);
            }
        }
        self.rest.get(&(number, place, with)).copied()
    }

    // The result under these numbers is remembered. `Err` is out of memory.
    pub(crate) fn insert(
        &mut self,
        number: u64,
        place: u64,
        with: u64,
        value: u64,
    ) -> Result<(), Mem>
        ensures { IsNoted self.old self.new (number, place, with) value }
    {
        if place == 0 && note_first(&mut self.firsts, number, First { with, value })? {
            return Ok(());
        }
        self.rest.insert((number, place, with), value)?;
        Ok(())
    }
}

// The first result of a number.
fn first_of(firsts: &[Option<First>], number: u64) -> Option<First>
    ensures { result ≡ first_at firsts.now number }
{
    if number < firsts.len() as u64 {
        firsts[number as usize]
    } else {
        None
    }
}

// The first result of a number, where it had none; `false` where it has one, which stays. `Err` is out of memory.
fn note_first(firsts: &mut Vec<Option<First>>, number: u64, first: First) -> Result<bool, Mem>
    ensures { (i : ℕ) → (first_at firsts.new.items i ≡ first_at firsts.old.items i) ⊎ ((i ≡ number) × (first_at firsts.new.items i ≡ Some first)) }
{
    make_room(firsts, number)?;
    if firsts[number as usize].is_some() {
        return Ok(false);
    }
    firsts[number as usize] = Some(first);
    Ok(true)
}

// The list reaches as far as the number. `Err` is out of memory.
fn make_room(firsts: &mut Vec<Option<First>>, number: u64) -> Result<(), Mem>
    ensures same { (i : ℕ) → first_at firsts.new.items i ≡ first_at firsts.old.items i }
    ensures reaches { IfOk result (λ _. number < length firsts.new.items) }
{
    while firsts.len() as u64 <= number {
        firsts.push(None)?;
    }
    Ok(())
}
