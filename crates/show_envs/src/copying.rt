// Copies of environments.
ghost use Rattle.std.specs.Prelude.{◌≡◌, [], IfOk, OnOk, OnErr, map};
ghost use Rattle.semantic_sigs.specs.Inner.Entries.{entry_of};

use omega_kinds::Mem;
use semantic_sigs::{Entry, Env};
use std::alloc::Global;
use std::mem;

/// The same environment. `Err` is out of memory, and the environment that is copied is empty then.
pub fn copy_of(alloc: Global, env: &mut Env) -> Result<Env, Mem>
    ensures copy { IfOk result (λ g. g ≡ env.old) }
    ensures same { OnOk result (env.new ≡ env.old) }
    ensures gone { OnErr result (env.new ≡ []) }
{
    let own = mem::replace(env, Env::new(alloc));
    let entries = entries_of(alloc, own)?;
    let (first, second) = both(alloc, entries)?;
    *env = first;
    Ok(second)
}

// The entries of an environment, the innermost first.
#[tactic(auto, using(crate::proofs::Lists::taken, crate::proofs::Lists::ended))]
fn entries_of(alloc: Global, env: Env) -> Result<Vec<Entry>, Mem>
    ensures { IfOk result (λ es. map entry_of es.items ≡ env) }
{
    let mut left = env;
    let mut entries = Vec::new(alloc);
    while let Some(entry) = left.pop() {
        entries.push(entry)?;
    }
    Ok(entries)
}

// Two environments of entries, of which the innermost comes first.
#[tactic(auto, using(crate::proofs::Lists::given))]
fn both(alloc: Global, entries: Vec<Entry>) -> Result<(Env, Env), Mem>
    ensures first { IfOk result (λ r. r.0 ≡ map entry_of entries.items) }
    ensures second { IfOk result (λ r. r.1 ≡ map entry_of entries.items) }
{
    let mut left = entries;
    let mut first = Env::new(alloc);
    let mut second = Env::new(alloc);
    while let Some(entry) = left.pop() {
        second.push(shared(&entry)?)?;
        first.push(entry)?;
    }
    Ok((first, second))
}

// The same entry.
fn shared(entry: &Entry) -> Result<Entry, Mem>
    ensures { IfOk result (λ e. entry_of e ≡ entry_of entry.now) }
{
    match entry {
        Entry::TypeVar(kind) => Ok(Entry::TypeVar(kind.share()?)),
        Entry::Named(name, sig) => Ok(Entry::Named(name.share()?, sig.share()?)),
        Entry::Value(name, ty) => Ok(Entry::Value(name.share()?, ty.share()?)),
        Entry::TypeParam(name) => Ok(Entry::TypeParam(name.share()?)),
    }
}
