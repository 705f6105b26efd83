// Environments, and which of their names still lead to their entries.
use crate::finder::Finder;
use omega_kinds::{Mem, Name};
use semantic_sigs::{Entry, Env, Sig};
use std::alloc::Global;
use std::collections::HashSet;

// An entry of an environment, how many type variables there are outside it, and whether no later entry has its name.
#[derive(Drop)]
struct Seen {
    entry: Entry,
    outside: usize,
    is_last: bool,
}

/// The names of the type variables of an environment, the outermost first; `None` for one that no name leads to. Such a
/// name is a path from a name of the environment to a type that is the variable, as `Money.t`, where no later entry
/// hides the first name of the path. Of several paths it is the first one in the outermost entry. A variable to which
/// only a module leads that no source can name, as that of `M` in `M :> S`, has a path in this module as its name, unless
/// the path would begin with a name of the environment. `Err` is out of memory.
///
/// Rossberg, Russo and Dreyer, "F-ing modules", section 5, root paths.
pub fn names_in(alloc: Global, env: Env) -> Result<Vec<Option<Name>>, Mem> {
    let mut finder = Finder::new(alloc, env.kinds().len())?;
    let mut names = HashSet::new(alloc);
    let entries = entries_of(alloc, env, &mut names)?;
    for seen in entries.iter().rev() {
        look_at(&mut finder, seen)?;
    }
    for seen in &entries {
        look_inside(&mut finder, seen, &mut names)?;
    }
    Ok(finder.into_names())
}

// The entries of an environment, the last one first, whose names become members of a set.
fn entries_of(alloc: Global, env: Env, names: &mut HashSet<Name>) -> Result<Vec<Seen>, Mem> {
    let mut env = env;
    let mut entries = Vec::new(alloc);
    while let Some(entry) = env.pop() {
        let is_last = take_name(&entry, names)?;
        let outside = env.kinds().len();
        entries.push(Seen {
            entry,
            outside,
            is_last,
        })?;
    }
    Ok(entries)
}

// Adds the name of an entry to a set. Whether it has one, and it was no member before.
fn take_name(entry: &Entry, names: &mut HashSet<Name>) -> Result<bool, Mem> {
    match entry {
        Entry::TypeVar(_) => Ok(false),
        Entry::Named(name, _) => add_name(name, names),
        Entry::Value(name, _) => add_name(name, names),
        Entry::TypeParam(name) => add_name(name, names),
    }
}

// Adds a name to a set. Whether it was no member before.
fn add_name(name: &Name, names: &mut HashSet<Name>) -> Result<bool, Mem> {
    Ok(names.insert(name.share()?)?)
}

// Whether no source can spell a name.
fn is_hidden(name: &Name) -> bool {
    name.bytes().first() == Some(&b'%')
}

// Looks for variables in an entry that its name leads to, if a source can spell this name.
fn look_at(finder: &mut Finder, seen: &Seen) -> Result<(), Mem> {
    if !seen.is_last {
        return Ok(());
    }
    match &seen.entry {
        Entry::Named(name, sig) if !is_hidden(name) => finder.look(name, sig, seen.outside),
        Entry::TypeParam(name) => finder.found(name, seen.outside),
        _ => Ok(()),
    }
}

// Looks for variables in the fields of an entry that its name leads to, if no source can spell this name. The names of
// the fields become members of a set, and a field with the name of a member is left out.
fn look_inside(finder: &mut Finder, seen: &Seen, names: &mut HashSet<Name>) -> Result<(), Mem> {
    if let Entry::Named(name, sig) = &seen.entry
        && seen.is_last
        && is_hidden(name)
        && let Some(fields) = sig.as_structure()
    {
        for field in fields.items() {
            if add_name(&field.0, names)? {
                finder.look(&field.0, &field.1, seen.outside)?;
            }
        }
    }
    Ok(())
}
