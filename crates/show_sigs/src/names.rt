// The names of hidden types: the texts of paths that lead to them.
use crate::search::Search;
use omega_kinds::{Kinds, Mem, Name, name_of};
use semantic_sigs::{Abs, Item, Path, Sig};
use show_order::Order;
use sig_roots::roots;
use std::alloc::Global;

/// The names of the types of these kinds that a signature hides, the outermost first: the prefix and the names on a path
/// to the type, with dots between them. It is the first path in the order of the components, through structures and
/// through functors whose parameters mention no type from outside; where none of these leads to the type it is its least
/// root path. `None` is for a type without a root path. `Err` is out of memory.
///
/// Rossberg, Russo and Dreyer, "F-ing modules", section 5, root paths.
pub(crate) fn type_names(
    alloc: Global,
    kinds: &Kinds,
    body: &Sig,
    order: Order<'_>,
    prefix: &[u8],
) -> Result<Vec<Option<Name>>, Mem> {
    let mut search = Search::new(alloc, kinds.items().len(), prefix)?;
    search.visit(body, 0, order)?;
    let mut names = search.into_names();
    let paths = paths_of(alloc, kinds, body)?;
    for (at, path) in paths.iter().enumerate() {
        if let Some(path) = path
            && let Some(slot) = names.get_mut(at)
            && slot.is_none()
        {
            *slot = Some(path_name(alloc, prefix, path)?);
        }
    }
    Ok(names)
}

// The least root paths of the types of these kinds that a signature hides.
fn paths_of(alloc: Global, kinds: &Kinds, body: &Sig) -> Result<Vec<Option<Path>>, Mem> {
    let abs = Abs::make(alloc, kinds.share(alloc)?, body.share()?)?;
    roots(alloc, &abs)
}

// A prefix and the names on a path, with dots between them.
fn path_name(alloc: Global, prefix: &[u8], path: &Path) -> Result<Name, Mem> {
    let mut text = Vec::new(alloc);
    text.extend_from_slice(prefix)?;
    for item in path.items() {
        if let Item::Part(name) = item {
            add_step(&mut text, name)?;
        }
    }
    name_of(alloc, &text)
}

// Adds a name to the text of a path.
pub(crate) fn add_step(text: &mut Vec<u8>, name: &Name) -> Result<(), Mem> {
    if !text.is_empty() {
        text.push(b'.')?;
    }
    text.extend_from_slice(name.bytes())?;
    Ok(())
}
