// The search of a signature for types that are a variable.
use omega_kinds::{Effect, Mem, Name, name_of};
use omega_types::Ty;
use semantic_sigs::{Sig, SigFields, SigNode};
use sig_roots::rooted;
use std::alloc::Global;
use type_normal::plain;

// How many parts of signatures are looked at, at most: where signatures share their parts, there can be far more of
// them than the source has bytes.
const MOST: u64 = 1_000_000;

// The names that are found so far for the type variables of an environment, the outermost first; and the path to what
// is looked at.
#[derive(Drop)]
pub(crate) struct Finder {
    alloc: Global,
    names: Vec<Option<Name>>,
    path: Vec<u8>,
    looked: u64,
}

impl Finder {
    // Nothing is found for so many variables.
    pub(crate) fn new(alloc: Global, count: usize) -> Result<Finder, Mem> {
        let mut names = Vec::new(alloc);
        for _ in 0..count {
            names.push(None)?;
        }
        Ok(Finder {
            alloc,
            names,
            path: Vec::new(alloc),
            looked: 0,
        })
    }

    // The names.
    pub(crate) fn into_names(self) -> Vec<Option<Name>> {
        self.names
    }

    // Looks in the signature that a name has below the outermost `count` variables.
    pub(crate) fn look(&mut self, name: &Name, sig: &Sig, count: usize) -> Result<(), Mem> {
        self.path.truncate(0);
        self.path.extend_from_slice(name.bytes())?;
        self.visit(sig, count as u64, 0)
    }

    // Looks in a signature below the variables of functors on the way, which come after the first `count` ones.
    #[cycle(visit)]
    fn visit(&mut self, sig: &Sig, count: u64, under: u64) -> Result<(), Mem> {
        if self.looked >= MOST {
            return Ok(());
        }
        self.looked += 1;
        match sig.node() {
            SigNode::Typ(ty, _) => self.visit_type(plain(ty), count, under),
            SigNode::Str(fields) => self.visit_fields(fields, count, under),
            SigNode::Fun {
                effect: Effect::Pure,
                kinds,
                result,
                ..
            } => {
                let more = kinds.items().len() as u64;
                self.visit(result.body(), count, under.saturating_add(more))
            }
            _ => Ok(()),
        }
    }

    // Looks in the fields of a structure.
    #[cycle(visit)]
    fn visit_fields(&mut self, fields: &SigFields, count: u64, under: u64) -> Result<(), Mem> {
        for field in fields.items() {
            let length = self.path.len();
            self.path.push(b'.')?;
            self.path.extend_from_slice(field.0.bytes())?;
            self.visit(&field.1, count, under)?;
            self.path.truncate(length);
        }
        Ok(())
    }

    // Takes the path as the name of the variable that a type is, if it is one of the first `count`.
    fn visit_type(&mut self, ty: &Ty, count: u64, under: u64) -> Result<(), Mem> {
        match rooted(ty, under)? {
            Some(index) if index < count => {
                let name = name_of(self.alloc, &self.path)?;
                self.found(&name, (count - index) as usize)
            }
            _ => Ok(()),
        }
    }

    // Takes a name for the innermost one of the first `count` variables, if it has none.
    pub(crate) fn found(&mut self, name: &Name, count: usize) -> Result<(), Mem> {
        let level = count.checked_sub(1);
        if let Some(level) = level
            && let Some(slot) = self.names.get_mut(level)
            && slot.is_none()
        {
            *slot = Some(name.share()?);
        }
        Ok(())
    }
}
