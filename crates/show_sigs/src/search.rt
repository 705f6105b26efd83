// The search of a signature for the types that it hides, in the order in which it is shown.
use crate::names::add_step;
use omega_kinds::{Effect, Mem, Name, name_of};
use omega_types::Ty;
use semantic_sigs::{Sig, SigFields, SigNode};
use show_order::Order;
use sig_roots::rooted;
use std::alloc::Global;
use type_normal::plain;

// How many parts of a signature are looked at, at most: where signatures share their parts, there can be far more of
// them than the source has bytes.
const MOST: u64 = 1_000_000;

// The names that are found so far for the hidden types, the outermost first; the path to what is looked at; and how many
// parts were looked at.
#[derive(Drop)]
pub(crate) struct Search {
    alloc: Global,
    names: Vec<Option<Name>>,
    path: Vec<u8>,
    looked: u64,
}

impl Search {
    // Nothing is found for so many types. All paths begin with the prefix.
    pub(crate) fn new(alloc: Global, count: usize, prefix: &[u8]) -> Result<Search, Mem> {
        let mut names = Vec::new(alloc);
        for _ in 0..count {
            names.push(None)?;
        }
        let mut path = Vec::new(alloc);
        path.extend_from_slice(prefix)?;
        Ok(Search {
            alloc,
            names,
            path,
            looked: 0,
        })
    }

    // The names.
    pub(crate) fn into_names(self) -> Vec<Option<Name>> {
        self.names
    }

    // Looks in a signature below so many variables of functors on the way.
    #[cycle(visit)]
    pub(crate) fn visit(&mut self, sig: &Sig, under: u64, order: Order<'_>) -> Result<(), Mem> {
        if sig.bound() <= under || self.looked >= MOST {
            return Ok(());
        }
        self.looked += 1;
        match sig.node() {
            SigNode::Typ(ty, _) => self.visit_type(plain(ty), under),
            SigNode::Str(fields) => self.visit_fields(fields, under, order),
            SigNode::Fun {
                effect: Effect::Pure,
                kinds,
                param,
                result,
            } => {
                let more = kinds.items().len() as u64;
                if param.bound() > more {
                    return Ok(());
                }
                self.visit(result.body(), under.saturating_add(more), order.result())
            }
            _ => Ok(()),
        }
    }

    // Looks in the fields of a structure.
    #[cycle(visit)]
    #[tactic(auto, using(crate::proofs::ShownBelow::shown_below))]
    fn visit_fields(
        &mut self,
        fields: &SigFields,
        under: u64,
        order: Order<'_>,
    ) -> Result<(), Mem> {
        let shown = order.arranged(self.alloc, fields.items())?;
        for field in &shown {
            let length = self.path.len();
            add_step(&mut self.path, &field.0)?;
            self.visit(&field.1, under, order.component(&field.0))?;
            self.path.truncate(length);
        }
        Ok(())
    }

    // Takes the path as the name of the hidden type that a type is, if it has none.
    fn visit_type(&mut self, ty: &Ty, under: u64) -> Result<(), Mem> {
        let Some(index) = rooted(ty, under)? else {
            return Ok(());
        };
        let level = (self.names.len() as u64).checked_sub(index.saturating_add(1));
        if let Some(level) = level
            && let Some(slot) = self.names.get_mut(level as usize)
            && slot.is_none()
        {
            *slot = Some(name_of(self.alloc, &self.path)?);
        }
        Ok(())
    }
}
