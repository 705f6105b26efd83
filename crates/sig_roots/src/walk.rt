// The walk over a signature that finds the root paths of its hidden types.
ghost use Rattle.std.specs.Prelude.{◌≡◌, ◌↔◌, ◌+◌, [], IfOk, OnOk, IsTrue, Some, None, map, length, slice_get};
ghost use Rattle.semantic_sigs.specs.Inner.Items.{item_of};
ghost use Rattle.semantic_sigs.specs.Inner.Fields.{sig_row};
ghost use Rattle.sig_definitions.specs.Explicit.SigPath.{Res};
ghost use Rattle.sig_match_laws.specs.RootSearch.{after};
ghost use Rattle.sig_roots.specs.Inner.Rooted.{rooted as rooted_of};
ghost use Rattle.sig_roots.specs.Inner.Seek.{seek, seek_abs, seek_row, behind, merged, is_open as is_open_of, unless_barred, ends};

use crate::variables::rooted;
use omega_kinds::{Effect, Kinds, Mem};
use omega_types::Ty;
use semantic_sigs::{Abs, Item, Path, Sig, SigFields, SigNode, least_in_sig};
use std::alloc::Global;
use type_normal::{lesser, plain};

// Where the walk stands: the steps that lead here, and the paths that are found so far, that of the last hidden type
// first.
#[derive(Drop)]
pub(crate) struct Walk {
    alloc: Global,
    steps: Vec<Item>,
    found: Vec<Option<Path>>,
}

impl Walk {
    // Nothing is found for hidden types of these kinds.
    pub(crate) fn new(alloc: Global, kinds: &Kinds) -> Result<Walk, Mem>
        ensures { IfOk result (λ walk. (walk.steps.items ≡ []) × (walk.found.items ≡ map (λ k. None) kinds.now)) }
    {
        let mut found = Vec::new(alloc);
        for _kind in kinds.items() {
            found.push(None)?;
        }
        Ok(Walk {
            alloc,
            steps: Vec::new(alloc),
            found,
        })
    }

    // The paths that are found.
    pub(crate) fn into_found(self) -> Vec<Option<Path>>
        ensures { result.items ≡ self.found.items }
    {
        self.found
    }

    // Goes on in a signature below the `depth` variables of the functors on the way. The parameters of these mention, of
    // the hidden types, that of the number `bar`, if any, and earlier ones: the last type has the number 0.
    #[cycle(visit)]
    pub(crate) fn visit(&mut self, sig: &Sig, depth: u64, bar: Option<u64>) -> Result<(), Mem>
        ensures steps { OnOk result (self.new.steps.items ≡ self.old.steps.items) }
        ensures found { OnOk result (self.new.found.items ≡ merged (λ own. behind (map item_of self.old.steps.items) (unless_barred bar own (seek own depth sig.now))) self.old.found.items) }
    {
        match sig.node() {
            SigNode::Typ(ty, _) => self.visit_type(plain(ty), depth, bar),
            SigNode::Str(fields) => self.visit_fields(fields, depth, bar),
            SigNode::Fun {
                effect,
                kinds,
                param,
                result,
            } => match effect {
                Effect::Pure => {
                    let inner = inside(depth, kinds)?;
                    self.visit_result(result, inner, lesser(bar, least_in_sig(param, inner)))
                }
                Effect::Impure => Ok(()),
            },
            SigNode::Val(_) | SigNode::Meta(_) => Ok(()),
        }
    }

    #[cycle(visit)]
    fn visit_fields(&mut self, fields: &SigFields, depth: u64, bar: Option<u64>) -> Result<(), Mem>
        ensures steps { OnOk result (self.new.steps.items ≡ self.old.steps.items) }
        ensures found { OnOk result (self.new.found.items ≡ merged (λ own. behind (map item_of self.old.steps.items) (unless_barred bar own (seek_row own depth (sig_row fields.now)))) self.old.found.items) }
    {
        for field in fields.items() {
            self.steps.push(Item::Part(field.0.share()?))?;
            self.visit(&field.1, depth, bar)?;
            self.steps.pop();
        }
        Ok(())
    }

    // Goes on in the result of a functor, below its variables.
    #[cycle(visit)]
    fn visit_result(&mut self, target: &Abs, depth: u64, bar: Option<u64>) -> Result<(), Mem>
        ensures steps { OnOk result (self.new.steps.items ≡ self.old.steps.items) }
        ensures found { OnOk result (self.new.found.items ≡ merged (λ own. behind (map item_of self.old.steps.items) (unless_barred bar own (after Res (seek_abs own depth target.now)))) self.old.found.items) }
    {
        self.steps.push(Item::Res)?;
        self.visit(target.body(), depth, bar)?;
        self.steps.pop();
        Ok(())
    }

    fn visit_type(&mut self, ty: &Ty, depth: u64, bar: Option<u64>) -> Result<(), Mem>
        ensures steps { OnOk result (self.new.steps.items ≡ self.old.steps.items) }
        ensures found { OnOk result (self.new.found.items ≡ merged (λ own. behind (map item_of self.old.steps.items) (unless_barred bar own (ends (rooted_of depth ty.now) own))) self.old.found.items) }
    {
        match rooted(ty, depth)? {
            Some(own) if is_open(own, bar) => self.find(own as usize),
            _ => Ok(()),
        }
    }

    // Takes the way as the root path of a hidden type, if it is the first that is found.
    fn find(&mut self, own: usize) -> Result<(), Mem>
        ensures steps { OnOk result (self.new.steps.items ≡ self.old.steps.items) }
        ensures found { OnOk result (self.new.found.items ≡ merged (λ other. behind (map item_of self.old.steps.items) (ends (Some own) other)) self.old.found.items) }
    {
        if self.lacks(own) {
            self.found[own] = Some(self.way()?);
        }
        Ok(())
    }

    // Whether there is a hidden type of this number, and no path is found for it so far.
    fn lacks(&self, own: usize) -> bool
        ensures { IsTrue result ↔ slice_get self.now.found.items own ≡ Some None }
    {
        matches!(self.found.get(own), Some(None))
    }

    // The steps that lead here, as a path.
    fn way(&self) -> Result<Path, Mem>
        ensures { IfOk result (λ path. path ≡ map item_of self.now.steps.items) }
    {
        let mut path = Path::new(self.alloc);
        for item in &self.steps {
            path.push(item.share()?)?;
        }
        Ok(path)
    }
}

// Whether no functor parameter on the way bars a hidden type.
fn is_open(own: u64, bar: Option<u64>) -> bool
    ensures { result ≡ is_open_of own bar }
{
    bar.is_none_or(|bar| own < bar)
}

// The number of variables below those of a functor, `depth` being outside.
fn inside(depth: u64, kinds: &Kinds) -> Result<u64, Mem>
    ensures { IfOk result (λ inner. inner ≡ length kinds.now + depth) }
{
    (kinds.items().len() as u64).checked_add(depth).ok_or(Mem)
}
