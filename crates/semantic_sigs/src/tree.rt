// Semantic signatures, whose parts are shared.
ghost use Rattle.std.specs.Prelude.{◌≡◌, ◌≤◌, ◌+◌, ◌++◌, ◌∷◌, [], IfOk, OnOk, OnErr, slice_get};
ghost use Rattle.std.specs.Option.{option_copied};
ghost use Rattle.sig_definitions.specs.Signatures.Encoding.{enc};
ghost use Rattle.sig_definitions.specs.Signatures.Sig.{Ex};
ghost use Rattle.semantic_sigs.specs.Inner.Bound.{bound_sig, bound_abs, bound_sig_pairs};
ghost use Rattle.semantic_sigs.specs.Inner.Fields.{Rises, MayFollow};
ghost use Rattle.semantic_sigs.specs.Inner.Height.{sig_height, abs_height};
ghost use Rattle.semantic_sigs.specs.Inner.View.{sig_of, kinds_of, body_of};

use crate::encoding::encode_node;
use omega_kinds::{Effect, Extent, Kind, Kinds, Mem, NOTHING, Name};
use omega_types::Ty;
use std::alloc::Global;
use std::marker::Model;
use std::rc::Rc;
use type_normal::{NormalTy, plain};

// What a form of a signature counts for in its height: a walk over signatures takes more stack for a form than one over
// types.
const LEVELS: u32 = 6;

/// A semantic signature: a handle on a tree under binders, whose parts are shared.
/// Contracts see it as the plain tree with de Bruijn indexes, 0 being the innermost.
///
/// Rossberg, Russo and Dreyer, "F-ing modules", section 4, Semantic signatures.
#[cycle(sig)]
#[derive(Drop)]
pub struct Sig {
    // the least number above all free indexes
    bound: u64,
    made: Rc<Made>,
}

// A node with its extent, in which each form counts `LEVELS`, and those of types and of the kind of a `Typ` one, and with
// its encoding.
#[cycle(sig)]
#[derive(Drop)]
struct Made {
    extent: Extent,
    encoding: Ty,
    node: SigNode,
}

/// The outermost form of a signature, with its parts: a value, a type with its kind, a signature, a structure, and a
/// functor. The functor's variables, the outermost first, are bound in its parameter and in its result.
#[cycle(sig)]
#[derive(Drop)]
pub enum SigNode {
    Val(NormalTy),
    Typ(NormalTy, Kind),
    Meta(Abs),
    Str(SigFields),
    Fun {
        effect: Effect,
        kinds: Kinds,
        param: Sig,
        result: Abs,
    },
}

/// The fields of a structure, in strictly rising order of their names. Contracts see them as the list of names with
/// signatures.
#[cycle(sig)]
#[derive(Drop)]
pub struct SigFields {
    pairs: Vec<(Name, Sig)>,
    // that of the parts beside each other
    extent: Extent,
}

/// An abstract signature: one that hides types of some kinds, the outermost variable first.
/// Contracts see it as the plain tree.
///
/// Rossberg, Russo and Dreyer, "F-ing modules", section 4, Semantic signatures.
#[cycle(sig)]
#[derive(Drop)]
pub struct Abs {
    // the least number above all free indexes
    bound: u64,
    node: Rc<AbsNode>,
}

// The parts of an abstract signature.
#[cycle(sig)]
#[derive(Drop)]
struct AbsNode {
    extent: Extent,
    kinds: Kinds,
    body: Sig,
}

impl Model for Sig {
    ghost use Rattle.std.specs.Prelude.{◌≡◌, ◌≤◌};
    ghost use Rattle.sig_definitions.specs.Signatures.Sig.{Sig as SigTree};
    ghost use Rattle.semantic_sigs.specs.Inner.Code.{sig_code};

    ghost Value = { SigTree };

    ghost coded = { sig_code };

    ghost use Rattle.semantic_sigs.specs.Inner.Size.{sig_nodes};

    ghost size = { sig_nodes };

    ghost use Rattle.semantic_sigs.specs.Inner.Bound.{bound_sig as bound_of_sig};
    ghost use Rattle.semantic_sigs.specs.Inner.Height.{sig_height};
    ghost use Rattle.semantic_sigs.specs.Inner.View.{sig_of};
    ghost use Rattle.sig_definitions.specs.Signatures.Encoding.{enc as enc_of};

    ghost view = { λ s. sig_of s.made.value.node };

    ghost invariant = { λ s. (s.bound ≡ bound_of_sig (sig_of s.made.value.node)) × (sig_height (sig_of s.made.value.node) ≤ s.made.value.extent.height) × (s.made.value.extent.height ≤ 8192) × (s.made.value.encoding ≡ enc_of (sig_of s.made.value.node)) };

    ghost use Rattle.semantic_sigs.specs.Inner.Falls.{made_falls};

    ghost size_decreases = { λ s _. made_falls s.made.value };
}

impl Model for SigFields {
    ghost use Rattle.std.specs.Prelude.{◌≤◌};
    ghost use Rattle.semantic_sigs.specs.Inner.Fields.{SigPairs};
    ghost use Rattle.semantic_sigs.specs.Inner.Code.{sig_pairs_code};

    ghost Value = { SigPairs };

    ghost coded = { sig_pairs_code };

    ghost use Rattle.semantic_sigs.specs.Inner.Size.{sig_pairs_nodes};

    ghost size = { sig_pairs_nodes };

    ghost use Rattle.semantic_sigs.specs.Inner.Fields.{Rises};
    ghost use Rattle.semantic_sigs.specs.Inner.Height.{sig_pairs_height};

    ghost view = { λ f. f.pairs.items };

    ghost invariant = { λ f. Rises f.pairs.items × (sig_pairs_height f.pairs.items ≤ f.extent.height) };

    ghost use Rattle.semantic_sigs.specs.Inner.Falls.{pairs_fall};

    ghost size_decreases = { λ f _. pairs_fall f.pairs.items };
}

impl Model for Abs {
    ghost use Rattle.std.specs.Prelude.{◌≡◌, ◌≤◌};
    ghost use Rattle.sig_definitions.specs.Signatures.Sig.{Abs as AbsTree};
    ghost use Rattle.semantic_sigs.specs.Inner.Code.{abs_code};

    ghost Value = { AbsTree };

    ghost coded = { abs_code };

    ghost use Rattle.semantic_sigs.specs.Inner.Size.{abs_nodes};

    ghost size = { abs_nodes };

    ghost use Rattle.semantic_sigs.specs.Inner.Bound.{bound_abs as bound_of_abs};
    ghost use Rattle.semantic_sigs.specs.Inner.Height.{abs_height};
    ghost use Rattle.semantic_sigs.specs.Inner.View.{abs_of};

    ghost view = { λ x. abs_of x.node.value };

    ghost invariant = { λ x. (x.bound ≡ bound_of_abs (abs_of x.node.value)) × (abs_height (abs_of x.node.value) ≤ x.node.value.extent.height) × (x.node.value.extent.height ≤ 8192) };

    ghost use Rattle.semantic_sigs.specs.Inner.Falls.{abs_falls};

    ghost size_decreases = { λ x _. abs_falls x.node.value };
}

impl Sig {
    /// The signature that a node makes, with its encoding, in time linear in the node's fields and quantifiers. `Err` is
    /// out of memory, also where the signature or its encoding is too high or too large (`Extent::over`).
    pub fn make(alloc: Global, node: SigNode) -> Result<Sig, Mem>
        ensures { IfOk result (λ s. s ≡ sig_of node) }
    {
        let bound = node.bound();
        let extent = node.parts().over(LEVELS)?;
        let encoding = encode_node(alloc, &node)?;
        let made = Made {
            extent,
            encoding,
            node,
        };
        Ok(Sig {
            bound,
            made: Rc::new(alloc, made)?,
        })
    }

    /// The outermost form of a signature.
    pub fn node(&self) -> &SigNode
        ensures { sig_of result.now ≡ self.now }
    {
        &self.made.node
    }

    /// The least number above all free indexes: 0 for a closed signature. Takes one step.
    pub fn bound(&self) -> u64
        ensures { result ≡ bound_sig self.now }
    {
        self.bound
    }

    /// How high and how large the signature is, or more: each of its forms counts six in the height, and each form of
    /// its types one. The kinds of the variables of functors and of abstract signatures do not count; the kind of a `Typ`
    /// may. Takes one step. No signature is higher than 8,192.
    pub fn extent(&self) -> Extent
        ensures height { sig_height self.now ≤ result.height }
        ensures high { result.height ≤ 8192 }
    {
        self.made.extent
    }

    /// The encoding of the signature as a type. Takes one step.
    pub fn encoding(&self) -> &Ty
        ensures { result.now ≡ enc self.now }
    {
        &self.made.encoding
    }

    /// The same signature, with its parts shared. `Err` is out of memory.
    pub fn share(&self) -> Result<Sig, Mem>
        ensures { IfOk result (λ s. s ≡ self.now) }
    {
        Ok(Sig {
            bound: self.bound,
            made: self.made.clone()?,
        })
    }
}

impl SigNode {
    // The least number above all free indexes of the signature that the node makes.
    fn bound(&self) -> u64
        ensures { result ≡ bound_sig (sig_of self.now) }
    {
        match self {
            SigNode::Val(ty) | SigNode::Typ(ty, _) => plain(ty).bound(),
            SigNode::Meta(sig) => sig.bound(),
            SigNode::Str(fields) => fields.bound(),
            SigNode::Fun {
                kinds,
                param,
                result,
                ..
            } => {
                let inner = param.bound().max(result.bound());
                inner.saturating_sub(kinds.items().len() as u64)
            }
        }
    }

    // The extent of the parts beside each other.
    fn parts(&self) -> Extent
        ensures { sig_height (sig_of self.now) ≤ result.height + 6 }
    {
        match self {
            SigNode::Val(ty) => plain(ty).extent(),
            SigNode::Typ(ty, kind) => plain(ty).extent().beside(kind.extent()),
            SigNode::Meta(sig) => sig.extent(),
            SigNode::Str(fields) => fields.extent,
            SigNode::Fun { param, result, .. } => param.extent().beside(result.extent()),
        }
    }
}

impl SigFields {
    /// No fields.
    pub fn new(alloc: Global) -> SigFields
        ensures { result ≡ [] }
    {
        SigFields {
            pairs: Vec::new(alloc),
            extent: NOTHING,
        }
    }

    /// No fields, with room for so many. `Err` is out of memory.
    pub fn with_capacity(alloc: Global, count: usize) -> Result<SigFields, Mem>
        ensures { IfOk result (λ f. f ≡ []) }
    {
        Ok(SigFields {
            pairs: Vec::with_capacity(alloc, count)?,
            extent: NOTHING,
        })
    }

    /// One more field at the end, whose name is greater than the last one.
    /// `Err` is out of memory, and the list stays as it was.
    pub fn push(&mut self, item: (Name, Sig)) -> Result<(), Mem>
        requires { MayFollow self.old item.0 }
        ensures ok { OnOk result (self.new ≡ self.old ++ item ∷ []) }
        ensures err { OnErr result (self.new ≡ self.old) }
    {
        let extent = self.extent.beside(item.1.extent());
        self.pairs.push(item)?;
        self.extent = extent;
        Ok(())
    }

    /// The fields in their order.
    pub fn items(&self) -> &[(Name, Sig)]
        ensures value { result.now ≡ self.now }
        ensures rising { Rises result.now }
    {
        self.pairs.as_slice()
    }

    /// The field at a place, counted from 0; `None` exactly past the end.
    pub fn get(&self, i: usize) -> Option<&(Name, Sig)>
        ensures { option_copied result ≡ slice_get self.now i }
    {
        self.pairs.get(i)
    }

    // The least number above all free indexes of the fields.
    fn bound(&self) -> u64
        ensures { result ≡ bound_sig_pairs self.now }
    {
        let mut most = 0;
        for field in &self.pairs {
            most = field.1.bound().max(most);
        }
        most
    }
}

impl Abs {
    /// The signature that hides types of these kinds, the first being the outermost, in a body. `Err` is out of memory,
    /// also for a signature that is too high or too large (`Extent::over`).
    pub fn make(alloc: Global, kinds: Kinds, body: Sig) -> Result<Abs, Mem>
        ensures { IfOk result (λ x. x ≡ Ex kinds body) }
    {
        let bound = body.bound().saturating_sub(kinds.items().len() as u64);
        let extent = body.extent().over(LEVELS)?;
        let node = AbsNode {
            extent,
            kinds,
            body,
        };
        Ok(Abs {
            bound,
            node: Rc::new(alloc, node)?,
        })
    }

    /// The kinds of the hidden types, the outermost first.
    pub fn kinds(&self) -> &Kinds
        ensures { result.now ≡ kinds_of self.now }
    {
        &self.node.kinds
    }

    /// What stands under the hidden types.
    pub fn body(&self) -> &Sig
        ensures { result.now ≡ body_of self.now }
    {
        &self.node.body
    }

    /// The least number above all free indexes: 0 for a closed signature. Takes one step.
    pub fn bound(&self) -> u64
        ensures { result ≡ bound_abs self.now }
    {
        self.bound
    }

    /// How high and how large the signature is, or more, counted as in `Sig::extent`: the kinds of the hidden types do not
    /// count. Takes one step.
    pub fn extent(&self) -> Extent
        ensures height { abs_height self.now ≤ result.height }
        ensures high { result.height ≤ 8192 }
    {
        self.node.extent
    }

    /// The same signature, with its parts shared. `Err` is out of memory.
    pub fn share(&self) -> Result<Abs, Mem>
        ensures { IfOk result (λ x. x ≡ self.now) }
    {
        Ok(Abs {
            bound: self.bound,
            node: self.node.clone()?,
        })
    }
}
