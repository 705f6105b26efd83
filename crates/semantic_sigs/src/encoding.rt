// The encoding of signatures as types of System Fω.
ghost use Rattle.std.specs.Prelude.{◌≡◌, IfOk};
ghost use Rattle.omega_kinds.specs.View.{kind_tree};
ghost use Rattle.omega_types.specs.Inner.View.{ty_of};
ghost use Rattle.semantic_sigs.specs.Inner.Quantified.{quantified, quantified_once};
ghost use Rattle.omega_types.specs.Fields.{row};
ghost use Rattle.sig_definitions.specs.Signatures.Encoding.{enc, enc_abs, enc_row, one_part as one_part_of, shown_type as shown_type_of};
ghost use Rattle.semantic_sigs.specs.Inner.Fields.{sig_row};
ghost use Rattle.semantic_sigs.specs.Inner.View.{sig_of};

use crate::part_terms::at_predicate;
use crate::tree::{Abs, Sig, SigFields, SigNode};
use omega_kinds::{Kind, Kinds, Label, Mem, arrow};
use omega_terms::result_label;
use omega_types::{Ty, TyFields, TyNode};
use std::alloc::Global;
use type_normal::plain;

/// The encoding of an abstract signature: a `some` for each hidden type, the outermost first, round that of its body.
/// `Err` is out of memory, also where an index would pass the last number.
///
/// Rossberg, Russo and Dreyer, "F-ing modules", section 4, figure of the encoding; the labels round the results of
/// functors are this project's own.
pub fn encode(alloc: Global, abs: &Abs) -> Result<Ty, Mem>
    ensures { IfOk result (λ t. t ≡ enc_abs abs.now) }
{
    let body = encode_sig(abs.body())?;
    quantify(alloc, Quantifier::Some, abs.kinds(), body)
}

/// The encoding of a signature, which is kept with it and shared. Takes one step. `Err` is out of memory.
pub fn encode_sig(sig: &Sig) -> Result<Ty, Mem>
    ensures { IfOk result (λ t. t ≡ enc sig.now) }
{
    sig.encoding().share()
}

/// The encoding of the signature that a node makes, from those that its parts keep. A signature part is encoded once,
/// and its type stands on both sides of one arrow. `Err` is out of memory, also where an index would pass the last number.
pub(crate) fn encode_node(alloc: Global, node: &SigNode) -> Result<Ty, Mem>
    ensures { IfOk result (λ t. t ≡ enc (sig_of node.now)) }
{
    match node {
        SigNode::Val(ty) => one_part(alloc, Label::Val, plain(ty).share()?),
        SigNode::Typ(ty, kind) => one_part(alloc, Label::Typ, shown_type(alloc, plain(ty), kind)?),
        SigNode::Meta(abs) => {
            let encoded = encode(alloc, abs)?;
            one_part(alloc, Label::Sig, Ty::to_itself(alloc, encoded)?)
        }
        SigNode::Str(fields) => {
            let fields = encode_fields(alloc, fields)?;
            Ty::make(alloc, TyNode::Fields(fields))
        }
        SigNode::Fun {
            effect,
            kinds,
            param,
            result,
        } => {
            let from = encode_sig(param)?;
            let to = one_part(alloc, result_label(*effect), encode(alloc, result)?)?;
            let body = Ty::make(alloc, TyNode::Arrow(from, to))?;
            quantify(alloc, Quantifier::All, kinds, body)
        }
    }
}

// The encodings of fields, each under its name.
#[tactic(auto, using(crate::proofs::EncodeSteps::encode_steps))]
fn encode_fields(alloc: Global, fields: &SigFields) -> Result<TyFields, Mem>
    ensures { IfOk result (λ f. row f ≡ enc_row (sig_row fields.now)) }
{
    let mut encoded = TyFields::with_capacity(alloc, fields.items().len())?;
    for field in fields.items() {
        let part = encode_sig(&field.1)?;
        encoded.push((Label::Name(field.0.share()?), part))?;
    }
    Ok(encoded)
}

// A record type of one field.
fn one_part(alloc: Global, label: Label, ty: Ty) -> Result<Ty, Mem>
    ensures { IfOk result (λ t. t ≡ one_part_of label ty) }
{
    let mut fields = TyFields::with_capacity(alloc, 1)?;
    fields.push((label, ty))?;
    Ty::make(alloc, TyNode::Fields(fields))
}

// The type of the identity at a type of a kind, whatever it is put into.
fn shown_type(alloc: Global, ty: &Ty, kind: &Kind) -> Result<Ty, Mem>
    ensures { IfOk result (λ t. t ≡ shown_type_of ty.now (kind_tree kind.now)) }
{
    let part = at_predicate(alloc, ty)?;
    let body = Ty::to_itself(alloc, part)?;
    let predicate = arrow(alloc, kind.share()?, Kind::Star)?;
    Ty::make(alloc, TyNode::All(predicate, body))
}

// What binds the variables of a list.
#[derive(Clone, Copy)]
enum Quantifier {
    All,
    Some,
}

// The type bound by a quantifier for each kind, the first outermost.
fn quantify(alloc: Global, quantifier: Quantifier, kinds: &Kinds, body: Ty) -> Result<Ty, Mem>
    ensures { IfOk result (λ t. t ≡ quantified quantifier kinds.now body) }
{
    let kinds = kinds.items();
    let mut ty = body;
    let mut left = kinds.len();
    while left > 0 {
        left -= 1;
        ty = Ty::make(alloc, bind(quantifier, kinds[left].share()?, ty))?;
    }
    Ok(ty)
}

// One quantifier.
fn bind(quantifier: Quantifier, kind: Kind, body: Ty) -> TyNode
    ensures { ty_of result ≡ quantified_once quantifier (kind_tree kind) body }
{
    match quantifier {
        Quantifier::All => TyNode::All(kind, body),
        Quantifier::Some => TyNode::Ex(kind, body),
    }
}
