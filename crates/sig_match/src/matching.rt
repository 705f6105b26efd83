// Matching and subtyping, which call each other.
ghost use Rattle.std.specs.Prelude.{◌≡◌, ◌↔◌, ◌+◌, ◌∷◌, IfOk, IsTrue, List, Ok, length, map};
ghost use Rattle.omega_kinds.specs.Kind.{Kind as KindTree};
ghost use Rattle.omega_kinds.specs.View.{kind_tree};
ghost use Rattle.omega_kinds.specs.declared.effect.Effect.TheVariants.{Pure, Impure};
ghost use Rattle.omega_terms.specs.Term.{Term as TermTree};
ghost use Rattle.sig_definitions.specs.Explicit.SigPath.{Part};
ghost use Rattle.sig_definitions.specs.Signatures.Encoding.{enc};
ghost use Rattle.sig_definitions.specs.Signatures.Sig.{Ex, Fun, Meta, Str, Typ, Val};
ghost use Rattle.sig_definitions.specs.Signatures.SigSubst.{raise_abs as raise_abs_of};
ghost use Rattle.semantic_sigs.specs.Inner.Fields.{sig_row};
ghost use Rattle.semantic_sigs.specs.Inner.Items.{item_of};
ghost use Rattle.sig_match.specs.Inner.Looking.{EachLook, EachLookAll, EachLookInto, EachLookNext, Ends, IfMatched, IsTarget, MayLook, MayLookInto, MayLookNext};
ghost use Rattle.sig_match.specs.Inner.Made.{AllHold};
ghost use Rattle.sig_match.specs.Inner.Outcomes.{EachField, EachMatch, EachResult, EachSub, EachSubAbs, MayMatch, MayResult, MaySub, MaySubAbs, SubGives};

use crate::alike::are_alike;
use crate::coercing::{abs_coercion, functor_coercion};
use crate::cutting::cut_result;
use crate::effects::{both_pure, impure_for_pure};
use crate::made::{Made, keep, key_of, known};
use crate::putting::{at_found, at_types, count, lam_found, raised_param, result_at, sum};
use crate::refusal::{MatchRefusal, Matched};
use crate::refusing::{clash, differ, no_root, within, within_part};
use coercion_terms::{fields_part, meta_part, same_part};
use omega_kinds::{Effect, Kind, Kinds, Label, Mem, Name, same_kind};
use omega_terms::{Term, TermFields};
use omega_types::Ty;
use semantic_sigs::{
    Abs, Functor, Item, Path, Sig, SigFields, SigNode, Why, Witnesses, encode, encode_sig, field,
    find_field, raise_abs,
};
use sig_roots::roots;
use std::alloc::Global;
use type_normal::{NormalTy, same};

// A right side under its hidden types, into which the types that are found are put.
#[derive(Clone, Copy)]
struct RightSide<'a> {
    kinds: &'a Kinds,
    body: &'a Sig,
    found: &'a Witnesses,
}

/// The match of a left side with a right one, where so many type variables are in scope: the hidden types are looked up
/// in order, and then the right side at these types is compared.
#[cycle(matching)]
pub(crate) fn match_in(
    alloc: Global,
    depth: u64,
    left: &Sig,
    right: &Abs,
) -> Result<Matched, MatchRefusal>
    requires { MayMatch depth left.now right.now }
    ensures { EachMatch depth left.now right.now result }
{
    let mut made = Vec::new(alloc);
    let types = look_all(alloc, depth, left, right, &mut made)?;
    let at = at_types(alloc, right, &types)?;
    let coercion = sub_sig(alloc, depth, left, &at, &made)?;
    Ok(Matched { types, coercion })
}

// The types of all hidden ones of the right side, each looked up along its least root path.
#[cycle(matching)]
fn look_all(
    alloc: Global,
    depth: u64,
    left: &Sig,
    right: &Abs,
    made: &mut Vec<Made>,
) -> Result<Witnesses, MatchRefusal>
    requires sides { MayMatch depth left.now right.now }
    requires made { AllHold made.old.items }
    ensures found { EachLookAll depth left.now right.now result }
    ensures made { AllHold made.new.items }
{
    let roots = roots(alloc, right)?;
    let mut found = Witnesses::new(alloc);
    for root in &roots {
        let ty = look_root(alloc, depth, left, right, &found, root, made)?;
        found.push(ty)?;
    }
    Ok(found)
}

// The type of the next hidden one, after those that are found.
#[cycle(matching)]
fn look_root(
    alloc: Global,
    depth: u64,
    left: &Sig,
    right: &Abs,
    found: &Witnesses,
    root: &Option<Path>,
    made: &mut Vec<Made>,
) -> Result<NormalTy, MatchRefusal>
    requires sides { MayLookNext depth left.now right.now found.now root.now }
    requires made { AllHold made.old.items }
    ensures found { EachLookNext depth left.now right.now found.now root.now result }
    ensures made { AllHold made.new.items }
{
    let index = found.items().len() as u64;
    match root {
        Some(path) => {
            let kinds = right.kinds();
            let body = right.body();
            let side = RightSide { kinds, body, found };
            let ty = look(alloc, depth, left, path.items(), &side, made)?;
            match ty {
                Some(ty) => Ok(ty),
                None => Err(no_root(alloc, index, path)),
            }
        }
        None => Err(MatchRefusal::NoRoot {
            index,
            path: Path::new(alloc),
        }),
    }
}

// The type that the left side has at a path of the right side, which stands under hidden types; those found are put in.
#[cycle(matching)]
fn look(
    alloc: Global,
    depth: u64,
    left: &Sig,
    path: &[Item],
    right: &RightSide<'_>,
    made: &mut Vec<Made>,
) -> Result<Option<NormalTy>, Mem>
    requires sides { MayLook depth left.now right.now.kinds.now right.now.body.now right.now.found.now }
    requires made { AllHold made.old.items }
    ensures found { IfOk result (λ o. EachLook depth left.now (map item_of path.now) right.now.kinds.now right.now.body.now right.now.found.now o) }
    ensures made { AllHold made.new.items }
{
    match path {
        [] => look_end(left, right.body),
        [first, rest @ ..] => look_step(alloc, depth, left, first, rest, right, made),
    }
}

// The same along a path with a first step.
#[cycle(matching)]
fn look_step(
    alloc: Global,
    depth: u64,
    left: &Sig,
    first: &Item,
    rest: &[Item],
    right: &RightSide<'_>,
    made: &mut Vec<Made>,
) -> Result<Option<NormalTy>, Mem>
    requires sides { MayLook depth left.now right.now.kinds.now right.now.body.now right.now.found.now }
    requires made { AllHold made.old.items }
    ensures found { IfOk result (λ o. EachLook depth left.now (item_of first.now ∷ map item_of rest.now) right.now.kinds.now right.now.body.now right.now.found.now o) }
    ensures made { AllHold made.new.items }
{
    match first {
        Item::Part(name) => look_part(alloc, depth, left, name, rest, right, made),
        Item::Res => {
            let left = cut_result(alloc, left, rest)?;
            let body = cut_result(alloc, right.body, rest)?;
            let right = at_found(alloc, right.kinds, &body, right.found)?;
            look_result(alloc, depth, &left, rest, &right, made)
        }
        Item::Arg => Ok(None),
        Item::Meta => Ok(None),
    }
}

// The same through a field.
#[cycle(matching)]
fn look_part(
    alloc: Global,
    depth: u64,
    left: &Sig,
    name: &Name,
    rest: &[Item],
    right: &RightSide<'_>,
    made: &mut Vec<Made>,
) -> Result<Option<NormalTy>, Mem>
    requires sides { MayLook depth left.now right.now.kinds.now right.now.body.now right.now.found.now }
    requires made { AllHold made.old.items }
    ensures found { IfOk result (λ o. EachLook depth left.now (Part name.now ∷ map item_of rest.now) right.now.kinds.now right.now.body.now right.now.found.now o) }
    ensures made { AllHold made.new.items }
{
    let Some(left) = field(left, name) else {
        return Ok(None);
    };
    let Some(body) = field(right.body, name) else {
        return Ok(None);
    };
    let kinds = right.kinds;
    let found = right.found;
    let side = RightSide { kinds, body, found };
    look(alloc, depth, left, rest, &side, made)
}

// The type of a left type part that has the kind of the right one.
fn look_end(left: &Sig, right: &Sig) -> Result<Option<NormalTy>, Mem>
    ensures { IfOk result (λ o. Ends left.now right.now o) }
{
    let Some((ty, kind)) = left.as_type() else {
        return Ok(None);
    };
    let Some((_, other)) = right.as_type() else {
        return Ok(None);
    };
    if same_kind(kind, other) {
        Ok(Some(ty.share()?))
    } else {
        Ok(None)
    }
}

// The type that the left side has at a path through the result of a pure functor.
#[cycle(matching)]
fn look_result(
    alloc: Global,
    depth: u64,
    left: &Sig,
    rest: &[Item],
    right: &Sig,
    made: &mut Vec<Made>,
) -> Result<Option<NormalTy>, Mem>
    requires sides { MayLookInto depth left.now right.now }
    requires made { AllHold made.old.items }
    ensures found { IfOk result (λ o. EachLookInto depth left.now (map item_of rest.now) right.now o) }
    ensures made { AllHold made.new.items }
{
    let Some(left) = left.as_functor() else {
        return Ok(None);
    };
    let Some(right) = right.as_functor() else {
        return Ok(None);
    };
    if !both_pure(left.effect, right.effect) {
        return Ok(None);
    }
    look_target(alloc, depth, &left, rest, &right, made)
}

// The same for pure functors.
#[cycle(matching)]
fn look_target(
    alloc: Global,
    depth: u64,
    left: &Functor<'_>,
    rest: &[Item],
    right: &Functor<'_>,
    made: &mut Vec<Made>,
) -> Result<Option<NormalTy>, Mem>
    requires sides { MaySub depth (Fun Pure left.now.kinds.now left.now.param.now left.now.target.now) (Fun Pure right.now.kinds.now right.now.param.now right.now.target.now) }
    requires made { AllHold made.old.items }
    ensures found { IfOk result (λ o. EachLookInto depth (Fun Pure left.now.kinds.now left.now.param.now left.now.target.now) (map item_of rest.now) (Fun Pure right.now.kinds.now right.now.param.now right.now.target.now) o) }
    ensures made { AllHold made.new.items }
{
    let under = sum(count(right.kinds), depth)?;
    let Some(target) = target_at(alloc, depth, left, right, made)? else {
        return Ok(None);
    };
    let kinds = Kinds::new(alloc);
    let none = Witnesses::new(alloc);
    let from = target.body();
    let to = right.target.body();
    let side = RightSide {
        kinds: &kinds,
        body: to,
        found: &none,
    };
    let ty = look(alloc, under, from, rest, &side, made)?;
    lam_found(alloc, right.kinds, ty)
}

// The left result at the types of the match of the parameters, or none where they do not match.
#[cycle(matching)]
fn target_at(
    alloc: Global,
    depth: u64,
    left: &Functor<'_>,
    right: &Functor<'_>,
    made: &mut Vec<Made>,
) -> Result<Option<Abs>, Mem>
    requires sides { MaySub depth (Fun Pure left.now.kinds.now left.now.param.now left.now.target.now) (Fun Pure right.now.kinds.now right.now.param.now right.now.target.now) }
    requires made { AllHold made.old.items }
    ensures at { IfOk result (λ o. IsTarget depth left.now.kinds.now left.now.param.now left.now.target.now right.now.kinds.now right.now.param.now o) }
    ensures made { AllHold made.new.items }
{
    let by = count(right.kinds);
    let under = sum(by, depth)?;
    let param = raised_param(alloc, left, by)?;
    let key = key_of(alloc, under, right.param, &param)?;
    if let Some(inner) = known(made, &key) {
        return Ok(Some(result_at(alloc, left, by, &inner.types)?));
    }
    let outcome = match_in(alloc, under, right.param, &param);
    let Some(inner) = if_matched(outcome)? else {
        return Ok(None);
    };
    let target = result_at(alloc, left, by, &inner.types)?;
    keep(made, key, inner)?;
    Ok(Some(target))
}

// The match, or none where it is refused; out of memory is no refusal.
fn if_matched(outcome: Result<Matched, MatchRefusal>) -> Result<Option<Matched>, Mem>
    ensures { IfOk result (λ o. IfMatched outcome o) }
{
    match outcome {
        Ok(matched) => Ok(Some(matched)),
        Err(MatchRefusal::Mem) => Err(Mem),
        Err(MatchRefusal::NoRoot { .. }) => Ok(None),
        Err(MatchRefusal::Clash { .. }) => Ok(None),
    }
}

// The coercion from a signature to another, or where they clash first.
#[cycle(matching)]
fn sub_sig(
    alloc: Global,
    depth: u64,
    left: &Sig,
    right: &Sig,
    made: &[Made],
) -> Result<Term, MatchRefusal>
    requires sides { MaySub depth left.now right.now }
    requires made { AllHold made.now }
    ensures { EachSub depth left.now right.now result }
{
    let from = encode_sig(left)?;
    match left.node() {
        SigNode::Val(ty) => sub_value(alloc, depth, &from, ty, right),
        SigNode::Typ(ty, kind) => sub_type(alloc, depth, &from, ty, kind, right),
        SigNode::Meta(abs) => match right.as_signature() {
            Some(other) => sub_meta(alloc, depth, &from, abs, other),
            None => Err(clash(alloc, depth, Why::Form)),
        },
        SigNode::Str(fields) => match right.as_structure() {
            Some(other) => sub_fields(alloc, depth, &from, fields, other, made),
            None => Err(clash(alloc, depth, Why::Form)),
        },
        SigNode::Fun {
            effect,
            kinds,
            param,
            result,
        } => {
            let left = Functor {
                effect: *effect,
                kinds,
                param,
                target: result,
            };
            match right.as_functor() {
                Some(right) => sub_functor(alloc, depth, &from, &left, &right, made),
                None => Err(clash(alloc, depth, Why::Form)),
            }
        }
    }
}

// Value parts have one type.
fn sub_value(
    alloc: Global,
    depth: u64,
    from: &Ty,
    ty: &NormalTy,
    right: &Sig,
) -> Result<Term, MatchRefusal>
    requires { from.now ≡ enc (Val ty.now) }
    ensures { (ctx : List KindTree) → length ctx ≡ depth → SubGives ctx (Val ty.now) right.now result }
{
    let Some(other) = right.as_value() else {
        return Err(clash(alloc, depth, Why::Form));
    };
    if same(ty, other) {
        Ok(same_part(alloc, from)?)
    } else {
        Err(differ(alloc, depth, ty, other))
    }
}

// Type parts have one type and one kind.
fn sub_type(
    alloc: Global,
    depth: u64,
    from: &Ty,
    ty: &NormalTy,
    kind: &Kind,
    right: &Sig,
) -> Result<Term, MatchRefusal>
    requires { from.now ≡ enc (Typ ty.now (kind_tree kind.now)) }
    ensures { (ctx : List KindTree) → length ctx ≡ depth → SubGives ctx (Typ ty.now (kind_tree kind.now)) right.now result }
{
    let Some(other) = right.as_type() else {
        return Err(clash(alloc, depth, Why::Form));
    };
    if alike(ty, kind, other.0, other.1) {
        Ok(same_part(alloc, from)?)
    } else {
        Err(differ(alloc, depth, ty, other.0))
    }
}

// Whether two types are the same and of one kind.
fn alike(left: &NormalTy, left_kind: &Kind, right: &NormalTy, right_kind: &Kind) -> bool
    ensures { IsTrue result ↔ ((left.now ≡ right.now) × (kind_tree left_kind.now ≡ kind_tree right_kind.now)) }
{
    same(left, right) && same_kind(left_kind, right_kind)
}

// Signature parts are compared both ways, but for those that are below each other by a law.
#[cycle(matching)]
fn sub_meta(
    alloc: Global,
    depth: u64,
    from: &Ty,
    left: &Abs,
    right: &Abs,
) -> Result<Term, MatchRefusal>
    requires from { from.now ≡ enc (Meta left.now) }
    requires sides { MaySub depth (Meta left.now) (Meta right.now) }
    ensures { EachSub depth (Meta left.now) (Meta right.now) result }
{
    let is_alike = are_alike(alloc, left, right)?;
    if is_alike {
        return Ok(meta_part(alloc, from, &encode(alloc, right)?)?);
    }
    match sub_abs_in(alloc, depth, left, right) {
        Ok(_there) => sub_back(alloc, depth, from, left, right),
        Err(refusal) => Err(within(alloc, Item::Meta, refusal)),
    }
}

// Signature parts of which the left one is below the right one.
#[cycle(matching)]
fn sub_back(
    alloc: Global,
    depth: u64,
    from: &Ty,
    left: &Abs,
    right: &Abs,
) -> Result<Term, MatchRefusal>
    requires from { from.now ≡ enc (Meta left.now) }
    requires sides { MaySub depth (Meta left.now) (Meta right.now) }
    requires there { (f : TermTree) × EachSubAbs depth left.now right.now (Ok f) }
    ensures { EachSub depth (Meta left.now) (Meta right.now) result }
{
    match sub_abs_in(alloc, depth, right, left) {
        Ok(_back) => Ok(meta_part(alloc, from, &encode(alloc, right)?)?),
        Err(refusal) => Err(within(alloc, Item::Meta, refusal)),
    }
}

// Each field of the right side stands on the left too.
#[cycle(matching)]
fn sub_fields(
    alloc: Global,
    depth: u64,
    from: &Ty,
    left: &SigFields,
    right: &SigFields,
    made: &[Made],
) -> Result<Term, MatchRefusal>
    requires from { from.now ≡ enc (Str (sig_row left.now)) }
    requires sides { MaySub depth (Str (sig_row left.now)) (Str (sig_row right.now)) }
    requires made { AllHold made.now }
    ensures { EachSub depth (Str (sig_row left.now)) (Str (sig_row right.now)) result }
{
    let mut parts = TermFields::new(alloc);
    for field in right.items() {
        let part = sub_field(alloc, depth, left, &field.0, &field.1, made)?;
        parts.push((Label::Name(field.0.share()?), part))?;
    }
    Ok(fields_part(alloc, from, parts)?)
}

// The left part of a name against the right one.
#[cycle(matching)]
fn sub_field(
    alloc: Global,
    depth: u64,
    left: &SigFields,
    name: &Name,
    right: &Sig,
    made: &[Made],
) -> Result<Term, MatchRefusal>
    requires sides { MaySub depth (Str (sig_row left.now)) right.now }
    requires made { AllHold made.now }
    ensures { EachField depth (sig_row left.now) name.now right.now result }
{
    let Some(left) = find_field(left, name) else {
        let missing = clash(alloc, depth, Why::Missing);
        return Err(within_part(alloc, name, missing));
    };
    match sub_sig(alloc, depth, left, right, made) {
        Ok(coercion) => Ok(coercion),
        Err(refusal) => Err(within_part(alloc, name, refusal)),
    }
}

// Functors: first the effects, then the parameters the other way round, then the results.
#[cycle(matching)]
fn sub_functor(
    alloc: Global,
    depth: u64,
    from: &Ty,
    left: &Functor<'_>,
    right: &Functor<'_>,
    made: &[Made],
) -> Result<Term, MatchRefusal>
    requires from { from.now ≡ enc (Fun left.now.effect left.now.kinds.now left.now.param.now left.now.target.now) }
    requires sides { MaySub depth (Fun left.now.effect left.now.kinds.now left.now.param.now left.now.target.now) (Fun right.now.effect right.now.kinds.now right.now.param.now right.now.target.now) }
    requires made { AllHold made.now }
    ensures { EachSub depth (Fun left.now.effect left.now.kinds.now left.now.param.now left.now.target.now) (Fun right.now.effect right.now.kinds.now right.now.param.now right.now.target.now) result }
{
    if impure_for_pure(left.effect, right.effect) {
        return Err(clash(alloc, depth, Why::Effect));
    }
    let by = count(right.kinds);
    let under = sum(by, depth)?;
    let param = raised_param(alloc, left, by)?;
    let key = key_of(alloc, under, right.param, &param)?;
    if let Some(inner) = known(made, &key) {
        return sub_target(alloc, depth, from, left, right, inner, made);
    }
    match match_in(alloc, under, right.param, &param) {
        Ok(inner) => sub_target(alloc, depth, from, left, right, &inner, made),
        Err(refusal) => Err(within(alloc, Item::Arg, refusal)),
    }
}

// Functors whose parameters match.
#[cycle(matching)]
fn sub_target(
    alloc: Global,
    depth: u64,
    from: &Ty,
    left: &Functor<'_>,
    right: &Functor<'_>,
    inner: &Matched,
    made: &[Made],
) -> Result<Term, MatchRefusal>
    requires from { from.now ≡ enc (Fun left.now.effect left.now.kinds.now left.now.param.now left.now.target.now) }
    requires sides { MaySub depth (Fun left.now.effect left.now.kinds.now left.now.param.now left.now.target.now) (Fun right.now.effect right.now.kinds.now right.now.param.now right.now.target.now) }
    requires effects { (left.now.effect ≡ Impure) × (right.now.effect ≡ Pure) → ⊥ }
    requires inner { EachMatch (length right.now.kinds.now + depth) right.now.param.now (raise_abs_of right.now.kinds.now (Ex left.now.kinds.now left.now.param.now)) (Ok inner.now) }
    requires made { AllHold made.now }
    ensures { EachSub depth (Fun left.now.effect left.now.kinds.now left.now.param.now left.now.target.now) (Fun right.now.effect right.now.kinds.now right.now.param.now right.now.target.now) result }
{
    let by = count(right.kinds);
    let under = sum(by, depth)?;
    let at = result_at(alloc, left, by, &inner.types)?;
    match sub_result(alloc, under, right.effect, &at, right.target, made) {
        Ok(outer) => Ok(functor_coercion(alloc, from, left, right, inner, &outer)?),
        Err(refusal) => Err(within(alloc, Item::Res, refusal)),
    }
}

// The results of functors: those of pure ones hide nothing.
#[cycle(matching)]
fn sub_result(
    alloc: Global,
    depth: u64,
    right_effect: Effect,
    left: &Abs,
    right: &Abs,
    made: &[Made],
) -> Result<Term, MatchRefusal>
    requires sides { MayResult depth right_effect left.now right.now }
    requires made { AllHold made.now }
    ensures { EachResult depth right_effect left.now right.now result }
{
    match right_effect {
        Effect::Pure => sub_sig(alloc, depth, left.body(), right.body(), made),
        Effect::Impure => sub_abs_in(alloc, depth, left, right),
    }
}

/// The coercion between signatures that may hide types, where so many type variables are in scope.
#[cycle(matching)]
pub(crate) fn sub_abs_in(
    alloc: Global,
    depth: u64,
    left: &Abs,
    right: &Abs,
) -> Result<Term, MatchRefusal>
    requires { MaySubAbs depth left.now right.now }
    ensures { EachSubAbs depth left.now right.now result }
{
    let by = count(left.kinds());
    let raised = raise_abs(alloc, right, by, 0)?;
    let inner = match_in(alloc, sum(by, depth)?, left.body(), &raised)?;
    Ok(abs_coercion(alloc, left, &inner, &raised)?)
}
