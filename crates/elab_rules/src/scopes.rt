// What stands in an environment: pushed on the way into a phrase, and taken away on the way out.
ghost use Rattle.std.specs.Prelude.{◌≡◌, ◌∷◌, OnOk, drop};
ghost use Rattle.omega_kinds.specs.View.{kind_tree};
ghost use Rattle.sig_definitions.specs.Env.{Value, named_fields, type_vars as type_vars_after, with_module};
ghost use Rattle.sig_definitions.specs.Signatures.Sig.{Str};
ghost use Rattle.semantic_sigs.specs.Inner.Fields.{sig_row};
ghost use Rattle.semantic_sigs.specs.Inner.View.{body_of, kinds_of};
ghost use Rattle.elab_judgments.specs.Operators.{include_name, with_type as with_type_after};
ghost use Rattle.elab_rules.specs.Inner.Fields.{fields_in};

use omega_kinds::{Kind, Kinds, Mem, Name, name_of};
use semantic_sigs::{Abs, Entry, Env, SigFields, SigNode};
use std::alloc::Global;
use type_normal::NormalTy;

/// A type parameter of a name and a kind. `Err` is want of memory, as for all pushes.
pub fn push_type(env: &mut Env, name: &Name, kind: &Kind) -> Result<(), Mem>
    ensures { OnOk result (env.new ≡ with_type_after env.old (kind_tree kind.now) name.now) }
{
    env.push(Entry::TypeVar(kind.share()?))?;
    env.push(Entry::TypeParam(name.share()?))?;
    Ok(())
}

/// A value parameter of a name and a type.
pub fn push_value(env: &mut Env, name: &Name, ty: &NormalTy) -> Result<(), Mem>
    ensures { OnOk result (env.new ≡ Value name.now ty.now ∷ env.old) }
{
    env.push(Entry::Value(name.share()?, ty.share()?))?;
    Ok(())
}

/// Type variables of these kinds, the first one the outermost.
pub fn push_type_vars(env: &mut Env, kinds: &Kinds) -> Result<(), Mem>
    ensures { OnOk result (env.new ≡ type_vars_after env.old kinds.now) }
{
    for kind in kinds.items() {
        env.push(Entry::TypeVar(kind.share()?))?;
    }
    Ok(())
}

/// A module of a name, after the types that its signature hides.
pub fn push_module(env: &mut Env, name: &Name, sig: &Abs) -> Result<(), Mem>
    ensures { OnOk result (env.new ≡ with_module env.old (kinds_of sig.now) name.now (body_of sig.now)) }
{
    push_type_vars(env, sig.kinds())?;
    env.push(Entry::Named(name.share()?, sig.body().share()?))?;
    Ok(())
}

/// Each field as a module of its name, in order.
pub fn push_fields(env: &mut Env, fields: &SigFields) -> Result<(), Mem>
    ensures { OnOk result (env.new ≡ named_fields env.old (sig_row fields.now)) }
{
    for field in fields.items() {
        env.push(Entry::Named(field.0.share()?, field.1.share()?))?;
    }
    Ok(())
}

/// The fields of a structure.
pub fn fields_of(sig: &Abs) -> &SigFields
    requires { body_of sig.now ≡ Str (fields_in sig.now) }
    ensures { sig_row result.now ≡ fields_in sig.now }
{
    match sig.body().node() {
        SigNode::Str(fields) => fields,
        _ => unreachable!(),
    }
}

/// An included module and each of its fields.
pub fn push_included(
    alloc: Global,
    env: &mut Env,
    head: &Abs,
    fields: &SigFields,
) -> Result<(), Mem>
    ensures { OnOk result (env.new ≡ named_fields (with_module env.old (kinds_of head.now) include_name (body_of head.now)) (sig_row fields.now)) }
{
    let hidden = name_of(alloc, b"%4")?;
    push_module(env, &hidden, head)?;
    push_fields(env, fields)
}

/// Takes the last `count` entries of an environment away, and all of them where there are fewer.
pub fn leave(env: &mut Env, count: usize)
    ensures { env.new ≡ drop count env.old }
{
    for step in 0..count {
        env.pop();
    }
}
