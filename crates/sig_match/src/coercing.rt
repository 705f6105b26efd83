// The coercions of functors and of signatures that hide types, from the sides themselves.
ghost use Rattle.std.specs.Prelude.{◌≡◌, IfOk};
ghost use Rattle.omega_terms.specs.Coercions.{functor_part as functor_part_of};
ghost use Rattle.sig_definitions.specs.Signatures.Encoding.{enc, enc_abs};
ghost use Rattle.sig_match.specs.Inner.Coerced.{IsAbsCoercion};

use crate::refusal::Matched;
use coercion_terms::{Functors, abs_part, functor_part, match_part};
use omega_kinds::Mem;
use omega_terms::Term;
use omega_types::Ty;
use semantic_sigs::{Abs, Functor, encode, encode_sig};
use std::alloc::Global;

/// The coercion between functors: `from` is the encoding of the left one, `inner` is the match of its parameter, and
/// `outer` the coercion of the result.
pub(crate) fn functor_coercion(
    alloc: Global,
    from: &Ty,
    left: &Functor<'_>,
    right: &Functor<'_>,
    inner: &Matched,
    outer: &Term,
) -> Result<Term, Mem>
    ensures { IfOk result (λ e. e ≡ functor_part_of from.now left.now.effect right.now.effect right.now.kinds.now (enc right.now.param.now) inner.now.types inner.now.coercion outer.now) }
{
    let sides = Functors {
        from,
        left: left.effect,
        right: right.effect,
        kinds: right.kinds,
        param: &encode_sig(right.param)?,
    };
    let types = inner.types.items();
    functor_part(alloc, &sides, types, &inner.coercion, outer)
}

/// The coercion between signatures that may hide types: under the left one's, `inner` is the match of its body with the
/// right one, which is raised past them.
pub(crate) fn abs_coercion(
    alloc: Global,
    left: &Abs,
    inner: &Matched,
    right: &Abs,
) -> Result<Term, Mem>
    ensures { IfOk result (λ e. IsAbsCoercion left.now inner.now.types inner.now.coercion (enc_abs right.now) e) }
{
    let from = encode(alloc, left)?;
    let to = encode(alloc, right)?;
    let types = inner.types.items();
    let count = left.kinds().items().len() as u64;
    if count == 0 {
        match_part(alloc, &from, types, &inner.coercion, &to)
    } else {
        abs_part(alloc, &from, count, types, &inner.coercion, &to)
    }
}
