// The trees of derived forms, in which hidden names stand for the parts.
ghost use Rattle.std.specs.Prelude.{◌≡◌, [], ◌∷◌, ◌++◌, IfOk, OnOk};
ghost use Rattle.fing_syntax.specs.Inner.Leaves.{place};
ghost use Rattle.fing_syntax.specs.Inner.View.{binds as binds_of};
ghost use Rattle.parse_grammar.specs.Forms as form;
ghost use Rattle.parse_grammar.specs.Parts as part;
ghost use Rattle.parse_forms.specs.Inner.Part.{tail_in, abstraction_in};

use crate::kept::Kept;
use crate::part::{Abstraction, TypeTail};
use crate::tokens::{hidden, named, up_to};
use fing_lexer::Token;
use fing_syntax::{
    Bind, BindWhat, Decl, DeclWhat, Exp, ExpWhat, Mod, ModWhat, SigEx, TyEx, TyWhat,
};
use fing_text::Span;
use omega_kinds::{Kind, Mem};
use std::alloc::Global;

// `from (struct B end).%0`
fn result_of(alloc: Global, span: Span, binds: Vec<Bind>) -> Result<Mod, Mem>
    ensures { IfOk result (λ m. m ≡ form.result_of (place span) (binds_of binds.items)) }
{
    let name = hidden(alloc, b"%0", span)?;
    let structure = Mod {
        span,
        what: ModWhat::Struct(binds),
    };
    let structure = Box::new(alloc, structure)?;
    Ok(Mod {
        span,
        what: ModWhat::Project(structure, name),
    })
}

// `module N = M`, for a hidden name N
fn hidden_module(alloc: Global, span: Span, name: &[u8], inner: Mod) -> Result<Bind, Mem>
    ensures { IfOk result (λ b. b ≡ form.hidden_module (place span) name.now inner) }
{
    let inner = Kept::new(inner);
    let name = hidden(alloc, name, span)?;
    Ok(Bind {
        span,
        what: BindWhat::Module(name, inner.take()),
    })
}

// Adds `module N = M`, for a hidden name N, to bindings.
fn add_module(
    alloc: Global,
    binds: &mut Vec<Bind>,
    span: Span,
    name: &[u8],
    inner: Mod,
) -> Result<(), Mem>
    ensures { OnOk result (binds.new.items ≡ binds.old.items ++ form.hidden_module (place span) name.now inner ∷ []) }
{
    let bind = hidden_module(alloc, span, name, inner)?;
    binds.push(bind)?;
    Ok(())
}

// `from (struct module %1 = M1 module %2 = M2 module %0 = M end).%0`
fn of_three(alloc: Global, span: Span, first: Mod, second: Mod, last: Mod) -> Result<Mod, Mem>
    ensures { IfOk result (λ m. m ≡ form.of_three (place span) first second last) }
{
    let second = Kept::new(second);
    let last = Kept::new(last);
    let mut binds = Vec::new(alloc);
    add_module(alloc, &mut binds, span, b"%1", first)?;
    add_module(alloc, &mut binds, span, b"%2", second.take())?;
    add_module(alloc, &mut binds, span, b"%0", last.take())?;
    result_of(alloc, span, binds)
}

// `val %0 = E`
fn hidden_val(alloc: Global, span: Span, value: Exp) -> Result<Bind, Mem>
    ensures { IfOk result (λ b. b ≡ form.hidden_val (place span) value) }
{
    let value = Kept::new(value);
    let name = hidden(alloc, b"%0", span)?;
    Ok(Bind {
        span,
        what: BindWhat::Val(name, value.take()),
    })
}

/// `let B in M end`, at this place. `Err` is want of memory.
#[tactic(auto, using(crate::proofs::Chained::bind_last))]
pub fn let_mod(alloc: Global, span: Span, binds: Vec<Bind>, body: Mod) -> Result<Mod, Mem>
    ensures { IfOk result (λ m. m ≡ form.let_mod (place span) (binds_of binds.items) body) }
{
    let last = hidden_module(alloc, span, b"%0", body)?;
    let mut all = binds;
    all.push(last)?;
    result_of(alloc, span, all)
}

/// `let B in E end`, at this place. `Err` is want of memory.
#[tactic(auto, using(crate::proofs::Chained::bind_last))]
pub fn let_exp(alloc: Global, span: Span, binds: Vec<Bind>, body: Exp) -> Result<Exp, Mem>
    ensures { IfOk result (λ e. e ≡ form.let_exp (place span) (binds_of binds.items) body) }
{
    let last = hidden_val(alloc, span, body)?;
    let mut all = binds;
    all.push(last)?;
    value_of(alloc, span, all)
}

/// `M1 M2`. `Err` is want of memory.
pub fn apply_mod(alloc: Global, function: Mod, argument: Mod) -> Result<Mod, Mem>
    ensures { IfOk result (λ m. m ≡ form.apply_mod function argument) }
{
    let span = up_to(function.span, argument.span);
    let function = Kept::new(function);
    let argument = Kept::new(argument);
    let callee = hidden(alloc, b"%1", function.value.span)?;
    let operand = hidden(alloc, b"%2", argument.value.span)?;
    let applied = Mod {
        span,
        what: ModWhat::Apply(callee, operand),
    };
    of_three(alloc, span, function.take(), argument.take(), applied)
}

/// `M :> S`. `Err` is want of memory.
pub fn seal_mod(alloc: Global, inner: Mod, sig: SigEx) -> Result<Mod, Mem>
    ensures { IfOk result (λ m. m ≡ form.seal_mod inner sig) }
{
    let span = up_to(inner.span, sig.span);
    let inner = Kept::new(inner);
    let sig = Box::new(alloc, sig)?;
    let name = hidden(alloc, b"%1", inner.value.span)?;
    let sealed = Kept::new(Mod {
        span,
        what: ModWhat::Seal(name, sig),
    });
    let mut binds = Vec::new(alloc);
    add_module(alloc, &mut binds, span, b"%1", inner.take())?;
    add_module(alloc, &mut binds, span, b"%0", sealed.take())?;
    result_of(alloc, span, binds)
}

// `fun (%3 : S) => %3`
fn identity(alloc: Global, span: Span, sig: SigEx) -> Result<Mod, Mem>
    ensures { IfOk result (λ m. m ≡ form.identity (place span) sig) }
{
    let param = Box::new(alloc, sig)?;
    let body = Mod {
        span,
        what: ModWhat::Name(hidden(alloc, b"%3", span)?),
    };
    let body = Box::new(alloc, body)?;
    let name = hidden(alloc, b"%3", span)?;
    Ok(Mod {
        span,
        what: ModWhat::Functor {
            generative: false,
            name,
            param,
            body,
        },
    })
}

/// `M : S`. `Err` is want of memory.
pub fn show_mod(alloc: Global, inner: Mod, sig: SigEx) -> Result<Mod, Mem>
    ensures { IfOk result (λ m. m ≡ form.show_mod inner sig) }
{
    let span = up_to(inner.span, sig.span);
    let inner = Kept::new(inner);
    let function = Kept::new(identity(alloc, span, sig)?);
    let callee = hidden(alloc, b"%2", span)?;
    let operand = hidden(alloc, b"%1", inner.value.span)?;
    let applied = Mod {
        span,
        what: ModWhat::Apply(callee, operand),
    };
    of_three(alloc, span, inner.take(), function.take(), applied)
}

// `pack %1 : S`, for the hidden name of a module that stands at this place
fn hidden_pack(alloc: Global, span: Span, at: Span, sig: SigEx) -> Result<Exp, Mem>
    ensures { IfOk result (λ e. e ≡ form.hidden_pack (place span) (place at) sig) }
{
    let sig = Box::new(alloc, sig)?;
    let name = hidden(alloc, b"%1", at)?;
    Ok(Exp {
        span,
        what: ExpWhat::Pack(name, sig),
    })
}

// The path of the result of these bindings, as a value.
fn value_of(alloc: Global, span: Span, binds: Vec<Bind>) -> Result<Exp, Mem>
    ensures { IfOk result (λ e. e ≡ form.value_of (place span) (binds_of binds.items)) }
{
    let path = result_of(alloc, span, binds)?;
    Ok(Exp {
        span,
        what: ExpWhat::Path(path),
    })
}

/// `pack M : S`, at this place. `Err` is want of memory.
pub fn pack_exp(alloc: Global, span: Span, inner: Mod, sig: SigEx) -> Result<Exp, Mem>
    ensures { IfOk result (λ e. e ≡ form.pack_exp (place span) inner sig) }
{
    let inner = Kept::new(inner);
    let packed = hidden_pack(alloc, span, inner.value.span, sig)?;
    let last = Kept::new(hidden_val(alloc, span, packed)?);
    let mut binds = Vec::new(alloc);
    add_module(alloc, &mut binds, span, b"%1", inner.take())?;
    binds.push(last.take())?;
    value_of(alloc, span, binds)
}

// The recursive type of this body, in which the name stands for the type itself.
fn recursive(alloc: Global, span: Span, name: &Token, body: TyEx) -> Result<TyEx, Mem>
    ensures { IfOk result (λ t. t ≡ form.recursive (place span) (part.named name.now) body) }
{
    let body = Box::new(alloc, body)?;
    let name = named(alloc, name)?;
    Ok(TyEx {
        span,
        what: TyWhat::Mu(name, body),
    })
}

/// `data X = T` as a binding, at this place. `Err` is want of memory.
pub fn data_bind(alloc: Global, span: Span, name: &Token, body: TyEx) -> Result<Bind, Mem>
    ensures { IfOk result (λ b. b ≡ form.data_bind (place span) (part.named name.now) body) }
{
    let ty = Kept::new(recursive(alloc, span, name, body)?);
    let name = named(alloc, name)?;
    Ok(Bind {
        span,
        what: BindWhat::Ty(name, ty.take()),
    })
}

/// `data X = T` as a declaration, at this place. `Err` is want of memory.
pub fn data_decl(alloc: Global, span: Span, name: &Token, body: TyEx) -> Result<Decl, Mem>
    ensures { IfOk result (λ d. d ≡ form.data_decl (place span) (part.named name.now) body) }
{
    let ty = Kept::new(recursive(alloc, span, name, body)?);
    let name = named(alloc, name)?;
    Ok(Decl {
        span,
        what: DeclWhat::TyIs(name, ty.take()),
    })
}

/// A declaration of a type, from its keyword, its name and what follows them. `Err` is want of memory.
pub fn declared_type(alloc: Global, word: &Token, name: &Token, tail: TypeTail) -> Result<Decl, Mem>
    ensures { IfOk result (λ d. d ≡ form.decl_type_of word.now name.now (tail_in tail)) }
{
    let end = name.span;
    let tail = Kept::new(tail);
    let name = named(alloc, name)?;
    Ok(match tail.take() {
        TypeTail::Open => Decl {
            span: up_to(word.span, end),
            what: DeclWhat::TyOf(name, Kind::Star),
        },
        TypeTail::Is(ty) => Decl {
            span: up_to(word.span, ty.span),
            what: DeclWhat::TyIs(name, ty),
        },
        TypeTail::Has(kind) => Decl {
            span: up_to(word.span, kind.last),
            what: DeclWhat::TyOf(name, kind.kind),
        },
    })
}

/// A function of values or of types, from its keyword and what follows it. `Err` is want of memory.
pub fn abstracted(alloc: Global, word: &Token, abstraction: Abstraction) -> Result<Exp, Mem>
    ensures { IfOk result (λ e. e ≡ form.abstraction_of word.now (abstraction_in abstraction)) }
{
    match abstraction {
        Abstraction::Value(name, ty, body) => {
            let span = up_to(word.span, body.span);
            let ty = Kept::new(ty);
            let body = Box::new(alloc, body)?;
            Ok(Exp {
                span,
                what: ExpWhat::Lam(name, ty.take(), body),
            })
        }
        Abstraction::Type(name, kind, body) => {
            let span = up_to(word.span, body.span);
            let body = Box::new(alloc, body)?;
            Ok(Exp {
                span,
                what: ExpWhat::TyLam(name, kind, body),
            })
        }
    }
}
