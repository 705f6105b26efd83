// What is in scope at a place of a program, and what a phrase there means.
use elab_phrases::module_in;
use fing_lexer::Token;
use fing_parser::{ParseRefusal, program};
use fing_refusals::{ElabWhy, Refusal};
use fing_syntax::{Mod, ModWhat, Program};
use fing_text::{SOURCE_LIMIT, Span};
use omega_kinds::{Kinds, Mem, Name};
use semantic_sigs::{Abs, Entry, Env};
use show_order::{Orders, orders_of_bound};
use show_places::{BOUND, Found, MISSING, planted};
use show_scopes::names_in;
use std::alloc::Global;

// The structure of a program's bindings.
fn whole(program: Program) -> Mod {
    Mod {
        span: Span { from: 0, to: 0 },
        what: ModWhat::Struct(program.binds),
    }
}

/// The names of the outermost type variables that are in scope where the program is refused: those of the environment
/// as far as elaboration went. There are none where a second run ends elsewhere. `Err` is out of memory.
pub(crate) fn names_at(
    alloc: Global,
    program: Program,
    refusal: &Refusal,
) -> Result<Vec<Option<Name>>, Mem> {
    if refusal.types == 0 {
        return Ok(Vec::new(alloc));
    }
    let mut env = Env::new(alloc);
    match module_in(alloc, &mut env, &whole(program)) {
        Ok(_) => Ok(Vec::new(alloc)),
        Err(again) => names_after(alloc, env, refusal, &again),
    }
}

// The names in an environment that a second run left, if it was refused as the first one.
fn names_after(
    alloc: Global,
    env: Env,
    refusal: &Refusal,
    again: &Refusal,
) -> Result<Vec<Option<Name>>, Mem> {
    if let ElabWhy::Mem = again.why {
        return Err(Mem);
    }
    if again.at == refusal.at && again.types == refusal.types {
        return names_in(alloc, env);
    }
    Ok(Vec::new(alloc))
}

/// What a phrase means where it stands: its signature as that of a binding, the order of its components in the source,
/// and the names of the type variables in scope outside it.
#[derive(Drop)]
pub(crate) struct Meaning {
    pub(crate) names: Vec<Option<Name>>,
    pub(crate) abs: Abs,
    pub(crate) orders: Orders,
}

/// What a phrase of a program means where it stands; `None` where it means nothing. `Err` is out of memory.
pub(crate) fn meaning_at(
    alloc: Global,
    tokens: &[Token],
    found: Found,
) -> Result<Option<Meaning>, Mem> {
    let tokens = planted(alloc, tokens, found)?;
    if tokens.len() > SOURCE_LIMIT {
        return Ok(None);
    }
    match program(alloc, &tokens) {
        Ok(program) => meaning_in(alloc, program),
        Err(ParseRefusal::Mem) => Err(Mem),
        Err(_) => Ok(None),
    }
}

// What the phrase means that is bound in a program just before a name that nothing has.
fn meaning_in(alloc: Global, program: Program) -> Result<Option<Meaning>, Mem> {
    let orders = orders_of_bound(alloc, &program, BOUND.as_bytes())?;
    let mut env = Env::new(alloc);
    let Err(refusal) = module_in(alloc, &mut env, &whole(program)) else {
        return Ok(None);
    };
    match &refusal.why {
        ElabWhy::Mem => Err(Mem),
        ElabWhy::Unbound(name) if name.bytes() == MISSING.as_bytes() => {
            bound_last(alloc, env, orders)
        }
        _ => Ok(None),
    }
}

// What is bound last in an environment, if its name is that of the phrase, whose components have this order.
fn bound_last(alloc: Global, env: Env, orders: Orders) -> Result<Option<Meaning>, Mem> {
    let mut env = env;
    let Some(Entry::Named(name, sig)) = env.pop() else {
        return Ok(None);
    };
    if name.bytes() != BOUND.as_bytes() {
        return Ok(None);
    }
    let kinds = pop_kinds(alloc, &mut env)?;
    let abs = Abs::make(alloc, kinds, sig)?;
    let names = names_in(alloc, env)?;
    Ok(Some(Meaning { names, abs, orders }))
}

// Takes the last type variables of an environment away, with the entry before them. Gives their kinds in order.
fn pop_kinds(alloc: Global, env: &mut Env) -> Result<Kinds, Mem> {
    let mut popped = Vec::new(alloc);
    while let Some(Entry::TypeVar(kind)) = env.pop() {
        popped.push(kind)?;
    }
    popped.reverse();
    let mut kinds = Kinds::new(alloc);
    for next in popped {
        kinds.push(next)?;
    }
    Ok(kinds)
}
