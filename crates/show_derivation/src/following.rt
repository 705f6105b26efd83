// From the phrases of a program in order to what is derived for each.
use crate::judgment::{
    Judgment, of_binding, of_declaration, of_module, of_signature, of_type, of_value,
};
use crate::scope::Scope;
use fing_refusals::{ElabWhy, Refusal};
use fing_syntax::{Exp, ExpWhat, Mod, ModWhat, Program, SigEx, SigWhat, TyEx, TyWhat};
use omega_kinds::{Effect, Kind, Mem};
use semantic_sigs::SigNode;
use show_paper::Conclusion;
use show_rules::{Move, Phrase, Rule, Step, steps_of};
use std::alloc::Global;

/// A line of a derivation: a judgment, its rule, and how deep it stands. Its parts follow, deeper by one.
#[derive(Drop)]
pub struct Line {
    pub depth: u32,
    pub rule: Rule,
    pub judgment: Judgment,
}

/// A derivation: its lines, and whether some are left out.
#[derive(Drop)]
pub struct Derivation {
    pub lines: Vec<Line>,
    pub is_cut: bool,
}

/// The derivation of a program, from its bindings on, which have depth 1, up to the first phrase that is refused. `Err` is
/// out of memory.
///
/// Rossberg, Russo and Dreyer, "F-ing modules", sections 4 and 7, Elaboration.
pub fn derivation_of(alloc: Global, program: &Program) -> Result<Derivation, Mem> {
    let steps = steps_of(alloc, program)?;
    let mut scopes = Vec::new(alloc);
    scopes.push(Scope::new(alloc))?;
    let mut lines = Vec::new(alloc);
    match follow_all(alloc, &mut scopes, &mut lines, steps.list()) {
        Ok(()) => Ok(Derivation {
            lines,
            is_cut: steps.is_cut(),
        }),
        Err(refusal) => match refusal.why {
            ElabWhy::Mem => Err(Mem),
            _ => Ok(Derivation {
                lines,
                is_cut: true,
            }),
        },
    }
}

// Does steps, up to the first one that is refused.
fn follow_all(
    alloc: Global,
    scopes: &mut Vec<Scope>,
    lines: &mut Vec<Line>,
    steps: &[Step<'_>],
) -> Result<(), Refusal> {
    for step in steps {
        follow(alloc, scopes, lines, *step)?;
    }
    Ok(())
}

// Does a step in the innermost of some scopes.
fn follow(
    alloc: Global,
    scopes: &mut Vec<Scope>,
    lines: &mut Vec<Line>,
    step: Step<'_>,
) -> Result<(), Refusal> {
    let Some(mut scope) = scopes.pop() else {
        return Ok(());
    };
    match step.done {
        Move::See { depth, rule, .. } => {
            let judgment = judged(alloc, &mut scope, step.phrase)?;
            let rule = settled(rule, &judgment.conclusion);
            let line = Line {
                depth,
                rule,
                judgment,
            };
            put(lines, line)?;
            put(scopes, scope)?;
        }
        Move::Open => {
            let inner = scope.twin(alloc)?;
            put(scopes, scope)?;
            put(scopes, inner)?;
        }
        Move::Enter { branch } => put(scopes, entered(alloc, scope, step.phrase, branch)?)?,
        Move::Close => {}
    }
    Ok(())
}

// Puts an item behind those of a list.
fn put<T: Drop>(list: &mut Vec<T>, item: T) -> Result<(), Mem> {
    list.push(item)?;
    Ok(())
}

// What is derived for a phrase in a scope.
fn judged(alloc: Global, scope: &mut Scope, phrase: Phrase<'_>) -> Result<Judgment, Refusal> {
    match phrase {
        Phrase::Type(ty) => of_type(alloc, scope, ty),
        Phrase::Value(exp) => of_value(alloc, scope, exp),
        Phrase::Module(module) => of_module(alloc, scope, module),
        Phrase::Signature(sig) => of_signature(alloc, scope, sig),
        Phrase::Binding(bind) => of_binding(alloc, scope, bind),
        Phrase::Declaration(decl) => of_declaration(alloc, scope, decl),
    }
}

// The rule of a phrase that means something: a functor with the keyword `fun` can be generative.
fn settled(rule: Rule, conclusion: &Conclusion) -> Rule {
    match (rule, conclusion) {
        (Rule::ModApplicative, Conclusion::Module(_, sig)) => match sig.body().node() {
            SigNode::Fun {
                effect: Effect::Impure,
                ..
            } => Rule::ModGenerative,
            _ => rule,
        },
        _ => rule,
    }
}

// A scope with what a phrase binds, a case in the branch of a number.
fn entered(
    alloc: Global,
    scope: Scope,
    phrase: Phrase<'_>,
    branch: usize,
) -> Result<Scope, Refusal> {
    match phrase {
        Phrase::Type(ty) => in_type(scope, ty),
        Phrase::Value(exp) => in_value(alloc, scope, exp, branch),
        Phrase::Module(module) => in_functor(alloc, scope, module),
        Phrase::Signature(sig) => in_signature(alloc, scope, sig),
        Phrase::Binding(bind) => scope.with_binding(alloc, bind),
        Phrase::Declaration(decl) => scope.with_declaration(alloc, decl),
    }
}

// A scope with what a type binds.
fn in_type(scope: Scope, ty: &TyEx) -> Result<Scope, Refusal> {
    match &ty.what {
        TyWhat::All(name, kind, _) | TyWhat::Lam(name, kind, _) => scope.with_type(name, kind),
        TyWhat::Mu(name, _) => scope.with_type(name, &Kind::Star),
        _ => Ok(scope),
    }
}

// A scope with what an expression binds, a case in the branch of a number.
fn in_value(alloc: Global, scope: Scope, exp: &Exp, branch: usize) -> Result<Scope, Refusal> {
    match &exp.what {
        ExpWhat::Lam(name, ty, _) => scope.with_value(alloc, name, ty),
        ExpWhat::TyLam(name, kind, _) => scope.with_type(name, kind),
        ExpWhat::Fix {
            function,
            name,
            param,
            result,
            ..
        } => scope.with_fix(alloc, (function, name), param, result),
        ExpWhat::Case {
            whole,
            branches,
            ..
        } => match branches.get(branch) {
            Some(taken) => scope.with_part(alloc, whole, &taken.label, &taken.name),
            None => Ok(scope),
        },
        _ => Ok(scope),
    }
}

// A scope with the parameter of a functor.
fn in_functor(alloc: Global, scope: Scope, module: &Mod) -> Result<Scope, Refusal> {
    match &module.what {
        ModWhat::Functor { name, param, .. } => scope.with_param(alloc, name, param),
        _ => Ok(scope),
    }
}

// A scope with the parameter of functors.
fn in_signature(alloc: Global, scope: Scope, sig: &SigEx) -> Result<Scope, Refusal> {
    match &sig.what {
        SigWhat::Fun { name, param, .. } => scope.with_param(alloc, name, param),
        _ => Ok(scope),
    }
}
