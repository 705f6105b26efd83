// The walk through a program.
use crate::names::{
    rule_of_binding, rule_of_declaration, rule_of_module, rule_of_signature, rule_of_type,
    rule_of_value,
};
use crate::steps::{Move, Phrase, Steps};
use fing_syntax::{
    Arg, Bind, BindWhat, Branch, Decl, DeclWhat, Exp, ExpWhat, Mod, ModWhat, Op, Program, SigEx,
    SigWhat, SpanName, TyEx, TyWhat,
};
use omega_kinds::Mem;
use std::alloc::Global;

/// The steps through a program: its bindings have depth 1. A phrase comes before those in it, and those in the order of the
/// text, each in the scope in which it is elaborated. `Err` is out of memory.
pub fn steps_of<'a>(alloc: Global, program: &'a Program) -> Result<Steps<'a>, Mem> {
    let mut steps = Steps::new(alloc);
    walk_binds(&mut steps, &program.binds, 1)?;
    Ok(steps)
}

// The bindings of a structure.
#[cycle(walk)]
fn walk_binds<'a>(steps: &mut Steps<'a>, binds: &'a [Bind], depth: u32) -> Result<(), Mem> {
    for bind in binds {
        walk_bind(steps, bind, depth)?;
        steps.add(Phrase::Binding(bind), Move::Enter { branch: 0 })?;
    }
    Ok(())
}

// A binding.
#[cycle(walk)]
fn walk_bind<'a>(steps: &mut Steps<'a>, bind: &'a Bind, depth: u32) -> Result<(), Mem> {
    let rule = rule_of_binding(&bind.what);
    if !steps.see(depth, rule, bind.span, Phrase::Binding(bind))? {
        return Ok(());
    }
    let depth = depth.saturating_add(1);
    match &bind.what {
        BindWhat::Val(_, value) => walk_exp(steps, value, depth),
        BindWhat::Ty(_, ty) => walk_ty(steps, ty, depth),
        BindWhat::Module(_, module) => walk_mod(steps, module, depth),
        BindWhat::Signature(_, sig) => walk_sig(steps, sig, depth),
        BindWhat::Include(module) => walk_mod(steps, module, depth),
    }
}

// A module.
#[cycle(walk)]
fn walk_mod<'a>(steps: &mut Steps<'a>, module: &'a Mod, depth: u32) -> Result<(), Mem> {
    let rule = rule_of_module(&module.what);
    if !steps.see(depth, rule, module.span, Phrase::Module(module))? {
        return Ok(());
    }
    let depth = depth.saturating_add(1);
    match &module.what {
        ModWhat::Name(_) | ModWhat::Apply(_, _) => Ok(()),
        ModWhat::Struct(binds) => {
            steps.add(Phrase::Module(module), Move::Open)?;
            walk_binds(steps, binds, depth)?;
            steps.add(Phrase::Module(module), Move::Close)
        }
        ModWhat::Project(whole, _) => walk_mod(steps, whole, depth),
        ModWhat::Functor { param, body, .. } => {
            walk_sig(steps, param, depth)?;
            steps.open(Phrase::Module(module), 0)?;
            walk_mod(steps, body, depth)?;
            steps.add(Phrase::Module(module), Move::Close)
        }
        ModWhat::Seal(_, sig) => walk_sig(steps, sig, depth),
        ModWhat::Unpack(value, sig) => {
            walk_exp(steps, value, depth)?;
            walk_sig(steps, sig, depth)
        }
    }
}

// A signature.
#[cycle(walk)]
fn walk_sig<'a>(steps: &mut Steps<'a>, sig: &'a SigEx, depth: u32) -> Result<(), Mem> {
    let rule = rule_of_signature(&sig.what);
    if !steps.see(depth, rule, sig.span, Phrase::Signature(sig))? {
        return Ok(());
    }
    let depth = depth.saturating_add(1);
    match &sig.what {
        SigWhat::Path(path) => walk_mod(steps, path, depth),
        SigWhat::Sig(decls) => {
            steps.add(Phrase::Signature(sig), Move::Open)?;
            walk_decls(steps, decls, depth)?;
            steps.add(Phrase::Signature(sig), Move::Close)
        }
        SigWhat::Fun { param, result, .. } => {
            walk_sig(steps, param, depth)?;
            steps.open(Phrase::Signature(sig), 0)?;
            walk_sig(steps, result, depth)?;
            steps.add(Phrase::Signature(sig), Move::Close)
        }
        SigWhat::Refine {
            sig: refined,
            ty,
            ..
        } => {
            walk_sig(steps, refined, depth)?;
            walk_ty(steps, ty, depth)
        }
    }
}

// The declarations of a signature.
#[cycle(walk)]
fn walk_decls<'a>(steps: &mut Steps<'a>, decls: &'a [Decl], depth: u32) -> Result<(), Mem> {
    for decl in decls {
        walk_decl(steps, decl, depth)?;
        steps.add(Phrase::Declaration(decl), Move::Enter { branch: 0 })?;
    }
    Ok(())
}

// A declaration.
#[cycle(walk)]
fn walk_decl<'a>(steps: &mut Steps<'a>, decl: &'a Decl, depth: u32) -> Result<(), Mem> {
    let rule = rule_of_declaration(&decl.what);
    if !steps.see(depth, rule, decl.span, Phrase::Declaration(decl))? {
        return Ok(());
    }
    let depth = depth.saturating_add(1);
    match &decl.what {
        DeclWhat::Val(_, ty) => walk_ty(steps, ty, depth),
        DeclWhat::TyIs(_, ty) => walk_ty(steps, ty, depth),
        DeclWhat::TyOf(_, _) => Ok(()),
        DeclWhat::Module(_, sig) => walk_sig(steps, sig, depth),
        DeclWhat::Signature(_, sig) => walk_sig(steps, sig, depth),
        DeclWhat::Include(sig) => walk_sig(steps, sig, depth),
    }
}

// A type.
#[cycle(walk)]
fn walk_ty<'a>(steps: &mut Steps<'a>, ty: &'a TyEx, depth: u32) -> Result<(), Mem> {
    let rule = rule_of_type(&ty.what);
    if !steps.see(depth, rule, ty.span, Phrase::Type(ty))? {
        return Ok(());
    }
    let depth = depth.saturating_add(1);
    match &ty.what {
        TyWhat::Path(path) => walk_mod(steps, path, depth),
        TyWhat::Int | TyWhat::Bool | TyWhat::Text => Ok(()),
        TyWhat::Arrow(from, to) => {
            walk_ty(steps, from, depth)?;
            walk_ty(steps, to, depth)
        }
        TyWhat::Apply(operator, arguments) => {
            walk_ty(steps, operator, depth)?;
            walk_tys(steps, arguments, depth)
        }
        TyWhat::Fields(fields) | TyWhat::Sum(fields) => walk_ty_fields(steps, fields, depth),
        TyWhat::All(_, _, body) | TyWhat::Lam(_, _, body) | TyWhat::Mu(_, body) => {
            steps.open(Phrase::Type(ty), 0)?;
            walk_ty(steps, body, depth)?;
            steps.add(Phrase::Type(ty), Move::Close)
        }
        TyWhat::Pack(sig) => walk_sig(steps, sig, depth),
    }
}

// Types.
#[cycle(walk)]
fn walk_tys<'a>(steps: &mut Steps<'a>, types: &'a [TyEx], depth: u32) -> Result<(), Mem> {
    for ty in types {
        walk_ty(steps, ty, depth)?;
    }
    Ok(())
}

// Fields of a record type, or labels of a sum.
#[cycle(walk)]
fn walk_ty_fields<'a>(
    steps: &mut Steps<'a>,
    fields: &'a [(SpanName, TyEx)],
    depth: u32,
) -> Result<(), Mem> {
    for field in fields {
        walk_ty(steps, &field.1, depth)?;
    }
    Ok(())
}

// An expression.
#[cycle(walk)]
fn walk_exp<'a>(steps: &mut Steps<'a>, exp: &'a Exp, depth: u32) -> Result<(), Mem> {
    let rule = rule_of_value(&exp.what);
    if !steps.see(depth, rule, exp.span, Phrase::Value(exp))? {
        return Ok(());
    }
    let depth = depth.saturating_add(1);
    match &exp.what {
        ExpWhat::Path(path) => walk_mod(steps, path, depth),
        ExpWhat::Int(_) | ExpWhat::Bool(_) | ExpWhat::Text(_) => Ok(()),
        ExpWhat::If(test, yes, no) => {
            walk_exp(steps, test, depth)?;
            walk_exp(steps, yes, depth)?;
            walk_exp(steps, no, depth)
        }
        ExpWhat::Ops(first, rest) => {
            walk_exp(steps, first, depth)?;
            walk_operands(steps, rest, depth)
        }
        ExpWhat::Apply(function, arguments) => {
            walk_exp(steps, function, depth)?;
            walk_args(steps, arguments, depth)
        }
        ExpWhat::Fields(fields) => walk_fields(steps, fields, depth),
        ExpWhat::Get(whole, _) => walk_exp(steps, whole, depth),
        ExpWhat::Pack(_, sig) => walk_sig(steps, sig, depth),
        ExpWhat::Unroll(whole) => walk_exp(steps, whole, depth),
        _ => walk_more(steps, exp, depth),
    }
}

// The parts of an expression with types or binders.
#[cycle(walk)]
fn walk_more<'a>(steps: &mut Steps<'a>, exp: &'a Exp, depth: u32) -> Result<(), Mem> {
    match &exp.what {
        ExpWhat::Lam(_, ty, body) => {
            walk_ty(steps, ty, depth)?;
            walk_under(steps, exp, 0, body, depth)
        }
        ExpWhat::TyLam(_, _, body) => walk_under(steps, exp, 0, body, depth),
        ExpWhat::Fix {
            param,
            result,
            body,
            ..
        } => {
            walk_ty(steps, param, depth)?;
            walk_ty(steps, result, depth)?;
            walk_under(steps, exp, 0, body, depth)
        }
        ExpWhat::Inj(_, value, ty) | ExpWhat::Roll(value, ty) => {
            walk_exp(steps, value, depth)?;
            walk_ty(steps, ty, depth)
        }
        ExpWhat::Case {
            whole,
            result,
            branches,
        } => {
            walk_exp(steps, whole, depth)?;
            walk_ty(steps, result, depth)?;
            walk_branches(steps, exp, branches, depth)
        }
        _ => Ok(()),
    }
}

// An expression in the scope of what another one binds, a case in the branch of a number.
#[cycle(walk)]
fn walk_under<'a>(
    steps: &mut Steps<'a>,
    whole: &'a Exp,
    branch: usize,
    body: &'a Exp,
    depth: u32,
) -> Result<(), Mem> {
    steps.open(Phrase::Value(whole), branch)?;
    walk_exp(steps, body, depth)?;
    steps.add(Phrase::Value(whole), Move::Close)
}

// Operands behind operators.
#[cycle(walk)]
fn walk_operands<'a>(
    steps: &mut Steps<'a>,
    operands: &'a [(Op, Exp)],
    depth: u32,
) -> Result<(), Mem> {
    for operand in operands {
        walk_exp(steps, &operand.1, depth)?;
    }
    Ok(())
}

// Arguments.
#[cycle(walk)]
fn walk_args<'a>(steps: &mut Steps<'a>, arguments: &'a [Arg], depth: u32) -> Result<(), Mem> {
    for argument in arguments {
        match argument {
            Arg::Exp(value) => walk_exp(steps, value, depth)?,
            Arg::Ty(ty, _) => walk_ty(steps, ty, depth)?,
        }
    }
    Ok(())
}

// The fields of a record.
#[cycle(walk)]
fn walk_fields<'a>(
    steps: &mut Steps<'a>,
    fields: &'a [(SpanName, Exp)],
    depth: u32,
) -> Result<(), Mem> {
    for field in fields {
        walk_exp(steps, &field.1, depth)?;
    }
    Ok(())
}

// The branches of a case.
#[cycle(walk)]
fn walk_branches<'a>(
    steps: &mut Steps<'a>,
    whole: &'a Exp,
    branches: &'a [Branch],
    depth: u32,
) -> Result<(), Mem> {
    let mut number: usize = 0;
    for branch in branches {
        walk_under(steps, whole, number, &branch.body, depth)?;
        number = number.saturating_add(1);
    }
    Ok(())
}
