// The search for the smallest phrase at an offset.
use crate::found::{Found, Search, Sort};
use fing_syntax::{
    Arg, Bind, BindWhat, Branch, Decl, DeclWhat, Exp, ExpWhat, Mod, ModWhat, Op, Program, SigEx,
    SigWhat, SpanName, TyEx, TyWhat,
};

/// The smallest expression, type, module or signature at an offset; at the name of a binding, a declaration, a field or a
/// parameter, what is bound, or its type or signature. `None` where no phrase is.
pub fn phrase_at(program: &Program, at: u32) -> Option<Found> {
    let mut search = Search::new(at);
    look_binds(&mut search, &program.binds);
    search.found()
}

// Looks in bindings.
#[cycle(look)]
fn look_binds(search: &mut Search, binds: &[Bind]) {
    for bind in binds {
        if search.is_in(bind.span) {
            look_bind(search, bind);
        }
    }
}

// Looks in a binding.
#[cycle(look)]
fn look_bind(search: &mut Search, bind: &Bind) {
    match &bind.what {
        BindWhat::Val(name, value) => {
            search.see_bound(name, Sort::Value, value.span);
            look_exp(search, value);
        }
        BindWhat::Ty(name, ty) => {
            search.see_bound(name, Sort::Type, ty.span);
            look_ty(search, ty);
        }
        BindWhat::Module(name, module) => {
            search.see_bound(name, Sort::Module, module.span);
            look_mod(search, module);
        }
        BindWhat::Signature(name, sig) => {
            search.see_bound(name, Sort::Signature, sig.span);
            look_sig(search, sig);
        }
        BindWhat::Include(module) => look_mod(search, module),
    }
}

// Looks in a module.
#[cycle(look)]
fn look_mod(search: &mut Search, module: &Mod) {
    if !search.see(Sort::Module, module.span) {
        return;
    }
    match &module.what {
        ModWhat::Name(_) => {}
        ModWhat::Struct(binds) => look_binds(search, binds),
        ModWhat::Project(whole, _) => look_mod(search, whole),
        ModWhat::Functor {
            name,
            param,
            body,
            ..
        } => {
            search.see_bound(name, Sort::Signature, param.span);
            look_sig(search, param);
            look_mod(search, body);
        }
        ModWhat::Apply(function, argument) => {
            search.see_name(function);
            search.see_name(argument);
        }
        ModWhat::Seal(name, sig) => {
            search.see_name(name);
            look_sig(search, sig);
        }
        ModWhat::Unpack(value, sig) => {
            look_exp(search, value);
            look_sig(search, sig);
        }
    }
}

// Looks in a signature.
#[cycle(look)]
fn look_sig(search: &mut Search, sig: &SigEx) {
    if !search.see(Sort::Signature, sig.span) {
        return;
    }
    match &sig.what {
        SigWhat::Path(path) => look_mod(search, path),
        SigWhat::Sig(decls) => look_decls(search, decls),
        SigWhat::Fun {
            name,
            param,
            result,
            ..
        } => {
            search.see_bound(name, Sort::Signature, param.span);
            look_sig(search, param);
            look_sig(search, result);
        }
        SigWhat::Refine { sig, ty, .. } => {
            look_sig(search, sig);
            look_ty(search, ty);
        }
    }
}

// Looks in declarations.
#[cycle(look)]
fn look_decls(search: &mut Search, decls: &[Decl]) {
    for decl in decls {
        if search.is_in(decl.span) {
            look_decl(search, decl);
        }
    }
}

// Looks in a declaration.
#[cycle(look)]
fn look_decl(search: &mut Search, decl: &Decl) {
    match &decl.what {
        DeclWhat::Val(name, ty) => {
            search.see_bound(name, Sort::Type, ty.span);
            look_ty(search, ty);
        }
        DeclWhat::TyIs(name, ty) => {
            search.see_bound(name, Sort::Type, ty.span);
            look_ty(search, ty);
        }
        DeclWhat::TyOf(_, _) => {}
        DeclWhat::Module(name, sig) => {
            search.see_bound(name, Sort::Signature, sig.span);
            look_sig(search, sig);
        }
        DeclWhat::Signature(name, sig) => {
            search.see_bound(name, Sort::Signature, sig.span);
            look_sig(search, sig);
        }
        DeclWhat::Include(sig) => look_sig(search, sig),
    }
}

// Looks in a type. A recursive type has no place of its own, since only `data` binds one.
#[cycle(look)]
fn look_ty(search: &mut Search, ty: &TyEx) {
    if let TyWhat::Mu(name, body) = &ty.what {
        search.see_bound(name, Sort::Type, body.span);
        look_ty(search, body);
    } else if search.see(Sort::Type, ty.span) {
        look_in_ty(search, ty);
    }
}

// Looks in the parts of a type.
#[cycle(look)]
fn look_in_ty(search: &mut Search, ty: &TyEx) {
    match &ty.what {
        TyWhat::Path(path) => look_mod(search, path),
        TyWhat::Int | TyWhat::Bool | TyWhat::Text => {}
        TyWhat::Arrow(from, to) => {
            look_ty(search, from);
            look_ty(search, to);
        }
        TyWhat::Apply(operator, arguments) => {
            look_ty(search, operator);
            look_tys(search, arguments);
        }
        TyWhat::Fields(fields) | TyWhat::Sum(fields) => look_ty_fields(search, fields),
        TyWhat::All(_, _, body) | TyWhat::Lam(_, _, body) | TyWhat::Mu(_, body) => {
            look_ty(search, body)
        }
        TyWhat::Pack(sig) => look_sig(search, sig),
    }
}

// Looks in types.
#[cycle(look)]
fn look_tys(search: &mut Search, types: &[TyEx]) {
    for ty in types {
        look_ty(search, ty);
    }
}

// Looks in fields of a record type, or labels of a sum.
#[cycle(look)]
fn look_ty_fields(search: &mut Search, fields: &[(SpanName, TyEx)]) {
    for field in fields {
        search.see_bound(&field.0, Sort::Type, field.1.span);
        look_ty(search, &field.1);
    }
}

// Looks in an expression.
#[cycle(look)]
fn look_exp(search: &mut Search, exp: &Exp) {
    if !search.see(Sort::Value, exp.span) {
        return;
    }
    match &exp.what {
        ExpWhat::Path(path) => look_mod(search, path),
        ExpWhat::Int(_) | ExpWhat::Bool(_) | ExpWhat::Text(_) => {}
        ExpWhat::Lam(name, ty, body) => {
            search.see_bound(name, Sort::Type, ty.span);
            look_ty(search, ty);
            look_exp(search, body);
        }
        ExpWhat::TyLam(_, _, body) => look_exp(search, body),
        ExpWhat::Fix {
            name,
            param,
            result,
            body,
            ..
        } => {
            search.see_bound(name, Sort::Type, param.span);
            look_ty(search, param);
            look_ty(search, result);
            look_exp(search, body);
        }
        ExpWhat::If(test, yes, no) => {
            look_exp(search, test);
            look_exp(search, yes);
            look_exp(search, no);
        }
        ExpWhat::Ops(first, rest) => {
            look_exp(search, first);
            look_operands(search, rest);
        }
        _ => look_more(search, exp),
    }
}

// Looks in an expression of one of the other forms.
#[cycle(look)]
fn look_more(search: &mut Search, exp: &Exp) {
    match &exp.what {
        ExpWhat::Apply(function, arguments) => {
            look_exp(search, function);
            look_args(search, arguments);
        }
        ExpWhat::Fields(fields) => look_fields(search, fields),
        ExpWhat::Get(whole, _) => look_exp(search, whole),
        ExpWhat::Pack(name, sig) => {
            search.see_name(name);
            look_sig(search, sig);
        }
        ExpWhat::Inj(_, value, ty) | ExpWhat::Roll(value, ty) => {
            look_exp(search, value);
            look_ty(search, ty);
        }
        ExpWhat::Case {
            whole,
            result,
            branches,
        } => {
            look_exp(search, whole);
            look_ty(search, result);
            look_branches(search, branches);
        }
        ExpWhat::Unroll(whole) => look_exp(search, whole),
        _ => {}
    }
}

// Looks in the operands behind operators.
#[cycle(look)]
fn look_operands(search: &mut Search, operands: &[(Op, Exp)]) {
    for operand in operands {
        look_exp(search, &operand.1);
    }
}

// Looks in arguments.
#[cycle(look)]
fn look_args(search: &mut Search, arguments: &[Arg]) {
    for argument in arguments {
        match argument {
            Arg::Exp(value) => look_exp(search, value),
            Arg::Ty(ty, _) => look_ty(search, ty),
        }
    }
}

// Looks in the fields of a record.
#[cycle(look)]
fn look_fields(search: &mut Search, fields: &[(SpanName, Exp)]) {
    for field in fields {
        search.see_bound(&field.0, Sort::Value, field.1.span);
        look_exp(search, &field.1);
    }
}

// Looks in the branches of a case.
#[cycle(look)]
fn look_branches(search: &mut Search, branches: &[Branch]) {
    for branch in branches {
        look_exp(search, &branch.body);
    }
}
