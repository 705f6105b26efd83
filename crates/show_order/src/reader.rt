// Reading the orders of a program off its phrases.
use crate::declared::{Component, Declared};
use crate::order::{Id, Orders};
use crate::scope::Scope;
use crate::sides::Sides;
use fing_syntax::{
    Arg, Bind, BindWhat, Branch, Decl, DeclWhat, Exp, ExpWhat, Mod, ModWhat, Op, Program, SigEx,
    SigWhat, SpanName, TyEx, TyWhat,
};
use fing_text::Span;
use omega_kinds::{Mem, Name, name_of, same_name};
use std::alloc::Global;

/// The orders of the components in the modules and signatures of a program that means something. Where a module or a
/// signature is a path, the order is the one of what the path names; the result of a functor has the order of the
/// functor's body, and a sealed module the order of its signature. The components that an `include` brings stand where
/// it stands. Of a name that is bound more than once, only the last binding can be seen from outside, so the place of
/// the component is the place of that one. `Err` is out of memory.
pub fn orders_of(alloc: Global, program: &Program) -> Result<Orders, Mem> {
    let mut reader = Reader::new(alloc, Wanted::Nothing);
    let whole = reader.read_binds(&program.binds)?;
    Ok(reader.orders.with_whole(whole))
}

/// The same orders, where the whole is the module or the signature that is bound to this name last, wherever it stands in
/// the program. `Err` is out of memory.
pub fn orders_of_bound(alloc: Global, program: &Program, name: &[u8]) -> Result<Orders, Mem> {
    let mut reader = Reader::new(alloc, Wanted::Bound(name_of(alloc, name)?));
    reader.read_binds(&program.binds)?;
    let found = reader.found;
    Ok(reader.orders.with_whole(found))
}

/// What the phrases at the place of a refusal name: the signature and the module of a match, where it is the place of the
/// signature in a seal or a package, or of the argument of an application; and for a path where what it names is declared.
/// `Err` is out of memory.
pub fn sides_of(alloc: Global, program: &Program, at: Span) -> Result<Sides, Mem> {
    let mut reader = Reader::new(alloc, Wanted::Refused(at));
    reader.read_binds(&program.binds)?;
    let Reader {
        orders,
        found,
        given,
        named,
        ..
    } = reader;
    Ok(Sides::new(orders, found, given, named))
}

// What is looked for: nothing, what is bound to a name, or what the phrases at the place of a refusal name.
#[derive(Drop)]
enum Wanted {
    Nothing,
    Bound(Name),
    Refused(Span),
}

// What is read so far, and what is in scope; what is looked for, the order of what is bound or of the signature that is
// matched, the order of the module that is matched against it, and where what a path names is declared.
#[derive(Drop)]
struct Reader {
    alloc: Global,
    orders: Orders,
    scope: Scope,
    wanted: Wanted,
    found: Id,
    given: Id,
    named: Option<Span>,
}

impl Reader {
    // Nothing is read.
    fn new(alloc: Global, wanted: Wanted) -> Reader {
        Reader {
            alloc,
            orders: Orders::new(alloc),
            scope: Scope::new(alloc),
            wanted,
            found: Id::NONE,
            given: Id::NONE,
            named: None,
        }
    }

    // The order of a module.
    #[cycle(read)]
    fn read_mod(&mut self, module: &Mod) -> Result<Id, Mem> {
        match &module.what {
            ModWhat::Name(name) => Ok(self.see_name(module.span, name)),
            ModWhat::Struct(binds) => self.read_binds(binds),
            ModWhat::Project(whole, name) => {
                let whole = self.read_mod(whole)?;
                Ok(self.see_part(module.span, whole, name))
            }
            ModWhat::Functor {
                name,
                param,
                body,
                ..
            } => {
                let param = self.read_parameter(name, param)?;
                let body = self.read_mod(body)?;
                self.end_functor(param, body)
            }
            ModWhat::Apply(functor, argument) => Ok(self.result_of(functor, argument)),
            ModWhat::Seal(name, sig) => self.read_sealing(name, sig),
            ModWhat::Unpack(value, sig) => {
                self.read_exp(value)?;
                self.read_sig(sig)
            }
        }
    }

    // The order of the result of a functor that has a name, which is applied to an argument.
    fn result_of(&mut self, functor: &SpanName, argument: &SpanName) -> Id {
        let (param, body) = self.orders.functor(self.scope.find(&functor.name).inside);
        self.see_match(argument.span, argument, param);
        body
    }

    // The order of a signature that a module with a name is matched against.
    #[cycle(read)]
    fn read_sealing(&mut self, name: &SpanName, sig: &SigEx) -> Result<Id, Mem> {
        let id = self.read_sig(sig)?;
        self.see_match(sig.span, name, id);
        Ok(id)
    }

    // A module with a name is matched against a signature, and a refusal of the match has this place.
    fn see_match(&mut self, at: Span, name: &SpanName, sig: Id) {
        if self.is_refused(at) {
            self.found = sig;
            self.given = self.scope.find(&name.name).inside;
        }
    }

    // A path at a place is a name in scope. The order inside of what it names.
    fn see_name(&mut self, at: Span, name: &SpanName) -> Id {
        let component = self.scope.find(&name.name);
        self.see_path(at, component)
    }

    // A path at a place leads to a part of a module. The order inside of it.
    fn see_part(&mut self, at: Span, whole: Id, name: &SpanName) -> Id {
        let component = self.orders.component(whole, &name.name);
        self.see_path(at, component)
    }

    // A path at a place leads to a component. The order inside of it.
    fn see_path(&mut self, at: Span, component: Component) -> Id {
        if self.is_refused(at) {
            self.named = component.at;
        }
        component.inside
    }

    // Whether this is the place of the refusal that is looked for.
    fn is_refused(&self, at: Span) -> bool {
        match &self.wanted {
            Wanted::Refused(wanted) => *wanted == at,
            _ => false,
        }
    }

    // The order of the parameter of a functor, whose name comes into scope.
    #[cycle(read)]
    fn read_parameter(&mut self, name: &SpanName, param: &SigEx) -> Result<Id, Mem> {
        let param = self.read_sig(param)?;
        self.enter(name, None, param)?;
        Ok(param)
    }

    // The order of a functor, whose parameter leaves the scope.
    fn end_functor(&mut self, param: Id, body: Id) -> Result<Id, Mem> {
        let count = self.scope.len();
        self.scope.leave(count.saturating_sub(1))?;
        self.orders.add_functor(param, body)
    }

    // The order of bindings.
    #[cycle(read)]
    fn read_binds(&mut self, binds: &[Bind]) -> Result<Id, Mem> {
        let count = self.scope.len();
        let mut declared = Declared::new(self.alloc);
        for bind in binds {
            self.read_bind(&mut declared, bind)?;
        }
        self.scope.leave(count)?;
        self.orders.add_structure(declared)
    }

    // One more binding.
    #[cycle(read)]
    fn read_bind(&mut self, declared: &mut Declared, bind: &Bind) -> Result<(), Mem> {
        match &bind.what {
            BindWhat::Val(name, value) => {
                self.read_exp(value)?;
                self.declare(declared, name, bind.span, Id::NONE)
            }
            BindWhat::Ty(name, ty) => {
                self.read_ty(ty)?;
                self.declare(declared, name, bind.span, Id::NONE)
            }
            BindWhat::Module(name, module) => {
                let id = self.read_mod(module)?;
                self.declare(declared, name, bind.span, id)
            }
            BindWhat::Signature(name, sig) => {
                let id = self.read_sig(sig)?;
                self.declare(declared, name, bind.span, id)
            }
            BindWhat::Include(module) => {
                let id = self.read_mod(module)?;
                self.include(declared, id)
            }
        }
    }

    // The order of a signature.
    #[cycle(read)]
    fn read_sig(&mut self, sig: &SigEx) -> Result<Id, Mem> {
        match &sig.what {
            SigWhat::Path(path) => self.read_mod(path),
            SigWhat::Sig(decls) => self.read_decls(decls),
            SigWhat::Fun {
                name,
                param,
                result,
                ..
            } => {
                let param = self.read_parameter(name, param)?;
                let body = self.read_sig(result)?;
                self.end_functor(param, body)
            }
            SigWhat::Refine { sig, ty, .. } => {
                self.read_ty(ty)?;
                self.read_sig(sig)
            }
        }
    }

    // The order of declarations.
    #[cycle(read)]
    fn read_decls(&mut self, decls: &[Decl]) -> Result<Id, Mem> {
        let count = self.scope.len();
        let mut declared = Declared::new(self.alloc);
        for decl in decls {
            self.read_decl(&mut declared, decl)?;
        }
        self.scope.leave(count)?;
        self.orders.add_structure(declared)
    }

    // One more declaration.
    #[cycle(read)]
    fn read_decl(&mut self, declared: &mut Declared, decl: &Decl) -> Result<(), Mem> {
        match &decl.what {
            DeclWhat::Val(name, ty) | DeclWhat::TyIs(name, ty) => {
                self.read_ty(ty)?;
                self.declare(declared, name, decl.span, Id::NONE)
            }
            DeclWhat::TyOf(name, _) => self.declare(declared, name, decl.span, Id::NONE),
            DeclWhat::Module(name, sig) | DeclWhat::Signature(name, sig) => {
                let id = self.read_sig(sig)?;
                self.declare(declared, name, decl.span, id)
            }
            DeclWhat::Include(sig) => {
                let id = self.read_sig(sig)?;
                self.include(declared, id)
            }
        }
    }

    // Whether nothing is looked for. Then types and expressions, which have no components, need not be read.
    fn is_done(&self) -> bool {
        matches!(&self.wanted, Wanted::Nothing)
    }

    // Reads the modules and signatures in a type.
    #[cycle(read)]
    fn read_ty(&mut self, ty: &TyEx) -> Result<(), Mem> {
        if self.is_done() {
            return Ok(());
        }
        match &ty.what {
            TyWhat::Path(path) => {
                self.read_mod(path)?;
                Ok(())
            }
            TyWhat::Int | TyWhat::Bool | TyWhat::Text => Ok(()),
            TyWhat::Arrow(from, to) => {
                self.read_ty(from)?;
                self.read_ty(to)
            }
            TyWhat::Apply(operator, arguments) => {
                self.read_ty(operator)?;
                self.read_tys(arguments)
            }
            TyWhat::Fields(fields) | TyWhat::Sum(fields) => self.read_ty_fields(fields),
            TyWhat::All(_, _, body) | TyWhat::Lam(_, _, body) | TyWhat::Mu(_, body) => {
                self.read_ty(body)
            }
            TyWhat::Pack(sig) => {
                self.read_sig(sig)?;
                Ok(())
            }
        }
    }

    // The same for several types.
    #[cycle(read)]
    fn read_tys(&mut self, types: &[TyEx]) -> Result<(), Mem> {
        for ty in types {
            self.read_ty(ty)?;
        }
        Ok(())
    }

    // The same for fields of a record type, or labels of a sum.
    #[cycle(read)]
    fn read_ty_fields(&mut self, fields: &[(SpanName, TyEx)]) -> Result<(), Mem> {
        for field in fields {
            self.read_ty(&field.1)?;
        }
        Ok(())
    }

    // Reads the modules and signatures in an expression.
    #[cycle(read)]
    fn read_exp(&mut self, exp: &Exp) -> Result<(), Mem> {
        if self.is_done() {
            return Ok(());
        }
        match &exp.what {
            ExpWhat::Path(path) => {
                self.read_mod(path)?;
                Ok(())
            }
            ExpWhat::Int(_) | ExpWhat::Bool(_) | ExpWhat::Text(_) => Ok(()),
            ExpWhat::Lam(_, ty, body) => {
                self.read_ty(ty)?;
                self.read_exp(body)
            }
            ExpWhat::TyLam(_, _, body) => self.read_exp(body),
            ExpWhat::Fix {
                param,
                result,
                body,
                ..
            } => {
                self.read_ty(param)?;
                self.read_ty(result)?;
                self.read_exp(body)
            }
            ExpWhat::If(test, yes, no) => {
                self.read_exp(test)?;
                self.read_exp(yes)?;
                self.read_exp(no)
            }
            _ => self.read_more(exp),
        }
    }

    // The same for an expression of one of the other forms.
    #[cycle(read)]
    fn read_more(&mut self, exp: &Exp) -> Result<(), Mem> {
        match &exp.what {
            ExpWhat::Ops(first, rest) => {
                self.read_exp(first)?;
                self.read_operands(rest)
            }
            ExpWhat::Apply(function, arguments) => {
                self.read_exp(function)?;
                self.read_args(arguments)
            }
            ExpWhat::Fields(fields) => self.read_fields(fields),
            ExpWhat::Get(whole, _) | ExpWhat::Unroll(whole) => self.read_exp(whole),
            ExpWhat::Pack(name, sig) => {
                self.read_sealing(name, sig)?;
                Ok(())
            }
            ExpWhat::Inj(_, value, ty) | ExpWhat::Roll(value, ty) => {
                self.read_exp(value)?;
                self.read_ty(ty)
            }
            ExpWhat::Case {
                whole,
                result,
                branches,
            } => {
                self.read_exp(whole)?;
                self.read_ty(result)?;
                self.read_branches(branches)
            }
            _ => Ok(()),
        }
    }

    // The same for the operands behind operators.
    #[cycle(read)]
    fn read_operands(&mut self, operands: &[(Op, Exp)]) -> Result<(), Mem> {
        for operand in operands {
            self.read_exp(&operand.1)?;
        }
        Ok(())
    }

    // The same for arguments.
    #[cycle(read)]
    fn read_args(&mut self, arguments: &[Arg]) -> Result<(), Mem> {
        for argument in arguments {
            match argument {
                Arg::Exp(value) => self.read_exp(value)?,
                Arg::Ty(ty, _) => self.read_ty(ty)?,
            }
        }
        Ok(())
    }

    // The same for the fields of a record.
    #[cycle(read)]
    fn read_fields(&mut self, fields: &[(SpanName, Exp)]) -> Result<(), Mem> {
        for field in fields {
            self.read_exp(&field.1)?;
        }
        Ok(())
    }

    // The same for the branches of a case.
    #[cycle(read)]
    fn read_branches(&mut self, branches: &[Branch]) -> Result<(), Mem> {
        for branch in branches {
            self.read_exp(&branch.body)?;
        }
        Ok(())
    }

    // A name comes into scope, which is declared at a place, if the source shows it. Gives what it declares.
    fn enter(&mut self, name: &SpanName, at: Option<Span>, inside: Id) -> Result<Component, Mem> {
        let component = Component { at, inside };
        self.scope.enter(&name.name, component)?;
        Ok(component)
    }

    // A name is declared at a place, and comes into scope.
    fn declare(
        &mut self,
        declared: &mut Declared,
        name: &SpanName,
        at: Span,
        inside: Id,
    ) -> Result<(), Mem> {
        if let Wanted::Bound(wanted) = &self.wanted
            && same_name(wanted, &name.name)
        {
            self.found = inside;
        }
        let component = self.enter(name, Some(at), inside)?;
        declared.push(name.name.share()?, component)
    }

    // All names of a structure are declared, and come into scope.
    fn include(&mut self, declared: &mut Declared, id: Id) -> Result<(), Mem> {
        let Some(others) = self.orders.declared(id) else {
            return Ok(());
        };
        declared.push_all(others)?;
        for item in others.items() {
            self.scope.enter(&item.0, item.1)?;
        }
        Ok(())
    }
}
