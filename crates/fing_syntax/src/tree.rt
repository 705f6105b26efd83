// The phrases of the language: each node has its place.
use crate::leaf::{Op, SpanName};
use fing_text::Span;
use omega_kinds::{Kind, Name};
use std::marker::Model;

/// A module and its place.
#[cycle(phrase)]
#[derive(Drop)]
pub struct Mod {
    pub span: Span,
    pub what: ModWhat,
}

/// What a module is: a name, a structure, a projection, a functor, an application of a named functor to a named module,
/// a named module sealed by a signature, or a packed module that is opened.
/// The names of an application and of a seal have the places of the phrases that were named.
///
/// Rossberg, Russo and Dreyer, "F-ing modules", section 2.
#[cycle(phrase)]
#[derive(Drop)]
pub enum ModWhat {
    Name(SpanName),
    Struct(Vec<Bind>),
    Project(Box<Mod>, SpanName),
    Functor {
        generative: bool,
        name: SpanName,
        param: Box<SigEx>,
        body: Box<Mod>,
    },
    Apply(SpanName, SpanName),
    Seal(SpanName, Box<SigEx>),
    Unpack(Box<Exp>, Box<SigEx>),
}

/// A binding and its place.
#[cycle(phrase)]
#[derive(Drop)]
pub struct Bind {
    pub span: Span,
    pub what: BindWhat,
}

/// What a binding is: of a value, a type, a module or a signature, or all bindings of a module.
#[cycle(phrase)]
#[derive(Drop)]
pub enum BindWhat {
    Val(SpanName, Exp),
    Ty(SpanName, TyEx),
    Module(SpanName, Mod),
    Signature(SpanName, SigEx),
    Include(Mod),
}

/// A signature and its place.
#[cycle(phrase)]
#[derive(Drop)]
pub struct SigEx {
    pub span: Span,
    pub what: SigWhat,
}

/// What a signature is: that at a path, one of declarations, one of functors, whose `pure` says that the functor is
/// applicative, or a signature in which the type at the path `first`, then `rest`, is made equal to a type.
#[cycle(phrase)]
#[derive(Drop)]
pub enum SigWhat {
    Path(Mod),
    Sig(Vec<Decl>),
    Fun {
        pure: bool,
        name: SpanName,
        param: Box<SigEx>,
        result: Box<SigEx>,
    },
    Refine {
        sig: Box<SigEx>,
        first: SpanName,
        rest: Vec<SpanName>,
        ty: TyEx,
    },
}

/// A declaration and its place.
#[cycle(phrase)]
#[derive(Drop)]
pub struct Decl {
    pub span: Span,
    pub what: DeclWhat,
}

/// What a declaration is: of a value, of a type that is known, of a type of which a kind is known, of a module,
/// of a signature, or all declarations of a signature.
#[cycle(phrase)]
#[derive(Drop)]
pub enum DeclWhat {
    Val(SpanName, TyEx),
    TyIs(SpanName, TyEx),
    TyOf(SpanName, Kind),
    Module(SpanName, SigEx),
    Signature(SpanName, SigEx),
    Include(SigEx),
}

/// A type and its place.
#[cycle(phrase)]
#[derive(Drop)]
pub struct TyEx {
    pub span: Span,
    pub what: TyWhat,
}

/// What a type is: that at a path, integers, booleans, texts, functions, an operator and the types that it is applied to,
/// records, types of generic values, operators, packed modules of a signature, sums of labelled types, or a recursive type,
/// in which the name stands for the whole. The parser makes an application of at least one type; the field may be any list.
#[cycle(phrase)]
#[derive(Drop)]
pub enum TyWhat {
    Path(Mod),
    Int,
    Bool,
    Text,
    Arrow(Box<TyEx>, Box<TyEx>),
    Apply(Box<TyEx>, Vec<TyEx>),
    Fields(Vec<(SpanName, TyEx)>),
    All(SpanName, Kind, Box<TyEx>),
    Lam(SpanName, Kind, Box<TyEx>),
    Pack(Box<SigEx>),
    Sum(Vec<(SpanName, TyEx)>),
    Mu(SpanName, Box<TyEx>),
}

/// An expression and its place.
#[cycle(phrase)]
#[derive(Drop)]
pub struct Exp {
    pub span: Span,
    pub what: ExpWhat,
}

/// What an expression is: the value at a path, a constant, a function, a generic value, a recursive function, a choice,
/// a chain of operators of one level, which group to the left, a chain of arguments, a record, a field of a record, a
/// named module packed with a signature, a value with a label in a sum, a case by the labels of a sum, whose result has
/// the type that is written, or a value of a recursive type rolled up or unrolled. The parser makes a chain of at least one
/// argument; the field may be any list.
#[cycle(phrase)]
#[derive(Drop)]
pub enum ExpWhat {
    Path(Mod),
    Int(i64),
    Bool(bool),
    Text(Name),
    Lam(SpanName, TyEx, Box<Exp>),
    TyLam(SpanName, Kind, Box<Exp>),
    Fix {
        function: SpanName,
        name: SpanName,
        param: TyEx,
        result: TyEx,
        body: Box<Exp>,
    },
    If(Box<Exp>, Box<Exp>, Box<Exp>),
    Ops(Box<Exp>, Vec<(Op, Exp)>),
    Apply(Box<Exp>, Vec<Arg>),
    Fields(Vec<(SpanName, Exp)>),
    Get(Box<Exp>, SpanName),
    Pack(SpanName, Box<SigEx>),
    Inj(SpanName, Box<Exp>, Box<TyEx>),
    Case {
        whole: Box<Exp>,
        result: TyEx,
        branches: Vec<Branch>,
    },
    Roll(Box<Exp>, Box<TyEx>),
    Unroll(Box<Exp>),
}

/// A branch of a case: the label, the name of its value, and what the case gives then.
#[cycle(phrase)]
#[derive(Drop)]
pub struct Branch {
    pub label: SpanName,
    pub name: SpanName,
    pub body: Exp,
}

/// An argument: a value, or a type with the place from its opening bracket to its closing one.
#[cycle(phrase)]
#[derive(Drop)]
pub enum Arg {
    Exp(Exp),
    Ty(TyEx, Span),
}

impl Model for Mod {
    ghost use Rattle.fing_syntax.specs.Phrase as tree;
    ghost use Rattle.fing_syntax.specs.Inner.Code.{mod_code};

    ghost Value = { tree.Mod };

    ghost coded = { mod_code };

    ghost use Rattle.fing_syntax.specs.Inner.Size.{mod_size};

    ghost size = { mod_size };

    ghost use Rattle.fing_syntax.specs.Inner.View.{mod_of};

    ghost view = { λ n. mod_of n.span n.what };

    ghost use Rattle.fing_syntax.specs.Inner.Falls.{mod_falls};

    ghost size_decreases = { λ n _. mod_falls n.span n.what };
}

impl Model for Bind {
    ghost use Rattle.fing_syntax.specs.Phrase as tree;
    ghost use Rattle.fing_syntax.specs.Inner.Code.{bind_code};

    ghost Value = { tree.Bind };

    ghost coded = { bind_code };

    ghost use Rattle.fing_syntax.specs.Inner.Size.{bind_size};

    ghost size = { bind_size };

    ghost use Rattle.fing_syntax.specs.Inner.View.{bind_of};

    ghost view = { λ n. bind_of n.span n.what };

    ghost use Rattle.fing_syntax.specs.Inner.Falls.{bind_falls};

    ghost size_decreases = { λ n _. bind_falls n.span n.what };
}

impl Model for SigEx {
    ghost use Rattle.fing_syntax.specs.Phrase as tree;
    ghost use Rattle.fing_syntax.specs.Inner.Code.{sig_code};

    ghost Value = { tree.SigEx };

    ghost coded = { sig_code };

    ghost use Rattle.fing_syntax.specs.Inner.Size.{sig_size};

    ghost size = { sig_size };

    ghost use Rattle.fing_syntax.specs.Inner.View.{sig_of};

    ghost view = { λ n. sig_of n.span n.what };

    ghost use Rattle.fing_syntax.specs.Inner.Falls.{sig_falls};

    ghost size_decreases = { λ n _. sig_falls n.span n.what };
}

impl Model for Decl {
    ghost use Rattle.fing_syntax.specs.Phrase as tree;
    ghost use Rattle.fing_syntax.specs.Inner.Code.{decl_code};

    ghost Value = { tree.Decl };

    ghost coded = { decl_code };

    ghost use Rattle.fing_syntax.specs.Inner.Size.{decl_size};

    ghost size = { decl_size };

    ghost use Rattle.fing_syntax.specs.Inner.View.{decl_of};

    ghost view = { λ n. decl_of n.span n.what };

    ghost use Rattle.fing_syntax.specs.Inner.Falls.{decl_falls};

    ghost size_decreases = { λ n _. decl_falls n.span n.what };
}

impl Model for TyEx {
    ghost use Rattle.fing_syntax.specs.Phrase as tree;
    ghost use Rattle.fing_syntax.specs.Inner.Code.{ty_code};

    ghost Value = { tree.TyEx };

    ghost coded = { ty_code };

    ghost use Rattle.fing_syntax.specs.Inner.Size.{ty_size};

    ghost size = { ty_size };

    ghost use Rattle.fing_syntax.specs.Inner.View.{ty_of};

    ghost view = { λ n. ty_of n.span n.what };

    ghost use Rattle.fing_syntax.specs.Inner.Falls.{ty_falls};

    ghost size_decreases = { λ n _. ty_falls n.span n.what };
}

impl Model for Exp {
    ghost use Rattle.fing_syntax.specs.Phrase as tree;
    ghost use Rattle.fing_syntax.specs.Inner.Code.{exp_code};

    ghost Value = { tree.Exp };

    ghost coded = { exp_code };

    ghost use Rattle.fing_syntax.specs.Inner.Size.{exp_size};

    ghost size = { exp_size };

    ghost use Rattle.fing_syntax.specs.Inner.View.{exp_of};

    ghost view = { λ n. exp_of n.span n.what };

    ghost use Rattle.fing_syntax.specs.Inner.Falls.{exp_falls};

    ghost size_decreases = { λ n _. exp_falls n.span n.what };
}
