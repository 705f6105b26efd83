// What stands on the parser's stack. A list that grows is kept with its first item last.
use fing_lexer::Token;
use fing_syntax::{Arg, Bind, Branch, Decl, Exp, Mod, Op, SigEx, SpanName, TyEx, UnitTree};
use parse_forms::{Abstraction, Ascription, KindPart, TypeTail, Where};

/// A token, or what a phrase of some class gives.
#[derive(Drop)]
pub enum Part<'a> {
    Token(&'a Token),
    Units(Vec<UnitTree>),
    // in a box, since it is larger than the other parts
    OneUnit(Box<UnitTree>),
    Binds(Vec<Bind>),
    Bind(Bind),
    Decls(Vec<Decl>),
    Decl(Decl),
    Tail(TypeTail),
    Kind(KindPart),
    KindArrow(Option<KindPart>),
    Mod(Mod),
    Names(Vec<SpanName>),
    Ty(TyEx),
    TyArrow(Option<TyEx>),
    Tys(Vec<TyEx>),
    FieldTys(Vec<(SpanName, TyEx)>),
    Sig(SigEx),
    Pure(bool),
    Wheres(Vec<Where>),
    Mods(Vec<Mod>),
    Ascriptions(Vec<Ascription>),
    Exp(Exp),
    Abstraction(Abstraction),
    Ops(Vec<(Op, Exp)>),
    Args(Vec<Arg>),
    FieldExps(Vec<(SpanName, Exp)>),
    Branches(Vec<Branch>),
}
