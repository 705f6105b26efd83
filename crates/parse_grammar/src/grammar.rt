// The grammar as data: terminals, classes of phrases, productions and symbols.
use fing_lexer::{Mark, Word};

/// What a token is, without its name, its number or its text.
#[derive(Clone, Copy, PartialEq, Eq)]
pub enum Terminal {
    Word(Word),
    Mark(Mark),
    Name,
    Number,
    Text,
}

/// A class of phrases. An atom needs no parentheses where it stands beside other phrases.
#[derive(Clone, Copy)]
pub enum Class {
    Units,
    OneUnit,
    Binds,
    Bind,
    Decls,
    Decl,
    TypeOf,
    Kind,
    KindArrow,
    KindAtom,
    Path,
    Dots,
    Ty,
    TyArrow,
    TyChain,
    TyArgs,
    TyAtom,
    TyFields,
    MoreTyFields,
    Sig,
    SigArrow,
    Wheres,
    SigAtom,
    Mod,
    ModArgs,
    Seals,
    ModAtom,
    Exp,
    Lam,
    Branches,
    MoreBranches,
    Compare,
    Sum,
    Sums,
    Product,
    Products,
    Application,
    Args,
    Selection,
    Gets,
    ExpAtom,
    ExpFields,
    MoreExpFields,
}

/// A production of separate units.
#[derive(Clone, Copy)]
pub enum UnitRule {
    NoUnits,
    MoreUnits,
    Module,
}

/// A production of bindings.
#[derive(Clone, Copy)]
pub enum BindRule {
    NoBinds,
    MoreBinds,
    Val,
    Type,
    Data,
    Module,
    Signature,
    Include,
}

/// A production of declarations.
#[derive(Clone, Copy)]
pub enum DeclRule {
    NoDecls,
    MoreDecls,
    Val,
    Type,
    Data,
    Module,
    Signature,
    Include,
    Open,
    Is,
    Has,
}

/// A production of kinds.
#[derive(Clone, Copy)]
pub enum KindRule {
    Chain,
    NoArrow,
    Arrow,
    Type,
    Paren,
}

/// A production of paths.
#[derive(Clone, Copy)]
pub enum PathRule {
    Name,
    From,
    NoDots,
    MoreDots,
}

/// A production of types.
#[derive(Clone, Copy)]
pub enum TyRule {
    Lam,
    All,
    Chain,
    NoArrow,
    Arrow,
    Args,
    NoArgs,
    MoreArgs,
    Int,
    Bool,
    Text,
    Path,
    Fields,
    Sum,
    Pack,
    Paren,
    NoFields,
    Field,
    LastField,
    NextField,
}

/// A production of signatures.
#[derive(Clone, Copy)]
pub enum SigRule {
    Fun,
    Where,
    Generative,
    Applicative,
    NoWheres,
    MoreWheres,
    Path,
    Decls,
    Paren,
}

/// A production of modules.
#[derive(Clone, Copy)]
pub enum ModRule {
    Fun,
    Gen,
    Unpack,
    Chain,
    NoArgs,
    MoreArgs,
    NoSeals,
    Seal,
    Ascribe,
    Path,
    Struct,
    Let,
    Paren,
}

/// A production of expressions.
#[derive(Clone, Copy)]
pub enum ExpRule {
    Fun,
    Fix,
    If,
    Case,
    Compare,
    LamValue,
    LamType,
    NoBranches,
    Branch,
    LastBranch,
    NextBranch,
}

/// A production of expressions with operators.
#[derive(Clone, Copy)]
pub enum OpRule {
    NoCompare,
    LessThan,
    EqualTo,
    Sums,
    NoSums,
    Add,
    Subtract,
    Products,
    NoProducts,
    Multiply,
    Divide,
    Remainder,
}

/// A production of applications and selections of fields.
#[derive(Clone, Copy)]
pub enum ArgRule {
    Args,
    NoArgs,
    Value,
    Type,
    Gets,
    NoGets,
    MoreGets,
}

/// A production of expressions that need no parentheses.
#[derive(Clone, Copy)]
pub enum AtomRule {
    Number,
    Text,
    True,
    False,
    Path,
    Fields,
    Inj,
    Roll,
    Unroll,
    Let,
    Pack,
    Paren,
    NoFields,
    Field,
    LastField,
    NextField,
}

/// A production of the grammar.
#[derive(Clone, Copy)]
pub enum Rule {
    OneUnit(UnitRule),
    Bind(BindRule),
    Decl(DeclRule),
    Kind(KindRule),
    Path(PathRule),
    Ty(TyRule),
    Sig(SigRule),
    Mod(ModRule),
    Exp(ExpRule),
    Op(OpRule),
    Arg(ArgRule),
    Atom(AtomRule),
}

/// One token, or one phrase of a class.
#[derive(Clone, Copy)]
pub enum Symbol {
    Token(Terminal),
    Phrase(Class),
}
