// The production that the next token chooses.
ghost use Rattle.std.specs.Prelude.{◌≡◌, List, [], ◌∷◌, option_map};
ghost use Rattle.parse_grammar.specs.Grammar as the;
ghost use Rattle.parse_grammar.specs.Grammar.{kind_of};
ghost use Rattle.parse_grammar.specs.Reading.{ahead};
ghost use Rattle.parse_grammar.specs.Tables.{is_in, choose as choice};
ghost use Rattle.parse_grammar.specs.Inner.View.{terminal_in, number_next, rule_in, any, chosen};

use crate::grammar::{
    ArgRule, AtomRule, BindRule, Class, DeclRule, ExpRule, KindRule, ModRule, OpRule, PathRule,
    Rule, SigRule, Terminal, TyRule, UnitRule,
};
use fing_lexer::{Mark, Token, What, Word};

/// What a token is, without its name, its number or its text.
pub fn terminal_of(token: &Token) -> Terminal
    ensures { terminal_in result ≡ kind_of token.now }
{
    match &token.what {
        What::Word(word) => Terminal::Word(*word),
        What::Mark(mark) => Terminal::Mark(*mark),
        What::Ident(_) => Terminal::Name,
        What::Int(_) => Terminal::Number,
        What::Text(_) => Terminal::Text,
    }
}

/// What the next token is; `None` at the end.
pub fn next(rest: &[Token]) -> Option<Terminal>
    ensures { number_next result ≡ ahead rest.now }
{
    rest.first().map(terminal_of)
}

// Whether a binding or a declaration begins.
#[tactic(auto, unfolding(crate::specs::Tables::number_of))]
fn begins_binding(next: Option<Terminal>) -> bool
    ensures { result ≡ is_in (number_next next) (1 ∷ 2 ∷ 3 ∷ 4 ∷ 5 ∷ 30 ∷ []) }
{
    match next {
        Some(
            Terminal::Word(
                Word::KwVal
                | Word::KwType
                | Word::KwData
                | Word::KwModule
                | Word::KwSignature
                | Word::KwInclude,
            ),
        ) => true,
        _ => false,
    }
}

// Whether a type that needs no parentheses begins.
#[tactic(auto, unfolding(crate::specs::Tables::number_of))]
fn begins_ty(next: Option<Terminal>) -> bool
    ensures { result ≡ is_in (number_next next) (17 ∷ 19 ∷ 23 ∷ 24 ∷ 25 ∷ 27 ∷ 33 ∷ 35 ∷ 54 ∷ []) }
{
    match next {
        Some(
            Terminal::Word(
                Word::KwPack
                | Word::KwFrom
                | Word::KwInt
                | Word::KwBool
                | Word::KwText
                | Word::KwCase,
            ),
        ) => true,
        Some(Terminal::Mark(Mark::LeftParen | Mark::LeftBrace)) => true,
        Some(Terminal::Name) => true,
        _ => false,
    }
}

// Whether a module that needs no parentheses begins.
#[tactic(auto, unfolding(crate::specs::Tables::number_of))]
fn begins_mod(next: Option<Terminal>) -> bool
    ensures { result ≡ is_in (number_next next) (6 ∷ 9 ∷ 19 ∷ 33 ∷ 54 ∷ []) }
{
    match next {
        Some(Terminal::Word(Word::KwStruct | Word::KwLet | Word::KwFrom)) => true,
        Some(Terminal::Mark(Mark::LeftParen)) => true,
        Some(Terminal::Name) => true,
        _ => false,
    }
}

// Whether an expression that needs no parentheses begins.
#[tactic(auto, unfolding(crate::specs::Tables::number_of))]
fn begins_exp(next: Option<Terminal>) -> bool
    ensures { result ≡ is_in (number_next next) (9 ∷ 17 ∷ 19 ∷ 21 ∷ 22 ∷ 29 ∷ 31 ∷ 32 ∷ 33 ∷ 35 ∷ 54 ∷ 55 ∷ 56 ∷ []) }
{
    match next {
        Some(
            Terminal::Word(
                Word::KwLet
                | Word::KwPack
                | Word::KwFrom
                | Word::KwTrue
                | Word::KwFalse
                | Word::KwInj
                | Word::KwRoll
                | Word::KwUnroll,
            ),
        ) => true,
        Some(Terminal::Mark(Mark::LeftParen | Mark::LeftBrace)) => true,
        Some(Terminal::Name | Terminal::Number | Terminal::Text) => true,
        _ => false,
    }
}

#[tactic(auto, unfolding(crate::specs::Tables::number_of, crate::specs::Tables::choose))]
fn units(next: Option<Terminal>) -> Option<Rule>
    ensures { option_map rule_in result ≡ option_map any (choice the.Units (number_next next)) }
{
    match next {
        Some(Terminal::Word(Word::KwModule)) => Some(Rule::OneUnit(UnitRule::MoreUnits)),
        _ => Some(Rule::OneUnit(UnitRule::NoUnits)),
    }
}

#[tactic(auto, unfolding(crate::specs::Tables::number_of, crate::specs::Tables::choose))]
fn binds(next: Option<Terminal>) -> Option<Rule>
    ensures { option_map rule_in result ≡ option_map any (choice the.Binds (number_next next)) }
{
    if begins_binding(next) {
        Some(Rule::Bind(BindRule::MoreBinds))
    } else {
        Some(Rule::Bind(BindRule::NoBinds))
    }
}

#[tactic(auto, unfolding(crate::specs::Tables::number_of, crate::specs::Tables::choose))]
fn bind(next: Option<Terminal>) -> Option<Rule>
    ensures { option_map rule_in result ≡ option_map any (choice the.Bind (number_next next)) }
{
    match next {
        Some(Terminal::Word(Word::KwVal)) => Some(Rule::Bind(BindRule::Val)),
        Some(Terminal::Word(Word::KwType)) => Some(Rule::Bind(BindRule::Type)),
        Some(Terminal::Word(Word::KwModule)) => Some(Rule::Bind(BindRule::Module)),
        Some(Terminal::Word(Word::KwSignature)) => Some(Rule::Bind(BindRule::Signature)),
        Some(Terminal::Word(Word::KwInclude)) => Some(Rule::Bind(BindRule::Include)),
        Some(Terminal::Word(Word::KwData)) => Some(Rule::Bind(BindRule::Data)),
        _ => None,
    }
}

#[tactic(auto, unfolding(crate::specs::Tables::number_of, crate::specs::Tables::choose))]
fn decls(next: Option<Terminal>) -> Option<Rule>
    ensures { option_map rule_in result ≡ option_map any (choice the.Decls (number_next next)) }
{
    if begins_binding(next) {
        Some(Rule::Decl(DeclRule::MoreDecls))
    } else {
        Some(Rule::Decl(DeclRule::NoDecls))
    }
}

#[tactic(auto, unfolding(crate::specs::Tables::number_of, crate::specs::Tables::choose))]
fn decl(next: Option<Terminal>) -> Option<Rule>
    ensures { option_map rule_in result ≡ option_map any (choice the.Decl (number_next next)) }
{
    match next {
        Some(Terminal::Word(Word::KwVal)) => Some(Rule::Decl(DeclRule::Val)),
        Some(Terminal::Word(Word::KwType)) => Some(Rule::Decl(DeclRule::Type)),
        Some(Terminal::Word(Word::KwModule)) => Some(Rule::Decl(DeclRule::Module)),
        Some(Terminal::Word(Word::KwSignature)) => Some(Rule::Decl(DeclRule::Signature)),
        Some(Terminal::Word(Word::KwInclude)) => Some(Rule::Decl(DeclRule::Include)),
        Some(Terminal::Word(Word::KwData)) => Some(Rule::Decl(DeclRule::Data)),
        _ => None,
    }
}

#[tactic(auto, unfolding(crate::specs::Tables::number_of, crate::specs::Tables::choose))]
fn type_of(next: Option<Terminal>) -> Option<Rule>
    ensures { option_map rule_in result ≡ option_map any (choice the.TypeOf (number_next next)) }
{
    match next {
        Some(Terminal::Mark(Mark::Equal)) => Some(Rule::Decl(DeclRule::Is)),
        Some(Terminal::Mark(Mark::Colon)) => Some(Rule::Decl(DeclRule::Has)),
        _ => Some(Rule::Decl(DeclRule::Open)),
    }
}

#[tactic(auto, unfolding(crate::specs::Tables::number_of, crate::specs::Tables::choose))]
fn kind_arrow(next: Option<Terminal>) -> Option<Rule>
    ensures { option_map rule_in result ≡ option_map any (choice the.KArrow (number_next next)) }
{
    match next {
        Some(Terminal::Mark(Mark::Arrow)) => Some(Rule::Kind(KindRule::Arrow)),
        _ => Some(Rule::Kind(KindRule::NoArrow)),
    }
}

#[tactic(auto, unfolding(crate::specs::Tables::number_of, crate::specs::Tables::choose))]
fn kind_atom(next: Option<Terminal>) -> Option<Rule>
    ensures { option_map rule_in result ≡ option_map any (choice the.KA (number_next next)) }
{
    match next {
        Some(Terminal::Word(Word::KwKind)) => Some(Rule::Kind(KindRule::Type)),
        Some(Terminal::Mark(Mark::LeftParen)) => Some(Rule::Kind(KindRule::Paren)),
        _ => None,
    }
}

#[tactic(auto, unfolding(crate::specs::Tables::number_of, crate::specs::Tables::choose))]
fn path(next: Option<Terminal>) -> Option<Rule>
    ensures { option_map rule_in result ≡ option_map any (choice the.P (number_next next)) }
{
    match next {
        Some(Terminal::Name) => Some(Rule::Path(PathRule::Name)),
        Some(Terminal::Word(Word::KwFrom)) => Some(Rule::Path(PathRule::From)),
        _ => None,
    }
}

#[tactic(auto, unfolding(crate::specs::Tables::number_of, crate::specs::Tables::choose))]
fn dots(next: Option<Terminal>) -> Option<Rule>
    ensures { option_map rule_in result ≡ option_map any (choice the.Dots (number_next next)) }
{
    match next {
        Some(Terminal::Mark(Mark::Dot)) => Some(Rule::Path(PathRule::MoreDots)),
        _ => Some(Rule::Path(PathRule::NoDots)),
    }
}

#[tactic(auto, unfolding(crate::specs::Tables::number_of, crate::specs::Tables::choose))]
fn ty(next: Option<Terminal>) -> Option<Rule>
    ensures { option_map rule_in result ≡ option_map any (choice the.T (number_next next)) }
{
    match next {
        Some(Terminal::Word(Word::KwFun)) => Some(Rule::Ty(TyRule::Lam)),
        Some(Terminal::Mark(Mark::LeftBracket)) => Some(Rule::Ty(TyRule::All)),
        _ => Some(Rule::Ty(TyRule::Chain)),
    }
}

#[tactic(auto, unfolding(crate::specs::Tables::number_of, crate::specs::Tables::choose))]
fn ty_arrow(next: Option<Terminal>) -> Option<Rule>
    ensures { option_map rule_in result ≡ option_map any (choice the.TArrow (number_next next)) }
{
    match next {
        Some(Terminal::Mark(Mark::Arrow)) => Some(Rule::Ty(TyRule::Arrow)),
        _ => Some(Rule::Ty(TyRule::NoArrow)),
    }
}

#[tactic(auto, unfolding(crate::specs::Tables::number_of, crate::specs::Tables::choose))]
fn ty_args(next: Option<Terminal>) -> Option<Rule>
    ensures { option_map rule_in result ≡ option_map any (choice the.TArgs (number_next next)) }
{
    if begins_ty(next) {
        Some(Rule::Ty(TyRule::MoreArgs))
    } else {
        Some(Rule::Ty(TyRule::NoArgs))
    }
}

#[tactic(auto, unfolding(crate::specs::Tables::number_of, crate::specs::Tables::choose))]
fn ty_atom(next: Option<Terminal>) -> Option<Rule>
    ensures { option_map rule_in result ≡ option_map any (choice the.TA (number_next next)) }
{
    match next {
        Some(Terminal::Word(Word::KwInt)) => Some(Rule::Ty(TyRule::Int)),
        Some(Terminal::Word(Word::KwBool)) => Some(Rule::Ty(TyRule::Bool)),
        Some(Terminal::Word(Word::KwText)) => Some(Rule::Ty(TyRule::Text)),
        Some(Terminal::Mark(Mark::LeftBrace)) => Some(Rule::Ty(TyRule::Fields)),
        Some(Terminal::Word(Word::KwCase)) => Some(Rule::Ty(TyRule::Sum)),
        Some(Terminal::Word(Word::KwPack)) => Some(Rule::Ty(TyRule::Pack)),
        Some(Terminal::Mark(Mark::LeftParen)) => Some(Rule::Ty(TyRule::Paren)),
        _ => Some(Rule::Ty(TyRule::Path)),
    }
}

#[tactic(auto, unfolding(crate::specs::Tables::number_of, crate::specs::Tables::choose))]
fn ty_fields(next: Option<Terminal>) -> Option<Rule>
    ensures { option_map rule_in result ≡ option_map any (choice the.TFields (number_next next)) }
{
    match next {
        Some(Terminal::Name) => Some(Rule::Ty(TyRule::Field)),
        _ => Some(Rule::Ty(TyRule::NoFields)),
    }
}

#[tactic(auto, unfolding(crate::specs::Tables::number_of, crate::specs::Tables::choose))]
fn more_ty_fields(next: Option<Terminal>) -> Option<Rule>
    ensures { option_map rule_in result ≡ option_map any (choice the.MoreTFields (number_next next)) }
{
    match next {
        Some(Terminal::Mark(Mark::Comma)) => Some(Rule::Ty(TyRule::NextField)),
        _ => Some(Rule::Ty(TyRule::LastField)),
    }
}

#[tactic(auto, unfolding(crate::specs::Tables::number_of, crate::specs::Tables::choose))]
fn sig(next: Option<Terminal>) -> Option<Rule>
    ensures { option_map rule_in result ≡ option_map any (choice the.S (number_next next)) }
{
    match next {
        Some(Terminal::Word(Word::KwFun)) => Some(Rule::Sig(SigRule::Fun)),
        _ => Some(Rule::Sig(SigRule::Where)),
    }
}

#[tactic(auto, unfolding(crate::specs::Tables::number_of, crate::specs::Tables::choose))]
fn sig_arrow(next: Option<Terminal>) -> Option<Rule>
    ensures { option_map rule_in result ≡ option_map any (choice the.SArrow (number_next next)) }
{
    match next {
        Some(Terminal::Mark(Mark::Arrow)) => Some(Rule::Sig(SigRule::Generative)),
        Some(Terminal::Mark(Mark::DoubleArrow)) => Some(Rule::Sig(SigRule::Applicative)),
        _ => None,
    }
}

#[tactic(auto, unfolding(crate::specs::Tables::number_of, crate::specs::Tables::choose))]
fn wheres(next: Option<Terminal>) -> Option<Rule>
    ensures { option_map rule_in result ≡ option_map any (choice the.Wheres (number_next next)) }
{
    match next {
        Some(Terminal::Word(Word::KwWhere)) => Some(Rule::Sig(SigRule::MoreWheres)),
        _ => Some(Rule::Sig(SigRule::NoWheres)),
    }
}

#[tactic(auto, unfolding(crate::specs::Tables::number_of, crate::specs::Tables::choose))]
fn sig_atom(next: Option<Terminal>) -> Option<Rule>
    ensures { option_map rule_in result ≡ option_map any (choice the.SA (number_next next)) }
{
    match next {
        Some(Terminal::Word(Word::KwSig)) => Some(Rule::Sig(SigRule::Decls)),
        Some(Terminal::Mark(Mark::LeftParen)) => Some(Rule::Sig(SigRule::Paren)),
        _ => Some(Rule::Sig(SigRule::Path)),
    }
}

#[tactic(auto, unfolding(crate::specs::Tables::number_of, crate::specs::Tables::choose))]
fn module(next: Option<Terminal>) -> Option<Rule>
    ensures { option_map rule_in result ≡ option_map any (choice the.M (number_next next)) }
{
    match next {
        Some(Terminal::Word(Word::KwFun)) => Some(Rule::Mod(ModRule::Fun)),
        Some(Terminal::Word(Word::KwGen)) => Some(Rule::Mod(ModRule::Gen)),
        Some(Terminal::Word(Word::KwUnpack)) => Some(Rule::Mod(ModRule::Unpack)),
        _ => Some(Rule::Mod(ModRule::Chain)),
    }
}

#[tactic(auto, unfolding(crate::specs::Tables::number_of, crate::specs::Tables::choose))]
fn mod_args(next: Option<Terminal>) -> Option<Rule>
    ensures { option_map rule_in result ≡ option_map any (choice the.MArgs (number_next next)) }
{
    if begins_mod(next) {
        Some(Rule::Mod(ModRule::MoreArgs))
    } else {
        Some(Rule::Mod(ModRule::NoArgs))
    }
}

#[tactic(auto, unfolding(crate::specs::Tables::number_of, crate::specs::Tables::choose))]
fn seals(next: Option<Terminal>) -> Option<Rule>
    ensures { option_map rule_in result ≡ option_map any (choice the.Seals (number_next next)) }
{
    match next {
        Some(Terminal::Mark(Mark::Seal)) => Some(Rule::Mod(ModRule::Seal)),
        Some(Terminal::Mark(Mark::Colon)) => Some(Rule::Mod(ModRule::Ascribe)),
        _ => Some(Rule::Mod(ModRule::NoSeals)),
    }
}

#[tactic(auto, unfolding(crate::specs::Tables::number_of, crate::specs::Tables::choose))]
fn mod_atom(next: Option<Terminal>) -> Option<Rule>
    ensures { option_map rule_in result ≡ option_map any (choice the.MA (number_next next)) }
{
    match next {
        Some(Terminal::Word(Word::KwStruct)) => Some(Rule::Mod(ModRule::Struct)),
        Some(Terminal::Word(Word::KwLet)) => Some(Rule::Mod(ModRule::Let)),
        Some(Terminal::Mark(Mark::LeftParen)) => Some(Rule::Mod(ModRule::Paren)),
        _ => Some(Rule::Mod(ModRule::Path)),
    }
}

#[tactic(auto, unfolding(crate::specs::Tables::number_of, crate::specs::Tables::choose))]
fn exp(next: Option<Terminal>) -> Option<Rule>
    ensures { option_map rule_in result ≡ option_map any (choice the.E (number_next next)) }
{
    match next {
        Some(Terminal::Word(Word::KwFun)) => Some(Rule::Exp(ExpRule::Fun)),
        Some(Terminal::Word(Word::KwFix)) => Some(Rule::Exp(ExpRule::Fix)),
        Some(Terminal::Word(Word::KwIf)) => Some(Rule::Exp(ExpRule::If)),
        Some(Terminal::Word(Word::KwCase)) => Some(Rule::Exp(ExpRule::Case)),
        _ => Some(Rule::Exp(ExpRule::Compare)),
    }
}

#[tactic(auto, unfolding(crate::specs::Tables::number_of, crate::specs::Tables::choose))]
fn lam(next: Option<Terminal>) -> Option<Rule>
    ensures { option_map rule_in result ≡ option_map any (choice the.Lam (number_next next)) }
{
    match next {
        Some(Terminal::Mark(Mark::LeftParen)) => Some(Rule::Exp(ExpRule::LamValue)),
        Some(Terminal::Mark(Mark::LeftBracket)) => Some(Rule::Exp(ExpRule::LamType)),
        _ => None,
    }
}

#[tactic(auto, unfolding(crate::specs::Tables::number_of, crate::specs::Tables::choose))]
fn branches(next: Option<Terminal>) -> Option<Rule>
    ensures { option_map rule_in result ≡ option_map any (choice the.EBranches (number_next next)) }
{
    match next {
        Some(Terminal::Name) => Some(Rule::Exp(ExpRule::Branch)),
        _ => Some(Rule::Exp(ExpRule::NoBranches)),
    }
}

#[tactic(auto, unfolding(crate::specs::Tables::number_of, crate::specs::Tables::choose))]
fn more_branches(next: Option<Terminal>) -> Option<Rule>
    ensures { option_map rule_in result ≡ option_map any (choice the.MoreEBranches (number_next next)) }
{
    match next {
        Some(Terminal::Mark(Mark::Comma)) => Some(Rule::Exp(ExpRule::NextBranch)),
        _ => Some(Rule::Exp(ExpRule::LastBranch)),
    }
}

#[tactic(auto, unfolding(crate::specs::Tables::number_of, crate::specs::Tables::choose))]
fn compare(next: Option<Terminal>) -> Option<Rule>
    ensures { option_map rule_in result ≡ option_map any (choice the.Compare (number_next next)) }
{
    match next {
        Some(Terminal::Mark(Mark::Less)) => Some(Rule::Op(OpRule::LessThan)),
        Some(Terminal::Mark(Mark::EqualEqual)) => Some(Rule::Op(OpRule::EqualTo)),
        _ => Some(Rule::Op(OpRule::NoCompare)),
    }
}

#[tactic(auto, unfolding(crate::specs::Tables::number_of, crate::specs::Tables::choose))]
fn sums(next: Option<Terminal>) -> Option<Rule>
    ensures { option_map rule_in result ≡ option_map any (choice the.Sums (number_next next)) }
{
    match next {
        Some(Terminal::Mark(Mark::Plus)) => Some(Rule::Op(OpRule::Add)),
        Some(Terminal::Mark(Mark::Minus)) => Some(Rule::Op(OpRule::Subtract)),
        _ => Some(Rule::Op(OpRule::NoSums)),
    }
}

#[tactic(auto, unfolding(crate::specs::Tables::number_of, crate::specs::Tables::choose))]
fn products(next: Option<Terminal>) -> Option<Rule>
    ensures { option_map rule_in result ≡ option_map any (choice the.Products (number_next next)) }
{
    match next {
        Some(Terminal::Mark(Mark::Star)) => Some(Rule::Op(OpRule::Multiply)),
        Some(Terminal::Mark(Mark::Slash)) => Some(Rule::Op(OpRule::Divide)),
        Some(Terminal::Mark(Mark::Percent)) => Some(Rule::Op(OpRule::Remainder)),
        _ => Some(Rule::Op(OpRule::NoProducts)),
    }
}

#[tactic(auto, unfolding(crate::specs::Tables::number_of, crate::specs::Tables::choose))]
fn args(next: Option<Terminal>) -> Option<Rule>
    ensures { option_map rule_in result ≡ option_map any (choice the.Args (number_next next)) }
{
    match next {
        Some(Terminal::Mark(Mark::LeftBracket)) => Some(Rule::Arg(ArgRule::Type)),
        _ if begins_exp(next) => Some(Rule::Arg(ArgRule::Value)),
        _ => Some(Rule::Arg(ArgRule::NoArgs)),
    }
}

#[tactic(auto, unfolding(crate::specs::Tables::number_of, crate::specs::Tables::choose))]
fn gets(next: Option<Terminal>) -> Option<Rule>
    ensures { option_map rule_in result ≡ option_map any (choice the.Gets (number_next next)) }
{
    match next {
        Some(Terminal::Mark(Mark::Hash)) => Some(Rule::Arg(ArgRule::MoreGets)),
        _ => Some(Rule::Arg(ArgRule::NoGets)),
    }
}

#[tactic(auto, unfolding(crate::specs::Tables::number_of, crate::specs::Tables::choose))]
fn exp_atom(next: Option<Terminal>) -> Option<Rule>
    ensures { option_map rule_in result ≡ option_map any (choice the.EB (number_next next)) }
{
    match next {
        Some(Terminal::Number) => Some(Rule::Atom(AtomRule::Number)),
        Some(Terminal::Text) => Some(Rule::Atom(AtomRule::Text)),
        Some(Terminal::Word(Word::KwTrue)) => Some(Rule::Atom(AtomRule::True)),
        Some(Terminal::Word(Word::KwFalse)) => Some(Rule::Atom(AtomRule::False)),
        Some(Terminal::Mark(Mark::LeftBrace)) => Some(Rule::Atom(AtomRule::Fields)),
        Some(Terminal::Word(Word::KwInj)) => Some(Rule::Atom(AtomRule::Inj)),
        Some(Terminal::Word(Word::KwRoll)) => Some(Rule::Atom(AtomRule::Roll)),
        Some(Terminal::Word(Word::KwUnroll)) => Some(Rule::Atom(AtomRule::Unroll)),
        Some(Terminal::Word(Word::KwLet)) => Some(Rule::Atom(AtomRule::Let)),
        Some(Terminal::Word(Word::KwPack)) => Some(Rule::Atom(AtomRule::Pack)),
        Some(Terminal::Mark(Mark::LeftParen)) => Some(Rule::Atom(AtomRule::Paren)),
        _ => Some(Rule::Atom(AtomRule::Path)),
    }
}

#[tactic(auto, unfolding(crate::specs::Tables::number_of, crate::specs::Tables::choose))]
fn exp_fields(next: Option<Terminal>) -> Option<Rule>
    ensures { option_map rule_in result ≡ option_map any (choice the.EFields (number_next next)) }
{
    match next {
        Some(Terminal::Name) => Some(Rule::Atom(AtomRule::Field)),
        _ => Some(Rule::Atom(AtomRule::NoFields)),
    }
}

#[tactic(auto, unfolding(crate::specs::Tables::number_of, crate::specs::Tables::choose))]
fn more_exp_fields(next: Option<Terminal>) -> Option<Rule>
    ensures { option_map rule_in result ≡ option_map any (choice the.MoreEFields (number_next next)) }
{
    match next {
        Some(Terminal::Mark(Mark::Comma)) => Some(Rule::Atom(AtomRule::NextField)),
        _ => Some(Rule::Atom(AtomRule::LastField)),
    }
}

/// The production that the table has for a phrase of the class before this terminal, or, for `None`, at the end. At each
/// node of a text's tree it is the node's own (`one_choice`). Where no phrase of the class can begin, the table
/// has none (`None`), or one whose first symbol the token does not begin.
#[tactic(auto, unfolding(crate::specs::Tables::choose))]
pub fn choose(class: Class, next: Option<Terminal>) -> Option<Rule>
    ensures { option_map rule_in result ≡ chosen class (number_next next) }
{
    match class {
        Class::Units => units(next),
        Class::OneUnit => Some(Rule::OneUnit(UnitRule::Module)),
        Class::Binds => binds(next),
        Class::Bind => bind(next),
        Class::Decls => decls(next),
        Class::Decl => decl(next),
        Class::TypeOf => type_of(next),
        Class::Kind => Some(Rule::Kind(KindRule::Chain)),
        Class::KindArrow => kind_arrow(next),
        Class::KindAtom => kind_atom(next),
        Class::Path => path(next),
        Class::Dots => dots(next),
        Class::Ty => ty(next),
        Class::TyArrow => ty_arrow(next),
        Class::TyChain => Some(Rule::Ty(TyRule::Args)),
        Class::TyArgs => ty_args(next),
        Class::TyAtom => ty_atom(next),
        Class::TyFields => ty_fields(next),
        Class::MoreTyFields => more_ty_fields(next),
        Class::Sig => sig(next),
        Class::SigArrow => sig_arrow(next),
        Class::Wheres => wheres(next),
        Class::SigAtom => sig_atom(next),
        Class::Mod => module(next),
        Class::ModArgs => mod_args(next),
        Class::Seals => seals(next),
        Class::ModAtom => mod_atom(next),
        Class::Exp => exp(next),
        Class::Lam => lam(next),
        Class::Branches => branches(next),
        Class::MoreBranches => more_branches(next),
        Class::Compare => compare(next),
        Class::Sum => Some(Rule::Op(OpRule::Sums)),
        Class::Sums => sums(next),
        Class::Product => Some(Rule::Op(OpRule::Products)),
        Class::Products => products(next),
        Class::Application => Some(Rule::Arg(ArgRule::Args)),
        Class::Args => args(next),
        Class::Selection => Some(Rule::Arg(ArgRule::Gets)),
        Class::Gets => gets(next),
        Class::ExpAtom => exp_atom(next),
        Class::ExpFields => exp_fields(next),
        Class::MoreExpFields => more_exp_fields(next),
    }
}
