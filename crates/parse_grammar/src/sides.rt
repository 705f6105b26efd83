// What stands right of each production.
ghost use Rattle.std.specs.Prelude.{◌≡◌, map};
ghost use Rattle.parse_grammar.specs.Inner.View.{symbol_in, side_of, rule_in, unit_rule_in, bind_rule_in, decl_rule_in, kind_rule_in, path_rule_in, ty_rule_in, sig_rule_in, mod_rule_in, exp_rule_in, op_rule_in, arg_rule_in, atom_rule_in};

use crate::grammar::Symbol::Phrase;
use crate::grammar::{
    ArgRule, AtomRule, BindRule, Class, DeclRule, ExpRule, KindRule, ModRule, OpRule, PathRule,
    Rule, SigRule, Symbol, Terminal, TyRule, UnitRule,
};
use fing_lexer::{Mark, Word};

const NAME: Symbol = Symbol::Token(Terminal::Name);

const NUMBER: Symbol = Symbol::Token(Terminal::Number);

const TEXT: Symbol = Symbol::Token(Terminal::Text);

const KW_VAL: Symbol = Symbol::Token(Terminal::Word(Word::KwVal));

const EQUAL: Symbol = Symbol::Token(Terminal::Mark(Mark::Equal));

const KW_TYPE: Symbol = Symbol::Token(Terminal::Word(Word::KwType));

const KW_MODULE: Symbol = Symbol::Token(Terminal::Word(Word::KwModule));

const KW_SIGNATURE: Symbol = Symbol::Token(Terminal::Word(Word::KwSignature));

const KW_INCLUDE: Symbol = Symbol::Token(Terminal::Word(Word::KwInclude));

const COLON: Symbol = Symbol::Token(Terminal::Mark(Mark::Colon));

const ARROW: Symbol = Symbol::Token(Terminal::Mark(Mark::Arrow));

const KW_KIND: Symbol = Symbol::Token(Terminal::Word(Word::KwKind));

const LEFT_PAREN: Symbol = Symbol::Token(Terminal::Mark(Mark::LeftParen));

const RIGHT_PAREN: Symbol = Symbol::Token(Terminal::Mark(Mark::RightParen));

const KW_FROM: Symbol = Symbol::Token(Terminal::Word(Word::KwFrom));

const DOT: Symbol = Symbol::Token(Terminal::Mark(Mark::Dot));

const KW_FUN: Symbol = Symbol::Token(Terminal::Word(Word::KwFun));

const DOUBLE_ARROW: Symbol = Symbol::Token(Terminal::Mark(Mark::DoubleArrow));

const LEFT_BRACKET: Symbol = Symbol::Token(Terminal::Mark(Mark::LeftBracket));

const RIGHT_BRACKET: Symbol = Symbol::Token(Terminal::Mark(Mark::RightBracket));

const KW_INT: Symbol = Symbol::Token(Terminal::Word(Word::KwInt));

const KW_BOOL: Symbol = Symbol::Token(Terminal::Word(Word::KwBool));

const KW_TEXT: Symbol = Symbol::Token(Terminal::Word(Word::KwText));

const LEFT_BRACE: Symbol = Symbol::Token(Terminal::Mark(Mark::LeftBrace));

const RIGHT_BRACE: Symbol = Symbol::Token(Terminal::Mark(Mark::RightBrace));

const KW_PACK: Symbol = Symbol::Token(Terminal::Word(Word::KwPack));

const COMMA: Symbol = Symbol::Token(Terminal::Mark(Mark::Comma));

const KW_WHERE: Symbol = Symbol::Token(Terminal::Word(Word::KwWhere));

const KW_SIG: Symbol = Symbol::Token(Terminal::Word(Word::KwSig));

const KW_END: Symbol = Symbol::Token(Terminal::Word(Word::KwEnd));

const KW_GEN: Symbol = Symbol::Token(Terminal::Word(Word::KwGen));

const KW_UNPACK: Symbol = Symbol::Token(Terminal::Word(Word::KwUnpack));

const SEAL: Symbol = Symbol::Token(Terminal::Mark(Mark::Seal));

const KW_STRUCT: Symbol = Symbol::Token(Terminal::Word(Word::KwStruct));

const KW_LET: Symbol = Symbol::Token(Terminal::Word(Word::KwLet));

const KW_IN: Symbol = Symbol::Token(Terminal::Word(Word::KwIn));

const KW_FIX: Symbol = Symbol::Token(Terminal::Word(Word::KwFix));

const KW_IF: Symbol = Symbol::Token(Terminal::Word(Word::KwIf));

const KW_THEN: Symbol = Symbol::Token(Terminal::Word(Word::KwThen));

const KW_ELSE: Symbol = Symbol::Token(Terminal::Word(Word::KwElse));

const LESS: Symbol = Symbol::Token(Terminal::Mark(Mark::Less));

const EQUAL_EQUAL: Symbol = Symbol::Token(Terminal::Mark(Mark::EqualEqual));

const PLUS: Symbol = Symbol::Token(Terminal::Mark(Mark::Plus));

const MINUS: Symbol = Symbol::Token(Terminal::Mark(Mark::Minus));

const STAR: Symbol = Symbol::Token(Terminal::Mark(Mark::Star));

const SLASH: Symbol = Symbol::Token(Terminal::Mark(Mark::Slash));

const PERCENT: Symbol = Symbol::Token(Terminal::Mark(Mark::Percent));

const HASH: Symbol = Symbol::Token(Terminal::Mark(Mark::Hash));

const KW_TRUE: Symbol = Symbol::Token(Terminal::Word(Word::KwTrue));

const KW_FALSE: Symbol = Symbol::Token(Terminal::Word(Word::KwFalse));

const KW_CASE: Symbol = Symbol::Token(Terminal::Word(Word::KwCase));

const KW_OF: Symbol = Symbol::Token(Terminal::Word(Word::KwOf));

const KW_INJ: Symbol = Symbol::Token(Terminal::Word(Word::KwInj));

const KW_DATA: Symbol = Symbol::Token(Terminal::Word(Word::KwData));

const KW_ROLL: Symbol = Symbol::Token(Terminal::Word(Word::KwRoll));

const KW_UNROLL: Symbol = Symbol::Token(Terminal::Word(Word::KwUnroll));

fn unit_side(rule: UnitRule) -> &'static [Symbol]
    ensures { map symbol_in result.now ≡ side_of (unit_rule_in rule) }
{
    match rule {
        UnitRule::NoUnits => &[],
        UnitRule::MoreUnits => &[Phrase(Class::OneUnit), Phrase(Class::Units)],
        UnitRule::Module => &[
            KW_MODULE,
            NAME,
            COLON,
            Phrase(Class::Sig),
            EQUAL,
            KW_STRUCT,
            Phrase(Class::Binds),
            KW_END,
        ],
    }
}

fn bind_side(rule: BindRule) -> &'static [Symbol]
    ensures { map symbol_in result.now ≡ side_of (bind_rule_in rule) }
{
    match rule {
        BindRule::NoBinds => &[],
        BindRule::MoreBinds => &[Phrase(Class::Bind), Phrase(Class::Binds)],
        BindRule::Val => &[KW_VAL, NAME, EQUAL, Phrase(Class::Exp)],
        BindRule::Type => &[KW_TYPE, NAME, EQUAL, Phrase(Class::Ty)],
        BindRule::Data => &[KW_DATA, NAME, EQUAL, Phrase(Class::Ty)],
        BindRule::Module => &[KW_MODULE, NAME, EQUAL, Phrase(Class::Mod)],
        BindRule::Signature => &[KW_SIGNATURE, NAME, EQUAL, Phrase(Class::Sig)],
        BindRule::Include => &[KW_INCLUDE, Phrase(Class::Mod)],
    }
}

fn decl_side(rule: DeclRule) -> &'static [Symbol]
    ensures { map symbol_in result.now ≡ side_of (decl_rule_in rule) }
{
    match rule {
        DeclRule::NoDecls => &[],
        DeclRule::MoreDecls => &[Phrase(Class::Decl), Phrase(Class::Decls)],
        DeclRule::Val => &[KW_VAL, NAME, COLON, Phrase(Class::Ty)],
        DeclRule::Type => &[KW_TYPE, NAME, Phrase(Class::TypeOf)],
        DeclRule::Data => &[KW_DATA, NAME, EQUAL, Phrase(Class::Ty)],
        DeclRule::Module => &[KW_MODULE, NAME, COLON, Phrase(Class::Sig)],
        DeclRule::Signature => &[KW_SIGNATURE, NAME, EQUAL, Phrase(Class::Sig)],
        DeclRule::Include => &[KW_INCLUDE, Phrase(Class::Sig)],
        DeclRule::Open => &[],
        DeclRule::Is => &[EQUAL, Phrase(Class::Ty)],
        DeclRule::Has => &[COLON, Phrase(Class::Kind)],
    }
}

fn kind_side(rule: KindRule) -> &'static [Symbol]
    ensures { map symbol_in result.now ≡ side_of (kind_rule_in rule) }
{
    match rule {
        KindRule::Chain => &[Phrase(Class::KindAtom), Phrase(Class::KindArrow)],
        KindRule::NoArrow => &[],
        KindRule::Arrow => &[ARROW, Phrase(Class::Kind)],
        KindRule::Type => &[KW_KIND],
        KindRule::Paren => &[LEFT_PAREN, Phrase(Class::Kind), RIGHT_PAREN],
    }
}

fn path_side(rule: PathRule) -> &'static [Symbol]
    ensures { map symbol_in result.now ≡ side_of (path_rule_in rule) }
{
    match rule {
        PathRule::Name => &[NAME, Phrase(Class::Dots)],
        PathRule::From => &[
            KW_FROM,
            LEFT_PAREN,
            Phrase(Class::Mod),
            RIGHT_PAREN,
            DOT,
            NAME,
            Phrase(Class::Dots),
        ],
        PathRule::NoDots => &[],
        PathRule::MoreDots => &[DOT, NAME, Phrase(Class::Dots)],
    }
}

fn ty_side(rule: TyRule) -> &'static [Symbol]
    ensures { map symbol_in result.now ≡ side_of (ty_rule_in rule) }
{
    match rule {
        TyRule::Lam => &[
            KW_FUN,
            LEFT_PAREN,
            NAME,
            COLON,
            Phrase(Class::Kind),
            RIGHT_PAREN,
            DOUBLE_ARROW,
            Phrase(Class::Ty),
        ],
        TyRule::All => &[
            LEFT_BRACKET,
            NAME,
            COLON,
            Phrase(Class::Kind),
            RIGHT_BRACKET,
            ARROW,
            Phrase(Class::Ty),
        ],
        TyRule::Chain => &[Phrase(Class::TyChain), Phrase(Class::TyArrow)],
        TyRule::NoArrow => &[],
        TyRule::Arrow => &[ARROW, Phrase(Class::Ty)],
        TyRule::Args => &[Phrase(Class::TyAtom), Phrase(Class::TyArgs)],
        TyRule::NoArgs => &[],
        TyRule::MoreArgs => &[Phrase(Class::TyAtom), Phrase(Class::TyArgs)],
        TyRule::Int => &[KW_INT],
        TyRule::Bool => &[KW_BOOL],
        TyRule::Text => &[KW_TEXT],
        TyRule::Path => &[Phrase(Class::Path)],
        TyRule::Fields => &[LEFT_BRACE, Phrase(Class::TyFields), RIGHT_BRACE],
        TyRule::Sum => &[KW_CASE, LEFT_BRACE, Phrase(Class::TyFields), RIGHT_BRACE],
        TyRule::Pack => &[KW_PACK, Phrase(Class::SigAtom)],
        TyRule::Paren => &[LEFT_PAREN, Phrase(Class::Ty), RIGHT_PAREN],
        TyRule::NoFields => &[],
        TyRule::Field => &[NAME, COLON, Phrase(Class::Ty), Phrase(Class::MoreTyFields)],
        TyRule::LastField => &[],
        TyRule::NextField => &[
            COMMA,
            NAME,
            COLON,
            Phrase(Class::Ty),
            Phrase(Class::MoreTyFields),
        ],
    }
}

fn sig_side(rule: SigRule) -> &'static [Symbol]
    ensures { map symbol_in result.now ≡ side_of (sig_rule_in rule) }
{
    match rule {
        SigRule::Fun => &[
            KW_FUN,
            LEFT_PAREN,
            NAME,
            COLON,
            Phrase(Class::Sig),
            RIGHT_PAREN,
            Phrase(Class::SigArrow),
            Phrase(Class::Sig),
        ],
        SigRule::Where => &[Phrase(Class::SigAtom), Phrase(Class::Wheres)],
        SigRule::Generative => &[ARROW],
        SigRule::Applicative => &[DOUBLE_ARROW],
        SigRule::NoWheres => &[],
        SigRule::MoreWheres => &[
            KW_WHERE,
            KW_TYPE,
            NAME,
            Phrase(Class::Dots),
            EQUAL,
            Phrase(Class::Ty),
            Phrase(Class::Wheres),
        ],
        SigRule::Path => &[Phrase(Class::Path)],
        SigRule::Decls => &[KW_SIG, Phrase(Class::Decls), KW_END],
        SigRule::Paren => &[LEFT_PAREN, Phrase(Class::Sig), RIGHT_PAREN],
    }
}

fn mod_side(rule: ModRule) -> &'static [Symbol]
    ensures { map symbol_in result.now ≡ side_of (mod_rule_in rule) }
{
    match rule {
        ModRule::Fun => &[
            KW_FUN,
            LEFT_PAREN,
            NAME,
            COLON,
            Phrase(Class::Sig),
            RIGHT_PAREN,
            DOUBLE_ARROW,
            Phrase(Class::Mod),
        ],
        ModRule::Gen => &[
            KW_GEN,
            LEFT_PAREN,
            NAME,
            COLON,
            Phrase(Class::Sig),
            RIGHT_PAREN,
            DOUBLE_ARROW,
            Phrase(Class::Mod),
        ],
        ModRule::Unpack => &[
            KW_UNPACK,
            Phrase(Class::Selection),
            COLON,
            Phrase(Class::SigAtom),
        ],
        ModRule::Chain => &[
            Phrase(Class::ModAtom),
            Phrase(Class::ModArgs),
            Phrase(Class::Seals),
        ],
        ModRule::NoArgs => &[],
        ModRule::MoreArgs => &[Phrase(Class::ModAtom), Phrase(Class::ModArgs)],
        ModRule::NoSeals => &[],
        ModRule::Seal => &[SEAL, Phrase(Class::Sig), Phrase(Class::Seals)],
        ModRule::Ascribe => &[COLON, Phrase(Class::Sig), Phrase(Class::Seals)],
        ModRule::Path => &[Phrase(Class::Path)],
        ModRule::Struct => &[KW_STRUCT, Phrase(Class::Binds), KW_END],
        ModRule::Let => &[
            KW_LET,
            Phrase(Class::Binds),
            KW_IN,
            Phrase(Class::Mod),
            KW_END,
        ],
        ModRule::Paren => &[LEFT_PAREN, Phrase(Class::Mod), RIGHT_PAREN],
    }
}

fn exp_side(rule: ExpRule) -> &'static [Symbol]
    ensures { map symbol_in result.now ≡ side_of (exp_rule_in rule) }
{
    match rule {
        ExpRule::Fun => &[KW_FUN, Phrase(Class::Lam)],
        ExpRule::Fix => &[
            KW_FIX,
            NAME,
            LEFT_PAREN,
            NAME,
            COLON,
            Phrase(Class::Ty),
            RIGHT_PAREN,
            COLON,
            Phrase(Class::Ty),
            DOUBLE_ARROW,
            Phrase(Class::Exp),
        ],
        ExpRule::If => &[
            KW_IF,
            Phrase(Class::Exp),
            KW_THEN,
            Phrase(Class::Exp),
            KW_ELSE,
            Phrase(Class::Exp),
        ],
        ExpRule::Case => &[
            KW_CASE,
            Phrase(Class::Exp),
            COLON,
            Phrase(Class::Ty),
            KW_OF,
            LEFT_BRACE,
            Phrase(Class::Branches),
            RIGHT_BRACE,
        ],
        ExpRule::Compare => &[Phrase(Class::Sum), Phrase(Class::Compare)],
        ExpRule::LamValue => &[
            LEFT_PAREN,
            NAME,
            COLON,
            Phrase(Class::Ty),
            RIGHT_PAREN,
            DOUBLE_ARROW,
            Phrase(Class::Exp),
        ],
        ExpRule::LamType => &[
            LEFT_BRACKET,
            NAME,
            COLON,
            Phrase(Class::Kind),
            RIGHT_BRACKET,
            DOUBLE_ARROW,
            Phrase(Class::Exp),
        ],
        ExpRule::NoBranches => &[],
        ExpRule::Branch => &[
            NAME,
            LEFT_PAREN,
            NAME,
            RIGHT_PAREN,
            DOUBLE_ARROW,
            Phrase(Class::Exp),
            Phrase(Class::MoreBranches),
        ],
        ExpRule::LastBranch => &[],
        ExpRule::NextBranch => &[
            COMMA,
            NAME,
            LEFT_PAREN,
            NAME,
            RIGHT_PAREN,
            DOUBLE_ARROW,
            Phrase(Class::Exp),
            Phrase(Class::MoreBranches),
        ],
    }
}

fn op_side(rule: OpRule) -> &'static [Symbol]
    ensures { map symbol_in result.now ≡ side_of (op_rule_in rule) }
{
    match rule {
        OpRule::NoCompare => &[],
        OpRule::LessThan => &[LESS, Phrase(Class::Sum)],
        OpRule::EqualTo => &[EQUAL_EQUAL, Phrase(Class::Sum)],
        OpRule::Sums => &[Phrase(Class::Product), Phrase(Class::Sums)],
        OpRule::NoSums => &[],
        OpRule::Add => &[PLUS, Phrase(Class::Product), Phrase(Class::Sums)],
        OpRule::Subtract => &[MINUS, Phrase(Class::Product), Phrase(Class::Sums)],
        OpRule::Products => &[Phrase(Class::Application), Phrase(Class::Products)],
        OpRule::NoProducts => &[],
        OpRule::Multiply => &[STAR, Phrase(Class::Application), Phrase(Class::Products)],
        OpRule::Divide => &[SLASH, Phrase(Class::Application), Phrase(Class::Products)],
        OpRule::Remainder => &[PERCENT, Phrase(Class::Application), Phrase(Class::Products)],
    }
}

fn arg_side(rule: ArgRule) -> &'static [Symbol]
    ensures { map symbol_in result.now ≡ side_of (arg_rule_in rule) }
{
    match rule {
        ArgRule::Args => &[Phrase(Class::Selection), Phrase(Class::Args)],
        ArgRule::NoArgs => &[],
        ArgRule::Value => &[Phrase(Class::Selection), Phrase(Class::Args)],
        ArgRule::Type => &[
            LEFT_BRACKET,
            Phrase(Class::Ty),
            RIGHT_BRACKET,
            Phrase(Class::Args),
        ],
        ArgRule::Gets => &[Phrase(Class::ExpAtom), Phrase(Class::Gets)],
        ArgRule::NoGets => &[],
        ArgRule::MoreGets => &[HASH, NAME, Phrase(Class::Gets)],
    }
}

fn atom_side(rule: AtomRule) -> &'static [Symbol]
    ensures { map symbol_in result.now ≡ side_of (atom_rule_in rule) }
{
    match rule {
        AtomRule::Number => &[NUMBER],
        AtomRule::Text => &[TEXT],
        AtomRule::True => &[KW_TRUE],
        AtomRule::False => &[KW_FALSE],
        AtomRule::Path => &[Phrase(Class::Path)],
        AtomRule::Fields => &[LEFT_BRACE, Phrase(Class::ExpFields), RIGHT_BRACE],
        AtomRule::Inj => &[
            KW_INJ,
            NAME,
            Phrase(Class::ExpAtom),
            COLON,
            Phrase(Class::TyAtom),
        ],
        AtomRule::Roll => &[
            KW_ROLL,
            Phrase(Class::ExpAtom),
            COLON,
            Phrase(Class::TyAtom),
        ],
        AtomRule::Unroll => &[KW_UNROLL, Phrase(Class::ExpAtom)],
        AtomRule::Let => &[
            KW_LET,
            Phrase(Class::Binds),
            KW_IN,
            Phrase(Class::Exp),
            KW_END,
        ],
        AtomRule::Pack => &[
            KW_PACK,
            Phrase(Class::ModAtom),
            COLON,
            Phrase(Class::SigAtom),
        ],
        AtomRule::Paren => &[LEFT_PAREN, Phrase(Class::Exp), RIGHT_PAREN],
        AtomRule::NoFields => &[],
        AtomRule::Field => &[
            NAME,
            EQUAL,
            Phrase(Class::Exp),
            Phrase(Class::MoreExpFields),
        ],
        AtomRule::LastField => &[],
        AtomRule::NextField => &[
            COMMA,
            NAME,
            EQUAL,
            Phrase(Class::Exp),
            Phrase(Class::MoreExpFields),
        ],
    }
}

/// The symbols right of a production, in order.
pub fn right_side(rule: Rule) -> &'static [Symbol]
    ensures { map symbol_in result.now ≡ side_of (rule_in rule) }
{
    match rule {
        Rule::OneUnit(rule) => unit_side(rule),
        Rule::Bind(rule) => bind_side(rule),
        Rule::Decl(rule) => decl_side(rule),
        Rule::Kind(rule) => kind_side(rule),
        Rule::Path(rule) => path_side(rule),
        Rule::Ty(rule) => ty_side(rule),
        Rule::Sig(rule) => sig_side(rule),
        Rule::Mod(rule) => mod_side(rule),
        Rule::Exp(rule) => exp_side(rule),
        Rule::Op(rule) => op_side(rule),
        Rule::Arg(rule) => arg_side(rule),
        Rule::Atom(rule) => atom_side(rule),
    }
}
