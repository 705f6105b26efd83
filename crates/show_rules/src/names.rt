// The rules of phrases, by their forms.
use crate::rule::Rule;
use fing_syntax::{BindWhat, DeclWhat, ExpWhat, ModWhat, SigWhat, TyWhat};

/// The rule of a type.
pub(crate) fn rule_of_type(what: &TyWhat) -> Rule {
    match what {
        TyWhat::Path(_) => Rule::TyPath,
        TyWhat::Int => Rule::TyInt,
        TyWhat::Bool => Rule::TyBool,
        TyWhat::Text => Rule::TyText,
        TyWhat::Arrow(_, _) => Rule::TyArrow,
        TyWhat::Apply(_, _) => Rule::TyApply,
        TyWhat::Fields(_) => Rule::TyFields,
        TyWhat::All(_, _, _) => Rule::TyAll,
        TyWhat::Lam(_, _, _) => Rule::TyLam,
        TyWhat::Pack(_) => Rule::TyPack,
        TyWhat::Sum(_) => Rule::TySum,
        TyWhat::Mu(_, _) => Rule::TyMu,
    }
}

/// The rule of an expression.
pub(crate) fn rule_of_value(what: &ExpWhat) -> Rule {
    match what {
        ExpWhat::Path(_) => Rule::ExpPath,
        ExpWhat::Int(_) => Rule::ExpInt,
        ExpWhat::Bool(_) => Rule::ExpBool,
        ExpWhat::Text(_) => Rule::ExpText,
        ExpWhat::Lam(_, _, _) => Rule::ExpLam,
        ExpWhat::TyLam(_, _, _) => Rule::ExpTyLam,
        ExpWhat::Fix { .. } => Rule::ExpFix,
        ExpWhat::If(_, _, _) => Rule::ExpIf,
        ExpWhat::Ops(_, _) => Rule::ExpOps,
        ExpWhat::Apply(_, _) => Rule::ExpApply,
        ExpWhat::Fields(_) => Rule::ExpFields,
        ExpWhat::Get(_, _) => Rule::ExpGet,
        ExpWhat::Pack(_, _) => Rule::ExpPack,
        ExpWhat::Inj(_, _, _) => Rule::ExpInj,
        ExpWhat::Case { .. } => Rule::ExpCase,
        ExpWhat::Roll(_, _) => Rule::ExpRoll,
        ExpWhat::Unroll(_) => Rule::ExpUnroll,
    }
}

/// The rule of a signature.
pub(crate) fn rule_of_signature(what: &SigWhat) -> Rule {
    match what {
        SigWhat::Path(_) => Rule::SigPath,
        SigWhat::Sig(_) => Rule::SigDecls,
        SigWhat::Fun { pure: true, .. } => Rule::SigApplicative,
        SigWhat::Fun { .. } => Rule::SigGenerative,
        SigWhat::Refine { .. } => Rule::SigRefine,
    }
}

/// The rule of a declaration.
pub(crate) fn rule_of_declaration(what: &DeclWhat) -> Rule {
    match what {
        DeclWhat::Val(_, _) => Rule::DeclVal,
        DeclWhat::TyIs(_, _) => Rule::DeclIs,
        DeclWhat::TyOf(_, _) => Rule::DeclOf,
        DeclWhat::Module(_, _) => Rule::DeclModule,
        DeclWhat::Signature(_, _) => Rule::DeclSignature,
        DeclWhat::Include(_) => Rule::DeclInclude,
    }
}

/// The rule of a module. Of a functor with the keyword `fun` it is that of applicative ones, which is not yet settled: the
/// functor is generative if its body is impure.
pub(crate) fn rule_of_module(what: &ModWhat) -> Rule {
    match what {
        ModWhat::Name(_) => Rule::ModName,
        ModWhat::Struct(_) => Rule::ModStruct,
        ModWhat::Project(_, _) => Rule::ModProject,
        ModWhat::Functor {
            generative: true,
            ..
        } => Rule::ModGenerative,
        ModWhat::Functor { .. } => Rule::ModApplicative,
        ModWhat::Apply(_, _) => Rule::ModApply,
        ModWhat::Seal(_, _) => Rule::ModSeal,
        ModWhat::Unpack(_, _) => Rule::ModUnpack,
    }
}

/// The rule of a binding.
pub(crate) fn rule_of_binding(what: &BindWhat) -> Rule {
    match what {
        BindWhat::Val(_, _) => Rule::BindVal,
        BindWhat::Ty(_, _) => Rule::BindTy,
        BindWhat::Module(_, _) => Rule::BindModule,
        BindWhat::Signature(_, _) => Rule::BindSignature,
        BindWhat::Include(_) => Rule::NextInclude,
    }
}
