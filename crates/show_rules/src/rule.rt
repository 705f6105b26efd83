// The rules of elaboration.

/// The rules of phrases. A rule of a list of phrases, as `next_bind`, is none of them: the phrase with the list has a rule.
#[derive(Clone, Copy, Debug, PartialEq, Eq)]
pub enum Rule {
    Program,
    TyPath,
    TyInt,
    TyBool,
    TyText,
    TyArrow,
    TyApply,
    TyFields,
    TyAll,
    TyLam,
    TyPack,
    TySum,
    TyMu,
    ExpPath,
    ExpInt,
    ExpBool,
    ExpText,
    ExpLam,
    ExpTyLam,
    ExpFix,
    ExpIf,
    ExpOps,
    ExpApply,
    ExpFields,
    ExpGet,
    ExpPack,
    ExpInj,
    ExpCase,
    ExpRoll,
    ExpUnroll,
    SigPath,
    SigDecls,
    SigGenerative,
    SigApplicative,
    SigRefine,
    DeclVal,
    DeclIs,
    DeclOf,
    DeclModule,
    DeclSignature,
    DeclInclude,
    ModName,
    ModStruct,
    ModProject,
    ModApplicative,
    ModGenerative,
    ModApply,
    ModSeal,
    ModUnpack,
    BindVal,
    BindTy,
    BindSignature,
    BindModule,
    NextInclude,
}

/// The file of the definitions, whose constructors have the names of the rules, from the top of the repository.
pub const DEFINITIONS: &str = "crates/elab_judgments/specs/Judgments/Meaning.antt";

// The pages of docs/language, and their sections, that have the figures.
const TYPES: &str = "core.md#types-of-the-source";

const EXPRESSIONS: &str = "core.md#expressions-of-the-source";

const MODULES: &str = "modules.md#modules";

const BINDINGS: &str = "modules.md#bindings";

const PATHS: &str = "modules.md#paths";

const SIGNATURES: &str = "modules.md#written-signatures";

const PACKAGES: &str = "packages.md#rules";

const PROGRAMS: &str = "programs.md#meaning";

// Each rule with its name and the page of its figure.
const ROWS: [(Rule, &str, &str); 54] = [
    (Rule::Program, "program", PROGRAMS),
    (Rule::TyPath, "ty_path", PATHS),
    (Rule::TyInt, "ty_int", TYPES),
    (Rule::TyBool, "ty_bool", TYPES),
    (Rule::TyText, "ty_text", TYPES),
    (Rule::TyArrow, "ty_arrow", TYPES),
    (Rule::TyApply, "ty_apply", TYPES),
    (Rule::TyFields, "ty_fields", TYPES),
    (Rule::TyAll, "ty_all", TYPES),
    (Rule::TyLam, "ty_lam", TYPES),
    (Rule::TyPack, "ty_pack", PACKAGES),
    (Rule::TySum, "ty_sum", TYPES),
    (Rule::TyMu, "ty_mu", TYPES),
    (Rule::ExpPath, "exp_path", PATHS),
    (Rule::ExpInt, "exp_int", EXPRESSIONS),
    (Rule::ExpBool, "exp_bool", EXPRESSIONS),
    (Rule::ExpText, "exp_text", EXPRESSIONS),
    (Rule::ExpLam, "exp_lam", EXPRESSIONS),
    (Rule::ExpTyLam, "exp_ty_lam", EXPRESSIONS),
    (Rule::ExpFix, "exp_fix", EXPRESSIONS),
    (Rule::ExpIf, "exp_if", EXPRESSIONS),
    (Rule::ExpOps, "exp_ops", EXPRESSIONS),
    (Rule::ExpApply, "exp_apply", EXPRESSIONS),
    (Rule::ExpFields, "exp_fields", EXPRESSIONS),
    (Rule::ExpGet, "exp_get", EXPRESSIONS),
    (Rule::ExpPack, "exp_pack", PACKAGES),
    (Rule::ExpInj, "exp_inj", EXPRESSIONS),
    (Rule::ExpCase, "exp_case", EXPRESSIONS),
    (Rule::ExpRoll, "exp_roll", EXPRESSIONS),
    (Rule::ExpUnroll, "exp_unroll", EXPRESSIONS),
    (Rule::SigPath, "sig_path", PATHS),
    (Rule::SigDecls, "sig_decls", SIGNATURES),
    (Rule::SigGenerative, "sig_generative", SIGNATURES),
    (Rule::SigApplicative, "sig_applicative", SIGNATURES),
    (Rule::SigRefine, "sig_refine", SIGNATURES),
    (Rule::DeclVal, "decl_val", SIGNATURES),
    (Rule::DeclIs, "decl_is", SIGNATURES),
    (Rule::DeclOf, "decl_of", SIGNATURES),
    (Rule::DeclModule, "decl_module", SIGNATURES),
    (Rule::DeclSignature, "decl_signature", SIGNATURES),
    (Rule::DeclInclude, "decl_include", SIGNATURES),
    (Rule::ModName, "mod_name", MODULES),
    (Rule::ModStruct, "mod_struct", MODULES),
    (Rule::ModProject, "mod_project", MODULES),
    (Rule::ModApplicative, "mod_applicative", MODULES),
    (Rule::ModGenerative, "mod_generative", MODULES),
    (Rule::ModApply, "mod_apply", MODULES),
    (Rule::ModSeal, "mod_seal", MODULES),
    (Rule::ModUnpack, "mod_unpack", MODULES),
    (Rule::BindVal, "bind_val", BINDINGS),
    (Rule::BindTy, "bind_ty", BINDINGS),
    (Rule::BindSignature, "bind_signature", BINDINGS),
    (Rule::BindModule, "bind_module", BINDINGS),
    (Rule::NextInclude, "next_include", BINDINGS),
];

impl Rule {
    // The row of the table; the first one for a rule that is not in it.
    fn row(self) -> &'static (Rule, &'static str, &'static str) {
        let found = ROWS.iter().find(|row| row.0 == self);
        found.unwrap_or(&ROWS[0])
    }

    /// The name of the rule: that of its constructor in the definitions.
    pub fn name(self) -> &'static str {
        self.row().1
    }

    /// The page of docs/language, and its section, with the figure of the rule.
    pub fn page(self) -> &'static str {
        self.row().2
    }
}
