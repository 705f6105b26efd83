// The theorems about kinding, conversion and normal forms.

ghost use Rattle.omega_types.specs.Unique.{UniqueNormalForms};
ghost use Rattle.omega_types.specs.Normalises.{EachHasOne, InstanceHasOne, HsubstGives, NormaliserGives, RenamingKeeps, SameExactlyWhereConvertible};
ghost use Rattle.omega_types.specs.Mentions.{MentionsByNormalForm, LowerGives};
ghost use Rattle.omega_types.specs.Inversion.{OneKind, Decides, ArrowParts, AllParts, ExParts, FieldsParts, SumParts, MuParts, MuUnfolds};
ghost use Rattle.omega_types.specs.Laws.{NormalOfNormal, NormalOfRename, NormalOfSubstitute, HsubstsCommute, OneForm};

/// Normal forms exist and are unique: two convertible normal types are the same tree, each type of a kind has exactly
/// one normal form, and so has each normal type in which a normal argument is put for a variable. Two normal types
/// of one kind are convertible exactly where they are the same tree.
///
/// Conversion is the least congruent equivalence with beta and eta, and normal types are beta-normal and eta-long.
/// Conversion by beta alone is in Pierce, "Types and Programming Languages", figure 30-1; with eta, and canonical forms
/// that are eta-long, in Harper and Pfenning, "On equivalence and canonical forms in the LF type theory" (2005).
pub fn normal_forms()
    ensures unique { UniqueNormalForms }
    ensures each { EachHasOne }
    ensures instance { InstanceHasOne }
    ensures same { SameExactlyWhereConvertible }
{}

/// Normal forms are computed: hereditary substitution gives the normal form of a substitution, and the normaliser that
/// it makes gives the normal form of each type of a kind. Renaming keeps normality, and lowering a normal type that does
/// not mention the variables left out gives a normal type that is raised to the given one. A type is convertible to one
/// that does not mention a variable exactly where its normal form does not mention it.
///
/// Keller and Altenkirch, "Hereditary substitutions for simple types, formalized" (2010).
pub fn normalisers()
    ensures hsubst { HsubstGives }
    ensures normal { NormaliserGives }
    ensures rename { RenamingKeeps }
    ensures lower { LowerGives }
    ensures mentions { MentionsByNormalForm }
{}

/// A type has at most one kind; types of one kind are convertible exactly where their normal forms are the same tree;
/// and where two function types, two universal types, two existential types, two record types, two sums or two
/// recursive types are convertible, so are their parts. A recursive type is convertible to its unfolding only where its
/// body is convertible to the variable that it binds.
///
/// Pierce, "Types and Programming Languages", section 30.3, Properties.
pub fn inversion()
    ensures kind { OneKind }
    ensures decides { Decides }
    ensures arrow { ArrowParts }
    ensures all { AllParts }
    ensures ex { ExParts }
    ensures fields { FieldsParts }
    ensures sum { SumParts }
    ensures mu { MuParts }
    ensures unfolding { MuUnfolds }
{}

/// The laws of the normaliser: it leaves normal types alone, it goes with renaming and takes substitution to hereditary
/// substitution, two hereditary substitutions commute, and convertible types that have a form have the same one.
///
/// Keller and Altenkirch, "Hereditary substitutions for simple types, formalized" (2010).
pub fn laws()
    ensures normal { NormalOfNormal }
    ensures rename { NormalOfRename }
    ensures substitute { NormalOfSubstitute }
    ensures commute { HsubstsCommute }
    ensures form { OneForm }
{}
