// What elaboration makes has a spelling in the text of System Fω, so that the text that is written of it reads back.
// Stands on elab_laws (what elaboration derives is well typed and ordered), sig_match_laws (matching as functions) and
// omega_spelling (what a text is).
// Proved: a type or a term has a spelling if and only if it is legible and its variables are in scope (`spelled_trees`).
// Legible speaks of labels, numbers, texts, the order of fields and branches, and the forms of the version alone. The
// variables of closed types and terms are in scope (`closed_trees`). What a spelled phrase means is legible
// (`legible_meanings`). So a program's whole term has a text, which reads back (`program_texts`).
#![tactic(auto)]

ghost use Rattle.elab_spelling.specs.Claims.{TypesAreSpelled, TermsAreSpelled, ClosedTypesInScope, ClosedTermsInScope, EncodingsAreLegible, MatchesAreLegible};
ghost use Rattle.elab_spelling.specs.Claims.{TypesMeanLegible, ExpsMeanLegible, SigsMeanLegible, ModsMeanLegible, ProgramsMeanLegible, ProgramsHaveText, ProgramsReadBack};

/// In each version a type or a term has a spelling exactly where it is legible and its variables are in scope, with levels
/// below 2^64.
pub fn spelled_trees()
    ensures of_types { TypesAreSpelled }
    ensures of_terms { TermsAreSpelled }
{}

/// A closed type of a height of at most 2^64 and a closed term of a height of at most 2^63 have their variables in scope, with
/// levels below 2^64.
pub fn closed_trees()
    ensures of_types { ClosedTypesInScope }
    ensures of_terms { ClosedTermsInScope }
{}

/// In each version the encoding of a legible signature is legible, and so are the types and the coercion of a match between
/// two legible signatures, the left one being well formed and the right one ordered explicit.
pub fn legible_matches()
    ensures encodings { EncodingsAreLegible }
    ensures matches { MatchesAreLegible }
{}

/// In each version, in a good environment of legible signatures and types, each phrase whose names, numbers and texts have
/// a spelling, and which has sums and recursive types in the second version only, has a legible meaning: types, expressions
/// with their types and terms, signatures, and modules with the types that they keep. So has each program, and its whole
/// term is legible.
pub fn legible_meanings()
    ensures of_types { TypesMeanLegible }
    ensures of_exps { ExpsMeanLegible }
    ensures of_sigs { SigsMeanLegible }
    ensures of_mods { ModsMeanLegible }
    ensures programs { ProgramsMeanLegible }
{}

/// The whole term of a program whose names, numbers and texts have a spelling in a version has, with the encoding of its
/// signature, a text in that version, if both are not too high for the levels of variables; and where no more than 4,000
/// parentheses are open in it, reading that text gives both again.
pub fn program_texts()
    ensures spelled { ProgramsHaveText }
    ensures read_back { ProgramsReadBack }
{}
