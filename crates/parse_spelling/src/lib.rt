// What the bytes of a source give has a spelling in the text of System Fω: names, numbers and texts of tokens, of phrases, and
// the whole term that a program means.
// Stands on fing_lexer (tokens), parse_grammar (the grammar), elab_spelling (what a spelled phrase means) and
// omega_simplify_laws (simplified terms).
// Proved: the tokens of bytes are spelled, and so is what a phrase of them gives (`spelled_sources`); the whole term of a
// program and its simplified term have a text, which reads back (`source_texts`).
#![tactic(auto)]

ghost use Rattle.parse_spelling.specs.Claims.{TokensAreSpelled, KeywordsAreSpelled, PhrasesAreSpelled, ProgramsAreSpelled, UnitsAreSpelled};
ghost use Rattle.parse_spelling.specs.Claims.{EmittedAreTyped, EmittedInScope, EmittedHaveText, EmittedReadBack, SourcesHaveText};

/// The names, the numbers and the texts of the tokens of bytes have a spelling in the text of System Fω, and so have those
/// of what the phrases of each class give, the hidden names of derived forms too: of programs, and of units. The phrases
/// of sums and of recursive types have one in the second version, which has the phrases of all keywords.
pub fn spelled_sources()
    ensures tokens { TokensAreSpelled }
    ensures keywords { KeywordsAreSpelled }
    ensures phrases { PhrasesAreSpelled }
    ensures programs { ProgramsAreSpelled }
    ensures units { UnitsAreSpelled }
{}

/// What is emitted for a program whose names, numbers and texts have a spelling is its whole term, or that term simplified.
/// It has the encoding of the program's signature as its type. Both have their variables in scope if they are not too high
/// for the levels of variables; where they have, they have a text in each version in which the program is spelled; and
/// where no more than 4,000 parentheses are open in that text, reading it gives both again. So what is emitted for the
/// program that bytes spell has a text.
pub fn source_texts()
    ensures typed { EmittedAreTyped }
    ensures scope { EmittedInScope }
    ensures spelled { EmittedHaveText }
    ensures read_back { EmittedReadBack }
    ensures sources { SourcesHaveText }
{}
