// What compact text has to do with the text that it is made of, and with Omega text.
ghost use Rattle.std.specs.Prelude.{◌≡◌, ◌↔◌, List, ℕ};
ghost use Rattle.omega_types.specs.Ty.{Ty};
ghost use Rattle.omega_terms.specs.Term.{Term};
ghost use Rattle.omega_spelling.specs.Omega.{OmegaText};
ghost use Rattle.omega_compact.specs.Denotes.{Denotes};
ghost use Rattle.omega_compact.specs.Spelling.{compacted};
ghost use Rattle.omega_compact.specs.Tokens.{tokens_of};

/// The compact text has the tokens of the text, and a text that is compact already stays as it is.
pub fn same_tokens()
    ensures tokens { (bytes : List ℕ) → tokens_of (compacted bytes) ≡ tokens_of bytes }
    ensures again { (bytes : List ℕ) → compacted (compacted bytes) ≡ compacted bytes }
{}

/// An Omega text stays as it is.
pub fn omega_text_stays()
    ensures { (bytes : List ℕ) (t : Ty) (e : Term) → OmegaText bytes t e → compacted bytes ≡ bytes }
{}

/// The compact text is an Omega text of just the type and the term that the text denotes.
pub fn same_meaning()
    ensures { (bytes : List ℕ) (t : Ty) (e : Term) → OmegaText (compacted bytes) t e ↔ Denotes bytes t e }
{}
