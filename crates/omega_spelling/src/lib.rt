// Reading the text of System Fω, of its first and its second version, on lists of bytes, and why bytes are refused as
// such a text.
// Stands on omega_terms, whose definitions say how each tree is spelled.
// Proved: a text is the text of one type and one term, in one version (`one_text`), and what has a text in the first
// version has one in the second (`later_version`); reading on lists gives exactly what the bytes spell, where no more than
// 4,000 parentheses are open (`reading_is_exact`); exactly one refusal holds of all other bytes (`one_refusal`), and
// none of those that are read (`texts_are_not_refused`).
#![tactic(auto)]

ghost use Rattle.std.specs.Prelude.{◌≡◌, ◌↔◌, ◌⊎◌, List, ℕ, Some, false};
ghost use Rattle.omega_types.specs.Ty.{Ty};
ghost use Rattle.omega_terms.specs.Term.{Term};
ghost use Rattle.omega_terms.specs.TypeText.{ty_text};
ghost use Rattle.omega_terms.specs.declared.version.Version.{Version};
ghost use Rattle.omega_terms.specs.OmegaText.{version_text};
ghost use Rattle.omega_spelling.specs.Spelled.{TySpelled};
ghost use Rattle.omega_spelling.specs.TermReading.{TermSpelled};
ghost use Rattle.omega_spelling.specs.Omega.{OmegaText, IsOmega, omega_at};
ghost use Rattle.omega_spelling.specs.Refusals.{is_version, is_too_deep, has_wide};
ghost use Rattle.omega_spelling.specs.Refused.{Refused, Refuses};

/// In each version a text is the text of one type only.
pub fn one_type()
    ensures { (v : Version) (n : ℕ) (t u : Ty) → TySpelled v n t → TySpelled v n u → ty_text n t ≡ ty_text n u → t ≡ u }
{}

/// A whole text is the text of one type and one term only, in one version.
pub fn one_text()
    ensures { (v w : Version) (t u : Ty) (e f : Term) → TySpelled v 0 t → TySpelled w 0 u →
        TermSpelled v 0 0 e → TermSpelled w 0 0 f →
        version_text v t e ≡ version_text w u f → (v ≡ w) × (t ≡ u) × (e ≡ f) }
{}

/// What has a spelling in the first version has one in the second.
pub fn later_version()
    ensures types { (n : ℕ) (t : Ty) → TySpelled Version.First n t → TySpelled Version.Second n t }
    ensures terms { (n m : ℕ) (e : Term) → TermSpelled Version.First n m e → TermSpelled Version.Second n m e }
{}

/// Where no more than 4,000 parentheses are open, reading gives a type and a term exactly where the bytes are their
/// text.
pub fn reading_is_exact()
    ensures { (bytes : List ℕ) (t : Ty) (e : Term) → is_too_deep bytes ≡ false →
        omega_at bytes ≡ Some (t, e) ↔ OmegaText bytes t e }
{}

/// A text has no other version and no number that is too wide, and where no more than 4,000 parentheses are open, no
/// refusal holds of it.
pub fn texts_are_not_refused()
    ensures tests { (bytes : List ℕ) (t : Ty) (e : Term) → OmegaText bytes t e →
        (is_version bytes ≡ false) × (has_wide bytes ≡ false) }
    ensures refusals { (bytes : List ℕ) (t : Ty) (e : Term) → OmegaText bytes t e → is_too_deep bytes ≡ false →
        (r : Refused) → Refuses bytes r → ⊥ }
{}

/// No two refusals hold of the same bytes, and one holds of all bytes that are no text or too deep.
pub fn one_refusal()
    ensures unique { (bytes : List ℕ) (a b : Refused) → Refuses bytes a → Refuses bytes b → a ≡ b }
    ensures some { (bytes : List ℕ) →
        (IsOmega bytes × (is_too_deep bytes ≡ false)) ⊎ ((r : Refused) × Refuses bytes r) }
{}
