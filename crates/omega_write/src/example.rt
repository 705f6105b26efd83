// Texts, byte for byte.
ghost use Rattle.std.specs.Prelude.{◌≡◌, codes};
ghost use Rattle.omega_terms.specs.TypeText.{ty_text};
ghost use Rattle.omega_terms.specs.OmegaText.{omega_text};
ghost use Rattle.omega_write.specs.Example.{example_type, example_term, list_type};

/// The text of a function on records, called, and that of a type of lists.
pub fn spelled_example()
    ensures whole { omega_text example_type example_term ≡ codes "omega 2\n(rec (x (rec (.val int))))\n(call (fn (rec (.val int)) (rec (x x0))) (rec (.val (+ 1 2))))\n" }
    ensures list { ty_text 0 list_type ≡ codes "(mu (sum (more (rec (head int) (tail a0))) (none (rec))))" }
{}
