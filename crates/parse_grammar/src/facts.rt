// Laws of the grammar.
ghost use Rattle.std.specs.Prelude.{◌≡◌, ℕ, List, [], ◌∷◌, ◌⊎◌};
ghost use Rattle.fing_lexer.specs.declared.token.Token.{Token};
ghost use Rattle.fing_syntax.specs.Units.{UnitTree};
ghost use Rattle.parse_grammar.specs.Grammar.{Class, Units, phrase};
ghost use Rattle.parse_grammar.specs.Meaning.{Value};
ghost use Rattle.parse_grammar.specs.Tree.{Phrase, Trees};
ghost use Rattle.parse_grammar.specs.Choosing.{Chosen};
ghost use Rattle.parse_grammar.specs.Program.{Farthest, Refused, Start};

/// A list of tokens is a phrase of a class in at most one way.
pub fn one_tree()
    ensures { (n : Class) (tokens : List Token) (u v : Value n) → Phrase n tokens u → Phrase n tokens v → u ≡ v }
{}

/// A list of tokens is a list of separate units in at most one way.
pub fn one_unit_list()
    ensures { (tokens : List Token) (u v : List UnitTree) → Phrase Units tokens u → Phrase Units tokens v → u ≡ v }
{}

/// A list of tokens is a phrase of a start class, or it is none and has a longest front that begins such a phrase.
pub fn one_answer()
    ensures { (n : Class) → Start n → (tokens : List Token) → ((p : Value n) × Phrase n tokens p) ⊎ Refused n tokens }
{}

/// The length of the longest front that begins a phrase of a class is one number.
pub fn one_place()
    ensures { (n : Class) (tokens : List Token) (a b : ℕ) → Farthest n tokens a → Farthest n tokens b → a ≡ b }
{}

/// At each node of the tree of a whole text the table of choices has the node's production for its class and the next token.
pub fn one_choice()
    ensures { (n : Class) → Start n → (d : Trees (phrase n ∷ [])) → Chosen d [] }
{}
