// Laws of the tokens.
ghost use Rattle.std.specs.Prelude.{ℕ, List};
ghost use Rattle.fing_lexer.specs.declared.token.Token.{Token};
ghost use Rattle.fing_lexer.specs.Tokens.{OneOutcome, TokensOf, Sliced};

/// Each list of bytes has exactly one outcome: one list of tokens, or one refusal.
pub fn one_outcome()
    ensures { (bytes : List ℕ) → OneOutcome bytes }
{}

/// The spans of a text's tokens are in order, and each token is what the bytes of its span are.
pub fn slices_in_order()
    ensures { (bytes : List ℕ) (ts : List Token) → TokensOf bytes ts → Sliced bytes 0 ts }
{}
