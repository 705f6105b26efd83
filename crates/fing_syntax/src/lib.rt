// The phrases of the module language, programs and units: trees with the place of each node, derived forms replaced already.
// Stands on fing_text (places) and omega_kinds (names and kinds).
// Each node is a struct with its place and what it is, and contracts see it as the plain phrase of specs/Phrase.antt.
// Proved: that a plain phrase can be given back from its code, that each part is smaller than its phrase,
// and that any phrase can be let go.
#![tactic(auto)]

mod leaf;
mod program;
mod tree;
mod units;

pub use leaf::{Op, SpanName};
pub use program::Program;
pub use tree::{
    Arg, Bind, BindWhat, Branch, Decl, DeclWhat, Exp, ExpWhat, Mod, ModWhat, SigEx, SigWhat, TyEx,
    TyWhat,
};
pub use units::{UnitTree, Units};
