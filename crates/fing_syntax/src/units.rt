// Units, and lists of them.
use crate::tree::{Mod, SigEx};
use fing_text::Span;
use omega_kinds::Name;
use std::marker::Model;

/// A separate unit `module X : S = struct .. end`: the place of the whole, its name and the place of the name, its
/// signature, and its body, the structure from `struct` to `end`.
#[derive(Drop)]
pub struct UnitTree {
    pub span: Span,
    pub name: Name,
    pub at: Span,
    pub sig: SigEx,
    pub body: Mod,
}

impl Model for UnitTree {
    ghost use Rattle.fing_syntax.specs.Units as plain;
    ghost use Rattle.fing_syntax.specs.Units.{unit_of, unit_code};

    ghost Value = { plain.UnitTree };

    ghost coded = { unit_code };

    ghost view = { λ u. unit_of u.span u.name u.at u.sig u.body };
}

/// Units in order. Contracts see them as the plain list of them.
#[derive(Drop)]
pub struct Units {
    pub units: Vec<UnitTree>,
}

impl Model for Units {
    ghost use Rattle.std.specs.Prelude.{List};
    ghost use Rattle.fing_syntax.specs.Units as plain;
    ghost use Rattle.fing_syntax.specs.Units.{units_code};

    ghost Value = { List plain.UnitTree };

    ghost coded = { units_code };

    ghost view = { λ u. u.units.items };
}
