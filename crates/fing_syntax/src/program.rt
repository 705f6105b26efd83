// Programs.
use crate::tree::Bind;
use std::marker::Model;

/// A program: its bindings in order. Contracts see it as the plain list of them.
#[derive(Drop)]
pub struct Program {
    pub binds: Vec<Bind>,
}

impl Model for Program {
    ghost use Rattle.fing_syntax.specs.Phrase.{Binds};
    ghost use Rattle.fing_syntax.specs.Inner.Code.{binds_code};

    ghost Value = { Binds };

    ghost coded = { binds_code };

    ghost use Rattle.fing_syntax.specs.Inner.View.{binds as binds_of};

    ghost view = { λ p. binds_of p.binds.items };
}
