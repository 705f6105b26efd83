// The parser's stack. Each call takes the top part as what its name says, or finds that it is something else.
ghost use Rattle.std.specs.Prelude.{◌≡◌, [], ◌∷◌, Some, None, reverse, map, option_map, IfOk, IfErr, OnOk, OnErr};
ghost use Rattle.fing_syntax.specs.Inner.Leaves.{spelled};
ghost use Rattle.fing_syntax.specs.Inner.View.{binds as binds_of, decls as decls_of, tys as tys_of, field_tys as field_tys_of, ops as ops_of, args as args_of, field_exps as field_exps_of, branches as branches_of};
ghost use Rattle.parse_stack.specs.Inner.Item.{as_token, as_units, as_one_unit, as_binds, as_bind, as_decls, as_decl, as_tail, as_kind, as_kind_arrow, as_mod, as_names, as_ty, as_ty_arrow, as_tys, as_field_tys, as_sig, as_pure, as_wheres, as_mods, as_ascriptions, as_exp, as_abstraction, as_ops, as_args, as_field_exps, as_branches};
ghost use Rattle.parse_forms.specs.Inner.Part.{kind_in, tail_in, where_in, ascription_in, abstraction_in};
ghost use Rattle.parse_stack.specs.Inner.Part.{part_in, held};
ghost use Rattle.parse_stack.specs.Inner.Play.{uncons, top};
ghost use Rattle.parse_stack.specs.declared.refusal.BuildRefusal.TheVariants.{Mem as WantOfMemory};

use crate::part::Part;
use crate::refusal::{BuildRefusal, Misfit};
use fing_lexer::Token;
use fing_syntax::{Arg, Bind, Branch, Decl, Exp, Mod, Op, SigEx, SpanName, TyEx, UnitTree};
use parse_forms::{Abstraction, Ascription, KindPart, TypeTail, Where};
use std::alloc::Global;

// Lets a part go that is not what was asked for.
fn misfit(_other: Option<Part<'_>>) -> Misfit {
    Misfit
}

/// The parts of productions that are not played yet, the last one on top.
#[derive(Drop)]
pub struct Stack<'a> {
    pub parts: Vec<Part<'a>>,
}

/// Each call that is named for a kind of part takes the top part off as that. `Misfit` comes exactly where nothing stands
/// there or something else does.
impl<'a> Stack<'a> {
    /// A stack with nothing on it.
    pub fn new(alloc: Global) -> Stack<'a>
        ensures { held result ≡ [] }
    {
        Stack {
            parts: Vec::new(alloc),
        }
    }

    /// Puts a part on top. `Mem` is want of memory, and then the stack stands as it was; there is no other refusal.
    #[tactic(auto, using(crate::proofs::Stacked::items_push))]
    pub fn push(&mut self, part: Part<'a>) -> Result<(), BuildRefusal>
        ensures ok { OnOk result (held self.new ≡ part_in part.entry ∷ held self.old) }
        ensures err { OnErr result (held self.new ≡ held self.old) }
        ensures memory { IfErr result (λ e. e ≡ WantOfMemory) }
    {
        self.parts.push(part)?;
        Ok(())
    }

    // The top part.
    #[tactic(auto, using(crate::proofs::Stacked::items_pop))]
    fn pop(&mut self) -> Option<Part<'a>>
        ensures { option_map (λ p. (part_in p, held self.new)) result ≡ uncons (held self.old) }
    {
        self.parts.pop()
    }

    /// The top part as a token.
    pub fn token(&mut self) -> Result<&'a Token, Misfit>
        ensures part { IfOk result (λ t. top as_token (held self.old) ≡ Some (t.now, held self.new)) }
        ensures misfit { IfErr result (λ e. top as_token (held self.old) ≡ None) }
    {
        match self.pop() {
            Some(Part::Token(found)) => Ok(found),
            other => Err(misfit(other)),
        }
    }

    /// The top part as separate units, the first one last.
    pub fn units(&mut self) -> Result<Vec<UnitTree>, Misfit>
        ensures part { IfOk result (λ v. top as_units (held self.old) ≡ Some (reverse v.items, held self.new)) }
        ensures misfit { IfErr result (λ e. top as_units (held self.old) ≡ None) }
    {
        match self.pop() {
            Some(Part::Units(found)) => Ok(found),
            other => Err(misfit(other)),
        }
    }

    /// The top part as one separate unit.
    pub fn one_unit(&mut self) -> Result<UnitTree, Misfit>
        ensures part { IfOk result (λ v. top as_one_unit (held self.old) ≡ Some (v, held self.new)) }
        ensures misfit { IfErr result (λ e. top as_one_unit (held self.old) ≡ None) }
    {
        match self.pop() {
            Some(Part::OneUnit(found)) => Ok(Box::into_inner(found)),
            other => Err(misfit(other)),
        }
    }

    /// The top part as bindings, the first one last.
    pub fn binds(&mut self) -> Result<Vec<Bind>, Misfit>
        ensures part { IfOk result (λ v. top as_binds (held self.old) ≡ Some (binds_of (reverse v.items), held self.new)) }
        ensures misfit { IfErr result (λ e. top as_binds (held self.old) ≡ None) }
    {
        match self.pop() {
            Some(Part::Binds(found)) => Ok(found),
            other => Err(misfit(other)),
        }
    }

    /// The top part as a binding.
    pub fn bind(&mut self) -> Result<Bind, Misfit>
        ensures part { IfOk result (λ v. top as_bind (held self.old) ≡ Some (v, held self.new)) }
        ensures misfit { IfErr result (λ e. top as_bind (held self.old) ≡ None) }
    {
        match self.pop() {
            Some(Part::Bind(found)) => Ok(found),
            other => Err(misfit(other)),
        }
    }

    /// The top part as declarations, the first one last.
    pub fn decls(&mut self) -> Result<Vec<Decl>, Misfit>
        ensures part { IfOk result (λ v. top as_decls (held self.old) ≡ Some (decls_of (reverse v.items), held self.new)) }
        ensures misfit { IfErr result (λ e. top as_decls (held self.old) ≡ None) }
    {
        match self.pop() {
            Some(Part::Decls(found)) => Ok(found),
            other => Err(misfit(other)),
        }
    }

    /// The top part as a declaration.
    pub fn decl(&mut self) -> Result<Decl, Misfit>
        ensures part { IfOk result (λ v. top as_decl (held self.old) ≡ Some (v, held self.new)) }
        ensures misfit { IfErr result (λ e. top as_decl (held self.old) ≡ None) }
    {
        match self.pop() {
            Some(Part::Decl(found)) => Ok(found),
            other => Err(misfit(other)),
        }
    }

    /// The top part as what stands behind the name in a declaration of a type.
    pub fn tail(&mut self) -> Result<TypeTail, Misfit>
        ensures part { IfOk result (λ v. top as_tail (held self.old) ≡ Some (tail_in v, held self.new)) }
        ensures misfit { IfErr result (λ e. top as_tail (held self.old) ≡ None) }
    {
        match self.pop() {
            Some(Part::Tail(found)) => Ok(found),
            other => Err(misfit(other)),
        }
    }

    /// The top part as a kind.
    pub fn kind(&mut self) -> Result<KindPart, Misfit>
        ensures part { IfOk result (λ v. top as_kind (held self.old) ≡ Some (kind_in v, held self.new)) }
        ensures misfit { IfErr result (λ e. top as_kind (held self.old) ≡ None) }
    {
        match self.pop() {
            Some(Part::Kind(found)) => Ok(found),
            other => Err(misfit(other)),
        }
    }

    /// The top part as what stands behind a kind: the kind behind an arrow, or nothing.
    pub fn kind_arrow(&mut self) -> Result<Option<KindPart>, Misfit>
        ensures part { IfOk result (λ v. top as_kind_arrow (held self.old) ≡ Some (option_map kind_in v, held self.new)) }
        ensures misfit { IfErr result (λ e. top as_kind_arrow (held self.old) ≡ None) }
    {
        match self.pop() {
            Some(Part::KindArrow(found)) => Ok(found),
            other => Err(misfit(other)),
        }
    }

    /// The top part as a module.
    pub fn module(&mut self) -> Result<Mod, Misfit>
        ensures part { IfOk result (λ v. top as_mod (held self.old) ≡ Some (v, held self.new)) }
        ensures misfit { IfErr result (λ e. top as_mod (held self.old) ≡ None) }
    {
        match self.pop() {
            Some(Part::Mod(found)) => Ok(found),
            other => Err(misfit(other)),
        }
    }

    /// The top part as names, the first one last.
    pub fn names(&mut self) -> Result<Vec<SpanName>, Misfit>
        ensures part { IfOk result (λ v. top as_names (held self.old) ≡ Some (map spelled (reverse v.items), held self.new)) }
        ensures misfit { IfErr result (λ e. top as_names (held self.old) ≡ None) }
    {
        match self.pop() {
            Some(Part::Names(found)) => Ok(found),
            other => Err(misfit(other)),
        }
    }

    /// The top part as a type.
    pub fn ty(&mut self) -> Result<TyEx, Misfit>
        ensures part { IfOk result (λ v. top as_ty (held self.old) ≡ Some (v, held self.new)) }
        ensures misfit { IfErr result (λ e. top as_ty (held self.old) ≡ None) }
    {
        match self.pop() {
            Some(Part::Ty(found)) => Ok(found),
            other => Err(misfit(other)),
        }
    }

    /// The top part as what stands behind a type: the type behind an arrow, or nothing.
    pub fn ty_arrow(&mut self) -> Result<Option<TyEx>, Misfit>
        ensures part { IfOk result (λ v. top as_ty_arrow (held self.old) ≡ Some (v, held self.new)) }
        ensures misfit { IfErr result (λ e. top as_ty_arrow (held self.old) ≡ None) }
    {
        match self.pop() {
            Some(Part::TyArrow(found)) => Ok(found),
            other => Err(misfit(other)),
        }
    }

    /// The top part as types, the first one last.
    pub fn tys(&mut self) -> Result<Vec<TyEx>, Misfit>
        ensures part { IfOk result (λ v. top as_tys (held self.old) ≡ Some (tys_of (reverse v.items), held self.new)) }
        ensures misfit { IfErr result (λ e. top as_tys (held self.old) ≡ None) }
    {
        match self.pop() {
            Some(Part::Tys(found)) => Ok(found),
            other => Err(misfit(other)),
        }
    }

    /// The top part as fields of a record type, the first one last.
    pub fn field_tys(&mut self) -> Result<Vec<(SpanName, TyEx)>, Misfit>
        ensures part { IfOk result (λ v. top as_field_tys (held self.old) ≡ Some (field_tys_of (reverse v.items), held self.new)) }
        ensures misfit { IfErr result (λ e. top as_field_tys (held self.old) ≡ None) }
    {
        match self.pop() {
            Some(Part::FieldTys(found)) => Ok(found),
            other => Err(misfit(other)),
        }
    }

    /// The top part as a signature.
    pub fn sig(&mut self) -> Result<SigEx, Misfit>
        ensures part { IfOk result (λ v. top as_sig (held self.old) ≡ Some (v, held self.new)) }
        ensures misfit { IfErr result (λ e. top as_sig (held self.old) ≡ None) }
    {
        match self.pop() {
            Some(Part::Sig(found)) => Ok(found),
            other => Err(misfit(other)),
        }
    }

    /// The top part as whether a functor is pure.
    pub fn pure(&mut self) -> Result<bool, Misfit>
        ensures part { IfOk result (λ v. top as_pure (held self.old) ≡ Some (v, held self.new)) }
        ensures misfit { IfErr result (λ e. top as_pure (held self.old) ≡ None) }
    {
        match self.pop() {
            Some(Part::Pure(found)) => Ok(found),
            other => Err(misfit(other)),
        }
    }

    /// The top part as refinements, the first one last.
    pub fn wheres(&mut self) -> Result<Vec<Where>, Misfit>
        ensures part { IfOk result (λ v. top as_wheres (held self.old) ≡ Some (map where_in (reverse v.items), held self.new)) }
        ensures misfit { IfErr result (λ e. top as_wheres (held self.old) ≡ None) }
    {
        match self.pop() {
            Some(Part::Wheres(found)) => Ok(found),
            other => Err(misfit(other)),
        }
    }

    /// The top part as modules, the first one last.
    pub fn mods(&mut self) -> Result<Vec<Mod>, Misfit>
        ensures part { IfOk result (λ v. top as_mods (held self.old) ≡ Some (reverse v.items, held self.new)) }
        ensures misfit { IfErr result (λ e. top as_mods (held self.old) ≡ None) }
    {
        match self.pop() {
            Some(Part::Mods(found)) => Ok(found),
            other => Err(misfit(other)),
        }
    }

    /// The top part as signatures behind a module, the first one last.
    pub fn ascriptions(&mut self) -> Result<Vec<Ascription>, Misfit>
        ensures part { IfOk result (λ v. top as_ascriptions (held self.old) ≡ Some (map ascription_in (reverse v.items), held self.new)) }
        ensures misfit { IfErr result (λ e. top as_ascriptions (held self.old) ≡ None) }
    {
        match self.pop() {
            Some(Part::Ascriptions(found)) => Ok(found),
            other => Err(misfit(other)),
        }
    }

    /// The top part as an expression.
    pub fn exp(&mut self) -> Result<Exp, Misfit>
        ensures part { IfOk result (λ v. top as_exp (held self.old) ≡ Some (v, held self.new)) }
        ensures misfit { IfErr result (λ e. top as_exp (held self.old) ≡ None) }
    {
        match self.pop() {
            Some(Part::Exp(found)) => Ok(found),
            other => Err(misfit(other)),
        }
    }

    /// The top part as what follows `fun` in an expression.
    pub fn abstraction(&mut self) -> Result<Abstraction, Misfit>
        ensures part { IfOk result (λ v. top as_abstraction (held self.old) ≡ Some (abstraction_in v, held self.new)) }
        ensures misfit { IfErr result (λ e. top as_abstraction (held self.old) ≡ None) }
    {
        match self.pop() {
            Some(Part::Abstraction(found)) => Ok(found),
            other => Err(misfit(other)),
        }
    }

    /// The top part as operators with their right sides, the first one last.
    pub fn ops(&mut self) -> Result<Vec<(Op, Exp)>, Misfit>
        ensures part { IfOk result (λ v. top as_ops (held self.old) ≡ Some (ops_of (reverse v.items), held self.new)) }
        ensures misfit { IfErr result (λ e. top as_ops (held self.old) ≡ None) }
    {
        match self.pop() {
            Some(Part::Ops(found)) => Ok(found),
            other => Err(misfit(other)),
        }
    }

    /// The top part as arguments, the first one last.
    pub fn args(&mut self) -> Result<Vec<Arg>, Misfit>
        ensures part { IfOk result (λ v. top as_args (held self.old) ≡ Some (args_of (reverse v.items), held self.new)) }
        ensures misfit { IfErr result (λ e. top as_args (held self.old) ≡ None) }
    {
        match self.pop() {
            Some(Part::Args(found)) => Ok(found),
            other => Err(misfit(other)),
        }
    }

    /// The top part as fields of a record, the first one last.
    pub fn field_exps(&mut self) -> Result<Vec<(SpanName, Exp)>, Misfit>
        ensures part { IfOk result (λ v. top as_field_exps (held self.old) ≡ Some (field_exps_of (reverse v.items), held self.new)) }
        ensures misfit { IfErr result (λ e. top as_field_exps (held self.old) ≡ None) }
    {
        match self.pop() {
            Some(Part::FieldExps(found)) => Ok(found),
            other => Err(misfit(other)),
        }
    }

    /// The top part as branches of a case, the first one last.
    pub fn branches(&mut self) -> Result<Vec<Branch>, Misfit>
        ensures part { IfOk result (λ v. top as_branches (held self.old) ≡ Some (branches_of (reverse v.items), held self.new)) }
        ensures misfit { IfErr result (λ e. top as_branches (held self.old) ≡ None) }
    {
        match self.pop() {
            Some(Part::Branches(found)) => Ok(found),
            other => Err(misfit(other)),
        }
    }
}
