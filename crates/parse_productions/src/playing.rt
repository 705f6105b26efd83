// Productions of all sorts.
ghost use Rattle.std.specs.Prelude.{◌≡◌, Some, None, IfOk, IfErr};
ghost use Rattle.parse_grammar.specs.Inner.View.{rule_in};
ghost use Rattle.parse_stack.specs.Inner.Part.{held};
ghost use Rattle.parse_stack.specs.Inner.Play.{played_any};
ghost use Rattle.parse_stack.specs.declared.refusal.BuildRefusal.TheVariants.{Misfit};

use crate::arguments::argument;
use crate::atoms::atom;
use crate::binds::bind;
use crate::decls::decl;
use crate::exps::exp;
use crate::kinds::kind;
use crate::modules::module;
use crate::operators::operator;
use crate::paths::path;
use crate::sigs::sig;
use crate::types::ty;
use parse_grammar::grammar::Rule;
use parse_stack::{BuildRefusal, Stack};
use parse_units::unit;
use std::alloc::Global;

/// Plays a production: its parts are taken off the stack, the first one on top, and what it gives is put there.
/// `Misfit` says that they do not stand there, and `Mem` is want of memory. After either, parts that were taken off are
/// lost.
pub fn play(stack: &mut Stack<'_>, alloc: Global, rule: Rule) -> Result<(), BuildRefusal>
    ensures made { IfOk result (λ _. played_any (rule_in rule) (held stack.old) ≡ Some (held stack.new)) }
    ensures misfit { IfErr result (λ e. e ≡ Misfit → played_any (rule_in rule) (held stack.old) ≡ None) }
{
    match rule {
        Rule::OneUnit(rule) => unit(stack, alloc, rule),
        Rule::Bind(rule) => bind(stack, alloc, rule),
        Rule::Decl(rule) => decl(stack, alloc, rule),
        Rule::Kind(rule) => kind(stack, alloc, rule),
        Rule::Path(rule) => path(stack, alloc, rule),
        Rule::Ty(rule) => ty(stack, alloc, rule),
        Rule::Sig(rule) => sig(stack, alloc, rule),
        Rule::Mod(rule) => module(stack, alloc, rule),
        Rule::Exp(rule) => exp(stack, alloc, rule),
        Rule::Op(rule) => operator(stack, alloc, rule),
        Rule::Arg(rule) => argument(stack, alloc, rule),
        Rule::Atom(rule) => atom(stack, alloc, rule),
    }
}
