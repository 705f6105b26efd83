// Terms read from text.
ghost use Rattle.std.specs.Prelude.{◌≡◌, ◌+◌, ◌*◌, ◌<◌, ◌≤◌, ◌^◌, None, length};
ghost use Rattle.omega_terms.specs.Term.{Arith, Call, End, Fix, Get, If, Inj, Inst, Lam, More, Pack, Roll, TyLam, Unpack, Unroll};
ghost use Rattle.omega_terms.specs.Fields.{term_row};
ghost use Rattle.omega_spelling.specs.Reading.{one, two, kind_at, ty_at, label_at, field_at, fields_at};
ghost use Rattle.omega_spelling.specs.TermReading.{three, term_var_at, int_at, text_at, term_leaf_at, op_at, arith_at, case_at, later_term_node_at, term_node_at, term_record_at, term_at};
ghost use Rattle.omega_read.specs.Inner.Gives.{Gives};

use crate::fields::term_may_follow;
use crate::kinds::kind_of;
use crate::labels::label_of;
use crate::left::{Left, Stop};
use crate::numbers::{number_of, signed_of};
use crate::texts::text_of;
use crate::types::ty_of;
use omega_kinds::Label;
use omega_terms::{Op, Term, TermFields, TermNode, Version};
use std::alloc::Global;

// A variable, behind the letter that begins it.
#[tactic(auto, unfolding(omega_spelling::specs::TermReading::term_var_at))]
fn var_of(alloc: Global, terms: u64, left: &mut Left<'_>) -> Result<Term, Stop>
    ensures { Gives (λ e. e) result left.new.rest.now (term_var_at terms left.old.rest.now) }
{
    let level = number_of(left)?;
    if level >= terms {
        return Err(Stop::NotOmega);
    }
    Ok(Term::make(alloc, TermNode::Var(terms - (level + 1)))?)
}

// A number.
#[tactic(auto, unfolding(omega_spelling::specs::TermReading::int_at))]
fn int_of(alloc: Global, left: &mut Left<'_>) -> Result<Term, Stop>
    ensures { Gives (λ e. e) result left.new.rest.now (int_at left.old.rest.now) }
{
    let number = signed_of(left)?;
    Ok(Term::make(alloc, TermNode::Int(number))?)
}

// A text, behind its first quote.
#[tactic(auto, unfolding(omega_spelling::specs::TermReading::text_at))]
fn quoted_of(alloc: Global, left: &mut Left<'_>) -> Result<Term, Stop>
    ensures { Gives (λ e. e) result left.new.rest.now (text_at left.old.rest.now) }
{
    let text = text_of(alloc, left)?;
    Ok(Term::make(alloc, TermNode::Text(text))?)
}

// A term with no parts.
#[tactic(auto, unfolding(omega_spelling::specs::TermReading::term_leaf_at))]
fn leaf_of(alloc: Global, terms: u64, left: &mut Left<'_>) -> Result<Term, Stop>
    ensures { Gives (λ e. e) result left.new.rest.now (term_leaf_at terms left.old.rest.now) }
{
    if left.eat(b"x") {
        return var_of(alloc, terms, left);
    }
    if left.eat(b"true") {
        return Ok(Term::make(alloc, TermNode::Bool(true))?);
    }
    if left.eat(b"false") {
        return Ok(Term::make(alloc, TermNode::Bool(false))?);
    }
    if left.eat(b"\"") {
        return quoted_of(alloc, left);
    }
    int_of(alloc, left)
}

// An operator and the space behind it.
#[tactic(auto, unfolding(omega_spelling::specs::TermReading::op_at))]
fn op_of(left: &mut Left<'_>) -> Result<Op, Stop>
    ensures { Gives (λ op. op) result left.new.rest.now (op_at left.old.rest.now) }
{
    if left.eat(b"+ ") {
        return Ok(Op::Add);
    }
    if left.eat(b"- ") {
        return Ok(Op::Sub);
    }
    if left.eat(b"* ") {
        return Ok(Op::Mul);
    }
    if left.eat(b"/ ") {
        return Ok(Op::Div);
    }
    if left.eat(b"% ") {
        return Ok(Op::Rem);
    }
    if left.eat(b"< ") {
        return Ok(Op::Less);
    }
    if left.eat(b"== ") {
        return Ok(Op::Equal);
    }
    Err(Stop::NotOmega)
}

// A term of a version with so many type variables and so many term variables in scope, and at most so many parentheses open at
// once.
#[cycle(terms)]
#[tactic(auto, using(crate::proofs::Unfold::term_unfold))]
pub fn term_of(
    alloc: Global,
    version: Version,
    depth: u32,
    types: u64,
    terms: u64,
    left: &mut Left<'_>,
) -> Result<Term, Stop>
    requires { types + depth < 2 ^ 64 × terms + 2 * depth < 2 ^ 64 }
    ensures { Gives (λ e. e) result left.new.rest.now (term_at version depth types terms left.old.rest.now) }
{
    if depth == 0 {
        return leaf_of(alloc, terms, left);
    }
    if left.eat(b"(") {
        return node_of(alloc, version, depth - 1, types, terms, left);
    }
    leaf_of(alloc, terms, left)
}

// A term with parts, behind the parenthesis that opens it.
#[cycle(terms)]
#[tactic(auto, unfolding(omega_spelling::specs::TermReading::term_node_at))]
fn node_of(
    alloc: Global,
    version: Version,
    depth: u32,
    types: u64,
    terms: u64,
    left: &mut Left<'_>,
) -> Result<Term, Stop>
    requires { types + depth + 1 < 2 ^ 64 × terms + 2 * depth + 2 < 2 ^ 64 }
    ensures { Gives (λ e. e) result left.new.rest.now (term_node_at version (kind_at depth) (ty_at version depth) (term_at version depth) types terms left.old.rest.now) }
{
    if left.eat(b"fn ") {
        return lam_of(alloc, version, depth, types, terms, left);
    }
    if left.eat(b"call ") {
        return call_of(alloc, version, depth, types, terms, left);
    }
    if left.eat(b"tfn ") {
        return ty_lam_of(alloc, version, depth, types, terms, left);
    }
    if left.eat(b"inst ") {
        return inst_of(alloc, version, depth, types, terms, left);
    }
    if left.eat(b"rec") {
        return record_of(alloc, version, depth, types, terms, left);
    }
    if left.eat(b"get ") {
        return get_of(alloc, version, depth, types, terms, left);
    }
    if left.eat(b"pack ") {
        return pack_of(alloc, version, depth, types, terms, left);
    }
    if left.eat(b"open ") {
        return unpack_of(alloc, version, depth, types, terms, left);
    }
    if left.eat(b"if ") {
        return if_of(alloc, version, depth, types, terms, left);
    }
    if left.eat(b"fix ") {
        return fix_of(alloc, version, depth, types, terms, left);
    }
    later_node_of(alloc, version, depth, types, terms, left)
}

// A term with parts that the first version does not have, or an operator, behind the parenthesis that opens it.
#[cycle(terms)]
#[inline(never)]
#[tactic(auto, unfolding(omega_spelling::specs::TermReading::second_term_node_at))]
fn later_node_of(
    alloc: Global,
    version: Version,
    depth: u32,
    types: u64,
    terms: u64,
    left: &mut Left<'_>,
) -> Result<Term, Stop>
    requires { types + depth + 1 < 2 ^ 64 × terms + 2 * depth + 2 < 2 ^ 64 }
    ensures { Gives (λ e. e) result left.new.rest.now (later_term_node_at version (ty_at version depth) (term_at version depth) types terms left.old.rest.now) }
{
    match version {
        Version::First => arith_of(alloc, version, depth, types, terms, left),
        Version::Second => {
            if left.eat(b"inj ") {
                return inj_of(alloc, version, depth, types, terms, left);
            }
            if left.eat(b"case ") {
                return case_of(alloc, version, depth, types, terms, left);
            }
            if left.eat(b"roll ") {
                return roll_of(alloc, version, depth, types, terms, left);
            }
            if left.eat(b"unroll ") {
                return unroll_of(alloc, version, depth, types, terms, left);
            }
            arith_of(alloc, version, depth, types, terms, left)
        }
    }
}

// A function, behind the word that begins it.
#[cycle(terms)]
#[tactic(auto, unfolding(omega_spelling::specs::Reading::two))]
fn lam_of(
    alloc: Global,
    version: Version,
    depth: u32,
    types: u64,
    terms: u64,
    left: &mut Left<'_>,
) -> Result<Term, Stop>
    requires { types + depth + 1 < 2 ^ 64 × terms + 2 * depth + 2 < 2 ^ 64 }
    ensures { Gives (λ e. e) result left.new.rest.now (two Lam (ty_at version depth types) (term_at version depth types (terms + 1)) left.old.rest.now) }
{
    let first = ty_of(alloc, version, depth, types, left)?;
    left.expect_bytes(b" ")?;
    let second = term_of(alloc, version, depth, types, terms + 1, left)?;
    left.expect_bytes(b")")?;
    Ok(Term::make(alloc, TermNode::Lam(first, second))?)
}

// A call, behind the word that begins it.
#[cycle(terms)]
#[tactic(auto, unfolding(omega_spelling::specs::Reading::two))]
fn call_of(
    alloc: Global,
    version: Version,
    depth: u32,
    types: u64,
    terms: u64,
    left: &mut Left<'_>,
) -> Result<Term, Stop>
    requires { types + depth + 1 < 2 ^ 64 × terms + 2 * depth + 2 < 2 ^ 64 }
    ensures { Gives (λ e. e) result left.new.rest.now (two Call (term_at version depth types terms) (term_at version depth types terms) left.old.rest.now) }
{
    let first = term_of(alloc, version, depth, types, terms, left)?;
    left.expect_bytes(b" ")?;
    let second = term_of(alloc, version, depth, types, terms, left)?;
    left.expect_bytes(b")")?;
    Ok(Term::make(alloc, TermNode::Call(first, second))?)
}

// A function on types, behind the word that begins it.
#[cycle(terms)]
#[tactic(auto, unfolding(omega_spelling::specs::Reading::two))]
fn ty_lam_of(
    alloc: Global,
    version: Version,
    depth: u32,
    types: u64,
    terms: u64,
    left: &mut Left<'_>,
) -> Result<Term, Stop>
    requires { types + depth + 1 < 2 ^ 64 × terms + 2 * depth + 2 < 2 ^ 64 }
    ensures { Gives (λ e. e) result left.new.rest.now (two TyLam (kind_at depth) (term_at version depth (types + 1) terms) left.old.rest.now) }
{
    let first = kind_of(alloc, depth, left)?;
    left.expect_bytes(b" ")?;
    let second = term_of(alloc, version, depth, types + 1, terms, left)?;
    left.expect_bytes(b")")?;
    Ok(Term::make(alloc, TermNode::TyLam(first, second))?)
}

// A term at a type, behind the word that begins it.
#[cycle(terms)]
#[tactic(auto, unfolding(omega_spelling::specs::Reading::two))]
fn inst_of(
    alloc: Global,
    version: Version,
    depth: u32,
    types: u64,
    terms: u64,
    left: &mut Left<'_>,
) -> Result<Term, Stop>
    requires { types + depth + 1 < 2 ^ 64 × terms + 2 * depth + 2 < 2 ^ 64 }
    ensures { Gives (λ e. e) result left.new.rest.now (two Inst (term_at version depth types terms) (ty_at version depth types) left.old.rest.now) }
{
    let first = term_of(alloc, version, depth, types, terms, left)?;
    left.expect_bytes(b" ")?;
    let second = ty_of(alloc, version, depth, types, left)?;
    left.expect_bytes(b")")?;
    Ok(Term::make(alloc, TermNode::Inst(first, second))?)
}

// A record, behind the word that begins it.
#[cycle(terms)]
#[tactic(auto, unfolding(omega_spelling::specs::TermReading::term_record_at))]
fn record_of(
    alloc: Global,
    version: Version,
    depth: u32,
    types: u64,
    terms: u64,
    left: &mut Left<'_>,
) -> Result<Term, Stop>
    requires { types + depth + 1 < 2 ^ 64 × terms + 2 * depth + 2 < 2 ^ 64 }
    ensures { Gives (λ e. e) result left.new.rest.now (term_record_at (term_at version depth types terms) left.old.rest.now) }
{
    let fields = fields_of(alloc, version, depth, types, terms, left)?;
    Ok(Term::make(alloc, TermNode::Fields(fields))?)
}

// A field of a record, behind the word that begins it.
#[cycle(terms)]
#[tactic(auto, unfolding(omega_spelling::specs::Reading::two))]
fn get_of(
    alloc: Global,
    version: Version,
    depth: u32,
    types: u64,
    terms: u64,
    left: &mut Left<'_>,
) -> Result<Term, Stop>
    requires { types + depth + 1 < 2 ^ 64 × terms + 2 * depth + 2 < 2 ^ 64 }
    ensures { Gives (λ e. e) result left.new.rest.now (two Get (term_at version depth types terms) label_at left.old.rest.now) }
{
    let first = term_of(alloc, version, depth, types, terms, left)?;
    left.expect_bytes(b" ")?;
    let second = label_of(alloc, left)?;
    left.expect_bytes(b")")?;
    Ok(Term::make(alloc, TermNode::Get(first, second))?)
}

// A package, behind the word that begins it.
#[cycle(terms)]
#[tactic(auto, unfolding(omega_spelling::specs::Reading::two, omega_spelling::specs::TermReading::three))]
fn pack_of(
    alloc: Global,
    version: Version,
    depth: u32,
    types: u64,
    terms: u64,
    left: &mut Left<'_>,
) -> Result<Term, Stop>
    requires { types + depth + 1 < 2 ^ 64 × terms + 2 * depth + 2 < 2 ^ 64 }
    ensures { Gives (λ e. e) result left.new.rest.now (three Pack (ty_at version depth types) (term_at version depth types terms) (ty_at version depth types) left.old.rest.now) }
{
    let first = ty_of(alloc, version, depth, types, left)?;
    left.expect_bytes(b" ")?;
    let second = term_of(alloc, version, depth, types, terms, left)?;
    left.expect_bytes(b" ")?;
    let third = ty_of(alloc, version, depth, types, left)?;
    left.expect_bytes(b")")?;
    Ok(Term::make(alloc, TermNode::Pack(first, second, third))?)
}

// An opened package, behind the word that begins it.
#[cycle(terms)]
#[tactic(auto, unfolding(omega_spelling::specs::Reading::two))]
fn unpack_of(
    alloc: Global,
    version: Version,
    depth: u32,
    types: u64,
    terms: u64,
    left: &mut Left<'_>,
) -> Result<Term, Stop>
    requires { types + depth + 1 < 2 ^ 64 × terms + 2 * depth + 2 < 2 ^ 64 }
    ensures { Gives (λ e. e) result left.new.rest.now (two Unpack (term_at version depth types terms) (term_at version depth (types + 1) (terms + 1)) left.old.rest.now) }
{
    let first = term_of(alloc, version, depth, types, terms, left)?;
    left.expect_bytes(b" ")?;
    let second = term_of(alloc, version, depth, types + 1, terms + 1, left)?;
    left.expect_bytes(b")")?;
    Ok(Term::make(alloc, TermNode::Unpack(first, second))?)
}

// A conditional, behind the word that begins it.
#[cycle(terms)]
#[tactic(auto, unfolding(omega_spelling::specs::Reading::two, omega_spelling::specs::TermReading::three))]
fn if_of(
    alloc: Global,
    version: Version,
    depth: u32,
    types: u64,
    terms: u64,
    left: &mut Left<'_>,
) -> Result<Term, Stop>
    requires { types + depth + 1 < 2 ^ 64 × terms + 2 * depth + 2 < 2 ^ 64 }
    ensures { Gives (λ e. e) result left.new.rest.now (three If (term_at version depth types terms) (term_at version depth types terms) (term_at version depth types terms) left.old.rest.now) }
{
    let first = term_of(alloc, version, depth, types, terms, left)?;
    left.expect_bytes(b" ")?;
    let second = term_of(alloc, version, depth, types, terms, left)?;
    left.expect_bytes(b" ")?;
    let third = term_of(alloc, version, depth, types, terms, left)?;
    left.expect_bytes(b")")?;
    Ok(Term::make(alloc, TermNode::If(first, second, third))?)
}

// A recursive function, behind the word that begins it.
#[cycle(terms)]
#[tactic(auto, unfolding(omega_spelling::specs::Reading::two, omega_spelling::specs::TermReading::three))]
fn fix_of(
    alloc: Global,
    version: Version,
    depth: u32,
    types: u64,
    terms: u64,
    left: &mut Left<'_>,
) -> Result<Term, Stop>
    requires { types + depth + 1 < 2 ^ 64 × terms + 2 * depth + 2 < 2 ^ 64 }
    ensures { Gives (λ e. e) result left.new.rest.now (three Fix (ty_at version depth types) (ty_at version depth types) (term_at version depth types (terms + 2)) left.old.rest.now) }
{
    let first = ty_of(alloc, version, depth, types, left)?;
    left.expect_bytes(b" ")?;
    let second = ty_of(alloc, version, depth, types, left)?;
    left.expect_bytes(b" ")?;
    let third = term_of(alloc, version, depth, types, terms + 2, left)?;
    left.expect_bytes(b")")?;
    Ok(Term::make(alloc, TermNode::Fix(first, second, third))?)
}

// An operator between two terms.
#[cycle(terms)]
#[inline(never)]
#[tactic(auto, unfolding(omega_spelling::specs::Reading::two, omega_spelling::specs::TermReading::arith_at))]
fn arith_of(
    alloc: Global,
    version: Version,
    depth: u32,
    types: u64,
    terms: u64,
    left: &mut Left<'_>,
) -> Result<Term, Stop>
    requires { types + depth + 1 < 2 ^ 64 × terms + 2 * depth + 2 < 2 ^ 64 }
    ensures { Gives (λ e. e) result left.new.rest.now (arith_at (term_at version depth types terms) left.old.rest.now) }
{
    let op = op_of(left)?;
    let first = term_of(alloc, version, depth, types, terms, left)?;
    left.expect_bytes(b" ")?;
    let second = term_of(alloc, version, depth, types, terms, left)?;
    left.expect_bytes(b")")?;
    Ok(Term::make(alloc, TermNode::Arith(op, first, second))?)
}

// A labelled term, behind the word that begins it.
#[cycle(terms)]
#[inline(never)]
#[tactic(auto, unfolding(omega_spelling::specs::Reading::two, omega_spelling::specs::TermReading::three))]
fn inj_of(
    alloc: Global,
    version: Version,
    depth: u32,
    types: u64,
    terms: u64,
    left: &mut Left<'_>,
) -> Result<Term, Stop>
    requires { types + depth + 1 < 2 ^ 64 × terms + 2 * depth + 2 < 2 ^ 64 }
    ensures { Gives (λ e. e) result left.new.rest.now (three Inj label_at (term_at version depth types terms) (ty_at version depth types) left.old.rest.now) }
{
    let first = label_of(alloc, left)?;
    left.expect_bytes(b" ")?;
    let second = term_of(alloc, version, depth, types, terms, left)?;
    left.expect_bytes(b" ")?;
    let third = ty_of(alloc, version, depth, types, left)?;
    left.expect_bytes(b")")?;
    Ok(Term::make(alloc, TermNode::Inj(first, second, third))?)
}

// A case, behind the word that begins it. One more term variable is in scope in its branches.
#[cycle(terms)]
#[inline(never)]
#[tactic(auto, unfolding(omega_spelling::specs::TermReading::case_at))]
fn case_of(
    alloc: Global,
    version: Version,
    depth: u32,
    types: u64,
    terms: u64,
    left: &mut Left<'_>,
) -> Result<Term, Stop>
    requires { types + depth + 1 < 2 ^ 64 × terms + 2 * depth + 2 < 2 ^ 64 }
    ensures { Gives (λ e. e) result left.new.rest.now (case_at (term_at version depth types terms) (ty_at version depth types) (term_at version depth types (terms + 1)) left.old.rest.now) }
{
    let whole = term_of(alloc, version, depth, types, terms, left)?;
    left.expect_bytes(b" ")?;
    let answer = ty_of(alloc, version, depth, types, left)?;
    let branches = fields_of(alloc, version, depth, types, terms + 1, left)?;
    Ok(Term::make(alloc, TermNode::Case(whole, answer, branches))?)
}

// A term rolled into a recursive type, behind the word that begins it.
#[cycle(terms)]
#[inline(never)]
#[tactic(auto, unfolding(omega_spelling::specs::Reading::two))]
fn roll_of(
    alloc: Global,
    version: Version,
    depth: u32,
    types: u64,
    terms: u64,
    left: &mut Left<'_>,
) -> Result<Term, Stop>
    requires { types + depth + 1 < 2 ^ 64 × terms + 2 * depth + 2 < 2 ^ 64 }
    ensures { Gives (λ e. e) result left.new.rest.now (two Roll (term_at version depth types terms) (ty_at version depth types) left.old.rest.now) }
{
    let first = term_of(alloc, version, depth, types, terms, left)?;
    left.expect_bytes(b" ")?;
    let second = ty_of(alloc, version, depth, types, left)?;
    left.expect_bytes(b")")?;
    Ok(Term::make(alloc, TermNode::Roll(first, second))?)
}

// An unrolled term, behind the word that begins it.
#[cycle(terms)]
#[inline(never)]
#[tactic(auto, unfolding(omega_spelling::specs::Reading::one))]
fn unroll_of(
    alloc: Global,
    version: Version,
    depth: u32,
    types: u64,
    terms: u64,
    left: &mut Left<'_>,
) -> Result<Term, Stop>
    requires { types + depth + 1 < 2 ^ 64 × terms + 2 * depth + 2 < 2 ^ 64 }
    ensures { Gives (λ e. e) result left.new.rest.now (one Unroll (term_at version depth types terms) left.old.rest.now) }
{
    let whole = term_of(alloc, version, depth, types, terms, left)?;
    left.expect_bytes(b")")?;
    Ok(Term::make(alloc, TermNode::Unroll(whole))?)
}

// The fields or branches up to the parenthesis that closes the form.
#[cycle(terms)]
fn fields_of(
    alloc: Global,
    version: Version,
    depth: u32,
    types: u64,
    terms: u64,
    left: &mut Left<'_>,
) -> Result<TermFields, Stop>
    requires { types + depth < 2 ^ 64 × terms + 2 * depth < 2 ^ 64 }
    ensures { Gives (λ f. term_row f) result left.new.rest.now (fields_at End More (term_at version depth types terms) (length left.old.rest.now) None left.old.rest.now) }
{
    let mut fields = TermFields::new(alloc);
    let turns = left.rest.len();
    for _ in 0..turns {
        if !left.eat(b" (") {
            left.expect_bytes(b")")?;
            return Ok(fields);
        }
        let field = field_of(alloc, version, depth, types, terms, left)?;
        if !term_may_follow(&fields, &field.0) {
            return Err(Stop::NotOmega);
        }
        fields.push(field)?;
    }
    Err(Stop::NotOmega)
}

// A field or a branch, behind the parenthesis that opens it.
#[cycle(terms)]
#[tactic(auto, unfolding(omega_spelling::specs::Reading::two, omega_spelling::specs::Reading::field_at))]
fn field_of(
    alloc: Global,
    version: Version,
    depth: u32,
    types: u64,
    terms: u64,
    left: &mut Left<'_>,
) -> Result<(Label, Term), Stop>
    requires { types + depth < 2 ^ 64 × terms + 2 * depth < 2 ^ 64 }
    ensures { Gives (λ f. f) result left.new.rest.now (field_at (term_at version depth types terms) left.old.rest.now) }
{
    let label = label_of(alloc, left)?;
    left.expect_bytes(b" ")?;
    let part = term_of(alloc, version, depth, types, terms, left)?;
    left.expect_bytes(b")")?;
    Ok((label, part))
}
