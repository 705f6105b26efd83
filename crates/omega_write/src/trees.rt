// Kinds, types, terms and whole texts, written as text.
ghost use Rattle.fing_text.specs.Writes.{Wrote};
ghost use Rattle.omega_kinds.specs.View.{kind_tree};
ghost use Rattle.omega_types.specs.Fields.{row};
ghost use Rattle.omega_terms.specs.Fields.{term_row};
ghost use Rattle.omega_terms.specs.InScope.{TyInScope, TermInScope};
ghost use Rattle.omega_terms.specs.KindText.{kind_text};
ghost use Rattle.omega_terms.specs.OmegaText.{omega_text};
ghost use Rattle.omega_terms.specs.Term.{Term as TermTree};
ghost use Rattle.omega_terms.specs.TermText.{term_text, op_front, quoted_text};
ghost use Rattle.omega_terms.specs.TypeText.{ty_text};
ghost use Rattle.omega_types.specs.Ty.{Ty as TyTree};
ghost use Rattle.std.specs.Prelude.{◌≡◌, codes, decimal};
ghost use Rattle.omega_kinds.specs.Text.{◌then◌};
ghost use Rattle.omega_write.specs.Inner.Counted.{level_in, next_in, counted_ty, counted_row, counted_term, counted_term_row};
ghost use Rattle.omega_write.specs.Inner.Pieces.{piece_text, pieces_text, field_text, one_text, two_text, three_text};
ghost use Rattle.omega_write.specs.declared.trees.Piece.TheVariants as piece;

use crate::leaves::{write_bytes, write_label, write_number, write_signed, write_word};
use fing_text::{Sink, WriteFault};
use omega_kinds::{Kind, Label};
use omega_terms::{Op, Term, TermFields, TermNode};
use omega_types::{Ty, TyFields, TyNode};

// A part of what is written: some bytes, a number, the bytes of a text, or a tree with the numbers of variables in
// scope. These are counted modulo 2^64, which is exact for each level below 2^64.
#[derive(Clone, Copy)]
enum Piece<'a> {
    Bytes(&'a [u8]),
    Number(u64),
    Text(&'a [u8]),
    Label(&'a Label),
    Kind(&'a Kind),
    Ty(u64, &'a Ty),
    TyFields(u64, &'a TyFields),
    Term(Scope, &'a Term),
    TermFields(Scope, &'a TermFields),
}

// How many type variables and how many term variables are in scope.
#[derive(Clone, Copy)]
struct Scope {
    types: u64,
    terms: u64,
}

impl Scope {
    // Below a binder of a type variable.
    fn under_type(self) -> Scope
        ensures { result ≡ record { types = next_in self.types; terms = self.terms } }
    {
        Scope {
            types: next(self.types),
            terms: self.terms,
        }
    }

    // Below a binder of a term variable.
    fn under_term(self) -> Scope
        ensures { result ≡ record { types = self.types; terms = next_in self.terms } }
    {
        Scope {
            types: self.types,
            terms: next(self.terms),
        }
    }

    // A type here.
    fn ty<'x>(self, ty: &'x Ty) -> Piece<'x>
        ensures { result ≡ piece.Ty self.types ty.entry }
    {
        Piece::Ty(self.types, ty)
    }

    // A term here.
    fn term<'x>(self, term: &'x Term) -> Piece<'x>
        ensures { result ≡ piece.Term self term.entry }
    {
        Piece::Term(self, term)
    }
}

// The level of a variable, where so many of its sort are in scope.
fn level(count: u64, index: u64) -> u64
    ensures { result ≡ level_in count index }
{
    count.wrapping_sub(index.wrapping_add(1))
}

// How many variables are in scope below a binder of one.
fn next(count: u64) -> u64
    ensures { result ≡ next_in count }
{
    count.wrapping_add(1)
}

/// Writes a kind: `*` or `(> K K)`.
/// `Err` comes only where the sink counted a fault, and a prefix of the text was written, not all of it.
#[cycle(trees)]
#[inline(never)]
pub fn write_kind<K: Sink>(sink: &mut K, kind: &Kind) -> Result<(), WriteFault>
    ensures { Wrote (K.told sink.old) (K.told sink.new) (kind_text (kind_tree kind.now)) result }
{
    match kind {
        Kind::Star => write_word(sink, b"*"),
        Kind::Arrow(from, to, _) => write_two_kinds(sink, from, to),
    }
}

// Writes the kind of operators.
#[cycle(trees)]
#[inline(never)]
fn write_two_kinds<'x, K: Sink>(
    sink: &mut K,
    from: &'x Kind,
    to: &'x Kind,
) -> Result<(), WriteFault>
    ensures { Wrote (K.told sink.old) (K.told sink.new) (two_text (codes "(> ") (kind_text (kind_tree from.now)) (kind_text (kind_tree to.now))) result }
{
    write_two(sink, b"(> ", Piece::Kind(from), Piece::Kind(to))
}

// Writes a type, whose variables in scope are counted modulo 2^64. What forms of parts are written as is a call of its own
// for each, here and for terms, so that no frame has room for the pieces of all forms.
#[cycle(trees)]
#[inline(never)]
fn write_type<K: Sink>(sink: &mut K, types: u64, ty: &Ty) -> Result<(), WriteFault>
    ensures { Wrote (K.told sink.old) (K.told sink.new) (counted_ty types ty.now) result }
{
    match ty.node() {
        TyNode::Var(index) => write_variable(sink, b"a", level(types, *index)),
        TyNode::Int => write_word(sink, b"int"),
        TyNode::Bool => write_word(sink, b"bool"),
        TyNode::Text => write_word(sink, b"text"),
        TyNode::Arrow(a, b) => write_two_types(sink, b"(-> ", types, a, b),
        TyNode::Fields(fields) => write_row(sink, b"(rec", types, fields),
        TyNode::Sum(fields) => write_row(sink, b"(sum", types, fields),
        TyNode::All(k, b) => write_bound(sink, b"(all ", types, k, b),
        TyNode::Ex(k, b) => write_bound(sink, b"(some ", types, k, b),
        TyNode::Mu(b) => write_recursive(sink, types, b),
        TyNode::Lam(k, b) => write_bound(sink, b"(lam ", types, k, b),
        TyNode::Apply(f, a) => write_two_types(sink, b"(@ ", types, f, a),
    }
}

// Writes a form of two types.
#[cycle(trees)]
#[inline(never)]
fn write_two_types<'x, K: Sink>(
    sink: &mut K,
    front: &'x [u8],
    types: u64,
    first: &'x Ty,
    second: &'x Ty,
) -> Result<(), WriteFault>
    ensures { Wrote (K.told sink.old) (K.told sink.new) (two_text front.now (counted_ty types first.now) (counted_ty types second.now)) result }
{
    write_two(
        sink,
        front,
        Piece::Ty(types, first),
        Piece::Ty(types, second),
    )
}

// Writes a record type or a sum.
#[cycle(trees)]
#[inline(never)]
fn write_row<'x, K: Sink>(
    sink: &mut K,
    front: &'x [u8],
    types: u64,
    fields: &'x TyFields,
) -> Result<(), WriteFault>
    ensures { Wrote (K.told sink.old) (K.told sink.new) (one_text front.now (counted_row types (row fields.now))) result }
{
    write_one(sink, front, Piece::TyFields(types, fields))
}

// Writes a type that binds a variable of a kind.
#[cycle(trees)]
#[inline(never)]
fn write_bound<'x, K: Sink>(
    sink: &mut K,
    front: &'x [u8],
    types: u64,
    kind: &'x Kind,
    body: &'x Ty,
) -> Result<(), WriteFault>
    ensures { Wrote (K.told sink.old) (K.told sink.new) (two_text front.now (kind_text (kind_tree kind.now)) (counted_ty (next_in types) body.now)) result }
{
    write_two(sink, front, Piece::Kind(kind), Piece::Ty(next(types), body))
}

// Writes a recursive type.
#[cycle(trees)]
#[inline(never)]
fn write_recursive<K: Sink>(sink: &mut K, types: u64, b: &Ty) -> Result<(), WriteFault>
    ensures { Wrote (K.told sink.old) (K.told sink.new) (counted_ty types (TyTree.Mu b.now)) result }
{
    write_one(sink, b"(mu ", Piece::Ty(next(types), b))
}

// Writes the fields of a record or a sum type, each with a space before it.
#[cycle(trees)]
#[inline(never)]
fn write_ty_fields<K: Sink>(sink: &mut K, types: u64, fields: &TyFields) -> Result<(), WriteFault>
    ensures { Wrote (K.told sink.old) (K.told sink.new) (counted_row types (row fields.now)) result }
{
    for field in fields.items() {
        write_field(sink, &field.0, Piece::Ty(types, &field.1))?;
    }
    Ok(())
}

// Writes a term, whose variables in scope are counted modulo 2^64.
#[cycle(trees)]
#[inline(never)]
fn write_expression<K: Sink>(sink: &mut K, here: Scope, term: &Term) -> Result<(), WriteFault>
    ensures { Wrote (K.told sink.old) (K.told sink.new) (counted_term here.types here.terms term.now) result }
{
    match term.node() {
        TermNode::Var(index) => write_variable(sink, b"x", level(here.terms, *index)),
        TermNode::Int(z) => write_signed(sink, *z),
        TermNode::Bool(true) => write_word(sink, b"true"),
        TermNode::Bool(false) => write_word(sink, b"false"),
        TermNode::Text(text) => write_quoted(sink, text.bytes()),
        TermNode::Lam(t, e) => write_function(sink, here, t, e),
        TermNode::Call(f, a) => write_two_terms(sink, b"(call ", here, f, a),
        TermNode::TyLam(k, e) => write_type_function(sink, here, k, e),
        TermNode::Inst(e, t) => write_at_type(sink, b"(inst ", here, e, t),
        TermNode::Fields(fields) => write_record(sink, here, fields),
        TermNode::Get(e, l) => write_get(sink, here, e, l),
        TermNode::Pack(t, e, u) => write_package(sink, here, t, e, u),
        TermNode::Unpack(p, e) => write_opened(sink, here, p, e),
        TermNode::If(a, b, c) => write_choice(sink, here, a, b, c),
        TermNode::Arith(op, a, b) => write_two_terms(sink, front(*op), here, a, b),
        TermNode::Fix(t, u, e) => write_fix(sink, here, t, u, e),
        TermNode::Inj(l, e, t) => write_injected(sink, here, l, e, t),
        TermNode::Case(e, t, branches) => write_case(sink, here, e, t, branches),
        TermNode::Roll(e, t) => write_at_type(sink, b"(roll ", here, e, t),
        TermNode::Unroll(e) => write_unrolled(sink, here, e),
    }
}

// Writes a form of two terms.
#[cycle(trees)]
#[inline(never)]
fn write_two_terms<'x, K: Sink>(
    sink: &mut K,
    front: &'x [u8],
    here: Scope,
    first: &'x Term,
    second: &'x Term,
) -> Result<(), WriteFault>
    ensures { Wrote (K.told sink.old) (K.told sink.new) (two_text front.now (counted_term here.types here.terms first.now) (counted_term here.types here.terms second.now)) result }
{
    write_two(sink, front, here.term(first), here.term(second))
}

// Writes a form of a term and a type.
#[cycle(trees)]
#[inline(never)]
fn write_at_type<'x, K: Sink>(
    sink: &mut K,
    front: &'x [u8],
    here: Scope,
    e: &'x Term,
    t: &'x Ty,
) -> Result<(), WriteFault>
    ensures { Wrote (K.told sink.old) (K.told sink.new) (two_text front.now (counted_term here.types here.terms e.now) (counted_ty here.types t.now)) result }
{
    write_two(sink, front, here.term(e), here.ty(t))
}

// Writes a function.
#[cycle(trees)]
#[inline(never)]
fn write_function<'x, K: Sink>(
    sink: &mut K,
    here: Scope,
    t: &'x Ty,
    e: &'x Term,
) -> Result<(), WriteFault>
    ensures { Wrote (K.told sink.old) (K.told sink.new) (counted_term here.types here.terms (TermTree.Lam t.now e.now)) result }
{
    write_two(sink, b"(fn ", here.ty(t), here.under_term().term(e))
}

// Writes a function of types.
#[cycle(trees)]
#[inline(never)]
fn write_type_function<'x, K: Sink>(
    sink: &mut K,
    here: Scope,
    k: &'x Kind,
    e: &'x Term,
) -> Result<(), WriteFault>
    ensures { Wrote (K.told sink.old) (K.told sink.new) (counted_term here.types here.terms (TermTree.TyLam (kind_tree k.now) e.now)) result }
{
    write_two(sink, b"(tfn ", Piece::Kind(k), here.under_type().term(e))
}

// Writes a record.
#[cycle(trees)]
#[inline(never)]
fn write_record<K: Sink>(sink: &mut K, here: Scope, fields: &TermFields) -> Result<(), WriteFault>
    ensures { Wrote (K.told sink.old) (K.told sink.new) (counted_term here.types here.terms (TermTree.Fields (term_row fields.now))) result }
{
    write_one(sink, b"(rec", Piece::TermFields(here, fields))
}

// Writes a field of a record that is taken.
#[cycle(trees)]
#[inline(never)]
fn write_get<'x, K: Sink>(
    sink: &mut K,
    here: Scope,
    e: &'x Term,
    l: &'x Label,
) -> Result<(), WriteFault>
    ensures { Wrote (K.told sink.old) (K.told sink.new) (counted_term here.types here.terms (TermTree.Get e.now l.now)) result }
{
    write_two(sink, b"(get ", here.term(e), Piece::Label(l))
}

// Writes a package.
#[cycle(trees)]
#[inline(never)]
fn write_package<'x, K: Sink>(
    sink: &mut K,
    here: Scope,
    t: &'x Ty,
    e: &'x Term,
    u: &'x Ty,
) -> Result<(), WriteFault>
    ensures { Wrote (K.told sink.old) (K.told sink.new) (counted_term here.types here.terms (TermTree.Pack t.now e.now u.now)) result }
{
    write_three(sink, b"(pack ", here.ty(t), here.term(e), here.ty(u))
}

// Writes an opened package.
#[cycle(trees)]
#[inline(never)]
fn write_opened<'x, K: Sink>(
    sink: &mut K,
    here: Scope,
    p: &'x Term,
    e: &'x Term,
) -> Result<(), WriteFault>
    ensures { Wrote (K.told sink.old) (K.told sink.new) (counted_term here.types here.terms (TermTree.Unpack p.now e.now)) result }
{
    let under = here.under_term();
    write_two(sink, b"(open ", here.term(p), under.under_type().term(e))
}

// Writes a choice.
#[cycle(trees)]
#[inline(never)]
fn write_choice<'x, K: Sink>(
    sink: &mut K,
    here: Scope,
    a: &'x Term,
    b: &'x Term,
    c: &'x Term,
) -> Result<(), WriteFault>
    ensures { Wrote (K.told sink.old) (K.told sink.new) (counted_term here.types here.terms (TermTree.If a.now b.now c.now)) result }
{
    write_three(sink, b"(if ", here.term(a), here.term(b), here.term(c))
}

// Writes a function that calls itself.
#[cycle(trees)]
#[inline(never)]
fn write_fix<'x, K: Sink>(
    sink: &mut K,
    here: Scope,
    t: &'x Ty,
    u: &'x Ty,
    e: &'x Term,
) -> Result<(), WriteFault>
    ensures { Wrote (K.told sink.old) (K.told sink.new) (counted_term here.types here.terms (TermTree.Fix t.now u.now e.now)) result }
{
    let under = here.under_term();
    let body = under.under_term().term(e);
    write_three(sink, b"(fix ", here.ty(t), here.ty(u), body)
}

// Writes a term injected into a sum.
#[cycle(trees)]
#[inline(never)]
fn write_injected<'x, K: Sink>(
    sink: &mut K,
    here: Scope,
    l: &'x Label,
    e: &'x Term,
    t: &'x Ty,
) -> Result<(), WriteFault>
    ensures { Wrote (K.told sink.old) (K.told sink.new) (counted_term here.types here.terms (TermTree.Inj l.now e.now t.now)) result }
{
    write_three(sink, b"(inj ", Piece::Label(l), here.term(e), here.ty(t))
}

// Writes a case of a sum, each branch below a binder of a term variable.
#[cycle(trees)]
#[inline(never)]
fn write_case<'x, K: Sink>(
    sink: &mut K,
    here: Scope,
    e: &'x Term,
    t: &'x Ty,
    branches: &'x TermFields,
) -> Result<(), WriteFault>
    ensures { Wrote (K.told sink.old) (K.told sink.new) (counted_term here.types here.terms (TermTree.Case e.now t.now (term_row branches.now))) result }
{
    write_pieces(
        sink,
        &[
            Piece::Bytes(b"(case "),
            here.term(e),
            Piece::Bytes(b" "),
            here.ty(t),
            Piece::TermFields(here.under_term(), branches),
            Piece::Bytes(b")"),
        ],
    )
}

// Writes an unrolled term.
#[cycle(trees)]
#[inline(never)]
fn write_unrolled<K: Sink>(sink: &mut K, here: Scope, e: &Term) -> Result<(), WriteFault>
    ensures { Wrote (K.told sink.old) (K.told sink.new) (counted_term here.types here.terms (TermTree.Unroll e.now)) result }
{
    write_one(sink, b"(unroll ", here.term(e))
}

// What an operator's form begins with.
fn front(op: Op) -> &'static [u8]
    ensures { result.now ≡ op_front op }
{
    match op {
        Op::Add => b"(+ ",
        Op::Sub => b"(- ",
        Op::Mul => b"(* ",
        Op::Div => b"(/ ",
        Op::Rem => b"(% ",
        Op::Less => b"(< ",
        Op::Equal => b"(== ",
    }
}

// Writes the fields of a record, or the branches of a case, each with a space before it.
#[cycle(trees)]
#[inline(never)]
fn write_term_fields<K: Sink>(
    sink: &mut K,
    here: Scope,
    fields: &TermFields,
) -> Result<(), WriteFault>
    ensures { Wrote (K.told sink.old) (K.told sink.new) (counted_term_row here.types here.terms (term_row fields.now)) result }
{
    for field in fields.items() {
        write_field(sink, &field.0, Piece::Term(here, &field.1))?;
    }
    Ok(())
}

// Writes a field of a record, or a branch of a case, with a space before it.
#[cycle(trees)]
#[inline(never)]
fn write_field<'x, K: Sink>(
    sink: &mut K,
    label: &'x Label,
    part: Piece<'x>,
) -> Result<(), WriteFault>
    ensures { Wrote (K.told sink.old) (K.told sink.new) (field_text label.now (piece_text part.entry)) result }
{
    write_two(sink, b" (", Piece::Label(label), part)
}

// Writes a variable of a sort by its level.
#[cycle(trees)]
#[inline(never)]
fn write_variable<'x, K: Sink>(sink: &mut K, sort: &'x [u8], level: u64) -> Result<(), WriteFault>
    ensures { Wrote (K.told sink.old) (K.told sink.new) (sort.now then decimal level) result }
{
    write_pieces(sink, &[Piece::Bytes(sort), Piece::Number(level)])
}

// Writes a text in quotes.
#[cycle(trees)]
#[inline(never)]
fn write_quoted<'x, K: Sink>(sink: &mut K, text: &'x [u8]) -> Result<(), WriteFault>
    ensures { Wrote (K.told sink.old) (K.told sink.new) (quoted_text text.now) result }
{
    write_pieces(
        sink,
        &[Piece::Bytes(b"\""), Piece::Text(text), Piece::Bytes(b"\"")],
    )
}

// Writes a form of one part, or of fields, each of which begins with a space.
#[cycle(trees)]
fn write_one<'x, K: Sink>(sink: &mut K, front: &'x [u8], part: Piece<'x>) -> Result<(), WriteFault>
    ensures { Wrote (K.told sink.old) (K.told sink.new) (one_text front.now (piece_text part.entry)) result }
{
    write_pieces(sink, &[Piece::Bytes(front), part, Piece::Bytes(b")")])
}

// Writes a form of two parts.
#[cycle(trees)]
fn write_two<'x, K: Sink>(
    sink: &mut K,
    front: &'x [u8],
    first: Piece<'x>,
    second: Piece<'x>,
) -> Result<(), WriteFault>
    ensures { Wrote (K.told sink.old) (K.told sink.new) (two_text front.now (piece_text first.entry) (piece_text second.entry)) result }
{
    write_pieces(
        sink,
        &[
            Piece::Bytes(front),
            first,
            Piece::Bytes(b" "),
            second,
            Piece::Bytes(b")"),
        ],
    )
}

// Writes a form of three parts.
#[cycle(trees)]
fn write_three<'x, K: Sink>(
    sink: &mut K,
    front: &'x [u8],
    first: Piece<'x>,
    second: Piece<'x>,
    third: Piece<'x>,
) -> Result<(), WriteFault>
    ensures { Wrote (K.told sink.old) (K.told sink.new) (three_text front.now (piece_text first.entry) (piece_text second.entry) (piece_text third.entry)) result }
{
    write_pieces(
        sink,
        &[
            Piece::Bytes(front),
            first,
            Piece::Bytes(b" "),
            second,
            Piece::Bytes(b" "),
            third,
            Piece::Bytes(b")"),
        ],
    )
}

// Writes pieces one after the other.
#[cycle(trees)]
fn write_pieces<K: Sink>(sink: &mut K, pieces: &[Piece<'_>]) -> Result<(), WriteFault>
    ensures { Wrote (K.told sink.old) (K.told sink.new) (pieces_text pieces.now) result }
{
    for piece in pieces {
        write_piece(sink, piece)?;
    }
    Ok(())
}

// Writes a piece.
#[cycle(trees)]
#[inline(never)]
fn write_piece<K: Sink>(sink: &mut K, piece: &Piece<'_>) -> Result<(), WriteFault>
    ensures { Wrote (K.told sink.old) (K.told sink.new) (piece_text piece.now) result }
{
    match piece {
        Piece::Bytes(bytes) => write_word(sink, bytes),
        Piece::Number(n) => write_number(sink, *n),
        Piece::Text(bytes) => write_bytes(sink, bytes),
        Piece::Label(label) => write_label(sink, label),
        Piece::Kind(kind) => write_kind(sink, kind),
        Piece::Ty(types, ty) => write_type(sink, *types, ty),
        Piece::TyFields(types, fields) => write_ty_fields(sink, *types, fields),
        Piece::Term(here, term) => write_expression(sink, *here, term),
        Piece::TermFields(here, fields) => write_term_fields(sink, *here, fields),
    }
}

/// Writes a type with so many type variables in scope. Each variable is among them, and has a level below 2^64.
/// `Err` comes only where the sink counted a fault, and a prefix of the text was written, not all of it.
pub fn write_ty<K: Sink>(sink: &mut K, types: u64, ty: &Ty) -> Result<(), WriteFault>
    requires { TyInScope types ty.now }
    ensures { Wrote (K.told sink.old) (K.told sink.new) (ty_text types ty.now) result }
{
    write_type(sink, types, ty)
}

/// Writes a term with so many type variables and so many term variables in scope. Each variable is among those of
/// its sort, and has a level below 2^64.
/// `Err` comes only where the sink counted a fault, and a prefix of the text was written, not all of it.
pub fn write_term<K: Sink>(
    sink: &mut K,
    types: u64,
    terms: u64,
    term: &Term,
) -> Result<(), WriteFault>
    requires { TermInScope types terms term.now }
    ensures { Wrote (K.told sink.old) (K.told sink.new) (term_text types terms term.now) result }
{
    write_expression(sink, Scope { types, terms }, term)
}

/// Writes the whole text of a closed type and a closed term, in three lines: `omega 2`, the type and the term.
/// `Err` comes only where the sink counted a fault, and a prefix of the text was written, not all of it.
pub fn write_omega<'x, K: Sink>(sink: &mut K, ty: &'x Ty, term: &'x Term) -> Result<(), WriteFault>
    requires ty { TyInScope 0 ty.now }
    requires term { TermInScope 0 0 term.now }
    ensures { Wrote (K.told sink.old) (K.told sink.new) (omega_text ty.now term.now) result }
{
    let line_end = Piece::Bytes(b"\n");
    let text_end = Piece::Bytes(b"\n");
    write_pieces(
        sink,
        &[
            Piece::Bytes(b"omega 2\n"),
            Piece::Ty(0, ty),
            line_end,
            Piece::Term(Scope { types: 0, terms: 0 }, term),
            text_end,
        ],
    )
}
