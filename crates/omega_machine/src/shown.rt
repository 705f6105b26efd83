// The text of a value.
ghost use Rattle.std.specs.Prelude.{ℕ, List, [], ◌≡◌, ◌++◌, ◌∷◌, IfOk, OnOk, codes};
ghost use Rattle.std.specs.Fmt.{signed_decimal};
ghost use Rattle.omega_kinds.specs.Text.{◌then◌};
ghost use Rattle.omega_terms.specs.Fields.{term_row};
ghost use Rattle.omega_terms.specs.KindText.{label_text};
ghost use Rattle.omega_terms.specs.Term.{Term as TermTree};
ghost use Rattle.omega_terms.specs.TermText.{quoted_text, byte_text};
ghost use Rattle.omega_terms.specs.ValueText.{shown, shown_fields, mark_at, inside, lines, value_text};

use itoa::Buffer;
use omega_kinds::{Label, Mem};
use omega_terms::{Term, TermFields, TermNode};
use std::alloc::Global;
use std::marker::Model;

/// A program's value as text: a line for each field of the record that is left without the packages round it.
/// Contracts see it as its bytes.
#[derive(Drop)]
pub struct Shown {
    bytes: Vec<u8>,
}

impl Model for Shown {
    ghost use Rattle.std.specs.Prelude.{ℕ, List};

    ghost Value = { List ℕ };

    ghost view = { λ s. s.bytes.items };
}

impl Shown {
    /// The bytes of the text.
    pub fn bytes(&self) -> &[u8]
        ensures { result.now ≡ self.now }
    {
        self.bytes.as_slice()
    }
}

/// The text of a program's value: for each field of the record inside all packages, in label order, the label, ` = `,
/// the shown form and a line end. `Err` is out of memory.
pub fn show_program(alloc: Global, value: &Term) -> Result<Shown, Mem>
    ensures { IfOk result (λ s. s ≡ value_text value.now) }
{
    let mut bytes = Vec::new(alloc);
    if let TermNode::Fields(fields) = unpacked(value).node() {
        show_lines(&mut bytes, fields)?;
    }
    Ok(Shown { bytes })
}

// Adds each field on a line of its own.
fn show_lines(out: &mut Vec<u8>, fields: &TermFields) -> Result<(), Mem>
    ensures { OnOk result (out.new.items ≡ out.old.items ++ lines (term_row fields.now)) }
{
    for field in fields.items() {
        show_line(out, &field.0, &field.1)?;
    }
    Ok(())
}

// Adds a field and a line end.
fn show_line(out: &mut Vec<u8>, label: &Label, value: &Term) -> Result<(), Mem>
    ensures { OnOk result (out.new.items ≡ out.old.items ++ (label_text label.now then codes " = " then shown value.now then codes "\n")) }
{
    show_field(out, label, value)?;
    add(out, b"\n")
}

// The value inside all packages.
fn unpacked(value: &Term) -> &Term
    ensures { result.now ≡ inside value.now }
{
    let mut inner = value;
    while let TermNode::Pack(_, body, _) = inner.node() {
        inner = body;
    }
    inner
}

// Adds the shown form of a value.
#[cycle(show)]
fn show(out: &mut Vec<u8>, value: &Term) -> Result<(), Mem>
    ensures { OnOk result (out.new.items ≡ out.old.items ++ shown value.now) }
{
    match value.node() {
        TermNode::Int(z) => add_number(out, *z),
        TermNode::Bool(true) => add(out, b"true"),
        TermNode::Bool(false) => add(out, b"false"),
        TermNode::Text(text) => add_text(out, text.bytes()),
        TermNode::Lam(_, _) | TermNode::TyLam(_, _) | TermNode::Fix(_, _, _) => add(out, b"fun"),
        TermNode::Pack(_, _, _) => add(out, b"pack"),
        TermNode::Fields(fields) => show_record(out, fields),
        TermNode::Inj(label, part, _) => show_injected(out, label, part),
        TermNode::Roll(part, _) => show_rolled(out, part),
        TermNode::Var(_)
        | TermNode::Call(_, _)
        | TermNode::Inst(_, _)
        | TermNode::Get(_, _)
        | TermNode::Unpack(_, _)
        | TermNode::If(_, _, _)
        | TermNode::Arith(_, _, _)
        | TermNode::Case(_, _, _)
        | TermNode::Unroll(_) => Ok(()),
    }
}

// Adds the shown form of an injected value: its label and its shown form, in parentheses.
#[cycle(show)]
#[inline(never)]
fn show_injected(out: &mut Vec<u8>, label: &Label, part: &Term) -> Result<(), Mem>
    ensures { OnOk result (out.new.items ≡ out.old.items ++ (codes "(" then label_text label.now then codes " " then shown part.now then codes ")")) }
{
    add(out, b"(")?;
    add(out, label_bytes(label))?;
    add(out, b" ")?;
    show(out, part)?;
    add(out, b")")
}

// Adds the shown form of a rolled value: `roll` and its shown form, in parentheses.
#[cycle(show)]
#[inline(never)]
fn show_rolled(out: &mut Vec<u8>, part: &Term) -> Result<(), Mem>
    ensures { OnOk result (out.new.items ≡ out.old.items ++ (codes "(roll " then shown part.now then codes ")")) }
{
    add(out, b"(roll ")?;
    show(out, part)?;
    add(out, b")")
}

// Adds the shown form of a record.
#[cycle(show)]
fn show_record(out: &mut Vec<u8>, fields: &TermFields) -> Result<(), Mem>
    ensures { OnOk result (out.new.items ≡ out.old.items ++ shown (TermTree.Fields (term_row fields.now))) }
{
    let items = fields.items();
    if items.len() == 1 {
        show_single(out, fields, &items[0])
    } else {
        show_fields(out, fields)
    }
}

// Adds the shown form of a record of one field: of a value, a type or a signature by its reserved label.
#[cycle(show)]
fn show_single(out: &mut Vec<u8>, fields: &TermFields, field: &(Label, Term)) -> Result<(), Mem>
    requires { fields.now ≡ field.now ∷ [] }
    ensures { OnOk result (out.new.items ≡ out.old.items ++ shown (TermTree.Fields (term_row fields.now))) }
{
    match &field.0 {
        Label::Val => show(out, &field.1),
        Label::Typ => add(out, b"type"),
        Label::Sig => add(out, b"sig"),
        _ => show_fields(out, fields),
    }
}

// Adds the fields in braces, with commas between them.
#[cycle(show)]
fn show_fields(out: &mut Vec<u8>, fields: &TermFields) -> Result<(), Mem>
    ensures { OnOk result (out.new.items ≡ out.old.items ++ (codes "{" then shown_fields [] (term_row fields.now) then codes "}")) }
{
    add(out, b"{")?;
    for (place, field) in fields.items().iter().enumerate() {
        add(out, mark(place))?;
        show_field(out, &field.0, &field.1)?;
    }
    add(out, b"}")
}

// What stands before the field at a place.
fn mark(place: usize) -> &'static [u8]
    ensures { result.now ≡ mark_at place }
{
    if place == 0 { b"" } else { b", " }
}

// Adds a field: its label, ` = ` and its shown form.
#[cycle(show)]
fn show_field(out: &mut Vec<u8>, label: &Label, value: &Term) -> Result<(), Mem>
    ensures { OnOk result (out.new.items ≡ out.old.items ++ (label_text label.now then codes " = " then shown value.now)) }
{
    add(out, label_bytes(label))?;
    add(out, b" = ")?;
    show(out, value)
}

// Adds the bytes.
fn add(out: &mut Vec<u8>, bytes: &[u8]) -> Result<(), Mem>
    ensures { OnOk result (out.new.items ≡ out.old.items ++ bytes.now) }
{
    out.extend_from_slice(bytes)?;
    Ok(())
}

// Adds a number in decimal.
fn add_number(out: &mut Vec<u8>, number: i64) -> Result<(), Mem>
    ensures { OnOk result (out.new.items ≡ out.old.items ++ signed_decimal number) }
{
    let mut buffer = Buffer::new();
    add(out, buffer.format(number).as_bytes())
}

// Adds a text in quotes.
fn add_text(out: &mut Vec<u8>, bytes: &[u8]) -> Result<(), Mem>
    ensures { OnOk result (out.new.items ≡ out.old.items ++ quoted_text bytes.now) }
{
    add(out, b"\"")?;
    for byte in bytes {
        add_byte(out, *byte)?;
    }
    add(out, b"\"")
}

// Adds a byte of a text: a quote, a backslash and a line end by an escape, any other as it stands.
fn add_byte(out: &mut Vec<u8>, byte: u8) -> Result<(), Mem>
    ensures { OnOk result (out.new.items ≡ out.old.items ++ byte_text byte) }
{
    match byte {
        b'"' => add(out, b"\\\""),
        b'\\' => add(out, b"\\\\"),
        b'\n' => add(out, b"\\n"),
        _ => add(out, &[byte]),
    }
}

// The bytes of a label: a reserved one by its word, a name by its own bytes.
fn label_bytes(label: &Label) -> &[u8]
    ensures { result.now ≡ label_text label.now }
{
    match label {
        Label::Val => b".val",
        Label::Typ => b".typ",
        Label::Sig => b".sig",
        Label::App => b".app",
        Label::Gen => b".gen",
        Label::Name(name) => name.bytes(),
    }
}
