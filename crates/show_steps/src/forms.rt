// Forms with a hole, as terms are written: what stands before the hole, what stands after it, and what may stand in it.
use omega_kinds::{Label, Mem};
use omega_machine::{Frame, Ready, Waiting};
use omega_terms::{Op, Term, TermFields, TermNode};
use omega_types::Ty;
use show_terms::{Room, TermWriter, is_function, operator_text, put_cases, put_opened, put_part};

// The fields that are written on each side of the hole of a record.
const SIDE: usize = 3;

/// Which terms stand in the hole of a frame without parentheses.
pub(crate) fn room_in(frame: &Frame) -> Room {
    match frame {
        Frame::Waiting(form) => room_waiting(form),
        Frame::Ready(form) => room_ready(form),
    }
}

// Which terms stand in the hole of a form that has another part to reduce, or is a value then.
fn room_waiting(form: &Waiting) -> Room {
    match form {
        Waiting::Function(_) => Room::Applied,
        Waiting::Left(_, _) => Room::Operand,
        Waiting::Packed(_, _) | Waiting::Field(_, _) => Room::Whole,
        Waiting::Injected(_, _) | Waiting::Rolled(_) => Room::Argument,
    }
}

/// Which terms stand without parentheses in the hole of a form that makes its step once a value stands in it.
pub(crate) fn room_ready(form: &Ready) -> Room {
    match form {
        Ready::Argument(function) if is_function(function) => Room::Whole,
        Ready::Opened(_) | Ready::Test(_, _) => Room::Whole,
        Ready::Instance(_) => Room::Applied,
        Ready::Right(_, _) | Ready::Cased(_) => Room::Operand,
        Ready::Argument(_) | Ready::Part(_) | Ready::Unrolled => Room::Argument,
    }
}

/// Whether a frame with a term in its hole needs parentheses at a place.
pub(crate) fn is_grouped(frame: &Frame, room: Room) -> bool {
    match frame {
        Frame::Waiting(Waiting::Field(_, _)) | Frame::Ready(Ready::Part(_)) => false,
        Frame::Waiting(Waiting::Function(_)) | Frame::Ready(Ready::Instance(_)) => {
            room == Room::Argument
        }
        Frame::Ready(Ready::Argument(function)) => {
            room == Room::Argument || is_function(function) && room != Room::Whole
        }
        Frame::Ready(Ready::Unrolled) => room == Room::Applied || room == Room::Argument,
        _ => room != Room::Whole,
    }
}

/// Writes what stands before the hole of a frame.
pub(crate) fn put_before(writer: &mut TermWriter, frame: &Frame) -> Result<(), Mem> {
    match frame {
        Frame::Waiting(form) => put_waiting(writer, form),
        Frame::Ready(form) => put_ready(writer, form),
    }
}

/// Writes what stands after the hole of a frame.
pub(crate) fn put_after(writer: &mut TermWriter, frame: &Frame) -> Result<(), Mem> {
    match frame {
        Frame::Waiting(form) => end_waiting(writer, form),
        Frame::Ready(form) => end_ready(writer, form),
    }
}

// Writes what stands before the hole of a form that has another part to reduce, or is a value then.
fn put_waiting(writer: &mut TermWriter, form: &Waiting) -> Result<(), Mem> {
    match form {
        Waiting::Function(_) | Waiting::Left(_, _) => Ok(()),
        Waiting::Packed(hidden, _) => {
            let brackets = writer.symbols().sum;
            writer.put_word("pack")?;
            writer.text.open_list(brackets)?;
            writer.put_type(hidden)?;
            writer.text.put_comma()
        }
        Waiting::Field(whole, done) => put_fields_before(writer, whole, done),
        Waiting::Injected(label, _) => {
            writer.put_word("inj")?;
            writer.text.put_label(label)?;
            writer.text.put_space()
        }
        Waiting::Rolled(_) => writer.put_word("roll"),
    }
}

// Writes what stands after the hole of such a form.
fn end_waiting(writer: &mut TermWriter, form: &Waiting) -> Result<(), Mem> {
    match form {
        Waiting::Function(argument) => {
            writer.text.put_space()?;
            put_part(writer, argument, Room::Argument)
        }
        Waiting::Left(op, right) => {
            put_operator(writer, *op)?;
            put_part(writer, right, Room::Operand)
        }
        Waiting::Packed(_, ty) => {
            let brackets = writer.symbols().sum;
            writer.text.close_list(brackets)?;
            put_as(writer, ty)
        }
        Waiting::Field(whole, done) => put_fields_after(writer, whole, done.items().len()),
        Waiting::Injected(_, ty) | Waiting::Rolled(ty) => put_as(writer, ty),
    }
}

// Writes the type that a form names at its end.
fn put_as(writer: &mut TermWriter, ty: &Ty) -> Result<(), Mem> {
    writer.put_between("as")?;
    writer.put_type(ty)
}

// Writes an operator between its operands.
fn put_operator(writer: &mut TermWriter, op: Op) -> Result<(), Mem> {
    writer.text.put(" ")?;
    writer.text.put_bytes(operator_text(op).as_bytes())?;
    writer.text.put(" ")
}

// Writes the beginning of a record up to the term of its first field that is no value: the last fields before it.
fn put_fields_before(writer: &mut TermWriter, whole: &Term, done: &TermFields) -> Result<(), Mem> {
    let brackets = writer.symbols().record;
    writer.text.open_list(brackets)?;
    let first = done.items().len().saturating_sub(SIDE);
    if first > 0 {
        writer.put_cut()?;
        writer.text.put_comma()?;
    }
    for field in done.items().iter().skip(first) {
        put_label(writer, &field.0)?;
        put_part(writer, &field.1, Room::Whole)?;
        writer.text.put_comma()?;
    }
    let TermNode::Fields(fields) = whole.node() else {
        return Ok(());
    };
    match fields.get(done.items().len()) {
        Some(field) => put_label(writer, &field.0),
        None => Ok(()),
    }
}

// Writes the label of a field, up to its term.
fn put_label(writer: &mut TermWriter, label: &Label) -> Result<(), Mem> {
    writer.text.put_label(label)?;
    writer.text.put(" = ")
}

// Writes the end of a record, from what follows the field at a place on: the first fields after it.
fn put_fields_after(writer: &mut TermWriter, whole: &Term, place: usize) -> Result<(), Mem> {
    let brackets = writer.symbols().record;
    let TermNode::Fields(fields) = whole.node() else {
        return writer.text.close_list(brackets);
    };
    let rest = fields.items().get(place.saturating_add(1)..).unwrap_or(&[]);
    for field in rest.iter().take(SIDE) {
        writer.text.put_comma()?;
        put_label(writer, &field.0)?;
        put_part(writer, &field.1, Room::Whole)?;
    }
    if rest.len() > SIDE {
        writer.text.put_comma()?;
        writer.put_cut()?;
    }
    writer.text.close_list(brackets)
}

/// Writes what stands before the hole of a form that makes its step once a value stands in it.
pub(crate) fn put_ready(writer: &mut TermWriter, form: &Ready) -> Result<(), Mem> {
    match form {
        Ready::Argument(function) => put_called(writer, function),
        Ready::Instance(_) | Ready::Part(_) => Ok(()),
        Ready::Opened(_) => {
            writer.text.open_level()?;
            writer.put_word("unpack")?;
            put_opened(writer)?;
            writer.text.put(" = ")
        }
        Ready::Test(_, _) => {
            writer.text.open()?;
            writer.put_word("if")
        }
        Ready::Right(op, left) => {
            put_part(writer, left, Room::Operand)?;
            put_operator(writer, *op)
        }
        Ready::Cased(_) => writer.put_word("case"),
        Ready::Unrolled => writer.put_word("unroll"),
    }
}

// Writes a called function up to its argument: one that stands there as a `let`.
fn put_called(writer: &mut TermWriter, function: &Term) -> Result<(), Mem> {
    let TermNode::Lam(ty, _) = function.node() else {
        put_part(writer, function, Room::Applied)?;
        return writer.text.put_space();
    };
    writer.text.open_level()?;
    writer.put_word("let")?;
    writer.bind(1);
    writer.put_variable(0)?;
    writer.unbind(1);
    writer.text.put(" : ")?;
    writer.put_type(ty)?;
    writer.text.put(" = ")
}

/// Writes what stands after the hole of such a form.
pub(crate) fn end_ready(writer: &mut TermWriter, form: &Ready) -> Result<(), Mem> {
    match form {
        Ready::Argument(function) => end_called(writer, function),
        Ready::Instance(ty) => {
            writer.text.put_space()?;
            writer.text.put("[")?;
            writer.put_type(ty)?;
            writer.text.put("]")
        }
        Ready::Part(label) => {
            if let Label::Name(_) = label {
                writer.text.put(".")?;
            }
            writer.text.put_label(label)
        }
        Ready::Opened(body) => {
            writer.text.bind(1);
            put_bound(writer, body)?;
            writer.text.unbind(1);
            Ok(())
        }
        Ready::Test(yes, no) => end_choice(writer, yes, no),
        Ready::Right(_, _) | Ready::Unrolled => Ok(()),
        Ready::Cased(whole) => end_case(writer, whole),
    }
}

// Writes what follows the argument of a called function: the body of one that stands there.
fn end_called(writer: &mut TermWriter, function: &Term) -> Result<(), Mem> {
    match function.node() {
        TermNode::Lam(_, body) => put_bound(writer, body),
        _ => Ok(()),
    }
}

// Writes the body of a binding behind its `in`, and ends the group of the binding.
fn put_bound(writer: &mut TermWriter, body: &Term) -> Result<(), Mem> {
    writer.text.put_space()?;
    writer.text.put_word("in")?;
    writer.text.put_word_break()?;
    writer.bind(1);
    put_part(writer, body, Room::Whole)?;
    writer.unbind(1);
    writer.text.close()
}

// Writes the branches of a choice, and ends its group.
fn end_choice(writer: &mut TermWriter, yes: &Term, no: &Term) -> Result<(), Mem> {
    writer.text.put_word_break()?;
    writer.put_word("then")?;
    put_part(writer, yes, Room::Whole)?;
    writer.text.put_word_break()?;
    writer.put_word("else")?;
    put_part(writer, no, Room::Whole)?;
    writer.text.close()
}

// Writes what follows that of which a case is.
fn end_case(writer: &mut TermWriter, whole: &Term) -> Result<(), Mem> {
    let TermNode::Case(_, ty, branches) = whole.node() else {
        return Ok(());
    };
    writer.text.put(" : ")?;
    writer.put_type(ty)?;
    writer.put_between("of")?;
    put_cases(writer, branches)
}
