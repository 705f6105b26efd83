// Terms, in the notation of the literature.
use crate::forms::{Room, is_abstraction, is_binding, needs_parentheses, operator_text};
use crate::writer::TermWriter;
use omega_kinds::{Label, Mem};
use omega_terms::{Term, TermFields, TermNode};
use show_paper::{Symbols, put_inner};
use show_text::Page;
use std::alloc::Global;

/// The page of a closed term in a notation. A call of a function `fn` is shown as a `let`. A type variable and a term
/// variable have names of their level. `Err` is out of memory.
///
/// Rossberg, Russo and Dreyer, "F-ing modules", section 3, System Fω.
pub fn put_term(alloc: Global, symbols: &'static Symbols, term: &Term) -> Result<Page, Mem> {
    let mut writer = TermWriter::new(alloc, symbols);
    put_at(&mut writer, term, Room::Whole)?;
    writer.text.page()
}

/// Writes a term at a place, within the limits of the writer. `Err` is out of memory.
pub fn put_part(writer: &mut TermWriter, term: &Term, room: Room) -> Result<(), Mem> {
    put_at(writer, term, room)
}

// Writes a term at a place.
#[cycle(terms)]
#[inline(never)]
fn put_at(writer: &mut TermWriter, term: &Term, room: Room) -> Result<(), Mem> {
    if writer.is_cut(term) {
        return writer.put_cut();
    }
    let is_grouped = needs_parentheses(term.node(), room);
    if is_grouped {
        writer.text.put("(")?;
    }
    writer.enter();
    put_form(writer, term)?;
    writer.leave();
    if is_grouped {
        writer.text.put(")")?;
    }
    Ok(())
}

// Writes a term without parentheses round it.
#[cycle(terms)]
#[inline(never)]
fn put_form(writer: &mut TermWriter, term: &Term) -> Result<(), Mem> {
    match term.node() {
        TermNode::Var(index) => writer.put_variable(*index),
        TermNode::Int(number) => writer.put_number(*number),
        TermNode::Bool(true) => writer.text.put_word("true"),
        TermNode::Bool(false) => writer.text.put_word("false"),
        TermNode::Text(text) => writer.put_quoted(text.bytes()),
        TermNode::Lam(_, _) | TermNode::TyLam(_, _) => put_group(writer, term),
        TermNode::Call(_, _) if is_binding(term) => put_group(writer, term),
        TermNode::Call(_, _) => put_call(writer, term),
        TermNode::Inst(_, _) => put_instance(writer, term),
        TermNode::Fields(fields) => put_fields(writer, fields),
        TermNode::Get(_, _) => put_projection(writer, term),
        TermNode::Pack(_, _, _) => put_package(writer, term),
        TermNode::Unpack(_, _) => put_group(writer, term),
        TermNode::If(_, _, _) => put_choice(writer, term),
        TermNode::Arith(_, _, _) => put_arithmetic(writer, term),
        TermNode::Fix(_, _, _) => put_fix(writer, term),
        TermNode::Inj(_, _, _) => put_injection(writer, term),
        TermNode::Case(_, _, _) => put_case(writer, term),
        TermNode::Roll(_, _) => put_rolled(writer, term),
        TermNode::Unroll(_) => put_unrolled(writer, term),
    }
}

// Writes functions, or bindings, that follow one another in a group of their own.
#[cycle(terms)]
#[inline(never)]
fn put_group(writer: &mut TermWriter, term: &Term) -> Result<(), Mem> {
    if is_binding(term) {
        writer.text.open_level()?;
        put_binding(writer, term)?;
    } else {
        writer.text.open()?;
        put_abstraction(writer, term)?;
    }
    writer.text.close()
}

// Writes a function of types or of values, and those that its body consists of, in the group that is open.
#[cycle(terms)]
#[inline(never)]
fn put_abstraction(writer: &mut TermWriter, term: &Term) -> Result<(), Mem> {
    let symbols = writer.symbols();
    match term.node() {
        TermNode::Lam(ty, body) => {
            writer.bind(1);
            writer.text.put_sign(symbols.lambda, 1)?;
            writer.put_variable(0)?;
            writer.text.put_sign(symbols.of_kind, 1)?;
            writer.put_type(ty)?;
            put_body(writer, body)?;
            writer.unbind(1);
        }
        TermNode::TyLam(kind, body) => {
            writer.text.bind(1);
            writer.text.put_sign(symbols.type_lambda, 1)?;
            writer.text.put_variable(0)?;
            writer.text.put_sign(symbols.of_kind, 1)?;
            put_inner(&mut writer.text, kind)?;
            put_body(writer, body)?;
            writer.text.unbind(1);
        }
        _ => {}
    }
    Ok(())
}

// Writes the body of a function behind its dot.
#[cycle(terms)]
#[inline(never)]
fn put_body(writer: &mut TermWriter, body: &Term) -> Result<(), Mem> {
    writer.text.put(".")?;
    if is_abstraction(body) && !writer.is_cut(body) {
        writer.text.put_space()?;
        writer.enter();
        put_abstraction(writer, body)?;
        writer.leave();
        return Ok(());
    }
    writer.text.put_word_break()?;
    put_at(writer, body, Room::Whole)
}

// Writes a `let` or an `unpack`, and those that follow it, in the group that is open.
#[cycle(terms)]
#[inline(never)]
fn put_binding(writer: &mut TermWriter, term: &Term) -> Result<(), Mem> {
    match term.node() {
        TermNode::Unpack(_, _) => put_unpack(writer, term),
        _ => put_let(writer, term),
    }
}

// Writes the call of a function as a `let`.
#[cycle(terms)]
#[inline(never)]
fn put_let(writer: &mut TermWriter, term: &Term) -> Result<(), Mem> {
    let TermNode::Call(function, argument) = term.node() else {
        return Ok(());
    };
    let TermNode::Lam(ty, body) = function.node() else {
        return Ok(());
    };
    writer.put_word("let")?;
    writer.bind(1);
    writer.put_variable(0)?;
    writer.unbind(1);
    writer.text.put(" : ")?;
    writer.put_type(ty)?;
    put_bound(writer, argument)?;
    writer.bind(1);
    put_rest(writer, body)?;
    writer.unbind(1);
    Ok(())
}

// Writes the opening of a package.
#[cycle(terms)]
#[inline(never)]
fn put_unpack(writer: &mut TermWriter, term: &Term) -> Result<(), Mem> {
    let TermNode::Unpack(package, body) = term.node() else {
        return Ok(());
    };
    writer.put_word("unpack")?;
    put_opened(writer)?;
    put_bound(writer, package)?;
    writer.bind(1);
    writer.text.bind(1);
    put_rest(writer, body)?;
    writer.text.unbind(1);
    writer.unbind(1);
    Ok(())
}

/// Writes the variables that the opening of a package binds, in their brackets.
pub fn put_opened(writer: &mut TermWriter) -> Result<(), Mem> {
    let brackets = writer.symbols().sum;
    writer.bind(1);
    writer.text.bind(1);
    writer.text.put_sign(brackets.open, 1)?;
    writer.text.put_variable(0)?;
    writer.text.put(", ")?;
    writer.put_variable(0)?;
    writer.text.put_sign(brackets.close, 1)?;
    writer.text.unbind(1);
    writer.unbind(1);
    Ok(())
}

// Writes what a `let` or an `unpack` binds, up to the `in`: bindings in lines of their own.
#[cycle(terms)]
#[inline(never)]
fn put_bound(writer: &mut TermWriter, term: &Term) -> Result<(), Mem> {
    writer.text.put(" =")?;
    if is_binding(term) {
        writer.text.open()?;
        writer.text.put_break()?;
        put_at(writer, term, Room::Whole)?;
        writer.text.close()?;
    } else {
        writer.text.put(" ")?;
        put_at(writer, term, Room::Whole)?;
    }
    writer.text.put_space()?;
    writer.text.put_word("in")?;
    writer.text.put_word_break()
}

// Writes what follows the `in` of a binding.
#[cycle(terms)]
#[inline(never)]
fn put_rest(writer: &mut TermWriter, body: &Term) -> Result<(), Mem> {
    if is_binding(body) && !writer.is_cut(body) {
        writer.enter();
        put_binding(writer, body)?;
        writer.leave();
        return Ok(());
    }
    put_at(writer, body, Room::Whole)
}

// Writes a call.
#[cycle(terms)]
#[inline(never)]
fn put_call(writer: &mut TermWriter, term: &Term) -> Result<(), Mem> {
    let TermNode::Call(function, argument) = term.node() else {
        return Ok(());
    };
    put_at(writer, function, Room::Applied)?;
    writer.text.put_space()?;
    put_at(writer, argument, Room::Argument)
}

// Writes an instance at a type.
#[cycle(terms)]
#[inline(never)]
fn put_instance(writer: &mut TermWriter, term: &Term) -> Result<(), Mem> {
    let TermNode::Inst(function, ty) = term.node() else {
        return Ok(());
    };
    put_at(writer, function, Room::Applied)?;
    writer.text.put_space()?;
    writer.text.put("[")?;
    writer.put_type(ty)?;
    writer.text.put("]")
}

// Writes a record.
#[cycle(terms)]
#[inline(never)]
fn put_fields(writer: &mut TermWriter, fields: &TermFields) -> Result<(), Mem> {
    let brackets = writer.symbols().record;
    if fields.items().is_empty() {
        return writer.text.put_empty(brackets);
    }
    writer.text.open_list(brackets)?;
    let mut count = 0_u32;
    for field in fields.items() {
        if count > 0 {
            writer.text.put_comma()?;
        }
        if writer.is_full(count) {
            writer.put_cut()?;
            break;
        }
        count = count.saturating_add(1);
        writer.text.put_label(&field.0)?;
        writer.text.put(" = ")?;
        put_at(writer, &field.1, Room::Whole)?;
    }
    writer.text.close_list(brackets)
}

// Writes a projection from a record. A reserved label begins with a dot itself.
#[cycle(terms)]
#[inline(never)]
fn put_projection(writer: &mut TermWriter, term: &Term) -> Result<(), Mem> {
    let TermNode::Get(record, label) = term.node() else {
        return Ok(());
    };
    put_at(writer, record, Room::Argument)?;
    if let Label::Name(_) = label {
        writer.text.put(".")?;
    }
    writer.text.put_label(label)
}

// Writes a package.
#[cycle(terms)]
#[inline(never)]
fn put_package(writer: &mut TermWriter, term: &Term) -> Result<(), Mem> {
    let TermNode::Pack(hidden, content, ty) = term.node() else {
        return Ok(());
    };
    let brackets = writer.symbols().sum;
    writer.put_word("pack")?;
    writer.text.open_list(brackets)?;
    writer.put_type(hidden)?;
    writer.text.put_comma()?;
    put_at(writer, content, Room::Whole)?;
    writer.text.close_list(brackets)?;
    writer.put_between("as")?;
    writer.put_type(ty)
}

// Writes a choice.
#[cycle(terms)]
#[inline(never)]
fn put_choice(writer: &mut TermWriter, term: &Term) -> Result<(), Mem> {
    let TermNode::If(test, yes, no) = term.node() else {
        return Ok(());
    };
    writer.text.open()?;
    writer.put_word("if")?;
    put_at(writer, test, Room::Whole)?;
    writer.text.put_word_break()?;
    writer.put_word("then")?;
    put_at(writer, yes, Room::Whole)?;
    writer.text.put_word_break()?;
    writer.put_word("else")?;
    put_at(writer, no, Room::Whole)?;
    writer.text.close()
}

// Writes an operator with its operands.
#[cycle(terms)]
#[inline(never)]
fn put_arithmetic(writer: &mut TermWriter, term: &Term) -> Result<(), Mem> {
    let TermNode::Arith(op, left, right) = term.node() else {
        return Ok(());
    };
    put_at(writer, left, Room::Operand)?;
    writer.text.put(" ")?;
    writer.text.put_bytes(operator_text(*op).as_bytes())?;
    writer.text.put(" ")?;
    put_at(writer, right, Room::Operand)
}

// Writes a recursive function: its own variable comes before that of its argument.
#[cycle(terms)]
#[inline(never)]
fn put_fix(writer: &mut TermWriter, term: &Term) -> Result<(), Mem> {
    let TermNode::Fix(from, to, body) = term.node() else {
        return Ok(());
    };
    writer.text.open()?;
    writer.put_word("fix")?;
    writer.bind(2);
    writer.put_variable(1)?;
    writer.text.put_space()?;
    writer.text.put("(")?;
    writer.put_variable(0)?;
    writer.text.put(" : ")?;
    writer.put_type(from)?;
    writer.text.put(") : ")?;
    writer.put_type(to)?;
    writer.text.put(".")?;
    writer.text.put_word_break()?;
    put_at(writer, body, Room::Whole)?;
    writer.unbind(2);
    writer.text.close()
}

// Writes an injection into a sum.
#[cycle(terms)]
#[inline(never)]
fn put_injection(writer: &mut TermWriter, term: &Term) -> Result<(), Mem> {
    let TermNode::Inj(label, content, ty) = term.node() else {
        return Ok(());
    };
    writer.put_word("inj")?;
    writer.text.put_label(label)?;
    writer.text.put_space()?;
    put_at(writer, content, Room::Argument)?;
    writer.put_between("as")?;
    writer.put_type(ty)
}

// Writes a case.
#[cycle(terms)]
#[inline(never)]
fn put_case(writer: &mut TermWriter, term: &Term) -> Result<(), Mem> {
    let TermNode::Case(subject, ty, branches) = term.node() else {
        return Ok(());
    };
    writer.put_word("case")?;
    put_at(writer, subject, Room::Operand)?;
    writer.text.put(" : ")?;
    writer.put_type(ty)?;
    writer.put_between("of")?;
    writer.bind(1);
    put_branches(writer, branches)?;
    writer.unbind(1);
    Ok(())
}

/// Writes the branches of a case, which bind a variable, within the limits of the writer.
pub fn put_cases(writer: &mut TermWriter, branches: &TermFields) -> Result<(), Mem> {
    writer.bind(1);
    put_branches(writer, branches)?;
    writer.unbind(1);
    Ok(())
}

// Writes the branches of a case, whose variable is in scope.
#[cycle(terms)]
#[inline(never)]
fn put_branches(writer: &mut TermWriter, branches: &TermFields) -> Result<(), Mem> {
    let brackets = writer.symbols().record;
    if branches.items().is_empty() {
        return writer.text.put_empty(brackets);
    }
    writer.text.open_list(brackets)?;
    let mut count = 0_u32;
    for branch in branches.items() {
        if count > 0 {
            writer.text.put_comma()?;
        }
        if writer.is_full(count) {
            writer.put_cut()?;
            break;
        }
        count = count.saturating_add(1);
        put_branch_head(writer, &branch.0)?;
        put_at(writer, &branch.1, Room::Whole)?;
    }
    writer.text.close_list(brackets)
}

// Writes the label of a branch and the variable, up to the body.
fn put_branch_head(writer: &mut TermWriter, label: &Label) -> Result<(), Mem> {
    let symbols = writer.symbols();
    writer.text.put_label(label)?;
    writer.text.put_space()?;
    writer.put_variable(0)?;
    writer.text.put(" ")?;
    writer.text.put_sign(symbols.branch, 1)?;
    writer.text.put(" ")
}

// Writes what is rolled into a recursive type.
#[cycle(terms)]
#[inline(never)]
fn put_rolled(writer: &mut TermWriter, term: &Term) -> Result<(), Mem> {
    let TermNode::Roll(content, ty) = term.node() else {
        return Ok(());
    };
    writer.put_word("roll")?;
    put_at(writer, content, Room::Argument)?;
    writer.put_between("as")?;
    writer.put_type(ty)
}

// Writes what is taken out of a recursive type.
#[cycle(terms)]
#[inline(never)]
fn put_unrolled(writer: &mut TermWriter, term: &Term) -> Result<(), Mem> {
    let TermNode::Unroll(content) = term.node() else {
        return Ok(());
    };
    writer.put_word("unroll")?;
    put_at(writer, content, Room::Argument)
}
