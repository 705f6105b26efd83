// Sources of which a type, a signature or a value is higher than the stack is sure to hold, or too large. Each is refused
// when memory is out, with nothing written, and a lower one of the same form is accepted. So is one that is large only since
// one tree stands on both sides of its arrows, but for what has its text.
use crate::runs::{Answer, ran};
use fing_top::Status;
use std::alloc::Global;
use std::test::Fail;

// A first line, and then lines in which `#` is the number of the line and `@` the one before.
#[derive(Clone, Copy)]
struct Rows {
    first: &'static str,
    more: &'static str,
    last: &'static str,
}

// Twice as high with each line.
const OPERATORS: Rows = Rows {
    first: "type t0 = fun (a : Type) => a -> Int",
    more: "type t# = fun (a : Type) => t@ (t@ a)",
    last: "val f = fun (x : t# Int) => x",
};

// Twice as many hidden types with each line.
const HIDDEN: Rows = Rows {
    first: "signature S0 = sig type t end",
    more: "signature S# = sig module A : S@ module B : S@ end",
    last: "module F = fun (X : S#) => X",
};

// Twice as large with each line.
const RECORDS: Rows = Rows {
    first: "val x0 = 1",
    more: "val x# = {a = x@, b = x@}",
    last: "",
};

// Twice as many forms with each line in the encoding, in which a signature part has its signature on both sides of an arrow,
// and one more in the signature.
const PARTS: Rows = Rows {
    first: "signature S0 = sig type t end",
    more: "signature S# = sig signature A = S@ end",
    last: "",
};

// Twice as many forms with each line, of which the signature shows none.
const ARROWS: Rows = Rows {
    first: "module M = struct type t0 = Int",
    more: "type t# = t@ -> t@",
    last: "val f = fun (x : t#) => x val y = 1 end :> sig val y : Int end",
};

// The same with operators.
const TWICE: Rows = Rows {
    first: "module M = struct type t0 = fun (a : Type) => a -> a",
    more: "type t# = fun (a : Type) => t0 (t@ a)",
    last: "val f = fun (x : t# Int) => x val y = 1 end :> sig val y : Int end",
};

// Signature parts of which the right sides of the match declare the types in another order than the left ones.
const ORDERS: Rows = Rows {
    first: "signature A0 = sig type t type u end signature B0 = sig type u type t end",
    more: "signature A# = sig signature X = A@ end signature B# = sig signature X = B@ end",
    last: "module F = fun (X : A#) => X :> B#",
};

fn add_number(alloc: Global, text: &mut String, number: u32) -> Result<(), Fail> {
    text.push_str(&number.to_string(alloc)?)?;
    Ok(())
}

// A line of this number.
fn add_line(alloc: Global, text: &mut String, line: &str, number: u32) -> Result<(), Fail> {
    for c in line.chars() {
        match c {
            '#' => add_number(alloc, text, number)?,
            '@' => add_number(alloc, text, number.saturating_sub(1))?,
            _ => text.push(c)?,
        }
    }
    text.push('\n')?;
    Ok(())
}

fn source_of(alloc: Global, rows: Rows, lines: u32) -> Result<String, Fail> {
    let mut text = String::new(alloc);
    add_line(alloc, &mut text, rows.first, 0)?;
    for number in 1..lines {
        add_line(alloc, &mut text, rows.more, number)?;
    }
    add_line(alloc, &mut text, rows.last, lines.saturating_sub(1))?;
    Ok(text)
}

fn answer(alloc: Global, command: &str, rows: Rows, lines: u32) -> Result<Answer, Fail> {
    let source = source_of(alloc, rows, lines)?;
    ran(alloc, &[command], source.as_bytes())
}

const TOO_HIGH: [(Rows, u32); 5] = [
    (OPERATORS, 14),
    (OPERATORS, 31),
    (HIDDEN, 14),
    (HIDDEN, 21),
    (RECORDS, 30),
];

fn is_want_of_memory(alloc: Global, command: &str, rows: Rows, lines: u32) -> Result<bool, Fail> {
    let found = answer(alloc, command, rows, lines)?;
    Ok(found.is(Status::NoMemory, b"", false))
}

#[test]
fn what_is_too_high_is_want_of_memory(rt: HostRuntime) -> Result<(), Fail> {
    for (rows, lines) in &TOO_HIGH {
        for command in &["check", "emit", "run"] {
            assert!(rt;
                is_want_of_memory(rt.alloc(), command, *rows, *lines)?,
                "{command} at {lines}"
            );
        }
    }
    Ok(())
}

#[test]
fn what_is_lower_is_accepted(rt: HostRuntime) -> Result<(), Fail> {
    for (rows, lines) in &[(OPERATORS, 13), (HIDDEN, 11), (RECORDS, 14)] {
        let found = answer(rt.alloc(), "check", *rows, *lines)?;
        assert_eq!(rt; found.status, Status::Ok, "at {lines}");
    }
    Ok(())
}

#[test]
fn what_stands_on_both_sides_of_an_arrow_is_met_once(rt: HostRuntime) -> Result<(), Fail> {
    for (rows, lines) in &[(PARTS, 200), (ARROWS, 200), (TWICE, 200)] {
        let found = answer(rt.alloc(), "check", *rows, *lines)?;
        assert_eq!(rt; found.status, Status::Ok, "at {lines}");
    }
    Ok(())
}

#[test]
fn what_differs_in_its_order_alone_is_not_compared_both_ways(rt: HostRuntime) -> Result<(), Fail> {
    for lines in &[2, 200] {
        let found = answer(rt.alloc(), "check", ORDERS, *lines)?;
        assert_eq!(rt; found.status, Status::Ok, "at {lines}");
    }
    Ok(())
}

#[test]
fn what_has_too_long_a_text_is_not_written(rt: HostRuntime) -> Result<(), Fail> {
    for rows in &[PARTS, ARROWS, TWICE] {
        assert!(rt; is_want_of_memory(rt.alloc(), "emit", *rows, 60)?);
    }
    Ok(())
}

const COMPOSED: &str =
    "val c = fix c (n : Int) : (Int -> Int) => if n == 0 then fun (x : Int) => x else let val g = c (n - 1) in fun (x : Int) => g (x + 1) end";

// Closures inside one another: each is some four forms higher than the one in it.
#[test]
fn a_value_that_is_too_high(rt: HostRuntime) -> Result<(), Fail> {
    for (count, status) in &[("1000", Status::Ok), ("5000", Status::NoMemory)] {
        let source = format!(in rt.alloc(); "{COMPOSED} val y = c {count} 1")?;
        let found = ran(rt.alloc(), &["run"], source.as_bytes())?;
        assert_eq!(rt; found.status, *status, "at {count}");
    }
    Ok(())
}
