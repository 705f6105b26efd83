// What the phrases at the place of a refusal name, reasoned from the source.
use crate::arranged_tests::program_of;
use fing_text::Span;
use omega_kinds::name_of;
use show_order::sides_of;
use std::test::Fail;

// A source that ends with a phrase; and a name, with the texts of the declarations that are found for the place of this
// phrase: the one of the name that the signature asks for, the one that the module has, and what the phrase leads to.
struct Row {
    source: &'static str,
    phrase: &'static str,
    name: &'static str,
    asked: &'static str,
    given: &'static str,
    named: &'static str,
}

// Stands for no declaration.
const NOWHERE: &str = "nowhere";

const ROWS: [Row; 8] = [
    // a seal
    Row {
        source: "module M = struct val z = 1 val x = 1 end :> sig val x : Bool end",
        phrase: "sig val x : Bool end",
        name: "x",
        asked: "val x : Bool",
        given: "val x = 1",
        named: NOWHERE,
    },
    // a signature that has a name, and a module that binds one twice
    Row {
        source: "signature S = sig val x : Bool end module M = struct val x = 1 val x = 2 end :> S",
        phrase: "S",
        name: "x",
        asked: "val x : Bool",
        given: "val x = 2",
        named: "signature S = sig val x : Bool end",
    },
    // a module that does not have the name
    Row {
        source: "module M = struct val z = 1 end :> sig val x : Bool end",
        phrase: "sig val x : Bool end",
        name: "x",
        asked: "val x : Bool",
        given: NOWHERE,
        named: NOWHERE,
    },
    // an argument
    Row {
        source: "module F = fun (X : sig val x : Bool end) => struct end module A = struct val x = 1 end module B = F A",
        phrase: "A",
        name: "x",
        asked: "val x : Bool",
        given: "val x = 1",
        named: "module A = struct val x = 1 end",
    },
    // a package
    Row {
        source: "module A = struct val x = 1 end val p = pack A : sig val x : Bool end",
        phrase: "sig val x : Bool end",
        name: "x",
        asked: "val x : Bool",
        given: "val x = 1",
        named: NOWHERE,
    },
    // a path into a module, and one to a name that an inclusion brings
    Row {
        source: "module A = struct val x = 1 end type t = A.x",
        phrase: "A.x",
        name: "x",
        asked: NOWHERE,
        given: NOWHERE,
        named: "val x = 1",
    },
    Row {
        source: "module A = struct val x = 1 end include A type t = x",
        phrase: "x",
        name: "x",
        asked: NOWHERE,
        given: NOWHERE,
        named: "val x = 1",
    },
    // a phrase of which nothing is found, behind a seal
    Row {
        source: "module M = struct val x = 1 end :> sig val x : Bool end val z = 1",
        phrase: "val z = 1",
        name: "x",
        asked: NOWHERE,
        given: NOWHERE,
        named: NOWHERE,
    },
];

// The place of the phrase with which a source ends.
fn place_of(row: &Row) -> Span {
    let to = u32::try_from(row.source.len()).unwrap_or(u32::MAX);
    let length = u32::try_from(row.phrase.len()).unwrap_or(u32::MAX);
    Span {
        from: to.saturating_sub(length),
        to,
    }
}

// The text at a place.
fn text_at(source: &'static str, at: Option<Span>) -> &'static [u8] {
    match at {
        Some(at) => {
            let text = source.as_bytes().get(at.from as usize..at.to as usize);
            text.unwrap_or(b"")
        }
        None => NOWHERE.as_bytes(),
    }
}

#[test]
fn sides_at_the_end_of_a_source(rt: HostRuntime) -> Result<(), Fail> {
    let alloc = rt.alloc();
    for row in &ROWS {
        assert!(&rt; row.source.ends_with(row.phrase));
        let program = program_of(&rt, alloc, row.source)?;
        let sides = sides_of(alloc, &program, place_of(row))?;
        let name = name_of(alloc, row.name.as_bytes())?;
        assert_eq!(&rt;
            text_at(row.source, sides.asked().place(&name)),
            row.asked.as_bytes()
        );
        assert_eq!(&rt;
            text_at(row.source, sides.given().place(&name)),
            row.given.as_bytes()
        );
        assert_eq!(&rt; text_at(row.source, sides.named()), row.named.as_bytes());
    }
    Ok(())
}
