// Texts of separate units and their trees, by hand from the grammar; and texts that are no list of units.
use crate::show::units_are_written;
use fing_lexer::{Token, tokens};
use fing_parser::{ParseRefusal, units};
use fing_syntax::Units;
use fing_text::SOURCE_LIMIT;
use std::alloc::Global;
use std::process::Abort;
use std::test::Fail;

// Two units, of which the second names a type and a value of the first.
const TWO_UNITS: &str =
    "module A : sig type t val x : t end = struct type t = Int val x = 5 end module B : sig val y : A.t end = struct val y = A.x end";

// One unit, with a recursive type.
const A_DATA_UNIT: &str =
    "module A : sig data t = case {a : {}} val x : t end = struct data t = case {a : {}} val x = roll (inj a {} : case {a : {}}) : t end";

// Texts and their units.
const UNITS: [(&str, &str); 10] = [
    ("", ""),
    (
        "module A : S = struct end",
        " (unit A@7-8 (path (S@11-12)@11-12)@11-12 (struct)@15-25)@0-25",
    ),
    (
        "module A : (S) = struct val x = 1 end",
        " (unit A@7-8 (path (S@12-13)@12-13)@11-14 (struct (val x@28-29 (1)@32-33)@24-33)@17-37)@0-37",
    ),
    (
        "module A : S where type t = Int = struct end",
        " (unit A@7-8 (where t@24-25 (int)@28-31 (path (S@11-12)@11-12)@11-12)@11-31 (struct)@34-44)@0-44",
    ),
    (
        "module A : S where type t = f Int -> Bool = struct end",
        " (unit A@7-8 (where t@24-25 (-> (@ (path (f@28-29)@28-29)@28-29 (int)@30-33)@28-33 (bool)@37-41)@28-41 (path (S@11-12)@11-12)@11-12)@11-41 (struct)@44-54)@0-54",
    ),
    (
        "module F : fun (X : A) -> B.C = struct end",
        " (unit F@7-8 (gen X@16-17 (path (A@20-21)@20-21)@20-21 (path (project C@28-29 (B@26-27)@26-27)@26-29)@26-29)@11-29 (struct)@32-42)@0-42",
    ),
    (
        "module A : S = struct end module B : T = struct include A end",
        " (unit A@7-8 (path (S@11-12)@11-12)@11-12 (struct)@15-25)@0-25 (unit B@33-34 (path (T@37-38)@37-38)@37-38 (struct (include (A@56-57)@56-57)@48-57)@41-61)@26-61",
    ),
    (
        "module A : S = struct end module A : S = struct end",
        " (unit A@7-8 (path (S@11-12)@11-12)@11-12 (struct)@15-25)@0-25 (unit A@33-34 (path (S@37-38)@37-38)@37-38 (struct)@41-51)@26-51",
    ),
    (
        TWO_UNITS,
        " (unit A@7-8 (sig (type t@20-21 *)@15-21 (val x@26-27 (path (t@30-31)@30-31)@30-31)@22-31)@11-35 (struct (type t@50-51 (int)@54-57)@45-57 (val x@62-63 (5)@66-67)@58-67)@38-71)@0-71 (unit B@79-80 (sig (val y@91-92 (path (project t@97-98 (A@95-96)@95-96)@95-98)@95-98)@87-98)@83-102 (struct (val y@116-117 (path (project x@122-123 (A@120-121)@120-121)@120-123)@120-123)@112-123)@105-127)@72-127",
    ),
    (
        A_DATA_UNIT,
        " (unit A@7-8 (sig (type t@20-21 (mu t@20-21 (sum a@30-31 (rec)@34-36)@24-37)@15-37)@15-37 (val x@42-43 (path (t@46-47)@46-47)@46-47)@38-47)@11-51 (struct (type t@66-67 (mu t@66-67 (sum a@76-77 (rec)@80-82)@70-83)@61-83)@61-83 (val x@88-89 (roll (inj a@102-103 (rec)@104-106 (sum a@115-116 (rec)@119-121)@109-122)@97-123 (path (t@126-127)@126-127)@126-127)@92-127)@84-127)@54-131)@0-131",
    ),
];

// How many tokens of each begin some list of units.
const REFUSED: [(&str, u32); 19] = [
    ("data t = Int", 0),
    ("val x = 1", 0),
    ("struct end", 0),
    ("module M = N", 2),
    ("module A S = struct end", 2),
    ("module A :> S = struct end", 2),
    ("module A.B : S = struct end", 2),
    ("module A : = struct end", 3),
    ("module A : S : T = struct end", 4),
    ("module A : S struct end", 4),
    ("module A : S = N", 5),
    ("module A : S = (struct end)", 5),
    ("module A : S = struct end end", 7),
    ("module A : S = struct end :> T", 7),
    ("module A : S = struct end val x = 1", 7),
    ("module A : S = struct end module", 8),
    ("module A : S = struct val x = 1", 10),
    ("module A : S where type t = Int = Bool = struct end", 10),
    ("module A : S = struct module B : T = struct end end", 8),
];

// The tokens of a text.
fn tokens_of(rt: &impl Abort, alloc: Global, text: &str) -> Result<Vec<Token>, Fail> {
    let bytes = text.as_bytes();
    assert!(rt; bytes.len() <= SOURCE_LIMIT);
    Ok(tokens(alloc, bytes)?)
}

// What the parser makes of tokens.
fn parsed(
    rt: &impl Abort,
    alloc: Global,
    tokens: &[Token],
) -> Result<Result<Units, ParseRefusal>, Fail> {
    assert!(rt; tokens.len() <= SOURCE_LIMIT);
    Ok(units(alloc, tokens))
}

#[test]
fn texts_have_units(rt: HostRuntime) -> Result<(), Fail> {
    for (text, tree) in UNITS {
        let tokens = tokens_of(&rt, rt.alloc(), text)?;
        let found = parsed(&rt, rt.alloc(), &tokens)??;
        assert!(rt;
            units_are_written(&found.units, tree.as_bytes()),
            "at {text}"
        );
    }
    Ok(())
}

#[test]
fn refused(rt: HostRuntime) -> Result<(), Fail> {
    for (text, at) in REFUSED {
        let tokens = tokens_of(&rt, rt.alloc(), text)?;
        let refusal = parsed(&rt, rt.alloc(), &tokens)?.err();
        assert_eq!(rt; refusal, Some(ParseRefusal::Syntax { at }), "at {text}");
    }
    Ok(())
}

// Texts with their numbers of tokens, and how many tokens the fronts have that are lists of units.
const FRONTS: [(&str, u32, &[u32]); 4] = [
    (TWO_UNITS, 42, &[0, 22, 42]),
    (A_DATA_UNIT, 52, &[0, 52]),
    (
        "module A : sig val x : Int end = struct val x = true end",
        16,
        &[0, 16],
    ),
    (
        "module A : sig type t val x : t end = struct type t = Int val x = 5 end module B : sig val y : Int end = struct val y = A.x + 1 end",
        42,
        &[0, 22, 42],
    ),
];

// Each front of a text that is no list of units begins one.
#[test]
fn fronts(rt: HostRuntime) -> Result<(), Fail> {
    for (text, count, lists) in FRONTS {
        let tokens = tokens_of(&rt, rt.alloc(), text)?;
        assert_eq!(rt; tokens.len(), count as usize);
        for at in 0..=count {
            assert!(rt; at as usize <= tokens.len());
            let refusal = parsed(&rt, rt.alloc(), &tokens[..at as usize])?.err();
            let wanted = if lists.contains(&at) {
                None
            } else {
                Some(ParseRefusal::Syntax { at })
            };
            assert_eq!(rt; refusal, wanted, "in front of token {at} of {text}");
        }
    }
    Ok(())
}
