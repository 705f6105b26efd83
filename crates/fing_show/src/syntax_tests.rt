// What could follow, tried against the parser: a token follows exactly where the parser stops behind it.
use fing_lexer::{Token, tokens};
use fing_parser::{ParseRefusal, program};
use fing_text::SOURCE_LIMIT;
use parse_grammar::choices::terminal_of;
use show_syntax::{followers, put_expected, slip};
use show_text::Page;
use std::alloc::Global;
use std::process::Abort;
use std::test::Fail;

// The tokens of a source.
fn tokens_of(rt: &impl Abort, alloc: Global, source: &[u8]) -> Result<Vec<Token>, Fail> {
    assert!(rt; source.len() <= SOURCE_LIMIT);
    match tokens(alloc, source) {
        Ok(found) => Ok(found),
        Err(_) => Err(Fail::new("no tokens")),
    }
}

// A source of one token for each terminal.
const SPELLED: [&str; 56] = [
    "x",
    "1",
    "\"s\"",
    "(",
    ")",
    "{",
    "}",
    "[",
    "]",
    ".",
    ",",
    ":",
    ":>",
    "=",
    "=>",
    "->",
    "#",
    "+",
    "-",
    "*",
    "/",
    "%",
    "<",
    "==",
    "val",
    "type",
    "module",
    "signature",
    "include",
    "struct",
    "sig",
    "end",
    "let",
    "in",
    "fun",
    "gen",
    "fix",
    "if",
    "then",
    "else",
    "pack",
    "unpack",
    "from",
    "where",
    "true",
    "false",
    "Int",
    "Bool",
    "Text",
    "Type",
    "case",
    "of",
    "inj",
    "data",
    "roll",
    "unroll",
];

// The one token of a source.
fn token_of(rt: &impl Abort, alloc: Global, spelled: &str) -> Result<Token, Fail> {
    let mut found = tokens_of(rt, alloc, spelled.as_bytes())?;
    assert_eq!(rt; found.len(), 1);
    match found.pop() {
        Some(token) => Ok(token),
        None => Err(Fail::new("no token")),
    }
}

// Whether the parser reads these tokens to their end.
fn is_read(rt: &impl Abort, alloc: Global, all: &[Token]) -> Result<bool, Fail> {
    assert!(rt; all.len() <= SOURCE_LIMIT);
    match program(alloc, all) {
        Ok(_) => Ok(true),
        Err(ParseRefusal::Syntax { at }) => Ok(at as usize == all.len()),
        Err(ParseRefusal::Mem) => Err(Fail::new("out of memory")),
    }
}

// Asserts, behind the first tokens of a program that end with this front, that just the tokens which the parser reads
// are said to follow.
fn agrees(
    rt: &impl Abort,
    alloc: Global,
    front: &[u8],
    all: &[Token],
    at: usize,
) -> Result<(), Fail> {
    let found = followers(alloc, all, at)?;
    let mut read = tokens_of(rt, alloc, front)?;
    assert_eq!(rt; read.len(), at);
    for spelled in &SPELLED {
        let token = token_of(rt, alloc, spelled)?;
        let follows = found.contains(&terminal_of(&token));
        read.push(token)?;
        assert_eq!(rt; is_read(rt, alloc, &read)?, follows);
        read.pop();
    }
    Ok(())
}

const PROGRAMS: [&str; 5] = [
    "module M = struct type t = Int val f = fun (x : t) => x + 1 end :> sig type t val f : t -> t end",
    "val r = {a = ~1, b = \"s\"} val g = fun [a : Type -> Type] => fix f (x : Int) : Int => if x < 1 then 0 else f (x - 1) * r#a",
    "signature S = sig module A : sig end where type t.u = [a : Type] -> {l : a} include S type k : Type end include from (F (struct end)).x",
    "module F = gen (X : fun (Y : S) -> T) => let module Z = unpack X.p : S in Z end val p = pack M : S val q = p [Int] (p == p)",
    "data t = case {a : Int, b : {}} val x = roll inj a 1 : u : t val y = case unroll x : Int of {a (n) => n, b (_) => 0} signature S = sig data v = t end",
];

#[test]
fn followers_are_what_the_parser_reads(rt: HostRuntime) -> Result<(), Fail> {
    let alloc = rt.alloc();
    for source in &PROGRAMS {
        let all = tokens_of(&rt, alloc, source.as_bytes())?;
        assert!(&rt; is_read(&rt, alloc, &all)?);
        agrees(&rt, alloc, b"", &all, 0)?;
        for (at, token) in all.iter().enumerate() {
            let end = token.span.to as usize;
            let front = source.as_bytes().get(..end).unwrap_or(b"");
            agrees(&rt, alloc, front, &all, at.saturating_add(1))?;
        }
    }
    Ok(())
}

// What is said of a source that is no program: what was expected, and the slip.
fn said(
    rt: &impl Abort,
    alloc: Global,
    source: &str,
) -> Result<(Page, Option<&'static str>), Fail> {
    let all = tokens_of(rt, alloc, source.as_bytes())?;
    assert!(rt; all.len() <= SOURCE_LIMIT);
    match program(alloc, &all) {
        Err(ParseRefusal::Syntax { at }) => {
            let found = followers(alloc, &all, at as usize)?;
            let mut page = Page::new(alloc);
            put_expected(&mut page, &found)?;
            Ok((page, slip(&all, at as usize, &found)))
        }
        _ => Err(Fail::new("a program")),
    }
}

const EXPECTED: [(&str, &str); 6] = [
    ("val f = fun x => x", "expected: `(` or `[`\n"),
    ("val x : Int = 1", "expected: `=`\n"),
    ("val 1 = x", "expected: a name\n"),
    ("val x =", "expected: an expression\n"),
    ("val f = fun (x : ) => x", "expected: a type\n"),
    (
        "val x = (1",
        "expected: an expression, an operator, `)`, `[` or `#`\n",
    ),
];

#[test]
fn what_was_expected(rt: HostRuntime) -> Result<(), Fail> {
    let alloc = rt.alloc();
    for (source, wanted) in &EXPECTED {
        let (page, _) = said(&rt, alloc, source)?;
        let text = String::from_utf8_lossy(alloc, page.bytes())?;
        assert_eq!(&rt; text.as_str(), *wanted);
    }
    Ok(())
}

// Sources with a slip, and how its hint begins.
const SLIPS: [(&str, &str); 13] = [
    ("val x = -1", "A negative number"),
    ("val x = f ()", "There is no unit value"),
    ("val x = (1, 2)", "There are no tuples"),
    ("val x = 1.5", "There are no fractions"),
    ("val f = fun (x : Int) -> x", "A function is written"),
    ("val x : Int = 1", "A binding has no type"),
    (
        "signature S = sig val x = 1 end",
        "A signature declares a value",
    ),
    (
        "signature S = sig type t module A = struct end",
        "A signature declares a module",
    ),
    ("val x = if y = 1 then 2 else 3", "Equality is written"),
    ("val x = case y of {}", "A `case` says the type"),
    ("val data = 1", "This is a keyword"),
    ("val end = 1", "This is a keyword"),
    ("val f = fun x => x", "A parameter has its type"),
];

#[test]
fn slips_are_known(rt: HostRuntime) -> Result<(), Fail> {
    let alloc = rt.alloc();
    for (source, wanted) in &SLIPS {
        let (_, found) = said(&rt, alloc, source)?;
        assert!(&rt; found.is_some_and(|hint| hint.starts_with(*wanted)));
    }
    let (_, none) = said(&rt, alloc, "val x = val")?;
    assert!(&rt; none.is_none());
    Ok(())
}
