// Pages in colour, written by hand.
use crate::coloured;
use std::alloc::Global;
use std::process::Abort;
use std::test::Fail;

// Asserts that each page has its page in colour.
fn all_coloured(rt: &impl Abort, alloc: Global, rows: &[(&str, &str)]) -> Result<(), Fail> {
    for (page, wanted) in rows {
        let shown = coloured(alloc, page.as_bytes())?;
        let text = String::from_utf8_lossy(alloc, &shown)?;
        assert_eq!(rt; text.as_str(), *wanted);
    }
    Ok(())
}

const PAGES: [(&str, &str); 3] = [
    ("", ""),
    (
        "error: no token
 --> a.fing:1:10
  |
1 | val x = 1; val y = 2
  |          ^
No token begins here.
hint: There are no semicolons.
see docs/errors.md#badbyte-n
",
        "\x1b[1;31merror:\x1b[0m no token
\x1b[1;34m -->\x1b[0m a.fing:1:10
\x1b[1;34m  |\x1b[0m
\x1b[1;34m1 |\x1b[0m val x = 1; val y = 2
\x1b[1;34m  |\x1b[0m\x1b[1;31m          ^\x1b[0m
No token begins here.
\x1b[1;36mhint:\x1b[0m There are no semicolons.
see docs/errors.md#badbyte-n
",
    ),
    (
        "error: syntax
 --> a b.fing:12:3
   |
12 | é ^
   |   ^^
No program can go on with `^` here.
expected: an expression
note: `?N` is hidden
no line end",
        "\x1b[1;31merror:\x1b[0m syntax
\x1b[1;34m -->\x1b[0m a b.fing:12:3
\x1b[1;34m   |\x1b[0m
\x1b[1;34m12 |\x1b[0m é ^
\x1b[1;34m   |\x1b[0m\x1b[1;31m   ^^\x1b[0m
No program can go on with `^` here.
\x1b[1;36mexpected:\x1b[0m an expression
\x1b[1;36mnote:\x1b[0m `?N` is hidden
no line end",
    ),
];

#[test]
fn pages(rt: HostRuntime) -> Result<(), Fail> {
    all_coloured(&rt, rt.alloc(), &PAGES)
}
