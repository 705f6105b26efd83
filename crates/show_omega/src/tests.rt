// Omega text laid out, written by hand.
use crate::readable;
use omega_compact::compact;
use std::alloc::Global;
use std::process::Abort;
use std::test::Fail;

// Asserts how a compact text is laid out, and that it is the compact text of that.
fn shows(rt: &impl Abort, alloc: Global, text: &str, wanted: &str) -> Result<(), Fail> {
    let shown = readable(alloc, text.as_bytes())?;
    let page = String::from_utf8_lossy(alloc, &shown)?;
    assert_eq!(rt; page.as_str(), wanted);
    let again = compact(alloc, &shown)?;
    let again = String::from_utf8_lossy(alloc, &again)?;
    assert_eq!(rt; again.as_str(), text);
    Ok(())
}

#[test]
fn forms_that_fit(rt: HostRuntime) -> Result<(), Fail> {
    shows(
        &rt,
        rt.alloc(),
        "omega 2\n(rec (x (rec (.val int))))\n(call (fn (rec (.val int)) (rec (x x0))) (rec (.val (+ 1 2))))\n",
        "omega 2
; the type
(rec (x (rec (.val int))))
; the term
(call (fn (rec (.val int)) (rec (x x0))) (rec (.val (+ 1 2))))
",
    )
}

// The term has 101 columns on one line, so each of its parts has a line.
#[test]
fn forms_that_do_not_fit(rt: HostRuntime) -> Result<(), Fail> {
    shows(
        &rt,
        rt.alloc(),
        "omega 2
text
(if (< 1 2) \"a text with ( and ; in it\" (call (fn text x0) \"another text that is rather long, fits\"))
",
        "omega 2
; the type
text
; the term
(if
  (< 1 2)
  \"a text with ( and ; in it\"
  (call (fn text x0) \"another text that is rather long, fits\"))
",
    )
}

// A text that is no Omega text has the same tokens too.
#[test]
fn other_texts(rt: HostRuntime) -> Result<(), Fail> {
    shows(
        &rt,
        rt.alloc(),
        "(1 2))\n\"a\"\n",
        "(1 2))\n; the type\n\"a\"\n",
    )
}
