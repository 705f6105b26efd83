// Texts made compact, written out by hand.
use crate::compact;
use std::alloc::Global;
use std::process::Abort;
use std::test::Fail;

// Asserts what the compact text is.
fn gives(rt: &impl Abort, alloc: Global, text: &str, wanted: &str) -> Result<(), Fail> {
    let compact = compact(alloc, text.as_bytes())?;
    let compact = String::from_utf8_lossy(alloc, &compact)?;
    assert_eq!(rt; compact.as_str(), wanted);
    Ok(())
}

// Asserts that a text is compact.
fn stays(rt: &impl Abort, alloc: Global, text: &str) -> Result<(), Fail> {
    gives(rt, alloc, text, text)
}

#[test]
fn compact_texts_stay(rt: HostRuntime) -> Result<(), Fail> {
    let alloc = rt.alloc();
    stays(&rt, alloc, "")?;
    stays(&rt, alloc, "omega 2\nint\n(+ 1 2)\n")?;
    stays(
        &rt,
        alloc,
        "omega 1\n(all * (-> a0 a0))\n(tfn * (fn a0 x0))\n",
    )?;
    stays(
        &rt,
        alloc,
        "omega 2\n(rec (x (rec (.val int))))\n(rec (x (rec (.val 1))))\n",
    )?;
    stays(&rt, alloc, "omega 2\ntext\n\"a ;  (\\\\\\\" b\"\n")?;
    stays(
        &rt,
        alloc,
        "omega 2\n(-> int int)\n(get (rec (omega (fn int x0))) omega)\n",
    )
}

#[test]
fn comments_blanks_and_line_ends_go(rt: HostRuntime) -> Result<(), Fail> {
    let text =
        "; the identity\nomega\t2\r\n( all *   (-> a0 a0) ) ; its type\n\n(tfn *\n  (fn a0 x0))";
    let wanted = "omega 2\n(all * (-> a0 a0))\n(tfn * (fn a0 x0))\n";
    gives(&rt, rt.alloc(), text, wanted)?;
    gives(&rt, rt.alloc(), "omega 2 int 5", "omega 2\nint\n5\n")?;
    gives(&rt, rt.alloc(), " \n; nothing", "")
}

// Parentheses, quotes and comments end a word, and a quote ends a text.
#[test]
fn tokens_with_nothing_between_them(rt: HostRuntime) -> Result<(), Fail> {
    let text = "omega 2;\nint;\n(==\"a\"\"b;\\\"\")(x1)";
    gives(
        &rt,
        rt.alloc(),
        text,
        "omega 2\nint\n(== \"a\" \"b;\\\"\")\n(x1)\n",
    )
}

// What is no Omega text stays none.
#[test]
fn without_balance(rt: HostRuntime) -> Result<(), Fail> {
    gives(&rt, rt.alloc(), ") ) 1\n(2 3", "))\n1\n(2 3\n")?;
    stays(&rt, rt.alloc(), "omega 2\ntext\n\"without end ; \\\"")?;
    gives(&rt, rt.alloc(), "(  \"a\\", "(\"a\\")
}
