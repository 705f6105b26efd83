// Lines, columns and excerpts, by hand.
use crate::{Page, line_at, put_excerpt};
use fing_text::Span;
use std::alloc::Global;
use std::process::Abort;
use std::test::Fail;

// Asserts that the excerpt of a span is this text.
fn shows(
    rt: &impl Abort,
    alloc: Global,
    source: &[u8],
    from: u32,
    to: u32,
    wanted: &str,
) -> Result<(), Fail> {
    let mut page = Page::new(alloc);
    put_excerpt(&mut page, b"f.fing", source, Span { from, to })?;
    let text = String::from_utf8_lossy(alloc, page.bytes())?;
    assert_eq!(rt; text.as_str(), wanted);
    Ok(())
}

#[test]
fn numbers_of_lines(rt: HostRuntime) -> Result<(), Fail> {
    let source = b"a\nbc\n\nd";
    for (at, number) in [
        (0, 1),
        (1, 1),
        (2, 2),
        (4, 2),
        (5, 3),
        (6, 4),
        (7, 4),
        (99, 4),
    ] {
        assert_eq!(&rt; line_at(source, at).number, number);
    }
    Ok(())
}

#[test]
fn on_one_line(rt: HostRuntime) -> Result<(), Fail> {
    let wanted = " --> f.fing:2:9\n  |\n2 | val y = z\n  |         ^\n";
    shows(&rt, rt.alloc(), b"val x = 1\nval y = z\n", 18, 19, wanted)
}

#[test]
fn at_the_end(rt: HostRuntime) -> Result<(), Fail> {
    let wanted = " --> f.fing:1:7\n  |\n1 | val x \n  |       ^\n";
    shows(&rt, rt.alloc(), b"val x ", 6, 6, wanted)?;
    shows(
        &rt,
        rt.alloc(),
        b"",
        0,
        0,
        " --> f.fing:1:1\n  |\n1 | \n  | ^\n",
    )
}

#[test]
fn over_several_lines(rt: HostRuntime) -> Result<(), Fail> {
    let wanted = " --> f.fing:1:3\n  |\n1 | a bc\n  |   ^^\n";
    shows(&rt, rt.alloc(), b"a bc\nde f", 2, 7, wanted)
}

#[test]
fn tabs_and_wide_characters(rt: HostRuntime) -> Result<(), Fail> {
    let spaced = " --> f.fing:1:9\n  |\n1 |         x       y\n  |         ^\n";
    shows(&rt, rt.alloc(), b"\tx\ty", 1, 2, spaced)?;
    // Two characters of three bytes each and two columns each.
    let wide = " --> f.fing:1:5\n  |\n1 | \u{4e00}\u{4e8c}x\n  |     ^\n";
    shows(&rt, rt.alloc(), b"\xe4\xb8\x80\xe4\xba\x8cx", 6, 7, wide)
}

#[test]
fn broken_bytes(rt: HostRuntime) -> Result<(), Fail> {
    let broken = " --> f.fing:1:2\n  |\n1 | \u{fffd}x\u{fffd}\n  |  ^\n";
    shows(&rt, rt.alloc(), b"\xffx\x1b", 1, 2, broken)
}

#[test]
fn wide_numbers(rt: HostRuntime) -> Result<(), Fail> {
    let wanted = " --> f.fing:10:1\n   |\n10 | x\n   | ^\n";
    shows(&rt, rt.alloc(), b"\n\n\n\n\n\n\n\n\nx", 9, 10, wanted)
}
