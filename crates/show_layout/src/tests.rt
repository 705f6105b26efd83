// Layouts, written out by hand.
use crate::{Layout, Lines, put_layout};
use show_text::Page;
use std::alloc::Global;
use std::process::Abort;
use std::test::Fail;

const PLAIN: Lines = Lines {
    end: "",
    step: "  ",
};

// Asserts that a layout is written so.
fn shows(
    rt: &impl Abort,
    alloc: Global,
    layout: &Layout,
    lines: Lines,
    wanted: &str,
) -> Result<(), Fail> {
    let mut page = Page::new(alloc);
    put_layout(&mut page, layout, lines)?;
    let text = String::from_utf8_lossy(alloc, page.bytes())?;
    assert_eq!(rt; text.as_str(), wanted);
    Ok(())
}

// Adds a group in brackets with these texts and commas between them.
fn put_list(layout: &mut Layout, texts: &[&[u8]]) -> Result<(), Fail> {
    layout.open(1)?;
    layout.put(b"{")?;
    layout.put_break(b"", 0)?;
    let mut between = false;
    for text in texts {
        if between {
            layout.put(b",")?;
            layout.put_break(b" ", 1)?;
        }
        layout.put(text)?;
        between = true;
    }
    layout.put_last(b"", 0)?;
    layout.put(b"}")?;
    layout.close()?;
    Ok(())
}

// A text of so many columns.
fn wide(alloc: Global, columns: usize) -> Result<String, Fail> {
    let mut text = String::new(alloc);
    for _ in 0..columns {
        text.push('x')?;
    }
    Ok(text)
}

#[test]
fn nothing(rt: HostRuntime) -> Result<(), Fail> {
    shows(&rt, rt.alloc(), &Layout::new(rt.alloc()), PLAIN, "")
}

#[test]
fn a_group_that_fits(rt: HostRuntime) -> Result<(), Fail> {
    let mut layout = Layout::new(rt.alloc());
    put_list(&mut layout, &[b"a", b"b"])?;
    shows(&rt, rt.alloc(), &layout, PLAIN, "{a, b}")
}

#[test]
fn outside_all_groups(rt: HostRuntime) -> Result<(), Fail> {
    let mut layout = Layout::new(rt.alloc());
    layout.put(b"a")?;
    layout.put_break(b" ", 1)?;
    put_list(&mut layout, &[b"b"])?;
    shows(&rt, rt.alloc(), &layout, PLAIN, "a\n{b}")
}

// The group takes 100 columns with the text behind it, and then 101.
#[test]
fn just_as_wide_as_a_line(rt: HostRuntime) -> Result<(), Fail> {
    let text = wide(rt.alloc(), 94)?;
    let mut layout = Layout::new(rt.alloc());
    put_list(&mut layout, &[b"a", text.as_bytes()])?;
    layout.put(b";")?;
    let flat = format!(in rt.alloc(); "{{a, {text}}};")?;
    shows(&rt, rt.alloc(), &layout, PLAIN, flat.as_str())?;
    layout.put(b";")?;
    let broken = format!(in rt.alloc(); "{{\n  a,\n  {text}\n}};;")?;
    shows(&rt, rt.alloc(), &layout, PLAIN, broken.as_str())
}

// What stands behind the next place where a line may end does not count.
#[test]
fn up_to_the_next_break(rt: HostRuntime) -> Result<(), Fail> {
    let text = wide(rt.alloc(), 95)?;
    let mut layout = Layout::new(rt.alloc());
    put_list(&mut layout, &[b"a", text.as_bytes()])?;
    layout.put_break(b" ", 1)?;
    layout.put(b"behind")?;
    let wanted = format!(in rt.alloc(); "{{a, {text}}}\nbehind")?;
    shows(&rt, rt.alloc(), &layout, PLAIN, wanted.as_str())
}

// An outer group is broken, and the inner ones that fit are not.
#[test]
fn groups_in_a_group(rt: HostRuntime) -> Result<(), Fail> {
    let text = wide(rt.alloc(), 90)?;
    let mut layout = Layout::new(rt.alloc());
    layout.open(1)?;
    layout.put(b"[")?;
    layout.put_break(b"", 0)?;
    put_list(&mut layout, &[b"a", b"b"])?;
    layout.put_break(b" ", 1)?;
    put_list(&mut layout, &[b"c", text.as_bytes(), b"d"])?;
    layout.put_last(b"", 0)?;
    layout.put(b"]")?;
    layout.close()?;
    let wanted = format!(in rt.alloc(); "[\n  {{a, b}}\n  {{c, {text}, d}}\n]")?;
    shows(&rt, rt.alloc(), &layout, PLAIN, wanted.as_str())
}

// With two columns before it and two more in it, the inner group does not fit either.
#[test]
fn steps_in_steps(rt: HostRuntime) -> Result<(), Fail> {
    let text = wide(rt.alloc(), 98)?;
    let mut layout = Layout::new(rt.alloc());
    layout.open(1)?;
    layout.put(b"[")?;
    layout.put_break(b"", 0)?;
    put_list(&mut layout, &[b"a", text.as_bytes()])?;
    layout.put_last(b"", 0)?;
    layout.put(b"]")?;
    layout.close()?;
    let wanted = format!(in rt.alloc(); "[\n  {{\n    a,\n    {text}\n  }}\n]")?;
    shows(&rt, rt.alloc(), &layout, PLAIN, wanted.as_str())?;
    let lines = Lines {
        end: "\\\\",
        step: ">",
    };
    let other = format!(in rt.alloc(); "[\\\\\n>{{\\\\\n>>a,\\\\\n>>{text}\\\\\n>}}\\\\\n]")?;
    shows(&rt, rt.alloc(), &layout, lines, other.as_str())
}

// Three bytes of one character take one column.
#[test]
fn characters_of_several_bytes(rt: HostRuntime) -> Result<(), Fail> {
    let mut layout = Layout::new(rt.alloc());
    let mut text = String::new(rt.alloc());
    for _ in 0..95 {
        text.push('\u{2192}')?;
    }
    put_list(&mut layout, &[b"a", text.as_bytes()])?;
    let flat = format!(in rt.alloc(); "{{a, {text}}}")?;
    shows(&rt, rt.alloc(), &layout, PLAIN, flat.as_str())
}

// What a text counts for is said with it: 100 columns fit, and 101 do not.
#[test]
fn texts_with_their_columns(rt: HostRuntime) -> Result<(), Fail> {
    let mut layout = Layout::new(rt.alloc());
    layout.open(1)?;
    layout.put_as(b"a", 90)?;
    layout.put_break(b"-", 9)?;
    layout.put(b"b")?;
    layout.close()?;
    shows(&rt, rt.alloc(), &layout, PLAIN, "a-b")?;
    layout.put_as(b"", 1)?;
    shows(&rt, rt.alloc(), &layout, PLAIN, "a\n  b")
}

// A line is indented by 60 columns at most.
#[test]
fn many_steps(rt: HostRuntime) -> Result<(), Fail> {
    let text = wide(rt.alloc(), 101)?;
    let mut layout = Layout::new(rt.alloc());
    layout.open(29)?;
    layout.open(2)?;
    layout.put_break(b"", 0)?;
    layout.put(text.as_bytes())?;
    layout.close()?;
    layout.put_break(b"", 0)?;
    layout.close()?;
    let deep = "                                                            ";
    let wanted = format!(in rt.alloc();
        "\n{deep}{text}\n                                                          "
    )?;
    shows(&rt, rt.alloc(), &layout, PLAIN, wanted.as_str())
}

// A group that is not closed ends with the layout, and one that is closed twice is closed.
#[test]
fn without_balance(rt: HostRuntime) -> Result<(), Fail> {
    let mut layout = Layout::new(rt.alloc());
    layout.close()?;
    layout.put(b"a")?;
    layout.open(1)?;
    layout.put_break(b" ", 1)?;
    layout.put(b"b")?;
    shows(&rt, rt.alloc(), &layout, PLAIN, "a b")
}
