// Programs by the calls that `fing` makes: a source, its tree, its term, what the checker finds, and the run.
use fing_elab::elab;
use fing_gen::source_of;
use fing_lexer::tokens;
use fing_parser::program;
use fing_syntax::Program;
use omega_checker::{Checked, check};
use omega_machine::{End, run as evaluate};
use semantic_sigs::encode;
use std::alloc::Global;
use std::test::Fail;

/// The tree of a source.
pub fn tree(alloc: Global, source: &[u8]) -> Result<Program, Fail> {
    if source.len() > 1048576 {
        return Err(Fail::new("too many bytes"));
    }
    let tokens = tokens(alloc, source)?;
    if tokens.len() > 1048576 {
        return Err(Fail::new("too many tokens"));
    }
    Ok(program(alloc, &tokens)?)
}

// What the checker makes of the whole term of a program.
fn confirmed(alloc: Global, program: &Program) -> Result<Checked, Fail> {
    let found = elab(alloc, program).ok().ok_or("refused")?;
    let ty = encode(alloc, &found.sig)?;
    let checked = check(alloc, found.whole, ty)?.ok_or("ill typed")?;
    Ok(checked)
}

#[test]
fn the_least_program_by_its_calls(rt: HostRuntime) -> Result<(), Fail> {
    let source = source_of(rt.alloc(), 1)?;
    let program = tree(rt.alloc(), &source)?;
    let checked = confirmed(rt.alloc(), &program)?;
    let end = evaluate(rt.alloc(), &checked, 10000000)?;
    assert!(rt; matches!(end, End::Value { steps: 84, .. }));
    Ok(())
}
