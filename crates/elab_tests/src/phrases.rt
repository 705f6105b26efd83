// Phrases by themselves, each in the empty environment.
use crate::programs::tree;
use elab_phrases::{expression_phrase, module_phrase, signature_phrase, type_phrase};
use fing_syntax::{Bind, BindWhat};
use semantic_sigs::Env;
use std::alloc::Global;
use std::test::Fail;

// A binding, and how many types the signature of its phrase hides, where the phrase means something.
const PHRASES: [(&str, Option<usize>); 8] = [
    ("type t = Int", Some(0)),
    ("val n = 1 + 2", Some(0)),
    ("signature S = sig type t type u = t val x : u end", Some(1)),
    (
        "module M = struct type t = Int type u = Int end :> sig type t type u end",
        Some(2),
    ),
    ("type t = X.t", None),
    ("val n = 1 + true", None),
    ("signature S = sig val x : t end", None),
    ("module M = X", None),
];

fn hidden(alloc: Global, bind: &Bind) -> Option<usize> {
    let env = Env::new(alloc);
    match &bind.what {
        BindWhat::Ty(_, phrase) => {
            type_phrase(alloc, env, phrase).ok()?;
            Some(0)
        }
        BindWhat::Val(_, phrase) => {
            expression_phrase(alloc, env, phrase).ok()?;
            Some(0)
        }
        BindWhat::Signature(_, phrase) => {
            let found = signature_phrase(alloc, env, phrase).ok()?;
            Some(found.kinds().items().len())
        }
        BindWhat::Module(_, phrase) | BindWhat::Include(phrase) => {
            let found = module_phrase(alloc, env, phrase).ok()?;
            Some(found.sig.kinds().items().len())
        }
    }
}

#[test]
fn in_no_environment(rt: HostRuntime) -> Result<(), Fail> {
    for (source, count) in &PHRASES {
        let program = tree(rt.alloc(), source.as_bytes())?;
        let bind = program.binds.first().ok_or("no binding")?;
        let found = hidden(rt.alloc(), bind);
        assert!(rt; found == *count, "at {source}");
    }
    Ok(())
}
