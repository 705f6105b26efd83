// Texts of each form of type and of term, read and written again.
use fing_text::MemSink;
use omega_read::read;
use omega_write::write_omega;
use std::alloc::Global;
use std::test::Fail;

const TYPES: [&str; 12] = [
    "int",
    "bool",
    "text",
    "(-> int text)",
    "(rec)",
    "(rec (.val int) (.typ int) (.sig int) (.app int) (.gen int) (%0 int) (Val int) (_ int) (x' int))",
    "(all * a0)",
    "(some (> * *) int)",
    "(lam (> (> * *) *) a0)",
    "(@ (lam * a0) int)",
    "(all * (some (> * (> * *)) (lam * (-> a0 (@ (@ a1 a2) a0)))))",
    "(rec (a (rec (b (rec)) (c text))) (b (all * (-> a0 a0))))",
];

const TERMS: [&str; 25] = [
    "0",
    "9223372036854775807",
    "-9223372036854775808",
    "true",
    "false",
    "\"\"",
    "\"a(\\\"b)\\\\ \\n ~\"",
    "(fn int x0)",
    "(call (fn int x0) 1)",
    "(tfn (> * *) (fn (@ a0 int) x0))",
    "(inst 1 (-> int int))",
    "(rec)",
    "(rec (.val 1) (.app 2) (%9 3) (x -1))",
    "(get (rec) .gen)",
    "(pack int 1 (some * a0))",
    "(open 1 (fn a0 (call x0 x1)))",
    "(if true 1 2)",
    "(+ 1 2)",
    "(- 1 2)",
    "(* 1 2)",
    "(/ 1 2)",
    "(% 1 2)",
    "(< 1 2)",
    "(== 1 2)",
    "(fix int bool (call x0 x1))",
];

// Each form of type, and each form of term, in one text.
const ALL_TYPES: &str =
    "(all (> * *) (some * (-> (@ (lam * a2) int) (rec (.val bool) (x text) (y (@ a0 a1)) (z (rec))))))";

const ALL_TERMS: &str =
    "(tfn * (call (fn (rec (x a0)) (open (pack a0 (get x0 x) (some * a1)) (if (< 1 -2) (rec (.gen (inst x0 a1)) (b \"b\")) false))) (fix int (-> int bool) (== (+ 1 (- 2 3)) (* 4 (/ 5 (% 6 x1)))))))";

// Types that have a text in the second version only.
const SECOND_TYPES: [&str; 5] = [
    "(sum)",
    "(sum (a int) (b bool))",
    "(mu a0)",
    "(mu (sum (more (rec (head int) (tail a0))) (none (rec))))",
    "(all * (-> (sum (a int) (b a0)) (mu (-> a1 int))))",
];

// The text of these two lines in a version, read and written again.
fn again(alloc: Global, version: u64, ty: &str, term: &str) -> Result<bool, Fail> {
    let given = format!(in alloc; "omega {version}\n{ty}\n{term}\n")?;
    let text = format!(in alloc; "omega 2\n{ty}\n{term}\n")?;
    let (ty, term) = read(alloc, given.as_bytes())?;
    let mut sink = MemSink::new(alloc, 4096, 3, Vec::new(alloc))?;
    let is_whole = write_omega(&mut sink, &ty, &term).is_ok();
    Ok(is_whole && sink.bytes() == text.as_bytes())
}

#[test]
fn each_form_goes_both_ways(rt: HostRuntime) -> Result<(), Fail> {
    for version in 1..3 {
        for ty in &TYPES {
            assert!(rt; again(rt.alloc(), version, ty, "0")?, "at {ty}");
        }
        for term in &TERMS {
            assert!(rt; again(rt.alloc(), version, "int", term)?, "at {term}");
        }
        assert!(rt; again(rt.alloc(), version, ALL_TYPES, ALL_TERMS)?);
    }
    for ty in &SECOND_TYPES {
        assert!(rt; again(rt.alloc(), 2, ty, "0")?, "at {ty}");
    }
    Ok(())
}
