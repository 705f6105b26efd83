// The steps of runs, written out by hand from the rules of steps and the terms of the programs.

pub(crate) const WHOLE_RUNS: [(&str, &str); 3] = [
    (
        "val x = 1 + 2 * 3",
        "step 1: operator (Step.arith)
  let x0 : {.val : int} = {.val = 1 + «2 * 3»} in {x = x0}
step 2: operator (Step.arith)
  let x0 : {.val : int} = {.val = «1 + 6»} in {x = x0}
step 3: call of fn (Step.call_lam)
  «let x0 : {.val : int} = {.val = 7} in {x = x0}»
value after 3 steps
x = 7
",
    ),
    (
        "val x = 1 / 0",
        "fault DivideByZero at step 1
  let x0 : {.val : int} = {.val = «1 / 0»} in {x = x0}
",
    ),
    (
        "val o = inj some 3 : case {none : {}, some : Int}
val y = case o : Int of {none (u) => 0, some (n) => n}",
        "step 1: call of fn (Step.call_lam)
  «let x0 : {.val : ⟨none : {}, some : int⟩} = {.val = inj some 3 as ⟨none : {}, some : int⟩} in
  let x1 : {.val : int} = {.val = case x0.val : int of {none x1 ⇒ 0, some x1 ⇒ {.val = x1}.val}} in
  {o = x0, y = x1}»
step 2: field (Step.get_fields)
  let x0 : {.val : int} = {
    .val = case «{.val = inj some 3 as ⟨none : {}, some : int⟩}.val» : int of {
      none x0 ⇒ 0,
      some x0 ⇒ {.val = x0}.val
    }
  } in
  {o = {.val = inj some 3 as ⟨none : {}, some : int⟩}, y = x0}
step 3: case (Step.case_inj)
  let x0 : {.val : int} = {
    .val = «case (inj some 3 as ⟨none : {}, some : int⟩) : int of {
      none x0 ⇒ 0,
      some x0 ⇒ {.val = x0}.val
    }»
  } in
  {o = {.val = inj some 3 as ⟨none : {}, some : int⟩}, y = x0}
step 4: field (Step.get_fields)
  let x0 : {.val : int} = {.val = «{.val = 3}.val»} in
  {o = {.val = inj some 3 as ⟨none : {}, some : int⟩}, y = x0}
step 5: call of fn (Step.call_lam)
  «let x0 : {.val : int} = {.val = 3} in
  {o = {.val = inj some 3 as ⟨none : {}, some : int⟩}, y = x0}»
value after 5 steps
o = (some 3)
y = 3
",
    ),
];

// A call of a recursive function, which never ends.
pub(crate) const CALLS: [(&str, &str); 1] = [(
    "val f = fix g (x : Int) : Int => g x val y = f 12",
    "step 1: call of fn (Step.call_lam)
  «let x0 : {.val : int → int} = {
    .val = fix x0 (x1 : int) : int. {.val = x0}.val {.val = x1}.val
  } in
  let x1 : {.val : int} = {.val = x0.val 12} in {f = x0, y = x1}»
step 2: field (Step.get_fields)
  let x0 : {.val : int} = {
    .val = «{.val = fix x0 (x1 : int) : int. {.val = x0}.val {.val = x1}.val}.val» 12
  } in
  {f = {.val = fix x1 (x2 : int) : int. …}, y = x0}
step 3: call of fix (Step.call_fix)
  let x0 : {.val : int} = {
    .val = «(fix x0 (x1 : int) : int. {.val = x0}.val {.val = x1}.val) 12»
  } in
  {f = {.val = fix x1 (x2 : int) : int. …}, y = x0}
… 3 steps are not shown
spent: no value and no fault in 6 steps
",
)];

pub(crate) const OVERFLOW: [(&str, &str); 1] = [(
    "val x = 9223372036854775807 val y = x + 1",
    "step 1: call of fn (Step.call_lam)
  «let x0 : {.val : int} = {.val = 9223372036854775807} in
  let x1 : {.val : int} = {.val = x0.val + 1} in {x = x0, y = x1}»
… 1 step is not shown
fault Overflow at step 3
  let x0 : {.val : int} = {.val = «9223372036854775807 + 1»} in
  {x = {.val = 9223372036854775807}, y = x0}
",
)];

// No step is shown. The fault stands in 14 frames: the binding, its record, and the sums of 12 down to 1.
pub(crate) const ENDS: [(&str, &str); 2] = [
    ("val x = 1 + 2 * 3", "value after 3 steps\nx = 7\n"),
    (
        "val f = fix f (n : Int) : Int => if n < 1 then 1 / 0 else n + f (n - 1) val x = f 12",
        "fault DivideByZero at step 103
  … 8 + (7 + (6 + (5 + (4 + (3 + (2 + (1 + «1 / 0»))))))) …
",
    ),
];
