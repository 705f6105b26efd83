// Sums and recursive types in programs: what sources mean, how they are refused and how they run, found by hand from the
// rules.
use crate::runs::{all_reply, replies};
use fing_top::Status;
use std::test::Fail;

const OPTION: &str =
    "val o = inj some 3 : case {none : {}, some : Int} val y = case o : Int of {none (u) => 0, some (n) => n + 1}";

const ROLLED: &str = "data t = Int val x = roll 5 : t val y = unroll x";

const LIST_OF_ONE: &str =
    "data list = case {cons : {head : Int, tail : list}, nil : {}} type cell = case {cons : {head : Int, tail : list}, nil : {}} val empty = roll (inj nil {} : cell) : list val one = roll (inj cons {head = 7, tail = empty} : cell) : list val sum = fix go (l : list) : Int => case unroll l : Int of {cons (c) => c#head + go c#tail, nil (u) => 0} val y = sum one";

// Lists of numbers behind a signature.
const HIDDEN_LISTS: &str = "signature LIST = sig\n\
  type list\n\
  val nil : list\n\
  val cons : Int -> list -> list\n\
  val fold : [r : Type] -> (Int -> r -> r) -> r -> list -> r\n\
end\n\
module List = struct\n\
  data list = case {cons : {head : Int, tail : list}, nil : {}}\n\
  type cell = case {cons : {head : Int, tail : list}, nil : {}}\n\
  val nil = roll (inj nil {} : cell) : list\n\
  val cons = fun (x : Int) => fun (l : list) => roll (inj cons {head = x, tail = l} : cell) : list\n\
  val fold = fun [r : Type] => fun (f : Int -> r -> r) => fun (e : r) =>\n\
    fix go (l : list) : r => case unroll l : r of {cons (c) => f c#head (go c#tail), nil (u) => e}\n\
end :> LIST\n\
val digits = List.cons 1 (List.cons 2 (List.cons 3 List.nil))\n\
val total = List.fold [Int] (fun (x : Int) => fun (s : Int) => x + s) 0 digits\n\
val length = List.fold [Int] (fun (x : Int) => fun (s : Int) => s + 1) 0 digits\n";

// A search tree with values at its keys.
const SEARCH_TREE: &str =
    "data tree = case {leaf : {}, node : {key : Int, left : tree, right : tree, value : Int}}\n\
type shape = case {leaf : {}, node : {key : Int, left : tree, right : tree, value : Int}}\n\
type found = case {none : {}, some : Int}\n\
val empty = roll (inj leaf {} : shape) : tree\n\
val node = fun (l : tree) => fun (k : Int) => fun (v : Int) => fun (r : tree) =>\n\
  roll (inj node {key = k, left = l, right = r, value = v} : shape) : tree\n\
val insert = fun (k : Int) => fun (v : Int) => fix go (t : tree) : tree => case unroll t : tree of {\n\
  leaf (u) => node empty k v empty,\n\
  node (n) =>\n\
    if k < n#key then node (go n#left) n#key n#value n#right\n\
    else if n#key < k then node n#left n#key n#value (go n#right)\n\
    else node n#left k v n#right\n\
}\n\
val lookup = fun (k : Int) => fix go (t : tree) : found => case unroll t : found of {\n\
  leaf (u) => inj none {} : found,\n\
  node (n) =>\n\
    if k < n#key then go n#left\n\
    else if n#key < k then go n#right\n\
    else inj some (n#value) : found\n\
}\n\
val height = fix go (t : tree) : Int => case unroll t : Int of {\n\
  leaf (u) => 0,\n\
  node (n) => let val l = go n#left val r = go n#right in if l < r then r + 1 else l + 1 end\n\
}\n\
val full = insert 4 40 (insert 7 70 (insert 2 20 (insert 5 50 (insert 2 25 empty))))\n\
val two = lookup 2 full\n\
val four = lookup 4 full\n\
val six = lookup 6 full\n\
val tall = height full\n";

const MEANT: [(&str, &str); 13] = [
    (
        OPTION,
        "pure (ex () (str (o (val (sum (none (rec)) (some int)))) (y (val int))))\n",
    ),
    (
        "data t = t val f = fun (x : t) => x",
        "pure (ex () (str (f (val (-> (mu a0) (mu a0)))) (t (type (mu a0) *))))\n",
    ),
    // no value has the empty sum
    (
        "type void = case {} val absurd = fun (x : void) => case x : Int of {}",
        "pure (ex () (str (absurd (val (-> (sum) int))) (void (type (sum) *))))\n",
    ),
    // one body, one type
    (
        "data t = t -> Int data u = u -> Int val f = fun (x : t) => x val g = fun (y : u) => f y",
        "pure (ex () (str (f (val (-> (mu (-> a0 int)) (mu (-> a0 int))))) (g (val (-> (mu (-> a0 int)) (mu (-> a0 int))))) (t (type (mu (-> a0 int)) *)) (u (type (mu (-> a0 int)) *))))\n",
    ),
    // whatever the order of labels
    (
        "data t = case {b : t, a : {}} data u = case {a : {}, b : u} val f = fun (x : t) => x val g = fun (y : u) => f y",
        "pure (ex () (str (f (val (-> (mu (sum (a (rec)) (b a0))) (mu (sum (a (rec)) (b a0)))))) (g (val (-> (mu (sum (a (rec)) (b a0))) (mu (sum (a (rec)) (b a0)))))) (t (type (mu (sum (a (rec)) (b a0))) *)) (u (type (mu (sum (a (rec)) (b a0))) *))))\n",
    ),
    // and of both results of a functor
    (
        "module L = fun (E : sig type t end) => struct data list = case {cons : {head : E.t, tail : list}, nil : {}} end module A = struct type t = Int end module P = L A module Q = L A val f = fun (x : P.list) => x val g = fun (y : Q.list) => f y",
        "pure (ex () (str (A (str (t (type int *)))) (L (fun app (*) (str (t (type a0 *))) (ex () (str (list (type (mu (sum (cons (rec (head a0) (tail a1))) (nil (rec)))) *)))))) (P (str (list (type (mu (sum (cons (rec (head int) (tail a0))) (nil (rec)))) *)))) (Q (str (list (type (mu (sum (cons (rec (head int) (tail a0))) (nil (rec)))) *)))) (f (val (-> (mu (sum (cons (rec (head int) (tail a0))) (nil (rec)))) (mu (sum (cons (rec (head int) (tail a0))) (nil (rec))))))) (g (val (-> (mu (sum (cons (rec (head int) (tail a0))) (nil (rec)))) (mu (sum (cons (rec (head int) (tail a0))) (nil (rec)))))))))\n",
    ),
    // a declaration
    (
        "signature S = sig data t = case {go : t, stop : Int} val x : t end module M = struct data t = case {stop : Int, go : t} val x = roll (inj stop 5 : case {stop : Int, go : t}) : t end :> S",
        "pure (ex () (str (M (str (t (type (mu (sum (go a0) (stop int))) *)) (x (val (mu (sum (go a0) (stop int))))))) (S (sig (ex () (str (t (type (mu (sum (go a0) (stop int))) *)) (x (val (mu (sum (go a0) (stop int)))))))))))\n",
    ),
    (
        "signature S = sig type t val x : t end where type t = case {a : Int}",
        "pure (ex () (str (S (sig (ex () (str (t (type (sum (a int)) *)) (x (val (sum (a int))))))))))\n",
    ),
    // hidden by a signature
    (
        "module M = struct data t = case {a : t, b : Int} val x = roll (inj b 1 : case {a : t, b : Int}) : t val out = fun (y : t) => case unroll y : Int of {a (z) => 0, b (n) => n} end :> sig type t val x : t val out : t -> Int end val n = M.out M.x",
        "pure (ex (*) (str (M (str (out (val (-> a0 int))) (t (type a0 *)) (x (val a0)))) (n (val int))))\n",
    ),
    // an injected value that is an injection
    (
        "val o = inj a inj b 1 : case {b : Int} : case {a : case {b : Int}}",
        "pure (ex () (str (o (val (sum (a (sum (b int))))))))\n",
    ),
    // an argument that is an injection
    (
        "val f = fun (x : case {a : Int}) => case x : Int of {a (n) => n} val y = f inj a 7 : case {a : Int}",
        "pure (ex () (str (f (val (-> (sum (a int)) int))) (y (val int))))\n",
    ),
    // a field of what is unrolled
    (
        "data t = {a : Int} val x = roll {a = 5} : t val y = unroll x#a",
        "pure (ex () (str (t (type (mu (rec (a int))) *)) (x (val (mu (rec (a int))))) (y (val int))))\n",
    ),
    (
        HIDDEN_LISTS,
        "pure (ex (*) (str (LIST (sig (ex (*) (str (cons (val (-> int (-> a1 a1)))) (fold (val (all * (-> (-> int (-> a2 a2)) (-> a2 (-> a1 a2)))))) (list (type a1 *)) (nil (val a1)))))) (List (str (cons (val (-> int (-> a0 a0)))) (fold (val (all * (-> (-> int (-> a1 a1)) (-> a1 (-> a0 a1)))))) (list (type a0 *)) (nil (val a0)))) (digits (val a0)) (length (val int)) (total (val int))))\n",
    ),
];

#[test]
fn meanings(rt: HostRuntime) -> Result<(), Fail> {
    all_reply(&rt, rt.alloc(), "check", Status::Ok, &MEANT)
}

const REASONS: [(&str, &str); 28] = [
    // an injection needs a sum type, and a label of it
    ("val x = inj a 1 : Int", "refused 18-21 NotSum int\n"),
    (
        "val x = inj b 1 : case {a : Int}",
        "refused 12-13 NoField b\n",
    ),
    (
        "val x = inj a true : case {a : Int}",
        "refused 14-18 Differ bool int\n",
    ),
    (
        "type f = fun (a : Type) => a val x = inj a 1 : f",
        "refused 47-48 KindDiffer (> * *) *\n",
    ),
    (
        "type t = case {a : Int, a : Int}",
        "refused 24-25 DuplicateField a\n",
    ),
    (
        "type f = fun (a : Type) => a type t = case {a : f}",
        "refused 48-49 KindDiffer (> * *) *\n",
    ),
    ("val x = case 1 : Int of {}", "refused 13-14 NotSum int\n"),
    (
        "type f = fun (a : Type) => a val x = case inj a 1 : case {a : Int} : f of {}",
        "refused 69-70 KindDiffer (> * *) *\n",
    ),
    (
        "val x = case inj a 1 : case {a : Int} : Int of {b (n) => n}",
        "refused 48-49 NoField b\n",
    ),
    (
        "val x = case inj a 1 : case {a : Int} : Int of {a (n) => n, a (n) => n}",
        "refused 60-61 DuplicateField a\n",
    ),
    (
        "val x = case inj a 1 : case {a : Int} : Bool of {a (n) => n}",
        "refused 58-59 Differ int bool\n",
    ),
    (
        "val x = case inj a 1 : case {a : Int} : Int of {}",
        "refused 8-49 NoBranch a\n",
    ),
    (
        "val o = inj some 3 : case {none : {}, some : Int} val y = case o : Int of {none (u) => 0}",
        "refused 58-89 NoBranch some\n",
    ),
    // the least label, in the order of labels
    (
        "val x = case inj b 1 : case {c : Int, b : Int, a : Int} : Int of {c (n) => n}",
        "refused 8-77 NoBranch a\n",
    ),
    (
        "data t = fun (a : Type) => a",
        "refused 9-28 KindDiffer (> * *) *\n",
    ),
    ("val x = roll 1 : Int", "refused 17-20 NotData int\n"),
    (
        "type f = fun (a : Type) => a val x = roll 1 : f",
        "refused 46-47 KindDiffer (> * *) *\n",
    ),
    (
        "data t = Int val x = roll true : t",
        "refused 26-30 Differ bool int\n",
    ),
    // the one recursive type that unfolds to itself
    (
        "data t = t val x = roll 1 : t",
        "refused 24-25 Differ int (mu a0)\n",
    ),
    ("val x = unroll 1", "refused 15-16 NotData int\n"),
    // a recursive type is not what it unfolds to
    (
        "data t = Int val x = roll 1 : t val y = x + 1",
        "refused 40-41 Differ (mu int) int\n",
    ),
    // recursive types of two bodies are two types
    (
        "data t = Int data u = Bool val f = fun (x : t) => x val g = fun (y : u) => f y",
        "refused 77-78 Differ (mu bool) (mu int)\n",
    ),
    // sums of other labels are other sums
    (
        "val f = fun (x : case {a : Int}) => x val y = f (inj a 1 : case {a : Int, b : Int})",
        "refused 48-83 Differ (sum (a int) (b int)) (sum (a int))\n",
    ),
    // a hidden recursive type is none
    (
        "module M = struct data t = Int val x = roll 1 : t end :> sig type t val x : t end val y = unroll M.x",
        "refused 97-100 NotData a0\n",
    ),
    (
        "module M = struct type t = case {a : Int} val x = inj a 1 : t end :> sig type t val x : t end val y = case M.x : Int of {a (n) => n}",
        "refused 107-110 NotSum a0\n",
    ),
    (
        "module M = struct data t = Int end :> sig data t = Bool end",
        "refused 38-59 Clash t Types (mu int) (mu bool)\n",
    ),
    (
        "module M = struct type t = Int end :> sig data t = Int end",
        "refused 38-58 Clash t Types int (mu int)\n",
    ),
    (
        "signature S = sig type t data t = Int end",
        "refused 30-31 Duplicate t\n",
    ),
];

#[test]
fn each_reason(rt: HostRuntime) -> Result<(), Fail> {
    all_reply(&rt, rt.alloc(), "check", Status::Refused, &REASONS)
}

// A condition comes before each later premise of its phrase, and a premise before each later one.
const FIRST: [(&str, &str); 15] = [
    // the value before its type
    ("val x = inj a y : z", "refused 14-15 Unbound y\n"),
    ("val x = inj a y : Int", "refused 14-15 Unbound y\n"),
    // the label before the type of the value
    (
        "val x = inj a true : case {b : Int}",
        "refused 12-13 NoField a\n",
    ),
    // a field is new before its type is derived
    (
        "type t = case {a : Int, a : z}",
        "refused 24-25 DuplicateField a\n",
    ),
    (
        "type t = case {a : z, a : Int}",
        "refused 19-20 Unbound z\n",
    ),
    // a case has a sum before the type of its result
    ("val x = case 1 : z of {}", "refused 13-14 NotSum int\n"),
    // which has a kind before the first branch
    (
        "type f = fun (a : Type) => a val x = case inj a 1 : case {a : Int} : f of {b (n) => n}",
        "refused 69-70 KindDiffer (> * *) *\n",
    ),
    // a branch is new before its label is looked up
    (
        "val x = case inj a 1 : case {a : Int} : Int of {a (n) => n, a (n) => z}",
        "refused 60-61 DuplicateField a\n",
    ),
    // and the sum has its label before its body is derived
    (
        "val x = case inj a 1 : case {a : Int} : Int of {b (n) => z}",
        "refused 48-49 NoField b\n",
    ),
    // and the body has the type of the result before the next branch
    (
        "val x = case inj a 1 : case {a : Int} : Int of {a (n) => true, a (n) => n}",
        "refused 57-61 Differ bool int\n",
    ),
    // labels have branches after all branches have types
    (
        "val x = case inj a 1 : case {a : Int, b : Int} : Int of {b (n) => true}",
        "refused 66-70 Differ bool int\n",
    ),
    // a rolled value before its type
    ("val x = roll y : z", "refused 13-14 Unbound y\n"),
    // a recursive type before what it unfolds to
    ("val x = roll true : Int", "refused 20-23 NotData int\n"),
    ("val x = unroll y", "refused 15-16 Unbound y\n"),
    // the name stands for the type in its body alone
    ("data t = u", "refused 9-10 Unbound u\n"),
];

#[test]
fn the_first_condition_that_fails(rt: HostRuntime) -> Result<(), Fail> {
    all_reply(&rt, rt.alloc(), "check", Status::Refused, &FIRST)
}

const SPANS: [(&str, &str); 13] = [
    // parentheses belong to a phrase
    ("val x = unroll (1)", "refused 15-18 NotData int\n"),
    ("val x = inj a 1 : (Int)", "refused 18-23 NotSum int\n"),
    ("val x = roll 1 : (Int)", "refused 17-22 NotData int\n"),
    ("val x = case (1) : Int of {}", "refused 13-16 NotSum int\n"),
    (
        "val x = (case inj a 1 : case {a : Int} : Int of {})",
        "refused 8-51 NoBranch a\n",
    ),
    (
        "data t = (fun (a : Type) => a)",
        "refused 9-30 KindDiffer (> * *) *\n",
    ),
    // a derived form is a phrase from its first token to its last
    (
        "val x = unroll let val y = 1 in y end",
        "refused 15-37 NotData int\n",
    ),
    (
        "val x = case let val y = 1 in y end : Int of {}",
        "refused 13-35 NotSum int\n",
    ),
    (
        "val x = unroll pack struct end : sig end",
        "refused 15-40 NotData (rec)\n",
    ),
    (
        "val x = unroll inj a 1 : case {a : Int}",
        "refused 15-39 NotData (sum (a int))\n",
    ),
    (
        "data t = Int val x = case roll 1 : t : Int of {}",
        "refused 26-36 NotSum (mu int)\n",
    ),
    (
        "data t = Int val x = (roll 1 : t) val y = case unroll x : Int of {}",
        "refused 47-55 NotSum int\n",
    ),
    (
        "val y = 1 + (case inj a 1 : case {a : Int} : Bool of {a (n) => true})",
        "refused 12-69 Differ bool int\n",
    ),
];

#[test]
fn places_of_phrases(rt: HostRuntime) -> Result<(), Fail> {
    all_reply(&rt, rt.alloc(), "check", Status::Refused, &SPANS)
}

// The number is that of the tokens that some program begins with.
const SYNTAX: [(&str, &str); 15] = [
    ("data t", "refused Syntax 2\n"),
    ("data t : Type", "refused Syntax 2\n"),
    ("val data = 1", "refused Syntax 1\n"),
    ("val of = 1", "refused Syntax 1\n"),
    ("type t = case a", "refused Syntax 4\n"),
    ("type t = case {a = 1}", "refused Syntax 6\n"),
    ("val x = inj a", "refused Syntax 5\n"),
    ("val x = inj 1 : Int", "refused Syntax 4\n"),
    ("val x = roll 1", "refused Syntax 5\n"),
    ("val x = roll 1 Int", "refused Syntax 5\n"),
    ("val x = unroll", "refused Syntax 4\n"),
    ("val x = case 1 : Int {}", "refused Syntax 9\n"),
    ("val x = case 1 : Int of {a => 1}", "refused Syntax 10\n"),
    (
        "val x = case 1 : Int of {a (n) => 1,}",
        "refused Syntax 16\n",
    ),
    ("val x = 1 + case 1 : Int of {}", "refused Syntax 5\n"),
];

#[test]
fn sources_that_are_no_programs(rt: HostRuntime) -> Result<(), Fail> {
    all_reply(&rt, rt.alloc(), "check", Status::Refused, &SYNTAX)
}

const RUNS: [(&[&str], &str, Status, &str); 17] = [
    (
        &["run", "--budget", "6"],
        OPTION,
        Status::Ok,
        "o = (some 3)\ny = 4\n",
    ),
    (
        &["run", "--budget", "5"],
        OPTION,
        Status::Spent,
        "spent 5\n",
    ),
    (
        &["run", "--budget", "5"],
        ROLLED,
        Status::Ok,
        "t = type\nx = (roll 5)\ny = 5\n",
    ),
    (
        &["run", "--budget", "4"],
        ROLLED,
        Status::Spent,
        "spent 4\n",
    ),
    (
        &["run"],
        LIST_OF_ONE,
        Status::Ok,
        "cell = type\nempty = (roll (nil {}))\nlist = type\none = (roll (cons {head = 7, tail = (roll (nil {}))}))\nsum = fun\ny = 7\n",
    ),
    (
        &["run", "--budget", "23"],
        LIST_OF_ONE,
        Status::Ok,
        "cell = type\nempty = (roll (nil {}))\nlist = type\none = (roll (cons {head = 7, tail = (roll (nil {}))}))\nsum = fun\ny = 7\n",
    ),
    (
        &["run", "--budget", "22"],
        LIST_OF_ONE,
        Status::Spent,
        "spent 22\n",
    ),
    (
        &["run"],
        HIDDEN_LISTS,
        Status::Ok,
        "LIST = sig\nList = {cons = fun, fold = fun, list = type, nil = (roll (nil {}))}\ndigits = (roll (cons {head = 1, tail = (roll (cons {head = 2, tail = (roll (cons {head = 3, tail = (roll (nil {}))}))}))}))\nlength = 3\ntotal = 6\n",
    ),
    (
        &["run"],
        SEARCH_TREE,
        Status::Ok,
        "empty = (roll (leaf {}))\nfound = type\nfour = (some 40)\nfull = (roll (node {key = 2, left = (roll (leaf {})), right = (roll (node {key = 5, left = (roll (node {key = 4, left = (roll (leaf {})), right = (roll (leaf {})), value = 40})), right = (roll (node {key = 7, left = (roll (leaf {})), right = (roll (leaf {})), value = 70})), value = 50})), value = 20}))\nheight = fun\ninsert = fun\nlookup = fun\nnode = fun\nshape = type\nsix = (none {})\ntall = 3\ntree = type\ntwo = (some 20)\n",
    ),
    // the branch that is taken is the only one that runs
    (
        &["run"],
        "val y = case inj a 1 : case {a : Int, b : Int} : Int of {a (n) => n, b (n) => 1 / 0}",
        Status::Ok,
        "y = 1\n",
    ),
    (
        &["run"],
        "val y = case inj b 1 : case {a : Int, b : Int} : Int of {a (n) => n, b (n) => 1 / 0}",
        Status::Faulted,
        "fault DivideByZero\n",
    ),
    // the name of a branch hides another one in its body alone
    (
        &["run"],
        "val n = 1 val y = case inj a 2 : case {a : Int} : Int of {a (n) => n + n} val z = n",
        Status::Ok,
        "n = 1\ny = 4\nz = 1\n",
    ),
    (
        &["run"],
        "val k = 10 val y = case inj a 2 : case {a : Int} : Int of {a (n) => n * k}",
        Status::Ok,
        "k = 10\ny = 20\n",
    ),
    (
        &["run"],
        "val o = inj a inj b \"c\" : case {b : Text} : case {a : case {b : Text}}",
        Status::Ok,
        "o = (a (b \"c\"))\n",
    ),
    (
        &["run"],
        "data t = {a : Int} val x = roll {a = 5} : t val y = unroll x#a",
        Status::Ok,
        "t = type\nx = (roll {a = 5})\ny = 5\n",
    ),
    // recursion by a recursive type, without `fix`
    (
        &["run"],
        "data d = d -> Int -> Int val body = fun (x : d) => fun (n : Int) => if n < 1 then 1 else n * unroll x x (n - 1) val fact = body (roll body : d) val y = fact 5",
        Status::Ok,
        "body = fun\nd = type\nfact = fun\ny = 120\n",
    ),
    (
        &["run"],
        "data d = d -> Int val w = fun (x : d) => unroll x x val y = w (roll w : d)",
        Status::Spent,
        "spent 1000000\n",
    ),
];

#[test]
fn outcomes(rt: HostRuntime) -> Result<(), Fail> {
    for (words, source, status, text) in &RUNS {
        replies(&rt, rt.alloc(), words, source, *status, text)?;
    }
    Ok(())
}

const EMITTED: [(&str, &str); 3] = [
    (
        "val o = inj a 1 : case {a : Int}",
        "omega 2\n(rec (o (rec (.val (sum (a int))))))\n(call (fn (rec (.val (sum (a int)))) (rec (o x0))) (rec (.val (inj a 1 (sum (a int))))))\n",
    ),
    (
        "val y = case inj a 1 : case {b : Int, a : Int} : Int of {b (n) => 0, a (n) => n}",
        "omega 2\n(rec (y (rec (.val int))))\n(call (fn (rec (.val int)) (rec (y x0))) (rec (.val (case (inj a 1 (sum (a int) (b int))) int (a (get (rec (.val x0)) .val)) (b 0)))))\n",
    ),
    (
        "data t = t",
        "omega 2\n(rec (t (rec (.typ (all (> * *) (-> (@ a0 (mu a1)) (@ a0 (mu a1))))))))\n(call (fn (rec (.typ (all (> * *) (-> (@ a0 (mu a1)) (@ a0 (mu a1)))))) (rec (t x0))) (rec (.typ (tfn (> * *) (fn (@ a0 (mu a1)) x0)))))\n",
    ),
];

#[test]
fn emitted_texts(rt: HostRuntime) -> Result<(), Fail> {
    all_reply(&rt, rt.alloc(), "emit", Status::Ok, &EMITTED)
}
