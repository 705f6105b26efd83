// A program of sets and counters, through every command.
use crate::runs::{ran, replies};
use fing_top::Status;
use std::alloc::Global;
use std::test::Fail;

const SOURCE: &str = "signature ORD = sig type t val less : t -> t -> Bool end\n\
    signature SET = sig\n\
    type elem\n\
    type set\n\
    val empty : set\n\
    val insert : elem -> set -> set\n\
    val member : elem -> set -> Bool\n\
    val size : set -> Int\n\
    end\n\
    module IntUp = struct\n\
    type t = Int\n\
    val less = fun (x : Int) => fun (y : Int) => x < y\n\
    end\n\
    module IntDown = struct\n\
    type t = Int\n\
    val less = fun (x : Int) => fun (y : Int) => y < x\n\
    end\n\
    -- a set is its own fold\n\
    module MakeSet = fun (O : ORD) => struct\n\
    type elem = O.t\n\
    type set = [r : Type] -> (elem -> r -> r) -> r -> r\n\
    val empty = fun [r : Type] => fun (c : elem -> r -> r) => fun (n : r) => n\n\
    val same = fun (x : elem) => fun (y : elem) =>\n\
    if O.less x y then false else if O.less y x then false else true\n\
    val member = fun (x : elem) => fun (s : set) =>\n\
    s [Bool] (fun (y : elem) => fun (found : Bool) => if same x y then true else found) false\n\
    val size = fun (s : set) => s [Int] (fun (y : elem) => fun (k : Int) => k + 1) 0\n\
    val insert = fun (x : elem) => fun (s : set) =>\n\
    if member x s then s\n\
    else fun [r : Type] => fun (c : elem -> r -> r) => fun (n : r) => c x (s [r] c n)\n\
    end :> SET where type elem = O.t\n\
    module Up = MakeSet IntUp\n\
    module Up2 = MakeSet IntUp\n\
    module Down = MakeSet IntDown\n\
    val one = Up.insert 3 Up.empty\n\
    val two = Up2.insert 4 one\n\
    val n = Up.size two\n\
    val fill = fix go (k : Int) : Up.set =>\n\
    if k < 1 then Up.empty else Up.insert k (go (k - 1))\n\
    val twenty = Up.size (fill 20)\n\
    signature COUNTER = sig type c val start : c val next : c -> c val read : c -> Int end\n\
    module Plain = struct\n\
    type c = Int\n\
    val start = 0\n\
    val next = fun (x : Int) => x + 1\n\
    val read = fun (x : Int) => x\n\
    end\n\
    module Pairs = struct\n\
    type c = {steps : Int, by : Int}\n\
    val start = {steps = 0, by = 2}\n\
    val next = fun (x : c) => {steps = x#steps + 1, by = x#by}\n\
    val read = fun (x : c) => x#steps * x#by\n\
    end\n\
    val fast = true\n\
    val chosen = if fast then pack Pairs : COUNTER else pack Plain : COUNTER\n\
    module C = unpack chosen : COUNTER\n\
    val reading = C.read (C.next (C.next C.start))\n";

const VALUE: &str = "C = {c = type, next = fun, read = fun, start = {by = 2, steps = 0}}\n\
    COUNTER = sig\n\
    Down = {elem = type, empty = fun, insert = fun, member = fun, set = type, size = fun}\n\
    IntDown = {less = fun, t = type}\n\
    IntUp = {less = fun, t = type}\n\
    MakeSet = fun\n\
    ORD = sig\n\
    Pairs = {c = type, next = fun, read = fun, start = {by = 2, steps = 0}}\n\
    Plain = {c = type, next = fun, read = fun, start = 0}\n\
    SET = sig\n\
    Up = {elem = type, empty = fun, insert = fun, member = fun, set = type, size = fun}\n\
    Up2 = {elem = type, empty = fun, insert = fun, member = fun, set = type, size = fun}\n\
    chosen = pack\n\
    fast = true\n\
    fill = fun\n\
    n = 2\n\
    one = fun\n\
    reading = 4\n\
    twenty = 20\n\
    two = fun\n";

// Whether what is emitted for the source is well typed.
fn emitted_is_well_typed(alloc: Global) -> Result<bool, Fail> {
    let text = ran(alloc, &["emit"], SOURCE.as_bytes())?;
    let found = ran(alloc, &["verify"], &text.written)?;
    Ok(text.status == Status::Ok && found.written.as_slice() == b"well typed\n".as_slice())
}

#[test]
fn sets_and_counters(rt: HostRuntime) -> Result<(), Fail> {
    assert_eq!(rt;
        ran(rt.alloc(), &["check"], SOURCE.as_bytes())?.status,
        Status::Ok
    );
    assert!(rt; emitted_is_well_typed(rt.alloc())?);
    replies(&rt, rt.alloc(), &["run"], SOURCE, Status::Ok, VALUE)
}
