// Generated sources, written out.
use fing_gen::source_of;
use std::test::Fail;

const OF_TWO: &str = "signature S = sig type t val v : t val f : t -> Int end
module F = fun (X : S) => struct type t = X.t val v = X.v val f = fun (x : X.t) => X.f x + 1 end :> S
module M0 = struct type t = Int val v = 0 val f = fun (x : Int) => x end :> S
module M1 = F M0
val p1 = pack M1 : S
val r1 = M1.f M1.v
module M2 = F M0
val p2 = pack M2 : S
val r2 = M2.f M2.v
module Q = unpack p1 : S
val q = Q.f Q.v
";

#[test]
fn size_of_two(rt: HostRuntime) -> Result<(), Fail> {
    let text = source_of(rt.alloc(), 2)?;
    assert!(rt; text.as_slice() == OF_TWO.as_bytes());
    Ok(())
}
