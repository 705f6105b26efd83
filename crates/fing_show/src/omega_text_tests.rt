// Terms as Omega text over several lines, written out by hand from the texts of `emit` and the rule for lines.

pub(crate) const TEXTS: [(&str, &str); 3] = [
    ("", "omega 2\n; the type\n(rec)\n; the term\n(rec)\n"),
    (
        "val x = 1 + 2",
        "omega 2
; the type
(rec (x (rec (.val int))))
; the term
(call (fn (rec (.val int)) (rec (x x0))) (rec (.val (+ 1 2))))
",
    ),
    (
        "val f = fix f (n : Int) : Int => if n < 1 then ~2 else f (n - 1)",
        "omega 2
; the type
(rec (f (rec (.val (-> int int)))))
; the term
(call
  (fn (rec (.val (-> int int))) (rec (f x0)))
  (rec
    (.val
      (fix
        int
        int
        (if
          (< (get (rec (.val x1)) .val) 1)
          -2
          (call (get (rec (.val x0)) .val) (- (get (rec (.val x1)) .val) 1)))))))
",
    ),
];
