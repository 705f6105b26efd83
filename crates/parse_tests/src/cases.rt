// Sources and their trees, by hand from the grammar; and sources that are no program.
use crate::show::are_written;
use fing_lexer::tokens;
use fing_parser::{ParseRefusal, program};
use fing_syntax::Program;
use fing_text::SOURCE_LIMIT;
use std::alloc::Global;
use std::process::Abort;
use std::test::Fail;

// Bindings and paths.
const BINDINGS: [(&str, &str); 13] = [
    ("", ""),
    ("val x = 1", " (val x@4-5 (1)@8-9)@0-9"),
    ("type t = Int", " (type t@5-6 (int)@9-12)@0-12"),
    ("module M = N", " (module M@7-8 (N@11-12)@11-12)@0-12"),
    (
        "signature S = T",
        " (signature S@10-11 (path (T@14-15)@14-15)@14-15)@0-15",
    ),
    ("include M", " (include (M@8-9)@8-9)@0-9"),
    (
        "val x = 1 type t = Int",
        " (val x@4-5 (1)@8-9)@0-9 (type t@15-16 (int)@19-22)@10-22",
    ),
    (
        "module M = A.B.c",
        " (module M@7-8 (project c@15-16 (project B@13-14 (A@11-12)@11-12)@11-14)@11-16)@0-16",
    ),
    (
        "module M = from (N).x",
        " (module M@7-8 (project x@20-21 (N@17-18)@17-18)@11-21)@0-21",
    ),
    (
        "module M = from (N).x.y.z",
        " (module M@7-8 (project z@24-25 (project y@22-23 (project x@20-21 (N@17-18)@17-18)@11-21)@11-23)@11-25)@0-25",
    ),
    (
        "data t = t",
        " (type t@5-6 (mu t@5-6 (path (t@9-10)@9-10)@9-10)@0-10)@0-10",
    ),
    (
        "val x = 1 data t = Int",
        " (val x@4-5 (1)@8-9)@0-9 (type t@15-16 (mu t@15-16 (int)@19-22)@10-22)@10-22",
    ),
    (
        "data list = case {cons : {head : Int, tail : list}, nil : {}}",
        " (type list@5-9 (mu list@5-9 (sum cons@18-22 (rec head@26-30 (int)@33-36 tail@38-42 (path (list@45-49)@45-49)@45-49)@25-50 nil@52-55 (rec)@58-60)@12-61)@0-61)@0-61",
    ),
];

// Declarations and signatures.
const DECLARATIONS: [(&str, &str); 11] = [
    (
        "signature S = sig end",
        " (signature S@10-11 (sig)@14-21)@0-21",
    ),
    (
        "signature S = sig val x : Int type t module M : T signature U = V include W end",
        " (signature S@10-11 (sig (val x@22-23 (int)@26-29)@18-29 (type t@35-36 *)@30-36 (module M@44-45 (path (T@48-49)@48-49)@48-49)@37-49 (signature U@60-61 (path (V@64-65)@64-65)@64-65)@50-65 (include (path (W@74-75)@74-75)@74-75)@66-75)@14-79)@0-79",
    ),
    (
        "signature S = sig type t = Int type u : Type end",
        " (signature S@10-11 (sig (type t@23-24 (int)@27-30)@18-30 (type u@36-37 *)@31-44)@14-48)@0-48",
    ),
    (
        "signature S = sig type f : Type -> (Type -> Type) -> Type end",
        " (signature S@10-11 (sig (type f@23-24 (> * (> (> * *) *)))@18-57)@14-61)@0-61",
    ),
    (
        "signature S = sig type f : (Type -> Type) -> Type end",
        " (signature S@10-11 (sig (type f@23-24 (> (> * *) *))@18-49)@14-53)@0-53",
    ),
    (
        "signature S = T where type t = Int where type A.b.c = Bool",
        " (signature S@10-11 (where A@46-47 b@48-49 c@50-51 (bool)@54-58 (where t@27-28 (int)@31-34 (path (T@14-15)@14-15)@14-15)@14-34)@14-58)@0-58",
    ),
    (
        "signature S = fun (X : A) -> fun (Y : B) => C",
        " (signature S@10-11 (gen X@19-20 (path (A@23-24)@23-24)@23-24 (fun Y@34-35 (path (B@38-39)@38-39)@38-39 (path (C@44-45)@44-45)@44-45)@29-45)@14-45)@0-45",
    ),
    (
        "signature S = (T)",
        " (signature S@10-11 (path (T@15-16)@15-16)@14-17)@0-17",
    ),
    (
        "signature S = ((A.B)) where type t = Int",
        " (signature S@10-11 (where t@33-34 (int)@37-40 (path (project B@18-19 (A@16-17)@16-17)@16-19)@14-21)@14-40)@0-40",
    ),
    (
        "signature S = from (M).x",
        " (signature S@10-11 (path (project x@23-24 (M@20-21)@20-21)@14-24)@14-24)@0-24",
    ),
    (
        "signature S = sig data t = case {a : t} val x : t end",
        " (signature S@10-11 (sig (type t@23-24 (mu t@23-24 (sum a@33-34 (path (t@37-38)@37-38)@37-38)@27-39)@18-39)@18-39 (val x@44-45 (path (t@48-49)@48-49)@48-49)@40-49)@14-53)@0-53",
    ),
];

// Types.
const TYPES: [(&str, &str); 15] = [
    (
        "type t = Int -> Bool -> Text",
        " (type t@5-6 (-> (int)@9-12 (-> (bool)@16-20 (text)@24-28)@16-28)@9-28)@0-28",
    ),
    (
        "type t = (Int -> Bool) -> Text",
        " (type t@5-6 (-> (-> (int)@10-13 (bool)@17-21)@9-22 (text)@26-30)@9-30)@0-30",
    ),
    (
        "type t = f Int (g Bool) h",
        " (type t@5-6 (@ (path (f@9-10)@9-10)@9-10 (int)@11-14 (@ (path (g@16-17)@16-17)@16-17 (bool)@18-22)@15-23 (path (h@24-25)@24-25)@24-25)@9-25)@0-25",
    ),
    (
        "type t = fun (a : Type -> Type) => a Int",
        " (type t@5-6 (lam a@14-15 (> * *) (@ (path (a@35-36)@35-36)@35-36 (int)@37-40)@35-40)@9-40)@0-40",
    ),
    (
        "type t = [a : Type] -> a -> a",
        " (type t@5-6 (all a@10-11 * (-> (path (a@23-24)@23-24)@23-24 (path (a@28-29)@28-29)@28-29)@23-29)@9-29)@0-29",
    ),
    ("type t = {}", " (type t@5-6 (rec)@9-11)@0-11"),
    (
        "type t = {x : Int}",
        " (type t@5-6 (rec x@10-11 (int)@14-17)@9-18)@0-18",
    ),
    (
        "type t = {x : Int, y : {z : A.t}}",
        " (type t@5-6 (rec x@10-11 (int)@14-17 y@19-20 (rec z@24-25 (path (project t@30-31 (A@28-29)@28-29)@28-31)@28-31)@23-32)@9-33)@0-33",
    ),
    (
        "type t = pack S",
        " (type t@5-6 (pack (path (S@14-15)@14-15)@14-15)@9-15)@0-15",
    ),
    (
        "type t = pack (sig end) Int",
        " (type t@5-6 (@ (pack (sig)@14-23)@9-23 (int)@24-27)@9-27)@0-27",
    ),
    (
        "type t = (A.b) -> c",
        " (type t@5-6 (-> (path (project b@12-13 (A@10-11)@10-11)@10-13)@9-14 (path (c@18-19)@18-19)@18-19)@9-19)@0-19",
    ),
    (
        "type t = from (M).u",
        " (type t@5-6 (path (project u@18-19 (M@15-16)@15-16)@9-19)@9-19)@0-19",
    ),
    ("type t = case {}", " (type t@5-6 (sum)@9-16)@0-16"),
    (
        "type t = case {none : {}, some : Int}",
        " (type t@5-6 (sum none@15-19 (rec)@22-24 some@26-30 (int)@33-36)@9-37)@0-37",
    ),
    (
        "type t = f case {a : Int} -> Int",
        " (type t@5-6 (-> (@ (path (f@9-10)@9-10)@9-10 (sum a@17-18 (int)@21-24)@11-25)@9-25 (int)@29-32)@9-32)@0-32",
    ),
];

// Modules and their derived forms.
const MODULES: [(&str, &str); 19] = [
    (
        "module M = struct end",
        " (module M@7-8 (struct)@11-21)@0-21",
    ),
    (
        "module M = struct val x = 1 type t = Int end",
        " (module M@7-8 (struct (val x@22-23 (1)@26-27)@18-27 (type t@33-34 (int)@37-40)@28-40)@11-44)@0-44",
    ),
    (
        "module M = fun (X : S) => X",
        " (module M@7-8 (fun X@16-17 (path (S@20-21)@20-21)@20-21 (X@26-27)@26-27)@11-27)@0-27",
    ),
    (
        "module M = gen (X : S) => struct end",
        " (module M@7-8 (gen X@16-17 (path (S@20-21)@20-21)@20-21 (struct)@26-36)@11-36)@0-36",
    ),
    (
        "module M = unpack p : S",
        " (module M@7-8 (unpack (path (p@18-19)@18-19)@18-19 (path (S@22-23)@22-23)@22-23)@11-23)@0-23",
    ),
    (
        "module M = unpack p#x : (S)",
        " (module M@7-8 (unpack (get x@20-21 (path (p@18-19)@18-19)@18-19)@18-21 (path (S@25-26)@25-26)@24-27)@11-27)@0-27",
    ),
    (
        "module M = F A",
        " (module M@7-8 (project %0@11-14 (struct (module %1@11-14 (F@11-12)@11-12)@11-14 (module %2@11-14 (A@13-14)@13-14)@11-14 (module %0@11-14 (apply %1@11-12 %2@13-14)@11-14)@11-14)@11-14)@11-14)@0-14",
    ),
    (
        "module M = F A B",
        " (module M@7-8 (project %0@11-16 (struct (module %1@11-16 (project %0@11-14 (struct (module %1@11-14 (F@11-12)@11-12)@11-14 (module %2@11-14 (A@13-14)@13-14)@11-14 (module %0@11-14 (apply %1@11-12 %2@13-14)@11-14)@11-14)@11-14)@11-14)@11-16 (module %2@11-16 (B@15-16)@15-16)@11-16 (module %0@11-16 (apply %1@11-14 %2@15-16)@11-16)@11-16)@11-16)@11-16)@0-16",
    ),
    (
        "module M = M :> S",
        " (module M@7-8 (project %0@11-17 (struct (module %1@11-17 (M@11-12)@11-12)@11-17 (module %0@11-17 (seal %1@11-12 (path (S@16-17)@16-17)@16-17)@11-17)@11-17)@11-17)@11-17)@0-17",
    ),
    (
        "module M = M : S",
        " (module M@7-8 (project %0@11-16 (struct (module %1@11-16 (M@11-12)@11-12)@11-16 (module %2@11-16 (fun %3@11-16 (path (S@15-16)@15-16)@15-16 (%3@11-16)@11-16)@11-16)@11-16 (module %0@11-16 (apply %2@11-16 %1@11-12)@11-16)@11-16)@11-16)@11-16)@0-16",
    ),
    (
        "module M = M :> S : T",
        " (module M@7-8 (project %0@11-21 (struct (module %1@11-21 (project %0@11-17 (struct (module %1@11-17 (M@11-12)@11-12)@11-17 (module %0@11-17 (seal %1@11-12 (path (S@16-17)@16-17)@16-17)@11-17)@11-17)@11-17)@11-17)@11-21 (module %2@11-21 (fun %3@11-21 (path (T@20-21)@20-21)@20-21 (%3@11-21)@11-21)@11-21)@11-21 (module %0@11-21 (apply %2@11-21 %1@11-17)@11-21)@11-21)@11-21)@11-21)@0-21",
    ),
    (
        "module M = M : S :> T",
        " (module M@7-8 (project %0@11-21 (struct (module %1@11-21 (project %0@11-16 (struct (module %1@11-16 (M@11-12)@11-12)@11-16 (module %2@11-16 (fun %3@11-16 (path (S@15-16)@15-16)@15-16 (%3@11-16)@11-16)@11-16)@11-16 (module %0@11-16 (apply %2@11-16 %1@11-12)@11-16)@11-16)@11-16)@11-16)@11-21 (module %0@11-21 (seal %1@11-16 (path (T@20-21)@20-21)@20-21)@11-21)@11-21)@11-21)@11-21)@0-21",
    ),
    (
        "module M = F A :> S",
        " (module M@7-8 (project %0@11-19 (struct (module %1@11-19 (project %0@11-14 (struct (module %1@11-14 (F@11-12)@11-12)@11-14 (module %2@11-14 (A@13-14)@13-14)@11-14 (module %0@11-14 (apply %1@11-12 %2@13-14)@11-14)@11-14)@11-14)@11-14)@11-19 (module %0@11-19 (seal %1@11-14 (path (S@18-19)@18-19)@18-19)@11-19)@11-19)@11-19)@11-19)@0-19",
    ),
    (
        "module M = let in N end",
        " (module M@7-8 (project %0@11-23 (struct (module %0@11-23 (N@18-19)@18-19)@11-23)@11-23)@11-23)@0-23",
    ),
    (
        "module M = let val x = 1 module N = A in N end",
        " (module M@7-8 (project %0@11-46 (struct (val x@19-20 (1)@23-24)@15-24 (module N@32-33 (A@36-37)@36-37)@25-37 (module %0@11-46 (N@41-42)@41-42)@11-46)@11-46)@11-46)@0-46",
    ),
    ("module M = (N)", " (module M@7-8 (N@12-13)@11-14)@0-14"),
    (
        "module M = (F A)",
        " (module M@7-8 (project %0@12-15 (struct (module %1@12-15 (F@12-13)@12-13)@12-15 (module %2@12-15 (A@14-15)@14-15)@12-15 (module %0@12-15 (apply %1@12-13 %2@14-15)@12-15)@12-15)@12-15)@11-16)@0-16",
    ),
    (
        "module M = ((struct end) :> S)",
        " (module M@7-8 (project %0@12-29 (struct (module %1@12-29 (struct)@12-24)@12-29 (module %0@12-29 (seal %1@12-24 (path (S@28-29)@28-29)@28-29)@12-29)@12-29)@12-29)@11-30)@0-30",
    ),
    (
        "module M = fun (X : S) => X :> T",
        " (module M@7-8 (fun X@16-17 (path (S@20-21)@20-21)@20-21 (project %0@26-32 (struct (module %1@26-32 (X@26-27)@26-27)@26-32 (module %0@26-32 (seal %1@26-27 (path (T@31-32)@31-32)@31-32)@26-32)@26-32)@26-32)@26-32)@11-32)@0-32",
    ),
];

// Expressions and their derived forms.
const EXPRESSIONS: [(&str, &str); 51] = [
    ("val x = 0", " (val x@4-5 (0)@8-9)@0-9"),
    ("val x = ~7", " (val x@4-5 (-7)@8-10)@0-10"),
    (
        "val x = \"a\\\"b\\\\\"",
        " (val x@4-5 (text a\"b\\)@8-16)@0-16",
    ),
    ("val x = true", " (val x@4-5 (true)@8-12)@0-12"),
    ("val x = false", " (val x@4-5 (false)@8-13)@0-13"),
    (
        "val x = A.b.c",
        " (val x@4-5 (path (project c@12-13 (project b@10-11 (A@8-9)@8-9)@8-11)@8-13)@8-13)@0-13",
    ),
    ("val x = {}", " (val x@4-5 (rec)@8-10)@0-10"),
    (
        "val x = {a = 1}",
        " (val x@4-5 (rec a@9-10 (1)@13-14)@8-15)@0-15",
    ),
    (
        "val x = {a = 1, b = {c = true}}",
        " (val x@4-5 (rec a@9-10 (1)@13-14 b@16-17 (rec c@21-22 (true)@25-29)@20-30)@8-31)@0-31",
    ),
    (
        "val x = fun (y : Int) => y",
        " (val x@4-5 (fn y@13-14 (int)@17-20 (path (y@25-26)@25-26)@25-26)@8-26)@0-26",
    ),
    (
        "val x = fun [a : Type] => 1",
        " (val x@4-5 (tfn a@13-14 * (1)@26-27)@8-27)@0-27",
    ),
    (
        "val x = fix f (y : Int) : Bool => f y",
        " (val x@4-5 (fix f@12-13 y@15-16 (int)@19-22 (bool)@26-30 (call (path (f@34-35)@34-35)@34-35 (path (y@36-37)@36-37)@36-37)@34-37)@8-37)@0-37",
    ),
    (
        "val x = if true then 1 else 2",
        " (val x@4-5 (if (true)@11-15 (1)@21-22 (2)@28-29)@8-29)@0-29",
    ),
    (
        "val x = 1 + 2 - 3",
        " (val x@4-5 (ops (1)@8-9 + (2)@12-13 - (3)@16-17)@8-17)@0-17",
    ),
    (
        "val x = 1 * 2 / 3 % 4",
        " (val x@4-5 (ops (1)@8-9 * (2)@12-13 / (3)@16-17 % (4)@20-21)@8-21)@0-21",
    ),
    (
        "val x = 1 + 2 * 3 - 4",
        " (val x@4-5 (ops (1)@8-9 + (ops (2)@12-13 * (3)@16-17)@12-17 - (4)@20-21)@8-21)@0-21",
    ),
    (
        "val x = 1 < 2",
        " (val x@4-5 (ops (1)@8-9 < (2)@12-13)@8-13)@0-13",
    ),
    (
        "val x = 1 + 2 == 3",
        " (val x@4-5 (ops (ops (1)@8-9 + (2)@12-13)@8-13 == (3)@17-18)@8-18)@0-18",
    ),
    (
        "val x = (1 < 2) == true",
        " (val x@4-5 (ops (ops (1)@9-10 < (2)@13-14)@8-15 == (true)@19-23)@8-23)@0-23",
    ),
    (
        "val x = f y",
        " (val x@4-5 (call (path (f@8-9)@8-9)@8-9 (path (y@10-11)@10-11)@10-11)@8-11)@0-11",
    ),
    (
        "val x = f y z",
        " (val x@4-5 (call (path (f@8-9)@8-9)@8-9 (path (y@10-11)@10-11)@10-11 (path (z@12-13)@12-13)@12-13)@8-13)@0-13",
    ),
    (
        "val x = f [Int]",
        " (val x@4-5 (call (path (f@8-9)@8-9)@8-9 [(int)@11-14]@10-15)@8-15)@0-15",
    ),
    (
        "val x = f y [Int -> Bool] z",
        " (val x@4-5 (call (path (f@8-9)@8-9)@8-9 (path (y@10-11)@10-11)@10-11 [(-> (int)@13-16 (bool)@20-24)@13-24]@12-25 (path (z@26-27)@26-27)@26-27)@8-27)@0-27",
    ),
    (
        "val x = f g#a h",
        " (val x@4-5 (call (path (f@8-9)@8-9)@8-9 (get a@12-13 (path (g@10-11)@10-11)@10-11)@10-13 (path (h@14-15)@14-15)@14-15)@8-15)@0-15",
    ),
    (
        "val x = r#a#b",
        " (val x@4-5 (get b@12-13 (get a@10-11 (path (r@8-9)@8-9)@8-9)@8-11)@8-13)@0-13",
    ),
    (
        "val x = (f y) z",
        " (val x@4-5 (call (call (path (f@9-10)@9-10)@9-10 (path (y@11-12)@11-12)@11-12)@8-13 (path (z@14-15)@14-15)@14-15)@8-15)@0-15",
    ),
    (
        "val x = let in 1 end",
        " (val x@4-5 (path (project %0@8-20 (struct (val %0@8-20 (1)@15-16)@8-20)@8-20)@8-20)@8-20)@0-20",
    ),
    (
        "val x = let val y = 1 type t = Int in y end",
        " (val x@4-5 (path (project %0@8-43 (struct (val y@16-17 (1)@20-21)@12-21 (type t@27-28 (int)@31-34)@22-34 (val %0@8-43 (path (y@38-39)@38-39)@38-39)@8-43)@8-43)@8-43)@8-43)@0-43",
    ),
    (
        "val x = pack M : S",
        " (val x@4-5 (path (project %0@8-18 (struct (module %1@8-18 (M@13-14)@13-14)@8-18 (val %0@8-18 (pack %1@13-14 (path (S@17-18)@17-18)@17-18)@8-18)@8-18)@8-18)@8-18)@8-18)@0-18",
    ),
    (
        "val x = pack struct end : (S)",
        " (val x@4-5 (path (project %0@8-29 (struct (module %1@8-29 (struct)@13-23)@8-29 (val %0@8-29 (pack %1@13-23 (path (S@27-28)@27-28)@26-29)@8-29)@8-29)@8-29)@8-29)@8-29)@0-29",
    ),
    (
        "val x = pack M : S 1",
        " (val x@4-5 (call (path (project %0@8-18 (struct (module %1@8-18 (M@13-14)@13-14)@8-18 (val %0@8-18 (pack %1@13-14 (path (S@17-18)@17-18)@17-18)@8-18)@8-18)@8-18)@8-18)@8-18 (1)@19-20)@8-20)@0-20",
    ),
    ("val x = (1)", " (val x@4-5 (1)@8-11)@0-11"),
    (
        "val x = ((1 + 2))",
        " (val x@4-5 (ops (1)@10-11 + (2)@14-15)@8-17)@0-17",
    ),
    (
        "val x = from (struct val y = 1 end).y",
        " (val x@4-5 (path (project y@36-37 (struct (val y@25-26 (1)@29-30)@21-30)@14-34)@8-37)@8-37)@0-37",
    ),
    (
        "val x = f (fun (y : Int) => y) 1",
        " (val x@4-5 (call (path (f@8-9)@8-9)@8-9 (fn y@16-17 (int)@20-23 (path (y@28-29)@28-29)@28-29)@10-30 (1)@31-32)@8-32)@0-32",
    ),
    (
        "val x = inj a 1 : t",
        " (val x@4-5 (inj a@12-13 (1)@14-15 (path (t@18-19)@18-19)@18-19)@8-19)@0-19",
    ),
    (
        "val o = inj some 3 : case {none : {}, some : Int}",
        " (val o@4-5 (inj some@12-16 (3)@17-18 (sum none@27-31 (rec)@34-36 some@38-42 (int)@45-48)@21-49)@8-49)@0-49",
    ),
    (
        "val x = f inj a 1 : t 2",
        " (val x@4-5 (call (path (f@8-9)@8-9)@8-9 (inj a@14-15 (1)@16-17 (path (t@20-21)@20-21)@20-21)@10-21 (2)@22-23)@8-23)@0-23",
    ),
    (
        "val x = inj a inj b 1 : u : t",
        " (val x@4-5 (inj a@12-13 (inj b@18-19 (1)@20-21 (path (u@24-25)@24-25)@24-25)@14-25 (path (t@28-29)@28-29)@28-29)@8-29)@0-29",
    ),
    (
        "val x = inj a 1 : t#b",
        " (val x@4-5 (get b@20-21 (inj a@12-13 (1)@14-15 (path (t@18-19)@18-19)@18-19)@8-19)@8-21)@0-21",
    ),
    (
        "val x = roll 1 : t",
        " (val x@4-5 (roll (1)@13-14 (path (t@17-18)@17-18)@17-18)@8-18)@0-18",
    ),
    (
        "val empty = roll (inj nil {} : cell) : list",
        " (val empty@4-9 (roll (inj nil@22-25 (rec)@26-28 (path (cell@31-35)@31-35)@31-35)@17-36 (path (list@39-43)@39-43)@39-43)@12-43)@0-43",
    ),
    (
        "val x = unroll 1",
        " (val x@4-5 (unroll (1)@15-16)@8-16)@0-16",
    ),
    (
        "val x = unroll y#a",
        " (val x@4-5 (get a@17-18 (unroll (path (y@15-16)@15-16)@15-16)@8-16)@8-18)@0-18",
    ),
    (
        "val x = unroll roll 1 : t",
        " (val x@4-5 (unroll (roll (1)@20-21 (path (t@24-25)@24-25)@24-25)@15-25)@8-25)@0-25",
    ),
    (
        "val x = case y : Int of {}",
        " (val x@4-5 (case (path (y@13-14)@13-14)@13-14 (int)@17-20)@8-26)@0-26",
    ),
    (
        "val y = case o : Int of {none (u) => 0, some (n) => n + 1}",
        " (val y@4-5 (case (path (o@13-14)@13-14)@13-14 (int)@17-20 none@25-29 u@31-32 (0)@37-38 some@40-44 n@46-47 (ops (path (n@52-53)@52-53)@52-53 + (1)@56-57)@52-57)@8-58)@0-58",
    ),
    (
        "val x = case 1 + 2 : Int -> Int of {a (b) => b, c (d) => 4}",
        " (val x@4-5 (case (ops (1)@13-14 + (2)@17-18)@13-18 (-> (int)@21-24 (int)@28-31)@21-31 a@36-37 b@39-40 (path (b@45-46)@45-46)@45-46 c@48-49 d@51-52 (4)@57-58)@8-59)@0-59",
    ),
    (
        "val x = case inj a 1 : t : Int of {}",
        " (val x@4-5 (case (inj a@17-18 (1)@19-20 (path (t@23-24)@23-24)@23-24)@13-24 (int)@27-30)@8-36)@0-36",
    ),
    (
        "val x = case y : Int of {a (b) => case b : Int of {c (d) => d}}",
        " (val x@4-5 (case (path (y@13-14)@13-14)@13-14 (int)@17-20 a@25-26 b@28-29 (case (path (b@39-40)@39-40)@39-40 (int)@43-46 c@51-52 d@54-55 (path (d@60-61)@60-61)@60-61)@34-62)@8-63)@0-63",
    ),
    (
        "val x = (case y : Int of {}) z",
        " (val x@4-5 (call (case (path (y@14-15)@14-15)@14-15 (int)@18-21)@8-28 (path (z@29-30)@29-30)@29-30)@8-30)@0-30",
    ),
];

// How many tokens of each begin some program.
const REFUSED: [(&str, u32); 42] = [
    ("val", 1),
    ("val x", 2),
    ("val x = )", 3),
    ("val x = 1 < 2 < 3", 6),
    ("module M = struct", 4),
    ("val x = 1 +", 5),
    ("val x = f [", 5),
    ("type t = fun", 4),
    ("module M = M :>", 5),
    ("signature S = sig val", 5),
    ("val x = if 1 then 2", 7),
    ("val x = {a = 1,}", 8),
    ("type t = {,}", 4),
    ("signature S = T where t = Int", 5),
    ("module M = from M.x", 4),
    ("val x = 1 )", 4),
    ("val x = pack M", 5),
    ("signature S = fun (X : A) B", 9),
    ("end", 0),
    ("= 1", 0),
    ("val x = fix f y", 5),
    ("val x = fun y", 4),
    ("type t = [a] -> a", 5),
    ("val x = r#1", 5),
    ("module A : S = struct end", 2),
    ("val x = case", 4),
    ("val x = case y of {}", 5),
    ("val x = case y : Int {}", 9),
    ("val x = case y : Int of {a => 1}", 10),
    ("val x = case y : Int of {a (b) -> 1}", 13),
    ("val x = case y : Int of {a (b) => 1,}", 16),
    ("val x = f case y : Int of {}", 4),
    ("val x = inj 3 : t", 4),
    ("val x = inj a f 3 : t", 6),
    ("val x = inj a 3 : t -> u", 8),
    ("val x = roll 1", 5),
    ("val x = unroll [Int]", 4),
    ("val data = 1", 1),
    ("data t : Type", 2),
    ("signature S = sig data t end", 6),
    ("type t = case Int", 4),
    ("type t = case {a}", 6),
];

const SUM_OF_A_LIST: &str =
    "data list = case {cons : {head : Int, tail : list}, nil : {}} type cell = case {cons : {head : Int, tail : list}, nil : {}} val empty = roll (inj nil {} : cell) : list val one = roll (inj cons {head = 7, tail = empty} : cell) : list val sum = fix go (l : list) : Int => case unroll l : Int of {cons (c) => c#head + go c#tail, nil (u) => 0} val y = sum one";

// Sources with their numbers of tokens, and how many tokens the fronts have that are programs.
const FRONTS: [(&str, u32, &[u32]); 11] = [
    (
        "val o = inj some 3 : case {none : {}, some : Int} val y = case o : Int of {none (u) => 0, some (n) => n + 1}",
        43,
        &[0, 18, 43],
    ),
    (
        "val o = inj some 3 : case {none : {}, some : Int} val y = case o : Int of {none (u) => 0}",
        34,
        &[0, 18, 34],
    ),
    ("val o = inj a 1 : Int", 8, &[0, 8]),
    ("data t = t val f = fun (x : t) => x", 15, &[0, 4, 15]),
    (SUM_OF_A_LIST, 125, &[0, 22, 44, 58, 79, 120, 124, 125]),
    (
        "signature S = sig data list = case {cons : list, nil : {}} val empty : list end",
        23,
        &[0, 23],
    ),
    ("val empty = roll (inj nil {} : cell) : list", 14, &[0, 14]),
    ("val x = unroll 1", 5, &[0, 5]),
    ("val x = case y : Int of {}", 10, &[0, 10]),
    ("val x = inj a 1 : case {}", 10, &[0, 10]),
    ("type t = case {}", 6, &[0, 6]),
];

// What the parser makes of a source.
fn parsed(
    rt: &impl Abort,
    alloc: Global,
    source: &[u8],
) -> Result<Result<Program, ParseRefusal>, Fail> {
    assert!(rt; source.len() <= SOURCE_LIMIT);
    let found = tokens(alloc, source)?;
    assert!(rt; found.len() <= SOURCE_LIMIT);
    Ok(program(alloc, &found))
}

// Each source has its tree.
fn have_trees(rt: &impl Abort, alloc: Global, cases: &[(&str, &str)]) -> Result<(), Fail> {
    for (source, tree) in cases {
        let found = parsed(rt, alloc, source.as_bytes())??;
        assert!(rt; are_written(&found.binds, tree.as_bytes()), "at {source}");
    }
    Ok(())
}

#[test]
fn bindings(rt: HostRuntime) -> Result<(), Fail> {
    have_trees(&rt, rt.alloc(), &BINDINGS)
}

#[test]
fn declarations(rt: HostRuntime) -> Result<(), Fail> {
    have_trees(&rt, rt.alloc(), &DECLARATIONS)
}

#[test]
fn types(rt: HostRuntime) -> Result<(), Fail> {
    have_trees(&rt, rt.alloc(), &TYPES)
}

#[test]
fn modules(rt: HostRuntime) -> Result<(), Fail> {
    have_trees(&rt, rt.alloc(), &MODULES)
}

#[test]
fn expressions(rt: HostRuntime) -> Result<(), Fail> {
    have_trees(&rt, rt.alloc(), &EXPRESSIONS)
}

#[test]
fn refused(rt: HostRuntime) -> Result<(), Fail> {
    for (source, at) in REFUSED {
        let refusal = parsed(&rt, rt.alloc(), source.as_bytes())?.err();
        assert_eq!(rt; refusal, Some(ParseRefusal::Syntax { at }), "at {source}");
    }
    Ok(())
}

// Each front of a source that is no program begins one.
#[test]
fn fronts(rt: HostRuntime) -> Result<(), Fail> {
    for (source, count, programs) in FRONTS {
        let bytes = source.as_bytes();
        assert!(rt; bytes.len() <= SOURCE_LIMIT);
        let found = tokens(rt.alloc(), bytes)?;
        assert_eq!(rt; found.len(), count as usize, "at {source}");
        for at in 0..=count {
            assert!(rt; at as usize <= found.len());
            let front = &found[..at as usize];
            assert!(rt; front.len() <= SOURCE_LIMIT);
            let refusal = program(rt.alloc(), front).err();
            let wanted = if programs.contains(&at) {
                None
            } else {
                Some(ParseRefusal::Syntax { at })
            };
            assert_eq!(rt; refusal, wanted, "in front of token {at} of {source}");
        }
    }
    Ok(())
}

// How many bindings the program has.
fn bindings_of(rt: &impl Abort, alloc: Global, source: &str) -> Result<usize, Fail> {
    Ok(parsed(rt, alloc, source.as_bytes())??.binds.len())
}

// How often a front comes before `1`, and as often an end behind it.
const DEEP: [(usize, &str, &str); 3] = [
    (996, "(", ")"),
    (240, "let val x = ", " in x end"),
    (190, "if true then 1 else ", ""),
];

// A source of this form, behind `val x = `.
fn nested(alloc: Global, depth: usize, front: &str, end: &str) -> Result<String, Fail> {
    let fronts = front.repeat(alloc, depth)?;
    let ends = end.repeat(alloc, depth)?;
    Ok(format!(in alloc; "val x = {fronts}1{ends}")?)
}

#[test]
fn deep_sources_have_trees(rt: HostRuntime) -> Result<(), Fail> {
    for (depth, front, end) in DEEP {
        let source = nested(rt.alloc(), depth, front, end)?;
        assert_eq!(rt; bindings_of(&rt, rt.alloc(), &source)?, 1, "at {front}");
    }
    Ok(())
}

// Structures of 80 bindings.
fn structures(alloc: Global, count: usize) -> Result<String, Fail> {
    let lines = "val x = f y + 2\n".repeat(alloc, 80)?;
    let structure = format!(in alloc; "module M = struct\n{lines}end\n")?;
    Ok(structure.repeat(alloc, count)?)
}

// As many as 1 MiB holds.
#[test]
fn a_long_source_has_a_tree(rt: HostRuntime) -> Result<(), Fail> {
    let source = structures(rt.alloc(), 805)?;
    assert_eq!(rt; source.len(), 1048110);
    assert_eq!(rt; bindings_of(&rt, rt.alloc(), &source)?, 805);
    Ok(())
}

const REALISTIC: &str =
    "signature ORD = sig type t val less : t -> t -> Bool end\nsignature SET = sig\n  type elem\n  type set\n  val empty : set\n  val insert : elem -> set -> set\n  val member : elem -> set -> Bool\n  val size : set -> Int\nend\nmodule IntUp = struct\n  type t = Int\n  val less = fun (x : Int) => fun (y : Int) => x < y\nend\nmodule IntDown = struct\n  type t = Int\n  val less = fun (x : Int) => fun (y : Int) => y < x\nend\n-- a set is its own fold\nmodule MakeSet = fun (O : ORD) => struct\n  type elem = O.t\n  type set = [r : Type] -> (elem -> r -> r) -> r -> r\n  val empty = fun [r : Type] => fun (c : elem -> r -> r) => fun (n : r) => n\n  val same = fun (x : elem) => fun (y : elem) =>\n    if O.less x y then false else if O.less y x then false else true\n  val member = fun (x : elem) => fun (s : set) =>\n    s [Bool] (fun (y : elem) => fun (found : Bool) => if same x y then true else found) false\n  val size = fun (s : set) => s [Int] (fun (y : elem) => fun (k : Int) => k + 1) 0\n  val insert = fun (x : elem) => fun (s : set) =>\n    if member x s then s\n    else fun [r : Type] => fun (c : elem -> r -> r) => fun (n : r) => c x (s [r] c n)\nend :> SET where type elem = O.t\nmodule Up = MakeSet IntUp\nmodule Up2 = MakeSet IntUp\nmodule Down = MakeSet IntDown\nval one = Up.insert 3 Up.empty\nval two = Up2.insert 4 one\nval n = Up.size two\nval fill = fix go (k : Int) : Up.set =>\n  if k < 1 then Up.empty else Up.insert k (go (k - 1))\nval twenty = Up.size (fill 20)\nsignature COUNTER = sig type c val start : c val next : c -> c val read : c -> Int end\nmodule Plain = struct\n  type c = Int\n  val start = 0\n  val next = fun (x : Int) => x + 1\n  val read = fun (x : Int) => x\nend\nmodule Pairs = struct\n  type c = {steps : Int, by : Int}\n  val start = {steps = 0, by = 2}\n  val next = fun (x : c) => {steps = x#steps + 1, by = x#by}\n  val read = fun (x : c) => x#steps * x#by\nend\nval fast = true\nval chosen = if fast then pack Pairs : COUNTER else pack Plain : COUNTER\nmodule C = unpack chosen : COUNTER\nval reading = C.read (C.next (C.next C.start))\n";

#[test]
fn the_realistic_program_has_a_tree(rt: HostRuntime) -> Result<(), Fail> {
    assert_eq!(rt; bindings_of(&rt, rt.alloc(), REALISTIC)?, 20);
    Ok(())
}
