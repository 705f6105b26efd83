// What is said of the reasons why a program means nothing.
use crate::explanation::{Explanation, NEXT_LINE, NO_MEMORY, ROLLED, explained};
use crate::hints::{Around, hint_of, is_recursive};
use fing_refusals::ElabWhy;
use semantic_sigs::{Item, Path, Why};
use type_normal::{NormalTy, plain};

/// What is said of a reason, where this stands around the place of the refusal.
pub fn explanation_of(why: &ElabWhy, around: Around<'_>) -> Explanation {
    let general = explanation_without(why);
    Explanation {
        hint: hint_of(why, around).unwrap_or(general.hint),
        ..general
    }
}

/// Whether the module and the signature exchange their roles at the end of a path: the parameter of a functor asks for what
/// the one in the signature has.
pub fn is_exchanged(path: &Path) -> bool {
    let arguments = path.items().iter().filter(|item| matches!(item, Item::Arg));
    arguments.count() % 2 == 1
}

// Whether a path leads into a signature that is a component.
fn is_in_meta(path: &Path) -> bool {
    path.items().iter().any(|item| matches!(item, Item::Meta))
}

// What is said of a reason, wherever it is.
fn explanation_without(why: &ElabWhy) -> Explanation {
    match why {
        ElabWhy::Unbound(_)
        | ElabWhy::NotStructure
        | ElabWhy::NoPart(_)
        | ElabWhy::NotFunctor
        | ElabWhy::WrongPath
        | ElabWhy::Escapes => of_path(why),
        ElabWhy::NoRoot { .. } | ElabWhy::NotAbstract(_) => of_hidden_type(why),
        ElabWhy::Clash {
            path,
            why: Why::Missing,
        } if is_in_meta(path) => explained(
            "Two signatures must be equivalent, and only one of them has #.",
            "Declare it in both, or in neither.",
            "clash-p-why",
        ),
        ElabWhy::Clash { path, why } if is_exchanged(path) => of_argument(why),
        ElabWhy::Clash { why, .. } => of_clash(why),
        ElabWhy::NotArrow(_) | ElabWhy::NotAll(_) | ElabWhy::NotRecord(_) | ElabWhy::NoField(_) =>
            of_form(why),
        ElabWhy::NotSum(_) | ElabWhy::NotData(_) | ElabWhy::NoBranch(_) => of_sum(why),
        _ => of_type(why),
    }
}

// What is said of paths and of what they lead to.
fn of_path(why: &ElabWhy) -> Explanation {
    match why {
        ElabWhy::Unbound(_) => explained(
            "No earlier binding has the name #.",
            "Bind the name earlier, or name a component with its path, as `M.x`.",
            "unbound-x",
        ),
        ElabWhy::NotStructure => explained(
            "A structure is needed here, and this is not one.",
            "Take a field of a record with `#`, and apply a functor before you take a component of its result.",
            "notstructure",
        ),
        ElabWhy::NoPart(_) => explained(
            "There is no component #.",
            "A sealed module has only the components that its signature declares.",
            "nopart-x",
        ),
        ElabWhy::NotFunctor => explained(
            "This is applied to a module, and it is not a functor.",
            NEXT_LINE,
            "notfunctor",
        ),
        ElabWhy::WrongPath => explained(
            "The path leads to another sort of thing than is needed here.",
            "Values, types, modules and signatures share one namespace: a later binding may hide the one you mean.",
            "wrongpath",
        ),
        _ => explained(
            "This has a type that is hidden inside it, which nothing outside could name.",
            "Return something whose type is known outside, or bind the module on its own and use it after that.",
            "escapes",
        ),
    }
}

// What is said of hidden types that are looked for.
fn of_hidden_type(why: &ElabWhy) -> Explanation {
    match why {
        ElabWhy::NotAbstract(_) => explained(
            "The signature has no abstract type at #.",
            "Remove the `where type`, or the `= ..` in the signature.",
            "notabstract-p",
        ),
        ElabWhy::NoRoot { path, .. } if is_exchanged(path) => explained(
            "The functor's parameter hides a type at #, and the one in the signature has no type of this kind there.",
            "Declare a type of this name and kind in the parameter of the signature.",
            "noroot-i-p",
        ),
        _ => explained(
            "The signature hides a type at #, and the module has no type of this kind there.",
            "Bind a type of this name and kind.",
            "noroot-i-p",
        ),
    }
}

// What is said of parts of two signatures that do not agree.
fn of_clash(why: &Why) -> Explanation {
    match why {
        Why::Missing => explained(
            "The signature asks for #, and the module does not have it.",
            "Add it to the module, or remove it from the signature.",
            "clash-p-why",
        ),
        Why::Types(_, _) => explained(
            "What the module has at # has the type #, and the signature asks for #.",
            "A value must match its declaration exactly: there is no instantiation, and no subtyping of records.",
            "clash-p-why",
        ),
        Why::Form => explained(
            "What the module has at # is of another sort than what the signature asks for.",
            "One of the two is, for example, a value, and the other a type.",
            "clash-p-why",
        ),
        Why::Effect => explained(
            "The functor at # is generative, and the signature asks for an applicative one.",
            "Write `->` in the signature, or `fun` for the functor, with a body that opens no package and applies no generative functor.",
            "clash-p-why",
        ),
    }
}

// The same at a path in a functor's parameter, where the roles are exchanged.
fn of_argument(why: &Why) -> Explanation {
    match why {
        Why::Missing => explained(
            "The functor asks for #, and the parameter in the signature does not have it.",
            "Add it to the parameter in the signature, or remove it from that of the functor.",
            "clash-p-why",
        ),
        Why::Types(_, _) => explained(
            "What the parameter in the signature has at # has the type #, and the functor asks for #.",
            "A value must match its declaration exactly: there is no instantiation, and no subtyping of records.",
            "clash-p-why",
        ),
        Why::Form => explained(
            "What the parameter in the signature has at # is of another sort than what the functor asks for.",
            "One of the two is, for example, a value, and the other a type.",
            "clash-p-why",
        ),
        Why::Effect => explained(
            "The functor at # is generative in the signature, and an applicative one is asked for.",
            "Write `=>` in the parameter of the signature, or `->` in that of the functor.",
            "clash-p-why",
        ),
    }
}

// What is said of a type that has another form than its place needs.
fn of_form(why: &ElabWhy) -> Explanation {
    match why {
        ElabWhy::NotArrow(_) => explained(
            "This is applied to an argument, and its type # is not a function type.",
            NEXT_LINE,
            "notarrow-t",
        ),
        ElabWhy::NotAll(_) => explained(
            "This is applied to a type, and its type # is not polymorphic.",
            "Remove the type argument, or define the function with `fun [a : Type] => ..`.",
            "notall-t",
        ),
        ElabWhy::NotRecord(_) => explained(
            "A field is taken of this, and its type # is not a record type.",
            "Components of modules are taken with a dot.",
            "notrecord-t-nofield-x",
        ),
        _ => explained(
            "There is no field or label #.",
            "A record has exactly the fields that its type shows, and a sum exactly the labels.",
            "notrecord-t-nofield-x",
        ),
    }
}

// What is said of sums and of recursive types.
fn of_sum(why: &ElabWhy) -> Explanation {
    match why {
        ElabWhy::NotSum(found) => explained(
            "A sum type is needed here, and # is not one.",
            sum_hint(found),
            "notsum-t-notdata-t-nobranch-x",
        ),
        ElabWhy::NotData(_) => explained(
            "A recursive type is needed here, and # is not one.",
            "Only a value of a recursive type is rolled or unrolled.",
            "notsum-t-notdata-t-nobranch-x",
        ),
        _ => explained(
            "The sum has the label #, and no branch is for it.",
            "Each label of the sum needs a branch.",
            "notsum-t-notdata-t-nobranch-x",
        ),
    }
}

// A hint for a type that is no sum: a recursive type is often one whose values were not unrolled.
fn sum_hint(found: &NormalTy) -> &'static str {
    if is_recursive(found) {
        return ROLLED;
    }
    "A sum type lists the labels of its values, each with a type."
}

// What is said of types, kinds and names that do not fit.
fn of_type(why: &ElabWhy) -> Explanation {
    match why {
        ElabWhy::Differ(found, needed) => explained(
            "This has the type #, and the type # is needed.",
            differ_hint(found, needed),
            "differ-t-t",
        ),
        ElabWhy::KindDiffer(_, _) => explained(
            "This type has the kind #, and the kind # is needed.",
            "Apply a type constructor where a type is needed; where a constructor is needed, give it no arguments.",
            "kinddiffer-k-k-notoperator",
        ),
        ElabWhy::NotOperator => explained(
            "This type is applied to a type, and it is not a type constructor.",
            NEXT_LINE,
            "kinddiffer-k-k-notoperator",
        ),
        ElabWhy::DuplicateField(_) => explained(
            "The field or label # is here twice.",
            "Rename one of the two, or leave it out.",
            "duplicatefield-x-duplicate-x",
        ),
        ElabWhy::Duplicate(_) => explained(
            "The name # is declared twice.",
            "All sorts of names share one namespace: a `type t` and a `val t` cannot both be declared.",
            "duplicatefield-x-duplicate-x",
        ),
        _ => NO_MEMORY,
    }
}

// A hint for two types that differ: about hidden types, where one of the two mentions a type variable in scope.
fn differ_hint(found: &NormalTy, needed: &NormalTy) -> &'static str {
    if plain(found).bound() == 0 && plain(needed).bound() == 0 {
        return "Nothing is converted: the two types must be the same, record types with the same fields.";
    }
    "Nothing is converted. A hidden type is equal only to itself: say what it is with `where type`."
}
