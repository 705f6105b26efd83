// Nodes: the outermost form of a type, with numbers for its parts.
ghost use Rattle.std.specs.Prelude.{◌≡◌, ◌↔◌, IsTrue};
ghost use Rattle.type_store.specs.Inner.Feed.{fed_shape};
ghost use Rattle.type_store.specs.Shape.{shape_eq};
ghost use Rattle.type_store.specs.Inner.View.{shape_of};
ghost use Rattle.type_store.specs.Inner.ShapeLaws.{shape_laws, shape_part_laws, shape_alike};

use crate::digest::digest_of;
use omega_kinds::{Kind, Label, same_kind, same_label};
use std::hash::{Hash, Hasher};
use std::marker::Model;

/// The outermost form of a type, with the number of each of its parts.
/// `All`, `Ex` and `Lam` bind one variable of the kind that stands there, and `Mu` one of kind `*`, which is index 0 in the
/// part.
#[derive(Drop)]
pub enum Form {
    Var(u64),
    Int,
    Bool,
    Text,
    Arrow(u64, u64),
    Fields(Vec<(Label, u64)>),
    Sum(Vec<(Label, u64)>),
    All(Kind, u64),
    Ex(Kind, u64),
    Mu(u64),
    Lam(Kind, u64),
    Apply(u64, u64),
}

/// A form that can be looked up. Contracts see it as its shape, in which kinds and labels are plain.
#[derive(Drop)]
pub struct Node {
    form: Form,
}

impl Model for Node {
    ghost use Rattle.type_store.specs.Shape.{Shape};
    ghost use Rattle.type_store.specs.Inner.Code.{shape_code};

    ghost Value = { Shape };

    ghost coded = { shape_code };

    ghost use Rattle.type_store.specs.Inner.View.{shape_of};

    ghost view = { λ n. shape_of n.form };
}

impl Node {
    /// The node of a form. Takes no memory.
    pub fn of(form: Form) -> Node
        ensures { result ≡ shape_of form }
    {
        Node { form }
    }

    /// The form of a node. Takes no memory.
    pub fn form(&self) -> &Form
        ensures { shape_of result.now ≡ self.now }
    {
        &self.form
    }
}

impl PartialEq for Node {
    ghost eq = { shape_eq };

    ghost laws = { shape_part_laws };

    fn eq(&self, other: &Node) -> bool {
        same_form(&self.form, &other.form)
    }
}

impl Eq for Node {
    ghost laws = { shape_laws };
}

impl Hash for Node {
    ghost hash_input = { fed_shape };

    ghost respects_eq = { shape_alike };

    fn hash<H: Hasher>(&self, state: &mut H) {
        state.write_u64(digest_of(&self.form));
    }
}

// Whether two forms are the same, with the same numbers.
pub(crate) fn same_form(left: &Form, right: &Form) -> bool
    ensures { result ≡ shape_eq (shape_of left.now) (shape_of right.now) }
{
    match (left, right) {
        (Form::Var(i), Form::Var(j)) => *i == *j,
        (Form::Int, Form::Int) => true,
        (Form::Bool, Form::Bool) => true,
        (Form::Text, Form::Text) => true,
        (Form::Arrow(a, b), Form::Arrow(c, d)) => *a == *c && *b == *d,
        (Form::Fields(a), Form::Fields(b)) => same_parts(a.as_slice(), b.as_slice()),
        (Form::Sum(a), Form::Sum(b)) => same_parts(a.as_slice(), b.as_slice()),
        (Form::All(j, a), Form::All(k, b)) => *a == *b && same_kind(j, k),
        (Form::Ex(j, a), Form::Ex(k, b)) => *a == *b && same_kind(j, k),
        (Form::Mu(a), Form::Mu(b)) => *a == *b,
        (Form::Lam(j, a), Form::Lam(k, b)) => *a == *b && same_kind(j, k),
        (Form::Apply(a, b), Form::Apply(c, d)) => *a == *c && *b == *d,
        _ => false,
    }
}

// Whether two records have the same labels and numbers.
fn same_parts(left: &[(Label, u64)], right: &[(Label, u64)]) -> bool
    ensures { IsTrue result ↔ left.now ≡ right.now }
{
    if left.len() != right.len() {
        return false;
    }
    for i in 0..left.len() {
        let a = &left[i];
        let b = &right[i];
        if a.1 != b.1 || !same_label(&a.0, &b.0) {
            return false;
        }
    }
    true
}
