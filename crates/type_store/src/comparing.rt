// Comparison of numbered types with trees.
ghost use Rattle.std.specs.Prelude.{◌≡◌, ◌↔◌, ◌<◌, IsTrue, length};
ghost use Rattle.omega_types.specs.Fields.{row};
ghost use Rattle.type_store.specs.Trees.{ArePartsBelow, at, row_at};

use crate::node::Form;
use crate::types::Types;
use omega_kinds::{Label, same_kind, same_label};
use omega_types::{Ty, TyFields, TyNode};

impl Types {
    /// Whether the type at a number is this tree. Takes no memory, and hashes nothing.
    #[cycle(is_tree)]
    pub fn is_tree(&self, number: u64, ty: &Ty) -> bool
        requires { number < length self.now }
        ensures { IsTrue result ↔ at self.now number ≡ ty.now }
    {
        match (self.form(number), ty.node()) {
            (Form::Var(i), TyNode::Var(j)) => *i == *j,
            (Form::Int, TyNode::Int) => true,
            (Form::Bool, TyNode::Bool) => true,
            (Form::Text, TyNode::Text) => true,
            (Form::Arrow(a, b), TyNode::Arrow(c, d)) => {
                let is_once = *a == *b && ty.both_sides().is_some();
                self.is_tree(*a, c) && (is_once || self.is_tree(*b, d))
            }
            (Form::Fields(a), TyNode::Fields(b)) => self.are_parts(a.as_slice(), b),
            (Form::Sum(a), TyNode::Sum(b)) => self.are_parts(a.as_slice(), b),
            (Form::All(j, a), TyNode::All(k, b)) => same_kind(j, k) && self.is_tree(*a, b),
            (Form::Ex(j, a), TyNode::Ex(k, b)) => same_kind(j, k) && self.is_tree(*a, b),
            (Form::Mu(a), TyNode::Mu(b)) => self.is_tree(*a, b),
            (Form::Lam(j, a), TyNode::Lam(k, b)) => same_kind(j, k) && self.is_tree(*a, b),
            (Form::Apply(a, b), TyNode::Apply(c, d)) => {
                self.is_tree(*a, c) && self.is_tree(*b, d)
            }
            _ => false,
        }
    }

    // Whether the parts have the labels and types of these fields.
    #[cycle(is_tree)]
    fn are_parts(&self, parts: &[(Label, u64)], fields: &TyFields) -> bool
        requires { ArePartsBelow (length self.now) parts.now }
        ensures { IsTrue result ↔ row_at self.now parts.now ≡ row fields.now }
    {
        let fields = fields.items();
        if parts.len() != fields.len() {
            return false;
        }
        for i in 0..parts.len() {
            let part = &parts[i];
            let field = &fields[i];
            if !same_label(&part.0, &field.0) {
                return false;
            }
            if !self.is_tree(part.1, &field.1) {
                return false;
            }
        }
        true
    }
}
