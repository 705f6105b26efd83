// The parts of numbered records and sums, and copies of forms.
ghost use Rattle.std.specs.Prelude.{◌≡◌, ◌<◌, IfOk, length};
ghost use Rattle.type_store.specs.Inner.View.{shape_of};
ghost use Rattle.type_store.specs.Numbers.{NumberOf, field_type, variant_type};
ghost use Rattle.type_store.specs.Trees.{at};

use crate::node::Form;
use crate::types::Types;
use omega_kinds::{Label, Mem};
use omega_types::part_at;
use std::alloc::Global;

impl Types {
    /// The number of the type at a label of a record; `None` where it is no record or has no such label.
    /// Takes no memory.
    pub fn field(&self, whole: u64, label: &Label) -> Option<u64>
        requires { whole < length self.now }
        ensures { NumberOf self.now result (field_type (at self.now whole) label.now) }
    {
        match self.form(whole) {
            Form::Fields(parts) => part_at(parts.as_slice(), label).copied(),
            _ => None,
        }
    }

    /// The number of the type at a label of a sum; `None` where it is no sum or has no such label. Takes no memory.
    pub fn variant(&self, whole: u64, label: &Label) -> Option<u64>
        requires { whole < length self.now }
        ensures { NumberOf self.now result (variant_type (at self.now whole) label.now) }
    {
        match self.form(whole) {
            Form::Sum(parts) => part_at(parts.as_slice(), label).copied(),
            _ => None,
        }
    }
}

/// The same labels and numbers. `Err` is out of memory.
pub fn copied(alloc: Global, parts: &[(Label, u64)]) -> Result<Vec<(Label, u64)>, Mem>
    ensures { IfOk result (λ c. c.items ≡ parts.now) }
{
    let mut copied = Vec::with_capacity(alloc, parts.len())?;
    for part in parts {
        copied.push((part.0.share()?, part.1))?;
    }
    Ok(copied)
}

// A copy of a form. `Err` is out of memory.
#[inline(never)]
pub(crate) fn form_copied(alloc: Global, form: &Form) -> Result<Form, Mem>
    ensures { IfOk result (λ f. shape_of f ≡ shape_of form.now) }
{
    match form {
        Form::Var(index) => Ok(Form::Var(*index)),
        Form::Int => Ok(Form::Int),
        Form::Bool => Ok(Form::Bool),
        Form::Text => Ok(Form::Text),
        Form::Arrow(a, b) => Ok(Form::Arrow(*a, *b)),
        Form::Fields(parts) => Ok(Form::Fields(copied(alloc, parts.as_slice())?)),
        Form::Sum(parts) => Ok(Form::Sum(copied(alloc, parts.as_slice())?)),
        Form::All(k, b) => Ok(Form::All(k.share()?, *b)),
        Form::Ex(k, b) => Ok(Form::Ex(k.share()?, *b)),
        Form::Mu(b) => Ok(Form::Mu(*b)),
        Form::Lam(k, b) => Ok(Form::Lam(k.share()?, *b)),
        Form::Apply(f, a) => Ok(Form::Apply(*f, *a)),
    }
}
