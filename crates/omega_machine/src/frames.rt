// Evaluation contexts: a closed term with a hole, as a list of frames, the outermost first.
ghost use Rattle.std.specs.Prelude.{◌≡◌, IfOk};

use omega_kinds::{Label, Mem};
use omega_terms::{Op, Term, TermFields};
use omega_types::Ty;

/// A form with a hole, which has another part to reduce after the hole, or is a value once the hole is.
#[derive(Drop)]
pub enum Waiting {
    /// a call's function, with the argument
    Function(Term),
    /// an operator's left side, with the right one
    Left(Op, Term),
    /// a package's body, with its types
    Packed(Ty, Ty),
    /// the next field of the record, with the values of the fields before it
    Field(Term, TermFields),
    /// what is injected, with its label and the type
    Injected(Label, Ty),
    /// what is rolled, with the type
    Rolled(Ty),
}

/// A form with a hole, which makes a step or a fault once a value stands in it.
#[derive(Drop)]
pub enum Ready {
    /// a call's argument, with the function
    Argument(Term),
    /// the function that is applied to the type
    Instance(Ty),
    /// the record of which the label is taken
    Part(Label),
    /// the package that is opened in the body
    Opened(Term),
    /// the test before both branches
    Test(Term, Term),
    /// an operator's right side, with the left one
    Right(Op, Term),
    /// the injected part that a case takes apart, with the whole case
    Cased(Term),
    /// what is unrolled
    Unrolled,
}

impl Ready {
    // The same form, with its parts shared. `Err` is out of memory.
    pub(crate) fn share(&self) -> Result<Ready, Mem>
        ensures { IfOk result (λ f. f ≡ self.now) }
    {
        match self {
            Ready::Argument(function) => Ok(Ready::Argument(function.share()?)),
            Ready::Instance(ty) => Ok(Ready::Instance(ty.share()?)),
            Ready::Part(label) => Ok(Ready::Part(label.share()?)),
            Ready::Opened(body) => Ok(Ready::Opened(body.share()?)),
            Ready::Test(yes, no) => Ok(Ready::Test(yes.share()?, no.share()?)),
            Ready::Right(op, left) => Ok(Ready::Right(*op, left.share()?)),
            Ready::Cased(whole) => Ok(Ready::Cased(whole.share()?)),
            Ready::Unrolled => Ok(Ready::Unrolled),
        }
    }
}

/// A form with a hole.
#[derive(Drop)]
pub enum Frame {
    Waiting(Waiting),
    Ready(Ready),
}

/// What stands in the hole: any term, or one that is known to be a value.
#[derive(Drop)]
pub(crate) enum Focus {
    Term(Term),
    Value(Term),
}
