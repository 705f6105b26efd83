// How an accepted program is shown.
use show_figures::Form;

/// What is shown of an accepted program, and in which notation.
#[derive(Clone, Copy, Debug, PartialEq, Eq)]
pub enum View {
    /// The effect and the signature, in the syntax of a source and in its order, one declaration a line.
    Source,
    /// The effect and the signature, in the notation of the literature and in the order of the source, as text.
    Paper,
    /// The same in LaTeX for math mode.
    Latex,
    /// The whole term, in the notation of the literature, as text.
    Term,
    /// The same in LaTeX for math mode.
    TermLatex,
    /// The type and the whole term as Omega text, with line breaks and comments.
    TermOmega,
    /// The smallest phrase at a line and a column, both counted from 1, and its type, kind or signature.
    Phrase { line: u64, column: u64 },
    /// The run of the whole term within a budget of steps: the first steps, no more than `shown`, and the end.
    Steps { shown: u64, budget: u64 },
    /// The tree of the rules that derive it, in a form.
    Derivation(Form),
}
