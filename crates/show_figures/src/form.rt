// The forms of pages.

/// How a tree of rules is written: as text, a line a node and indented by the depth; in LaTeX, by `\infer` of the package
/// `proof`; or as a page of HTML, in which each node with parts can be folded.
#[derive(Clone, Copy, Debug, PartialEq, Eq)]
pub enum Form {
    Text,
    Latex,
    Html,
}
