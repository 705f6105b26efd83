// Where a path into a signature leads in a source.
use fing_lexer::{Token, What};
use fing_text::Span;
use omega_kinds::Name;
use semantic_sigs::{Item, Path};
use show_order::Order;

// The last name on a path, with the place of its last declaration, if the source shows it.
pub(crate) fn place_on<'a>(side: Order<'_>, path: &'a Path) -> Option<(&'a Name, Span)> {
    let mut order = side;
    let mut found = None;
    for item in path.items() {
        match item {
            Item::Part(name) => {
                found = named(name, order.place(name));
                order = order.component(name);
            }
            Item::Arg => order = order.parameter(),
            Item::Res => order = order.result(),
            Item::Meta => {}
        }
    }
    found
}

// A name with a place.
fn named(name: &Name, at: Option<Span>) -> Option<(&Name, Span)> {
    let at = at?;
    Some((name, at))
}

// The name that ends at a place.
pub(crate) fn name_before(tokens: &[Token], end: u32) -> Option<&Name> {
    let token = tokens.iter().find(|token| token.span.to == end)?;
    match &token.what {
        What::Ident(name) => Some(name),
        _ => None,
    }
}
