// How a terminal shows a piece of a page.
ghost use Rattle.std.specs.Prelude.{◌≡◌};
ghost use Rattle.show_colour.specs.Inner.Coloured.{sign};

/// How a terminal shows a piece of a page.
#[derive(Clone, Copy, Debug, PartialEq, Eq)]
pub enum Style {
    /// As it shows all text.
    Plain,
    /// Bold and red: the word `error`, and the mark below a phrase.
    Error,
    /// Bold and blue: the numbers of lines and the frame of the excerpt.
    Frame,
    /// Bold and cyan: the words that begin notes and hints.
    Note,
}

// The bytes by which a terminal goes over to a style.
pub(crate) fn sign_of(style: Style) -> &'static [u8]
    ensures { result.now ≡ sign style }
{
    match style {
        Style::Plain => b"\x1b[0m",
        Style::Error => b"\x1b[1;31m",
        Style::Frame => b"\x1b[1;34m",
        Style::Note => b"\x1b[1;36m",
    }
}
