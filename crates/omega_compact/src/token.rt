// Tokens.

/// A token of Omega text. A quoted text has the bytes between its quotes as they stand.
#[derive(Clone, Copy, Debug, PartialEq, Eq)]
pub enum Token<'a> {
    /// A parenthesis that opens a form.
    Open,
    /// A parenthesis that closes one.
    Close,
    /// Bytes other than blanks, parentheses, quotes and `;`.
    Word(&'a [u8]),
    /// A text in quotes.
    Quoted(&'a [u8]),
    /// A text without a quote at its end, which goes on to the end of all bytes.
    Unended(&'a [u8]),
}
