// Writers of terms: what types are written to, the term variables in scope, and how much is written of a part.
use crate::forms::is_short;
use itoa::Buffer;
use omega_kinds::Mem;
use omega_terms::Term;
use omega_types::Ty;
use show_paper::{Symbols, Writer, put_type};
use std::alloc::Global;

// The forms of the largest type that a writer with limits writes.
const MOST_TYPE: u32 = 16;
// The fields or branches that a writer with limits writes of one form.
const MOST_FIELDS: u32 = 8;
// The bytes of the longest text that it writes.
const MOST_BYTES: usize = 40;

/// A writer of types, of terms and of other text, and how many term variables are in scope. With limits it writes `…` in
/// the place of a part that is too deep or too large.
#[derive(Drop)]
pub struct TermWriter {
    pub text: Writer,
    scope: u64,
    // how many forms the part that is written next stands in, and in how many it may stand
    depth: u32,
    most: Option<u32>,
}

impl TermWriter {
    /// Nothing written, no variables in scope, and no limits. Takes no memory.
    pub fn new(alloc: Global, symbols: &'static Symbols) -> TermWriter {
        TermWriter {
            text: Writer::new(alloc, symbols),
            scope: 0,
            depth: 0,
            most: None,
        }
    }

    /// From here on a part that stands in so many forms, or more, is written as `…`, as is a type of more than 16 forms, a
    /// text of more than 40 bytes, and what follows the first 8 fields of a record.
    pub fn limit(&mut self, most: u32) {
        self.depth = 0;
        self.most = Some(most);
    }

    // Whether a term is written as `…` here.
    pub(crate) fn is_cut(&self, term: &Term) -> bool {
        match self.most {
            Some(most) => self.depth >= most && !is_short(term),
            None => false,
        }
    }

    // Whether no more fields are written after so many.
    pub(crate) fn is_full(&self, count: u32) -> bool {
        self.most.is_some() && count >= MOST_FIELDS
    }

    // The parts of a form come next.
    pub(crate) fn enter(&mut self) {
        self.depth = self.depth.saturating_add(1);
    }

    // The form ends.
    pub(crate) fn leave(&mut self) {
        self.depth = self.depth.saturating_sub(1);
    }

    /// Writes `…`, for what is left out.
    pub fn put_cut(&mut self) -> Result<(), Mem> {
        self.text.put("…")
    }

    /// Writes a type.
    pub fn put_type(&mut self, ty: &Ty) -> Result<(), Mem> {
        if self.most.is_some() && ty.extent().text > MOST_TYPE {
            return self.put_cut();
        }
        put_type(&mut self.text, ty)
    }

    /// The notation.
    pub fn symbols(&self) -> &'static Symbols {
        self.text.symbols()
    }

    /// So many term variables come into scope.
    pub fn bind(&mut self, count: u64) {
        self.scope = self.scope.saturating_add(count);
    }

    /// So many term variables leave the scope.
    pub fn unbind(&mut self, count: u64) {
        self.scope = self.scope.saturating_sub(count);
    }

    /// Writes the term variable of an index, 0 being the innermost: `?` where there is none.
    pub fn put_variable(&mut self, index: u64) -> Result<(), Mem> {
        let Some(level) = self.scope.checked_sub(index.saturating_add(1)) else {
            return self.text.put("?");
        };
        let mut buffer = Buffer::new();
        let variable = self.symbols().variable;
        self.text.put_sign(variable.open, 1)?;
        self.text.put(buffer.format(level))?;
        self.text.put_sign(variable.close, 0)
    }

    /// Writes words of the notation, each with a blank behind it.
    pub fn put_word(&mut self, word: &str) -> Result<(), Mem> {
        self.text.put_word(word)?;
        self.text.put_space()
    }

    /// Writes a word of the notation with a blank on each side.
    pub fn put_between(&mut self, word: &str) -> Result<(), Mem> {
        self.text.put_space()?;
        self.put_word(word)
    }

    // Writes a number.
    pub(crate) fn put_number(&mut self, number: i64) -> Result<(), Mem> {
        let mut buffer = Buffer::new();
        self.text.put(buffer.format(number))
    }

    // Writes a text in quotes: a quote, a backslash and a line end by an escape.
    pub(crate) fn put_quoted(&mut self, bytes: &[u8]) -> Result<(), Mem> {
        if self.most.is_some() && bytes.len() > MOST_BYTES {
            return self.put_cut();
        }
        let quoted = self.symbols().quoted;
        self.text.put_sign(quoted.open, 1)?;
        for byte in bytes {
            self.put_byte(*byte)?;
        }
        self.text.put_sign(quoted.close, 1)
    }

    // Writes a byte of a text.
    fn put_byte(&mut self, byte: u8) -> Result<(), Mem> {
        match byte {
            b'\n' => self.text.put_bytes(b"\\n"),
            b'"' | b'\\' => self.text.put_bytes(&[b'\\', byte]),
            _ => self.text.put_bytes(&[byte]),
        }
    }
}
