// Writers: layouts with a notation and the variables in scope.
use crate::names::variable_name;
use crate::symbols::{Pair, Symbols};
use itoa::Buffer;
use omega_kinds::{Label, Mem};
use show_layout::{Layout, put_layout};
use show_text::Page;
use std::alloc::Global;

/// A layout to which types and signatures are added in a notation, and how many type variables are in scope.
#[derive(Drop)]
pub struct Writer {
    layout: Layout,
    symbols: &'static Symbols,
    scope: u64,
}

impl Writer {
    /// A writer with nothing written and no variables in scope. Takes no memory.
    pub fn new(alloc: Global, symbols: &'static Symbols) -> Writer {
        Writer {
            layout: Layout::new(alloc),
            symbols,
            scope: 0,
        }
    }

    // The allocator of what is written.
    pub(crate) fn alloc(&self) -> Global {
        self.layout.alloc()
    }

    /// The notation.
    pub fn symbols(&self) -> &'static Symbols {
        self.symbols
    }

    /// The page of what is written. `Err` is out of memory.
    pub fn page(&self) -> Result<Page, Mem> {
        let symbols = self.symbols;
        let mut page = Page::new(self.layout.alloc());
        page.put(symbols.whole.open.as_bytes())?;
        self.finish(&mut page)?;
        Ok(page)
    }

    // The page of what is written, without what opens it. `Err` is out of memory.
    pub(crate) fn rest(&self) -> Result<Page, Mem> {
        let mut page = Page::new(self.layout.alloc());
        self.finish(&mut page)?;
        Ok(page)
    }

    // Writes what is written, and what closes it.
    fn finish(&self, page: &mut Page) -> Result<(), Mem> {
        let symbols = self.symbols;
        put_layout(page, &self.layout, symbols.lines)?;
        page.put(symbols.whole.close.as_bytes())
    }

    /// Writes a text, in which no line ends. `Err` is out of memory, as for all that follows.
    pub fn put(&mut self, text: &str) -> Result<(), Mem> {
        self.layout.put(text.as_bytes())
    }

    /// Writes a sign of the notation, which takes so many columns where it is shown.
    pub fn put_sign(&mut self, sign: &str, columns: usize) -> Result<(), Mem> {
        self.layout.put_as(sign.as_bytes(), columns)
    }

    /// Writes a blank beside a sign, at which a line may end.
    pub fn put_break(&mut self) -> Result<(), Mem> {
        self.layout.put_break(b" ", 1)
    }

    /// Begins a group of its own, whose new lines are indented by one step more.
    pub fn open(&mut self) -> Result<(), Mem> {
        self.layout.open(1)
    }

    /// Begins a group of its own, whose new lines are indented as the text round it.
    pub fn open_level(&mut self) -> Result<(), Mem> {
        self.layout.open(0)
    }

    /// Ends the group that has begun last.
    pub fn close(&mut self) -> Result<(), Mem> {
        self.layout.close()
    }

    /// Begins a list in brackets, one item a line where it does not fit on one.
    pub fn open_list(&mut self, brackets: Pair) -> Result<(), Mem> {
        self.open()?;
        self.put_sign(brackets.open, 1)?;
        self.layout.put_break(b"", 0)
    }

    /// Writes what stands between two items of a list.
    pub fn put_comma(&mut self) -> Result<(), Mem> {
        self.put(",")?;
        self.put_break()
    }

    /// Ends a list in brackets.
    pub fn close_list(&mut self, brackets: Pair) -> Result<(), Mem> {
        self.layout.put_last(b"", 0)?;
        self.put_sign(brackets.close, 1)?;
        self.close()
    }

    /// Writes a list of no items in brackets.
    pub fn put_empty(&mut self, brackets: Pair) -> Result<(), Mem> {
        self.put_sign(brackets.open, 1)?;
        self.put_sign(brackets.close, 1)
    }

    /// Writes a blank between words, at which no line ends.
    pub fn put_space(&mut self) -> Result<(), Mem> {
        self.put_sign(self.symbols.space, 1)
    }

    /// Writes a blank between words, at which a line may end.
    pub fn put_word_break(&mut self) -> Result<(), Mem> {
        self.layout.put_break(self.symbols.space.as_bytes(), 1)
    }

    /// Writes an arrow, which takes so many columns, and blanks round it; behind it a line may end.
    pub fn put_arrow(&mut self, arrow: &str, columns: usize) -> Result<(), Mem> {
        self.put(" ")?;
        self.put_sign(arrow, columns)?;
        self.put_break()
    }

    /// Writes a word of the notation.
    pub fn put_word(&mut self, word: &str) -> Result<(), Mem> {
        let round = self.symbols.word;
        self.put_sign(round.open, 0)?;
        self.put(word)?;
        self.put_sign(round.close, 0)
    }

    /// Writes a name of the program.
    pub fn put_name(&mut self, name: &[u8]) -> Result<(), Mem> {
        let round = self.symbols.name;
        self.put_sign(round.open, 0)?;
        self.put_bytes(name)?;
        self.put_sign(round.close, 0)
    }

    /// Writes bytes of a name or of a text, each as the notation has it.
    pub fn put_bytes(&mut self, bytes: &[u8]) -> Result<(), Mem> {
        for byte in bytes {
            self.put_byte(*byte)?;
        }
        Ok(())
    }

    // Writes a byte of a name or of a text.
    fn put_byte(&mut self, byte: u8) -> Result<(), Mem> {
        let found = self
            .symbols
            .specials
            .iter()
            .find(|special| special.byte == byte);
        match found {
            Some(special) => self.put_sign(special.text, 1),
            None => self.layout.put(&[byte]),
        }
    }

    /// Writes a label: a name, or a reserved one as its word behind a dot.
    pub fn put_label(&mut self, label: &Label) -> Result<(), Mem> {
        match label {
            Label::Val => self.put_word(".val"),
            Label::Typ => self.put_word(".typ"),
            Label::Sig => self.put_word(".sig"),
            Label::App => self.put_word(".app"),
            Label::Gen => self.put_word(".gen"),
            Label::Name(name) => self.put_name(name.bytes()),
        }
    }

    /// So many type variables come into scope.
    pub fn bind(&mut self, count: u64) {
        self.scope = self.scope.saturating_add(count);
    }

    /// So many type variables leave the scope.
    pub fn unbind(&mut self, count: u64) {
        self.scope = self.scope.saturating_sub(count);
    }

    /// Writes the type variable of an index, 0 being the innermost: `?` where there is none.
    pub fn put_variable(&mut self, index: u64) -> Result<(), Mem> {
        match self.scope.checked_sub(index.saturating_add(1)) {
            Some(level) => self.put_level(level),
            None => self.put("?"),
        }
    }

    // Writes the name of the type variable of a level.
    fn put_level(&mut self, level: u64) -> Result<(), Mem> {
        let name = variable_name(level);
        let symbols = self.symbols;
        let letter = symbols.letters.get(name.letter);
        self.put_sign(letter.copied().unwrap_or("?"), 1)?;
        if name.round == 0 {
            return Ok(());
        }
        self.put_below(name.round)
    }

    /// Writes a number below a letter.
    pub fn put_below(&mut self, number: u64) -> Result<(), Mem> {
        let mut buffer = Buffer::new();
        let round = self.symbols.below;
        self.put_sign(round.open, 0)?;
        for byte in buffer.format(number).as_bytes() {
            self.put_digit(*byte)?;
        }
        self.put_sign(round.close, 0)
    }

    // Writes a digit below a letter.
    fn put_digit(&mut self, byte: u8) -> Result<(), Mem> {
        let symbols = self.symbols;
        let digit = symbols.digits.get(byte.saturating_sub(b'0') as usize);
        self.put_sign(digit.copied().unwrap_or("?"), 1)
    }
}
