// Drawings: pages to which the nodes of a tree are written one after the other.
use crate::form::Form;
use crate::phrase::shown_phrase;
use crate::{html, latex, text};
use fing_text::Span;
use omega_kinds::Mem;
use show_paper::{Conclusion, LATEX, UNICODE, conclusion_page};
use show_rules::Rule;
use show_text::Page;
use std::alloc::Global;

/// A node of a tree of rules: its depth, its rule, the place of its phrase, how many type variables are in scope there, what
/// the phrase means, and whether nodes are below it. A place of no bytes stands for the whole program.
#[derive(Clone, Copy)]
pub struct Node<'a> {
    pub depth: u32,
    pub rule: Rule,
    pub at: Span,
    pub types: u64,
    pub conclusion: &'a Conclusion,
    pub has_parts: bool,
}

/// A page on which a tree of rules is drawn, a node after the other.
#[derive(Drop)]
pub struct Drawing<'a> {
    alloc: Global,
    form: Form,
    source: &'a [u8],
    page: Page,
    // How many nodes are open, whose parts may follow, and whether a node stands before at the same depth.
    open: u32,
    has_node: bool,
}

impl<'a> Drawing<'a> {
    /// The beginning of a page in a form, for a source of a name. `Err` is out of memory, as for all that follows.
    pub fn new(
        alloc: Global,
        form: Form,
        name: &[u8],
        source: &'a [u8],
    ) -> Result<Drawing<'a>, Mem> {
        let mut page = Page::new(alloc);
        match form {
            Form::Text => {}
            Form::Latex => latex::begin(&mut page)?,
            Form::Html => html::begin(&mut page, name)?,
        }
        Ok(Drawing {
            alloc,
            form,
            source,
            page,
            open: 0,
            has_node: false,
        })
    }

    /// Draws a node. A node comes before its parts, whose depth is greater by one.
    pub fn put(&mut self, node: Node<'_>) -> Result<(), Mem> {
        self.close_to(node.depth)?;
        let phrase = shown_phrase(self.alloc, self.source, node.at)?;
        let symbols = match self.form {
            Form::Latex => &LATEX,
            Form::Text | Form::Html => &UNICODE,
        };
        let meant = conclusion_page(self.alloc, symbols, node.types, node.conclusion)?;
        let (phrase, meant) = (phrase.bytes(), meant.bytes());
        match self.form {
            Form::Text => text::put(&mut self.page, node, phrase, meant)?,
            Form::Latex => latex::put(&mut self.page, node, self.has_node, phrase, meant)?,
            Form::Html => html::put(&mut self.page, node, phrase, meant)?,
        }
        self.has_node = !node.has_parts;
        if node.has_parts {
            self.open = node.depth.saturating_add(1);
        }
        Ok(())
    }

    // Closes nodes until so many are open.
    fn close_to(&mut self, depth: u32) -> Result<(), Mem> {
        for _ in depth..self.open {
            match self.form {
                Form::Text => {}
                Form::Latex => latex::close(&mut self.page)?,
                Form::Html => html::close(&mut self.page)?,
            }
            self.has_node = true;
        }
        self.open = self.open.min(depth);
        Ok(())
    }

    /// The whole page, which says at its end whether nodes are left out.
    pub fn finish(self, is_cut: bool) -> Result<Page, Mem> {
        let mut drawing = self;
        drawing.close_to(0)?;
        match drawing.form {
            Form::Text => text::end(&mut drawing.page, is_cut)?,
            Form::Latex => latex::end(&mut drawing.page, is_cut)?,
            Form::Html => html::end(&mut drawing.page, is_cut)?,
        }
        Ok(drawing.page)
    }
}
