// What is found at a place.
use fing_syntax::SpanName;
use fing_text::Span;

/// The sorts of phrases.
#[derive(Clone, Copy, Debug, PartialEq, Eq)]
pub enum Sort {
    Value,
    Type,
    Module,
    Signature,
}

/// A phrase: its sort and its place.
#[derive(Clone, Copy, Debug, PartialEq, Eq)]
pub struct Found {
    pub sort: Sort,
    pub span: Span,
}

// The smallest phrase that is found so far of those at an offset; of several at one place the first.
#[derive(Clone, Copy)]
pub(crate) struct Search {
    at: u32,
    found: Option<Found>,
}

impl Search {
    // Nothing is found at an offset.
    pub(crate) fn new(at: u32) -> Search {
        Search { at, found: None }
    }

    // The phrase.
    pub(crate) fn found(self) -> Option<Found> {
        self.found
    }

    // Whether a place has the offset.
    pub(crate) fn is_in(&self, span: Span) -> bool {
        span.from <= self.at && self.at < span.to
    }

    // A phrase is seen. Whether it has the offset.
    pub(crate) fn see(&mut self, sort: Sort, span: Span) -> bool {
        if !self.is_in(span) {
            return false;
        }
        if self.is_smaller(span) {
            self.take(sort, span);
        }
        true
    }

    // Whether a place is smaller than that of the phrase, if there is one.
    fn is_smaller(&self, span: Span) -> bool {
        match self.found {
            Some(found) => {
                let length = found.span.to.saturating_sub(found.span.from);
                span.to.saturating_sub(span.from) < length
            }
            None => true,
        }
    }

    // A phrase is what is found.
    fn take(&mut self, sort: Sort, span: Span) {
        self.found = Some(Found { sort, span });
    }

    // A phrase is bound to a name. It is what is found where the name stands in the source and has the offset.
    pub(crate) fn see_bound(&mut self, name: &SpanName, sort: Sort, span: Span) {
        if is_written(name) && self.is_in(name.span) {
            self.take(sort, span);
        }
    }

    // The name of a module is seen.
    pub(crate) fn see_name(&mut self, name: &SpanName) {
        if is_written(name) {
            self.see(Sort::Module, name.span);
        }
    }
}

// Whether a name stands in the source. One that a derived form makes begins with `%`.
fn is_written(name: &SpanName) -> bool {
    name.name.bytes().first() != Some(&b'%')
}
