// Signatures, written with the names of their hidden types.
use crate::names::{add_step, type_names};
use omega_kinds::{Effect, Kind, Kinds, Mem, Name};
use semantic_sigs::{Abs, Sig, SigFields, SigNode};
use show_order::Order;
use show_text::Page;
use show_types::{Naming, put_kind, put_ty};
use sig_roots::rooted;
use std::mem;
use type_normal::{NormalTy, plain};

// The names for parameters of functors.
const PARAMETERS: [&[u8]; 6] = [b"X", b"Y", b"Z", b"U", b"V", b"W"];

// Where a writer stands since the last binder of hidden types that are declared below it: the path to what is written,
// how many variables are in scope outside the binder, and how many of pure functors have come into scope since.
#[derive(Drop)]
struct Frame {
    path: Vec<u8>,
    outside: usize,
    under: u64,
}

// A page on which signatures are written, with the names of the type variables in scope.
#[derive(Drop)]
pub(crate) struct Writer {
    pub(crate) page: Page,
    naming: Naming,
    frame: Frame,
    indent: usize,
}

impl Writer {
    // The variables of a naming, and no path.
    pub(crate) fn new(page: Page, naming: Naming) -> Writer {
        let frame = Frame {
            path: Vec::new(page.alloc()),
            outside: naming.len(),
            under: 0,
        };
        Writer {
            page,
            naming,
            frame,
            indent: 0,
        }
    }

    // Where the writer stands at a path, before a binder.
    fn frame_at(&self, path: &[u8]) -> Result<Frame, Mem> {
        let mut copy = Vec::new(self.page.alloc());
        copy.extend_from_slice(path)?;
        Ok(Frame {
            path: copy,
            outside: self.naming.len(),
            under: 0,
        })
    }

    // The page.
    pub(crate) fn into_page(self) -> Page {
        self.page
    }

    // The types of these kinds, which a signature hides, come into scope, with their paths as names.
    pub(crate) fn bind(&mut self, kinds: &Kinds, body: &Sig, order: Order<'_>) -> Result<(), Mem> {
        let path = self.frame.path.as_slice();
        let names = type_names(self.page.alloc(), kinds, body, order, path)?;
        for name in names {
            self.naming.add(name)?;
        }
        Ok(())
    }

    // So many variables leave the scope.
    fn unbind(&mut self, kinds: &Kinds) {
        for _kind in kinds.items() {
            self.naming.pop();
        }
    }

    // Writes the name of the variable of an index.
    pub(crate) fn put_name(&mut self, index: u64) -> Result<(), Mem> {
        match self.naming.written(self.page.alloc(), index)? {
            Some(name) => self.page.put(name.bytes()),
            None => self.page.put(b"?"),
        }
    }

    // Whether the variable of an index has a name.
    pub(crate) fn has_name(&self, index: u64) -> bool {
        self.naming.has_name(index)
    }

    // Writes a type.
    fn put_type(&mut self, ty: &NormalTy) -> Result<(), Mem> {
        put_ty(&mut self.page, &mut self.naming, plain(ty))
    }

    // Writes the space before a line.
    fn put_indent(&mut self) -> Result<(), Mem> {
        self.page.put_times(b' ', self.indent.saturating_mul(2))
    }

    // Writes the declarations of fields in an order, each on a line.
    #[cycle(sigs)]
    #[tactic(auto, using(crate::proofs::ShownBelow::shown_below))]
    pub(crate) fn put_fields(&mut self, fields: &SigFields, order: Order<'_>) -> Result<(), Mem> {
        let shown = order.arranged(self.page.alloc(), fields.items())?;
        for field in &shown {
            let length = self.frame.path.len();
            add_step(&mut self.frame.path, &field.0)?;
            self.put_field(&field.0, &field.1, order.component(&field.0))?;
            self.frame.path.truncate(length);
        }
        Ok(())
    }

    // Writes the declaration of a field.
    #[cycle(sigs)]
    fn put_field(&mut self, name: &Name, sig: &Sig, order: Order<'_>) -> Result<(), Mem> {
        self.put_indent()?;
        match sig.node() {
            SigNode::Val(ty) => {
                self.page.put_all(&[b"val ", name.bytes(), b" : "])?;
                self.put_type(ty)?;
            }
            SigNode::Typ(ty, kind) => self.put_declared(name, ty, kind)?,
            SigNode::Meta(abs) => {
                self.page.put_all(&[b"signature ", name.bytes(), b" = "])?;
                self.put_apart(abs, order)?;
            }
            SigNode::Str(_) | SigNode::Fun { .. } => {
                self.page.put_all(&[b"module ", name.bytes(), b" : "])?;
                self.put_sig(sig, order)?;
            }
        }
        self.page.put(b"\n")
    }

    // Writes the declaration of a type, without what it is where it is a hidden type and this is its path.
    fn put_declared(&mut self, name: &Name, ty: &NormalTy, kind: &Kind) -> Result<(), Mem> {
        self.page.put_all(&[b"type ", name.bytes()])?;
        if !self.is_abstract(ty)? {
            self.page.put(b" = ")?;
            return self.put_type(ty);
        }
        if let Kind::Arrow(_, _, _) = kind {
            self.page.put(b" : ")?;
            put_kind(&mut self.page, kind)?;
        }
        Ok(())
    }

    // Whether a type is a hidden type of the last binder whose name is the path of what is written.
    fn is_abstract(&self, ty: &NormalTy) -> Result<bool, Mem> {
        let Some(own) = rooted(plain(ty), self.frame.under)? else {
            return Ok(false);
        };
        let index = own.saturating_add(self.frame.under);
        if index >= self.naming.len().saturating_sub(self.frame.outside) as u64 {
            return Ok(false);
        }
        match self.naming.written(self.page.alloc(), index)? {
            Some(name) => Ok(name.bytes() == self.frame.path.as_slice()),
            None => Ok(false),
        }
    }

    // Writes a signature, whose components come in an order.
    #[cycle(sigs)]
    pub(crate) fn put_sig(&mut self, sig: &Sig, order: Order<'_>) -> Result<(), Mem> {
        match sig.node() {
            SigNode::Str(fields) if fields.items().is_empty() => self.page.put(b"sig end"),
            SigNode::Str(fields) => self.put_structure(fields, order),
            SigNode::Fun {
                effect,
                kinds,
                param,
                result,
            } => {
                self.put_param(param, kinds, order.parameter())?;
                self.put_result(result, *effect, kinds, order.result())?;
                self.unbind(kinds);
                Ok(())
            }
            SigNode::Val(ty) => {
                self.page.put(b"val : ")?;
                self.put_type(ty)
            }
            SigNode::Typ(ty, _) => {
                self.page.put(b"type = ")?;
                self.put_type(ty)
            }
            SigNode::Meta(abs) => {
                self.page.put(b"signature = ")?;
                self.put_apart(abs, order)
            }
        }
    }

    // Writes a structure of one field at least.
    #[cycle(sigs)]
    fn put_structure(&mut self, fields: &SigFields, order: Order<'_>) -> Result<(), Mem> {
        let indent = self.indent;
        self.page.put(b"sig\n")?;
        self.indent = indent.saturating_add(1);
        self.put_fields(fields, order)?;
        self.indent = indent;
        self.put_indent()?;
        self.page.put(b"end")
    }

    // Writes the parameter of a functor, whose types come into scope.
    #[cycle(sigs)]
    fn put_param(&mut self, param: &Sig, kinds: &Kinds, order: Order<'_>) -> Result<(), Mem> {
        let name = self.parameter();
        let inner = self.frame_at(name)?;
        let outer = mem::replace(&mut self.frame, inner);
        self.page.put_all(&[b"fun (", name, b" : "])?;
        self.bind(kinds, param, order)?;
        self.put_sig(param, order)?;
        self.page.put(b")")?;
        self.frame = outer;
        Ok(())
    }

    // Writes the result of a functor with these variables.
    #[cycle(sigs)]
    fn put_result(
        &mut self,
        target: &Abs,
        effect: Effect,
        kinds: &Kinds,
        order: Order<'_>,
    ) -> Result<(), Mem> {
        match effect {
            Effect::Pure => {
                self.page.put(b" => ")?;
                let under = self.frame.under;
                self.frame.under = under.saturating_add(kinds.items().len() as u64);
                self.put_sig(target.body(), order)?;
                self.frame.under = under;
                Ok(())
            }
            Effect::Impure => {
                self.page.put(b" -> ")?;
                let inner = self.frame_at(self.frame.path.as_slice())?;
                self.put_abs(target, inner, order)
            }
        }
    }

    // Writes a signature that stands for itself, with paths of its own.
    #[cycle(sigs)]
    fn put_apart(&mut self, abs: &Abs, order: Order<'_>) -> Result<(), Mem> {
        let inner = self.frame_at(b"")?;
        self.put_abs(abs, inner, order)
    }

    // Writes an abstract signature from a frame on.
    #[cycle(sigs)]
    fn put_abs(&mut self, abs: &Abs, inner: Frame, order: Order<'_>) -> Result<(), Mem> {
        let outer = mem::replace(&mut self.frame, inner);
        self.bind(abs.kinds(), abs.body(), order)?;
        self.put_sig(abs.body(), order)?;
        self.unbind(abs.kinds());
        self.frame = outer;
        Ok(())
    }

    // A name for the parameter of a functor: the first with which the name of no type in scope begins.
    fn parameter(&self) -> &'static [u8] {
        for name in PARAMETERS {
            if !self.naming.leads(name) {
                return name;
            }
        }
        b"X"
    }
}
