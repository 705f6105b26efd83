// Trees written out: each node as `(what parts)@from-to`, a name as `x@from-to`.
use fing_syntax::{
    Arg, Bind, BindWhat, Branch, Decl, DeclWhat, Exp, ExpWhat, Mod, ModWhat, Op, SigEx, SigWhat,
    SpanName, TyEx, TyWhat, UnitTree,
};
use fing_text::Span;
use omega_kinds::Kind;

// A text that trees are compared with as they are written out: what is left of it, or nothing once they differ.
#[derive(Clone, Copy)]
struct Expected<'a> {
    left: Option<&'a [u8]>,
}

/// Whether the bindings, each written behind a space, are the text.
pub fn are_written(all: &[Bind], expected: &[u8]) -> bool {
    let mut want = Expected {
        left: Some(expected),
    };
    binds(&mut want, all);
    matches!(want.left, Some([]))
}

/// Whether the units, each written behind a space, are the text.
pub fn units_are_written(all: &[UnitTree], expected: &[u8]) -> bool {
    let mut want = Expected {
        left: Some(expected),
    };
    for node in all {
        unit(&mut want, node);
    }
    matches!(want.left, Some([]))
}

fn unit(want: &mut Expected<'_>, node: &UnitTree) {
    text(want, b" (unit ");
    text(want, node.name.bytes());
    place(want, node.at);
    text(want, b" ");
    sig(want, &node.sig);
    text(want, b" ");
    module(want, &node.body);
    end(want, node.span)
}

fn text(want: &mut Expected<'_>, piece: &[u8]) {
    want.left = match want.left {
        Some(left) => left.strip_prefix(piece),
        None => None,
    };
}

fn number(want: &mut Expected<'_>, value: i64) {
    let mut buffer = itoa::Buffer::new();
    text(want, buffer.format(value).as_bytes())
}

fn place(want: &mut Expected<'_>, span: Span) {
    text(want, b"@");
    number(want, i64::from(span.from));
    text(want, b"-");
    number(want, i64::from(span.to))
}

fn name(want: &mut Expected<'_>, name: &SpanName) {
    text(want, name.name.bytes());
    place(want, name.span)
}

// A word and a name.
fn begin(want: &mut Expected<'_>, word: &[u8], spelled: &SpanName) {
    text(want, word);
    name(want, spelled);
    text(want, b" ")
}

// The end of a node.
fn end(want: &mut Expected<'_>, span: Span) {
    text(want, b")");
    place(want, span)
}

fn kind(want: &mut Expected<'_>, shown: &Kind) {
    match shown {
        Kind::Star => text(want, b"*"),
        Kind::Arrow(from, to, _) => {
            text(want, b"(> ");
            kind(want, from);
            text(want, b" ");
            kind(want, to);
            text(want, b")")
        }
    }
}

// Writes a module out.
#[cycle(show)]
fn module(want: &mut Expected<'_>, node: &Mod) {
    match &node.what {
        ModWhat::Name(found) => {
            text(want, b"(");
            name(want, found);
        }
        ModWhat::Struct(all) => {
            text(want, b"(struct");
            binds(want, all);
        }
        ModWhat::Project(whole, found) => {
            begin(want, b"(project ", found);
            module(want, whole);
        }
        ModWhat::Functor {
            generative,
            name: found,
            param,
            body,
        } => {
            begin(want, if *generative { b"(gen " } else { b"(fun " }, found);
            sig(want, param);
            text(want, b" ");
            module(want, body);
        }
        ModWhat::Apply(function, argument) => {
            begin(want, b"(apply ", function);
            name(want, argument);
        }
        ModWhat::Seal(found, by) => {
            begin(want, b"(seal ", found);
            sig(want, by);
        }
        ModWhat::Unpack(value, by) => {
            text(want, b"(unpack ");
            exp(want, value);
            text(want, b" ");
            sig(want, by);
        }
    }
    end(want, node.span)
}

// Writes bindings out, each behind a space.
#[cycle(show)]
fn binds(want: &mut Expected<'_>, all: &[Bind]) {
    for item in all {
        text(want, b" ");
        bind(want, item);
    }
}

#[cycle(show)]
fn bind(want: &mut Expected<'_>, node: &Bind) {
    match &node.what {
        BindWhat::Val(found, value) => {
            begin(want, b"(val ", found);
            exp(want, value);
        }
        BindWhat::Ty(found, by) => {
            begin(want, b"(type ", found);
            ty(want, by);
        }
        BindWhat::Module(found, by) => {
            begin(want, b"(module ", found);
            module(want, by);
        }
        BindWhat::Signature(found, by) => {
            begin(want, b"(signature ", found);
            sig(want, by);
        }
        BindWhat::Include(by) => {
            text(want, b"(include ");
            module(want, by);
        }
    }
    end(want, node.span)
}

#[cycle(show)]
fn sig(want: &mut Expected<'_>, node: &SigEx) {
    match &node.what {
        SigWhat::Path(path) => {
            text(want, b"(path ");
            module(want, path);
        }
        SigWhat::Sig(all) => {
            text(want, b"(sig");
            decls(want, all);
        }
        SigWhat::Fun {
            pure,
            name: found,
            param,
            result,
        } => {
            begin(want, if *pure { b"(fun " } else { b"(gen " }, found);
            sig(want, param);
            text(want, b" ");
            sig(want, result);
        }
        SigWhat::Refine {
            sig: whole,
            first,
            rest,
            ty: by,
        } => {
            begin(want, b"(where ", first);
            for found in rest {
                begin(want, b"", found);
            }
            ty(want, by);
            text(want, b" ");
            sig(want, whole);
        }
    }
    end(want, node.span)
}

#[cycle(show)]
fn decls(want: &mut Expected<'_>, all: &[Decl]) {
    for item in all {
        text(want, b" ");
        decl(want, item);
    }
}

#[cycle(show)]
fn decl(want: &mut Expected<'_>, node: &Decl) {
    match &node.what {
        DeclWhat::Val(found, by) => {
            begin(want, b"(val ", found);
            ty(want, by);
        }
        DeclWhat::TyIs(found, by) => {
            begin(want, b"(type ", found);
            ty(want, by);
        }
        DeclWhat::TyOf(found, by) => {
            begin(want, b"(type ", found);
            kind(want, by);
        }
        DeclWhat::Module(found, by) => {
            begin(want, b"(module ", found);
            sig(want, by);
        }
        DeclWhat::Signature(found, by) => {
            begin(want, b"(signature ", found);
            sig(want, by);
        }
        DeclWhat::Include(by) => {
            text(want, b"(include ");
            sig(want, by);
        }
    }
    end(want, node.span)
}

#[cycle(show)]
fn ty(want: &mut Expected<'_>, node: &TyEx) {
    match &node.what {
        TyWhat::Path(path) => {
            text(want, b"(path ");
            module(want, path);
        }
        TyWhat::Int => text(want, b"(int"),
        TyWhat::Bool => text(want, b"(bool"),
        TyWhat::Text => text(want, b"(text"),
        TyWhat::Arrow(from, to) => {
            text(want, b"(-> ");
            ty(want, from);
            text(want, b" ");
            ty(want, to);
        }
        TyWhat::Apply(operator, all) => {
            text(want, b"(@ ");
            ty(want, operator);
            tys(want, all);
        }
        TyWhat::Fields(all) => {
            text(want, b"(rec");
            field_tys(want, all);
        }
        TyWhat::All(found, by, body) => {
            begin(want, b"(all ", found);
            kind(want, by);
            text(want, b" ");
            ty(want, body);
        }
        TyWhat::Lam(found, by, body) => {
            begin(want, b"(lam ", found);
            kind(want, by);
            text(want, b" ");
            ty(want, body);
        }
        TyWhat::Pack(by) => {
            text(want, b"(pack ");
            sig(want, by);
        }
        TyWhat::Sum(all) => {
            text(want, b"(sum");
            field_tys(want, all);
        }
        TyWhat::Mu(found, body) => {
            begin(want, b"(mu ", found);
            ty(want, body);
        }
    }
    end(want, node.span)
}

#[cycle(show)]
fn tys(want: &mut Expected<'_>, all: &[TyEx]) {
    for item in all {
        text(want, b" ");
        ty(want, item);
    }
}

#[cycle(show)]
fn field_tys(want: &mut Expected<'_>, all: &[(SpanName, TyEx)]) {
    for item in all {
        begin(want, b" ", &item.0);
        ty(want, &item.1);
    }
}

#[cycle(show)]
fn exp(want: &mut Expected<'_>, node: &Exp) {
    match &node.what {
        ExpWhat::Path(path) => {
            text(want, b"(path ");
            module(want, path);
        }
        ExpWhat::Int(value) => {
            text(want, b"(");
            number(want, *value);
        }
        ExpWhat::Bool(value) => text(want, if *value { b"(true" } else { b"(false" }),
        ExpWhat::Text(bytes) => {
            text(want, b"(text ");
            text(want, bytes.bytes());
        }
        ExpWhat::Lam(found, by, body) => {
            begin(want, b"(fn ", found);
            ty(want, by);
            text(want, b" ");
            exp(want, body);
        }
        ExpWhat::TyLam(found, by, body) => {
            begin(want, b"(tfn ", found);
            kind(want, by);
            text(want, b" ");
            exp(want, body);
        }
        ExpWhat::Fix {
            function,
            name: found,
            param,
            result,
            body,
        } => {
            begin(want, b"(fix ", function);
            begin(want, b"", found);
            ty(want, param);
            text(want, b" ");
            ty(want, result);
            text(want, b" ");
            exp(want, body);
        }
        ExpWhat::If(test, yes, no) => {
            text(want, b"(if ");
            exp(want, test);
            text(want, b" ");
            exp(want, yes);
            text(want, b" ");
            exp(want, no);
        }
        ExpWhat::Ops(first, rest) => {
            text(want, b"(ops ");
            exp(want, first);
            ops(want, rest);
        }
        ExpWhat::Apply(function, all) => {
            text(want, b"(call ");
            exp(want, function);
            args(want, all);
        }
        ExpWhat::Fields(all) => {
            text(want, b"(rec");
            field_exps(want, all);
        }
        ExpWhat::Get(whole, found) => {
            begin(want, b"(get ", found);
            exp(want, whole);
        }
        ExpWhat::Pack(found, by) => {
            begin(want, b"(pack ", found);
            sig(want, by);
        }
        ExpWhat::Inj(found, value, by) => {
            begin(want, b"(inj ", found);
            exp(want, value);
            text(want, b" ");
            ty(want, by);
        }
        ExpWhat::Case {
            whole,
            result,
            branches: all,
        } => {
            text(want, b"(case ");
            exp(want, whole);
            text(want, b" ");
            ty(want, result);
            branches(want, all);
        }
        ExpWhat::Roll(value, by) => {
            text(want, b"(roll ");
            exp(want, value);
            text(want, b" ");
            ty(want, by);
        }
        ExpWhat::Unroll(value) => {
            text(want, b"(unroll ");
            exp(want, value);
        }
    }
    end(want, node.span)
}

fn op(shown: Op) -> &'static [u8] {
    match shown {
        Op::Add => b" + ",
        Op::Sub => b" - ",
        Op::Mul => b" * ",
        Op::Div => b" / ",
        Op::Rem => b" % ",
        Op::Less => b" < ",
        Op::Equal => b" == ",
    }
}

#[cycle(show)]
fn ops(want: &mut Expected<'_>, all: &[(Op, Exp)]) {
    for item in all {
        text(want, op(item.0));
        exp(want, &item.1);
    }
}

#[cycle(show)]
fn args(want: &mut Expected<'_>, all: &[Arg]) {
    for item in all {
        match item {
            Arg::Exp(value) => {
                text(want, b" ");
                exp(want, value);
            }
            Arg::Ty(by, span) => {
                text(want, b" [");
                ty(want, by);
                text(want, b"]");
                place(want, *span);
            }
        }
    }
}

#[cycle(show)]
fn field_exps(want: &mut Expected<'_>, all: &[(SpanName, Exp)]) {
    for item in all {
        begin(want, b" ", &item.0);
        exp(want, &item.1);
    }
}

// Writes branches out, each behind a space: the label, the name and the body.
#[cycle(show)]
fn branches(want: &mut Expected<'_>, all: &[Branch]) {
    for item in all {
        begin(want, b" ", &item.label);
        begin(want, b"", &item.name);
        exp(want, &item.body);
    }
}
