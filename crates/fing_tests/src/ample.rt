// Calls that can want memory, with ample memory.
use omega_kinds::{
    Kind, Kinds, Label, Mem, Name, Names, arrow, name_of, same_kind, same_label, same_name,
};
use std::alloc::Global;
use std::test::Fail;

fn is_shared(name: Name) -> Result<bool, Mem> {
    let label = Label::Name(name);
    Ok(same_label(&label.share()?, &label))
}

fn names_of(alloc: Global, name: Name) -> Result<Names, Mem> {
    let mut names = Names::new(alloc);
    names.push(name)?;
    Ok(names)
}

#[test]
fn names(rt: HostRuntime) -> Result<(), Fail> {
    let name = name_of(rt.alloc(), b"x")?;
    assert!(rt; name.bytes() == b"x".as_slice());
    assert!(rt; same_name(&name.share()?, &name));
    assert!(rt; is_shared(name.share()?)?);
    assert_eq!(rt; names_of(rt.alloc(), name)?.items().len(), 1);
    Ok(())
}

fn operators(alloc: Global) -> Result<Kind, Mem> {
    arrow(alloc, Kind::Star, Kind::Star)
}

fn kinds_of(alloc: Global, kind: Kind) -> Result<Kinds, Mem> {
    let mut kinds = Kinds::new(alloc);
    kinds.push(kind)?;
    kinds.share(alloc)
}

#[test]
fn kinds(rt: HostRuntime) -> Result<(), Fail> {
    let kind = arrow(rt.alloc(), Kind::Star, operators(rt.alloc())?)?;
    assert!(rt; same_kind(&kind.share()?, &kind));
    assert!(rt; !same_kind(&kind, &Kind::Star));
    assert_eq!(rt; kind.extent().height, 2);
    assert_eq!(rt; kind.share()?.extent().size, 2);
    assert_eq!(rt; kinds_of(rt.alloc(), kind)?.items().len(), 1);
    Ok(())
}
