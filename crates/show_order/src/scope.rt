// The modules and signatures that are in scope.
use crate::declared::Component;
use omega_kinds::{Mem, Name};
use std::alloc::Global;
use std::collections::HashMap;

// What is in scope by its name, and what each name hid when it came into scope.
#[derive(Drop)]
pub(crate) struct Scope {
    named: HashMap<Name, Component>,
    hidden: Vec<(Name, Component)>,
}

impl Scope {
    // Nothing is in scope.
    pub(crate) fn new(alloc: Global) -> Scope {
        Scope {
            named: HashMap::new(alloc),
            hidden: Vec::new(alloc),
        }
    }

    // How many names have come into scope and not left it.
    pub(crate) fn len(&self) -> usize {
        self.hidden.len()
    }

    // A name comes into scope. `Err` is out of memory.
    pub(crate) fn enter(&mut self, name: &Name, component: Component) -> Result<(), Mem> {
        let before = self.named.insert(name.share()?, component)?;
        self.hidden
            .push((name.share()?, before.unwrap_or(Component::NONE)))?;
        Ok(())
    }

    // The names leave the scope that came into it after the first so many. `Err` is out of memory.
    pub(crate) fn leave(&mut self, count: usize) -> Result<(), Mem> {
        let entered = self.hidden.len();
        for _ in count..entered {
            if let Some((name, component)) = self.hidden.pop() {
                self.named.insert(name, component)?;
            }
        }
        Ok(())
    }

    // What has a name.
    pub(crate) fn find(&self, name: &Name) -> Component {
        self.named.get(name).copied().unwrap_or(Component::NONE)
    }
}
