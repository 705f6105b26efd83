// Names for type variables.
ghost use Rattle.std.specs.Prelude.{◌≡◌, ◌↔◌, ◌-◌, ℕ, List, [], IfOk, OnOk, OnErr, IsTrue, Option, None, length, replicate, take};
ghost use Rattle.show_types.specs.Namings.{Adds, Free, NamesDiffer, level_of, marked as marked_text, named_at, written_at};

use itoa::Buffer;
use omega_kinds::{Mem, Name, name_of};
use std::alloc::Global;
use std::marker::Model;

/// The names of the type variables in scope, the outermost first: some have one, and the others are written as `?`
/// and their level. No two variables have one name, and no name begins with `?`.
#[derive(Drop)]
pub struct Naming {
    names: Vec<Option<Name>>,
}

impl Model for Naming {
    ghost use Rattle.std.specs.Prelude.{ℕ, List, Option};
    ghost use Rattle.show_types.specs.Namings.{IsNaming};

    ghost Value = { List (Option (List ℕ)) };

    ghost view = { λ n. n.names.items };

    ghost invariant = { λ n. IsNaming n.names.items };
}

impl Naming {
    /// No variables.
    pub fn new(alloc: Global) -> Naming
        ensures { result ≡ [] }
    {
        Naming {
            names: Vec::new(alloc),
        }
    }

    /// So many variables, none of which has a name. `Err` is out of memory.
    pub fn unnamed(alloc: Global, count: u64) -> Result<Naming, Mem>
        ensures { IfOk result (λ n. n ≡ replicate count None) }
    {
        let mut naming = Naming::new(alloc);
        for _ in 0..count {
            naming.add(None)?;
        }
        Ok(naming)
    }

    /// So many variables, of which the outermost ones get these names as far as they may have them. Where there are more
    /// names than variables, no variable gets one. `Err` is out of memory.
    pub fn named(alloc: Global, names: Vec<Option<Name>>, count: u64) -> Result<Naming, Mem>
        ensures { IfOk result (λ n. length n ≡ count) }
    {
        if names.len() as u64 > count {
            return Naming::unnamed(alloc, count);
        }
        let mut naming = Naming::new(alloc);
        let more = count - names.len() as u64;
        for name in names {
            naming.add(name)?;
        }
        for _ in 0..more {
            naming.add(None)?;
        }
        Ok(naming)
    }

    /// How many variables there are.
    pub fn len(&self) -> usize
        ensures { result ≡ length self.now }
    {
        self.names.len()
    }

    // Whether a variable may get the name.
    fn is_free(&self, name: &[u8]) -> bool
        ensures { IsTrue result ↔ Free self.now name.now }
    {
        if name.first() == Some(&b'?') {
            return false;
        }
        for other in &self.names {
            if let Some(other) = other
                && other.bytes() == name
            {
                return false;
            }
        }
        true
    }

    /// One more variable, the innermost. It gets the name if no other variable has it and it does not begin with `?`,
    /// and else none. `Err` is out of memory, and the naming stays as it was.
    #[tactic(auto, using(crate::proofs::NamingLaws::push_naming, crate::proofs::NamingLaws::adds_none, crate::proofs::NamingLaws::adds_given))]
    pub fn add(&mut self, name: Option<Name>) -> Result<(), Mem>
        ensures ok { OnOk result (Adds self.old name self.new) }
        ensures err { OnErr result (self.new ≡ self.old) }
    {
        if let Some(given) = &name
            && !self.is_free(given.bytes())
        {
            self.names.push(None)?;
            return Ok(());
        }
        self.names.push(name)?;
        Ok(())
    }

    /// Whether the name of a variable begins with this one and a dot.
    pub fn leads(&self, module: &[u8]) -> bool {
        for name in &self.names {
            if let Some(name) = name
                && let Some(rest) = name.bytes().strip_prefix(module)
                && rest.first() == Some(&b'.')
            {
                return true;
            }
        }
        false
    }

    /// One more variable, the innermost, with the first small letter that is no other's name, if there is one. `Err`
    /// is out of memory.
    pub fn add_letter(&mut self, alloc: Global) -> Result<(), Mem>
        ensures { OnOk result ((o : Option (List ℕ)) × Adds self.old o self.new) }
    {
        for letter in b'a'..=b'z' {
            if self.is_free(&[letter]) {
                return self.add(Some(name_of(alloc, &[letter])?));
            }
        }
        self.add(None)
    }

    /// Takes the innermost variable away, if there is one.
    #[tactic(auto, using(crate::proofs::NamingLaws::pop_naming))]
    pub fn pop(&mut self)
        ensures { self.new ≡ take (length self.old - 1) self.old }
    {
        let _name = self.names.pop();
    }

    /// Whether the variable of an index, 0 being the innermost, has a name.
    pub fn has_name(&self, index: u64) -> bool
        ensures { result ≡ named_at self.now index }
    {
        let level = self.level(index);
        level.is_some_and(|level| matches!(self.names.get(level), Some(Some(_))))
    }

    // The level of the variable of an index, if there is one.
    fn level(&self, index: u64) -> Option<usize>
        ensures { result ≡ level_of self.now index }
    {
        let count = self.names.len();
        if index < count as u64 {
            Some(count - 1 - index as usize)
        } else {
            None
        }
    }

    /// What is written for the variable of an index, 0 being the innermost; `None` exactly where there is no such
    /// variable. `Err` is out of memory.
    pub fn written(&self, alloc: Global, index: u64) -> Result<Option<Name>, Mem>
        ensures { IfOk result (λ found. found ≡ written_at self.now index) }
    {
        let Some(level) = self.level(index) else {
            return Ok(None);
        };
        match self.names.get(level) {
            Some(Some(name)) => Ok(Some(name.share()?)),
            _ => Ok(Some(marked(alloc, level as u64)?)),
        }
    }
}

// What is written for a variable without a name: `?` and its level.
fn marked(alloc: Global, level: u64) -> Result<Name, Mem>
    ensures { IfOk result (λ n. n ≡ marked_text level) }
{
    let mut buffer = Buffer::new();
    let mut text = Vec::new(alloc);
    text.push(b'?')?;
    text.extend_from_slice(buffer.format(level).as_bytes())?;
    name_of(alloc, &text)
}

/// What a naming writes for two variables differs.
pub fn names_differ()
    ensures { NamesDiffer }
{}
