// Command lines.
ghost use Rattle.fing_words.specs.CommandLines.{OneLine};

/// What the words after the program's name ask for.
#[derive(Clone, Copy, Debug, PartialEq, Eq)]
pub enum CommandLine {
    /// `check`: the effect and the signature of the source.
    Check,
    /// `emit`: the type and the term of the source as Omega text; with `--simplify` the simplified term.
    Emit { simplify: bool },
    /// `run`, with `--budget` or without: the value of the source, within this many steps, at most 10,000,000.
    Run { budget: u32 },
    /// `verify`: whether the source, an Omega text, is well typed.
    Verify,
    /// `gen`: the counts of the generated program of this size, from 1 to 300.
    Gen { size: u32 },
    /// `link`: the type and the term of the source's units, linked, as Omega text.
    Link,
}

/// Words are at most one command line.
pub fn one_line()
    ensures { OneLine }
{}
