// How high and how large trees are, which bounds the stack and the time of the walks over them.
ghost use Rattle.std.specs.Prelude.{◌≡◌, ◌+◌, ◌≤◌, ◌<◌, ◌⊎◌, ◌↔◌, IfErr, IfOk, IsTrue, max, min};

use crate::memory::Mem;

// A walk over a tree calls itself for each part of a part. Eight mebibytes of stack are enough for this height, beside
// the calls that a source of the greatest nest takes.
const HIGHEST: u32 = 8192;

// A walk goes through a shared part as often as it meets it.
const LARGEST: u32 = 268435456;

// A text has at least a byte for each form, and no more bytes than this are written.
const LONGEST: u32 = 268435456;

/// How many forms stand inside one another in a tree, how many of them a walk meets, and how many its text has. A part that
/// stands on both sides of an arrow is met once, and written twice. Where the size or the text has more forms than the
/// greatest number of 32 bits, that number stands there. All this decides nothing but where memory is refused.
#[derive(Clone, Copy)]
pub struct Extent {
    pub height: u32,
    pub size: u32,
    pub text: u32,
}

/// That of nothing.
pub const NOTHING: Extent = Extent {
    height: 0,
    size: 0,
    text: 0,
};

impl Extent {
    /// That of two parts beside each other.
    pub fn beside(self, other: Extent) -> Extent
        ensures height { result.height ≡ max self.height other.height }
        ensures size { result.size ≡ min (self.size + other.size) 4294967295 }
        ensures text { result.text ≡ min (self.text + other.text) 4294967295 }
    {
        Extent {
            height: self.height.max(other.height),
            size: self.size.saturating_add(other.size),
            text: self.text.saturating_add(other.text),
        }
    }

    /// That of two parts beside each other that are one tree, which a walk meets once.
    pub fn twice(self) -> Extent
        ensures height { result.height ≡ self.height }
        ensures size { result.size ≡ self.size }
        ensures text { result.text ≡ min (self.text + self.text) 4294967295 }
    {
        Extent {
            text: self.text.saturating_add(self.text),
            ..self
        }
    }

    /// Whether the text has at most 268,435,456 forms. A longer one has more bytes than are written.
    pub fn is_written(self) -> bool
        ensures { IsTrue result ↔ (self.text ≤ 268435456) }
    {
        self.text <= LONGEST
    }

    /// That of a tree of one form over parts of this extent, in which the form counts so many levels. `Err` is want of
    /// memory: that of the stack for a tree higher than 8,192, and that of the walks for one in which they meet more than
    /// 268,435,456 forms.
    pub fn over(self, levels: u32) -> Result<Extent, Mem>
        ensures height { IfOk result (λ e. e.height ≡ self.height + levels) }
        ensures size { IfOk result (λ e. e.size ≡ self.size + 1) }
        ensures text { IfOk result (λ e. e.text ≡ min (self.text + 1) 4294967295) }
        ensures high { IfOk result (λ e. e.height ≤ 8192) }
        ensures large { IfOk result (λ e. e.size ≤ 268435456) }
        ensures refused { IfErr result (λ _. (8192 < self.height + levels) ⊎ (268435456 < self.size + 1)) }
    {
        let height = self.height.checked_add(levels).ok_or(Mem)?;
        let size = self.size.checked_add(1).ok_or(Mem)?;
        if height <= HIGHEST && size <= LARGEST {
            let text = self.text.saturating_add(1);
            Ok(Extent { height, size, text })
        } else {
            Err(Mem)
        }
    }
}
