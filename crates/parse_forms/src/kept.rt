// A part that is held while other parts are taken off the stack.
ghost use Rattle.std.specs.Prelude.{◌≡◌};

/// A part that is held while others are taken off the stack. It is let go by one call, where a tree would be let go
/// variant by variant at each place that can fail.
pub struct Kept<T> {
    pub value: T,
}

impl<T> Kept<T> {
    pub fn new(value: T) -> Kept<T>
        ensures { result.value ≡ value }
    {
        Kept { value }
    }

    /// The part itself.
    pub fn take(self) -> T
        ensures { result ≡ self.value }
    {
        let Kept { value } = self;
        value
    }
}

impl<T: Drop> Drop for Kept<T> {
    fn drop(self) {
        let Kept { value: _value } = self;
    }
}
