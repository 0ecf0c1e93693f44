//! Where spellings go.

ghost use Rattle.std.specs.Prelude.{◌≡◌, ◌++◌, ℕ, List, OnOk};
ghost use Rattle.std.specs.String.{string_bytes};

use plain_tables::NoMemory;

/// What a spelling can be written to. Text goes behind what it holds.
pub trait Sink {
    // the bytes that it holds
    ghost held: { Self → List ℕ };

    /// Puts text behind what it holds.
    fn push_str(&mut self, text: &str) -> Result<(), NoMemory>
        ensures bytes { OnOk result (held self.new ≡ held self.old ++ text.now) };
}

impl Sink for String {
    ghost held = { λ s. string_bytes s };

    fn push_str(&mut self, text: &str) -> Result<(), NoMemory> {
        String::push_str(self, text)?;
        Ok(())
    }
}
