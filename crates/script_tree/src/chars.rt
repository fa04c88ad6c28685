ghost use Rattle.std.specs.Prelude.{◌≡◌, IfOk, length};

use std::alloc::{AllocError, Global};
use std::marker::Model;

/// A text of UTF-8, of any length. Contracts see its bytes.
#[derive(Drop)]
pub struct Chars {
    text: String,
}

impl Model for Chars {
    ghost use Rattle.std.specs.Prelude.{List, ℕ, string_bytes};

    ghost Value = { List ℕ };

    ghost view = { λ c. string_bytes c.text };
}

impl Chars {
    /// A text with these bytes.
    pub fn new(alloc: Global, text: &str) -> Result<Chars, AllocError>
        ensures { IfOk result (λ made. made ≡ text.now) }
    {
        let text = String::from_str(alloc, text)?;
        Ok(Chars { text })
    }

    /// The text.
    pub fn as_str(&self) -> &str
        ensures { result.now ≡ self.now }
    {
        self.text.as_str()
    }

    /// How many bytes it has.
    pub fn len(&self) -> usize
        ensures { result ≡ length self.now }
    {
        self.text.len()
    }

    /// A copy, equal to its source.
    pub fn copy(&self) -> Result<Chars, AllocError>
        ensures { IfOk result (λ made. made ≡ self.now) }
    {
        let text = self.text.clone()?;
        Ok(Chars { text })
    }
}
