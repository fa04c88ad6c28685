ghost use Rattle.std.specs.Prelude.{◌≡◌, ◌≤◌, length, IfOk};
ghost use Rattle.base_types.specs.Texts.{short_text};

use crate::limits::TEXT_LIMIT;
use std::alloc::{AllocError, Global};
use std::marker::Model;

/// A text of at most [`TEXT_LIMIT`] bytes of UTF-8. Contracts see its bytes.
#[derive(Drop)]
pub struct Text {
    text: String,
}

impl Model for Text {
    ghost use Rattle.std.specs.Prelude.{◌≤◌, ℕ, List, length, string_bytes};

    ghost Value = { List ℕ };

    ghost view = { λ t. string_bytes t.text };

    ghost invariant = { λ t. length (string_bytes t.text) ≤ 4096 };
}

impl Text {
    /// A text with these bytes. `None` exactly where there are more than [`TEXT_LIMIT`].
    pub fn new(alloc: Global, text: &str) -> Result<Option<Text>, AllocError>
        ensures { IfOk result (λ made. made ≡ short_text text.now) }
    {
        if text.len() > TEXT_LIMIT {
            return Ok(None);
        }
        let text = String::from_str(alloc, text)?;
        Ok(Some(Text { text }))
    }

    /// The text.
    pub fn as_str(&self) -> &str
        ensures same { result.now ≡ self.now }
        ensures short { length self.now ≤ 4096 }
    {
        self.text.as_str()
    }

    /// A copy, equal to its source.
    pub fn copy(&self) -> Result<Text, AllocError>
        ensures { IfOk result (λ made. made ≡ self.now) }
    {
        let text = self.text.clone()?;
        Ok(Text { text })
    }
}
