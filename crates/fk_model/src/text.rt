//! Texts that contracts see as the bytes of their UTF-8.
ghost use Rattle.std.specs.Prelude.{◌≡◌, IfOk, string_bytes};

use crate::NoMemory;
use std::alloc::Global;
use std::marker::Model;

/// A text. Contracts see its bytes alone, not its room.
#[derive(Drop)]
pub struct Text {
    text: String,
}

impl Model for Text {
    ghost use Rattle.std.specs.Prelude as words;

    ghost Value = { words.List words.ℕ };

    ghost view = { λ s. words.string_bytes s.text };
}

impl PartialEq for Text {
    ghost use Rattle.std.specs.Prelude.{nat_eq};
    ghost use Rattle.std.specs.Cmp.{partial_equiv_from_equiv};
    ghost use Rattle.std.specs.Cmp.Lexicographic.{pointwise, nat_list_eq_equiv};

    ghost eq = { pointwise nat_eq };

    ghost laws = { partial_equiv_from_equiv nat_list_eq_equiv };

    fn eq(&self, other: &Text) -> bool {
        self.text == other.text
    }
}

impl Eq for Text {
    ghost use Rattle.std.specs.Cmp.Lexicographic.{nat_list_eq_equiv};

    ghost laws = { nat_list_eq_equiv };
}

impl Text {
    /// A text of its own that is equal to this one.
    ///
    /// # Errors
    ///
    /// There is no memory for the text.
    pub fn of(alloc: Global, text: &str) -> Result<Text, NoMemory>
        ensures { IfOk result (λ copy. copy ≡ text.now) }
    {
        Ok(Text {
            text: String::from_str(alloc, text)?,
        })
    }

    /// Its characters.
    pub fn as_str(&self) -> &str
        ensures { result.now ≡ self.now }
    {
        self.text.as_str()
    }

    /// An equal text.
    ///
    /// # Errors
    ///
    /// There is no memory for the copy.
    pub fn copy(&self) -> Result<Text, NoMemory>
        ensures { IfOk result (λ copy. copy ≡ self.now) }
    {
        Ok(Text {
            text: self.text.clone()?,
        })
    }
}
