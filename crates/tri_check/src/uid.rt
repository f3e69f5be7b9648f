// The name of an instance.
ghost use Rattle.std.specs.Prelude.{◌≡◌, ◌↔◌, IfOk, IsTrue, IsUtf8};

use std::alloc::{AllocError, Global};
use std::marker::Model;

/// The name of an instance: a text, seen as its bytes, which are UTF-8. It may be empty.
#[derive(Debug, Drop)]
pub struct Uid {
    text: String,
}

impl Model for Uid {
    ghost use Rattle.std.specs.Prelude.{List, ℕ, string_bytes};

    ghost Value = { List ℕ };

    ghost view = { λ u. string_bytes u.text };
}

impl Uid {
    /// The name with these bytes.
    pub fn of(alloc: Global, text: &str) -> Result<Self, AllocError>
        ensures { IfOk result (λ u. u ≡ text.now) }
    {
        Ok(Uid {
            text: String::from_str(alloc, text)?,
        })
    }

    /// The bytes as a text.
    pub fn text(&self) -> &str
        ensures bytes { result.now ≡ self.now }
        ensures utf8 { IsUtf8 self.now }
    {
        self.text.as_str()
    }

    /// An equal name.
    pub fn copy(&self) -> Result<Self, AllocError>
        ensures { IfOk result (λ u. u ≡ self.now) }
    {
        Ok(Uid {
            text: self.text.clone()?,
        })
    }

    /// Whether the two have the same bytes.
    pub fn same(&self, other: &Uid) -> bool
        ensures { IsTrue result ↔ (self.now ≡ other.now) }
    {
        self.text.as_str() == other.text.as_str()
    }
}
