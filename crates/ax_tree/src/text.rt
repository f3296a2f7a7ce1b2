ghost use Rattle.std.specs.Prelude.{◌≡◌, ◌<◌, ◌^◌, IfOk, length, string_bytes};

use crate::out_of_memory::Memory;
use std::alloc::Global;
use std::marker::Model;

/// A text that contracts see as its bytes, which are UTF-8. It is made from a `String` and gives it
/// back without a copy.
#[derive(Debug, Drop)]
pub struct Text {
    text: String,
}

impl Model for Text {
    ghost use Rattle.std.specs.Prelude.{List, ℕ, string_bytes};
    ghost use Rattle.std.specs.Coded.{coded_list, coded_ℕ};

    ghost Value = { List ℕ };

    ghost coded = { coded_list coded_ℕ };

    ghost view = { λ t. string_bytes t.text };
}

impl Text {
    pub fn from_string(text: String) -> Text
        ensures { result ≡ string_bytes text }
    {
        Text { text }
    }

    pub fn into_string(self) -> String
        ensures { string_bytes result ≡ self }
    {
        let Text { text } = self;
        text
    }

    pub fn as_str(&self) -> &str
        ensures text { result.now ≡ self.now }
        ensures short { length result.now < 2 ^ 63 }
    {
        self.text.as_str()
    }

    /// An equal text.
    pub fn copy(&self, alloc: Global) -> Result<Text, Memory>
        ensures { IfOk result (λ text. text ≡ self.now) }
    {
        let text = String::from_str(alloc, self.text.as_str())?;
        Ok(Text { text })
    }
}
