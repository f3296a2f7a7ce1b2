ghost use Rattle.std.specs.Prelude.{◌≡◌, not};
ghost use Rattle.std.specs.Option.{option_copied};
ghost use Rattle.std.specs.List.{list_all};
ghost use Rattle.ax_tree.specs.Document.{member, value_of as value_of_lem, text_value, is_control, is_id, document_id};

use crate::members::Member;
use crate::text::Text;
use crate::tree::Tree;

impl Tree {
    /// The value of the member of that name; `None` where the tree is no map or has no such member.
    pub fn member(&self, name: &str) -> Option<&Tree>
        ensures { option_copied result ≡ member name.now self.now }
    {
        match self {
            Tree::Object(members) => value_of(members.as_slice(), name),
            _ => None,
        }
    }

    /// The text that the tree is; `None` where it is no text.
    pub fn as_text(&self) -> Option<&Text>
        ensures { option_copied result ≡ text_value self.now }
    {
        match self {
            Tree::Text(text) => Some(text),
            _ => None,
        }
    }
}

fn value_of<'a>(members: &'a [Member<Tree>], name: &str) -> Option<&'a Tree>
    ensures { option_copied result ≡ value_of_lem name.now members.now }
{
    for member in members {
        if member.name.as_str() == name {
            return Some(&member.value);
        }
    }
    None
}

/// Whether the text may be an id: 1 to 255 bytes without control characters (U+0000 to U+001F and
/// U+007F).
pub fn may_be_id(text: &str) -> bool
    ensures { result ≡ is_id text.now }
{
    if text.is_empty() || text.len() > 255 {
        return false;
    }
    has_no_control(text.as_bytes())
}

fn has_no_control(text: &[u8]) -> bool
    ensures { result ≡ list_all (λ byte. not (is_control byte)) text.now }
{
    text.iter().all(|byte| !(*byte < 32 || *byte == 127))
}

/// The id of a document; `None` exactly where the tree is no document.
pub fn id_of(tree: &Tree) -> Option<&Text>
    ensures { option_copied result ≡ document_id tree.now }
{
    let id = tree.member("id")?.as_text()?;
    if may_be_id(id.as_str()) {
        Some(id)
    } else {
        None
    }
}
