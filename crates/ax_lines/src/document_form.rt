ghost use Rattle.std.specs.Prelude.{◌≡◌};
ghost use Rattle.ax_lines.specs.Lines.{line_with};

use crate::line::Line;
use ax_tree::Tree;

/// The forms of a line whose argument is a document.
#[derive(Clone, Copy, Debug)]
pub enum DocumentForm {
    /// `CREATE`.
    Create,
    /// `UPSERT`.
    Upsert,
    /// `REPLACE`.
    Replace,
}

impl DocumentForm {
    /// The line of this form with that document.
    pub(crate) fn line(self, tree: Tree) -> Line
        ensures { result ≡ line_with self tree }
    {
        match self {
            DocumentForm::Create => Line::Create(tree),
            DocumentForm::Upsert => Line::Upsert(tree),
            DocumentForm::Replace => Line::Replace(tree),
        }
    }
}
