//! Laws of the definitions, each the contract of a function that does nothing.
ghost use Rattle.std.specs.Prelude.{◌≡◌, ℕ, List, [], ◌∷◌, ◌++◌, Some, if◌then◌else◌};
ghost use Rattle.std.specs.Str.{bytes_eq};
ghost use Rattle.ax_tree.specs.Document.{value_of};
ghost use Rattle.ax_tree.specs.Names.{HaveRisingNames};
ghost use Rattle.ax_tree.specs.declared.members.Member.{Member};
ghost use Rattle.ax_tree.specs.declared.tree.Tree.{Tree};
ghost use Rattle.ax_lines.specs.Bodies.{by_name};
ghost use Rattle.ax_lines.specs.ScriptLines.{AreLines};

/// Any bytes are some lines and a last piece.
pub fn there_are_lines()
    ensures { (bytes : List ℕ) → (lines : List (List ℕ)) × (last : List ℕ)
        × AreLines bytes lines last }
{}

/// No bytes are split into lines in two ways.
pub fn the_lines_are_one()
    ensures { (bytes : List ℕ) (lines others : List (List ℕ)) (last rest : List ℕ)
        → AreLines bytes lines last → AreLines bytes others rest → (lines ≡ others)
        × (last ≡ rest) }
{}

/// Parameters by name: their names rise, and of a repeated name the one written last counts.
pub fn the_last_of_a_name_counts()
    ensures rising { (written : List (Member Tree)) → HaveRisingNames (by_name written) }
    ensures last { (name : List ℕ) (written : List (Member Tree)) (m : Member Tree)
        → value_of name (by_name (written ++ m ∷ [])) ≡ if bytes_eq m.name name then Some m.value
        else value_of name (by_name written) }
{}
