//! Laws of the definitions, each the contract of a function that does nothing.
ghost use Rattle.std.specs.Prelude.{List};
ghost use Rattle.ax_tree.specs.Names.{HaveRisingNames};
ghost use Rattle.ax_tree.specs.declared.members.Member.{Member};
ghost use Rattle.ax_mean.specs.Building.{members_of};
ghost use Rattle.ax_mean.specs.declared.value.Value.{Value};

/// The names of a map that an expression writes rise, as those of every map do.
#[tactic(auto, using(crate::proofs::Rising::members_rise))]
pub fn written_names_rise()
    ensures { (members : List (Member Value)) → HaveRisingNames (members_of members) }
{}
