//! Indexing policies: read from a tree, decided, and written in their normal form.
//!
//! Stands on `ax_mean` for paths and orders, and on `ax_tree` for what it reads and writes. Its one
//! contract: `read_policy` answers exactly the policy that a tree is, or its refusal, and the calls
//! of `Policy` tell exactly what the policy covers and which orders it keeps.
#![tactic(auto)]

mod compare;
mod composites;
mod covering;
mod default;
pub mod laws;
mod limits;
mod members;
mod mode;
mod name_places;
mod normal;
mod number_use;
mod ordering;
mod overlap;
mod path_text;
mod policy;
mod policy_fault;
mod quoted;
#[cfg(test)]
mod random_tests;
mod read;
mod read_path;
mod read_rules;
mod rule_path;
mod rule_tree;
mod rules;
mod slot;
mod table;
mod table_fault;
#[cfg(test)]
mod tests;
mod walk;
#[cfg(test)]
mod walk_tests;
mod with_rule;

pub use default::default_policy;
pub use mode::Mode;
pub use overlap::same_path;
pub use policy::{Composite, Policy};
pub use policy_fault::PolicyFault;
pub use read::read_policy;
pub use table::PolicyTable;
pub use table_fault::TableFault;
pub use walk::RuleWalk;
