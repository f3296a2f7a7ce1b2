//! Plans of queries: which of its conditions are answered from the index, and with which terms.
//!
//! Documents have their terms under the policy by which each was indexed last, so a condition is usable only where
//! all these policies cover the leaves on which it rests, and the policy now with them. Stands on `ax_atoms`, which
//! finds the conditions that an index answers and their ranges of terms, and on `ax_policy`, which tells what each
//! policy of a table covers. Its one contract: `plan` gives one union of ranges for each usable condition of the
//! query and no other (`specs/Usable.antt`), those on one property combined (`specs/Combining.antt`), and refuses it exactly
//! where the policy now keeps no order for its ORDER BY (`specs/Ordered.antt`); laws say what that is worth: a well-formed
//! document has a term in each union exactly where it has one for each usable condition, and one that has not, under
//! whichever of these policies it is, has no rows in the query.
#![tactic(auto)]

mod combining;
mod covering;
mod fault;
pub mod laws;
mod parts;
mod planning;
mod shared_ranges;
mod sought;

pub use ax_mean::{Memory, Query};
pub use ax_policy::PolicyTable;
pub use covering::{covered, covered_all};
pub use fault::PlanFault;
pub use parts::{Plan, Source, UnionList};
pub use planning::plan;
