//! The rules of scope and the query that is made: what holds of a query as it is written, the names
//! that its sources and items have, and the query that stands for it.
//!
//! Stands on `ax_grammar`, whose definitions it carries out, on `ax_lex`, which knows the keywords,
//! and on `ax_mean`, which has the queries. Its one contract: `made` is the query that is made of
//! what is written, and `obeys_rules` says whether the rules of scope allow it.
#![tactic(auto)]

mod aggregates;
mod aliases;
mod built;
mod declared;
mod distinct;
mod make;
mod names;
mod picks;
mod rules;
mod same;
mod same_parts;
mod written;

pub use ax_mean::Memory;
pub use make::made;
pub use rules::obeys_rules;
pub use written::{
    Item, ItemList, Joined, JoinedList, NameList, Ordered, OrderedList, Picked, Source, Window,
    Written,
};
