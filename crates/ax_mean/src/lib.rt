//! What queries are and what they mean: values, expressions, and the definitions of what an
//! expression stands for. Every crate that evaluates or plans cites these definitions.
//!
//! Stands on `ax_tree`, whose trees it gives on. It has types and definitions, and next to no code:
//! its one contract is the laws of the value order.
#![tactic(auto)]

mod aggregates;
mod boxed;
mod expr;
pub mod laws;
mod operator;
mod parts;
mod query;
mod shared;
mod value;

pub use ax_tree::{
    Items, Member, Members, Memory, Text, Tree, append_tree, id_of, laws as tree_laws, may_be_id,
    write_tree,
};
pub use boxed::Boxed;
pub use expr::{Chained, Expr, ExprList, MemberList, OpChain, QueryStep, StepList};
pub use operator::{Aggregate, BinaryOp, Func, UnaryOp};
pub use parts::Parts;
pub use query::{
    FromItem, FromList, KeyedRow, Named, NamedList, Order, OrderList, Path, Pick, PlaceList, Query,
    Step,
};
pub use shared::Shared;
pub use value::{Value, ValueList};
