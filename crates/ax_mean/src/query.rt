use crate::expr::{Expr, ExprList, StepList};
use crate::value::ValueList;
use ax_tree::{Items, Text, Tree};

/// A query, with its parameters put in as literals.
#[derive(Debug, Drop)]
pub struct Query {
    pub distinct: bool,
    pub pick: Pick,
    /// The source after FROM, then those after each JOIN.
    pub froms: FromList,
    /// The expression after WHERE.
    pub condition: Option<Expr>,
    /// The expressions after GROUP BY.
    pub groups: ExprList,
    pub orders: OrderList,
    /// The rows to leave out first: the number after OFFSET, else 0.
    pub skip: u32,
    /// The number after LIMIT or TOP.
    pub limit: Option<u32>,
}

/// What a query gives for each row.
#[derive(Debug, Drop)]
pub enum Pick {
    /// `SELECT *`
    Star,
    /// `SELECT VALUE e`
    Value(Expr),
    /// `SELECT a, b AS c`
    Named(NamedList),
}

/// A picked expression with the name that it has in the row.
#[derive(Debug, Drop)]
pub struct Named {
    pub name: Text,
    pub expr: Expr,
}

/// A source of rows: the steps from `base`, bound to `alias`.
#[derive(Debug, Drop)]
pub struct FromItem {
    pub alias: Text,
    /// The container's name for the first source, which binds nothing; else an alias that was bound
    /// before.
    pub base: Text,
    pub steps: StepList,
    /// Whether the alias is bound to each element of a list, by IN.
    pub each: bool,
}

/// A path by which rows are ordered.
#[derive(Debug, Drop)]
pub struct Order {
    pub path: Path,
    /// Whether DESC is written.
    pub down: bool,
}

/// A step of a path in documents.
#[derive(Debug, Drop)]
pub enum Step {
    Name(Text),
    /// To any element of a list.
    Item,
}

/// A row of an answer with its key: its order values, the number of its document and its place
/// among that document's rows.
#[derive(Debug, Drop)]
pub struct KeyedRow {
    pub values: ValueList,
    pub number: u32,
    pub place: PlaceList,
    pub shown: Tree,
}

pub type NamedList = Items<Named>;

pub type FromList = Items<FromItem>;

pub type OrderList = Items<Order>;

pub type Path = Items<Step>;

pub type PlaceList = Items<u32>;
