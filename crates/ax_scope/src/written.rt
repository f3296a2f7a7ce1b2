use ax_mean::{Expr, ExprList, Items, StepList, Text};

/// A picked expression, and the name that is written behind it.
#[derive(Debug, Drop)]
pub struct Item {
    pub expr: Expr,
    pub name: Option<Text>,
}

/// What stands between SELECT and FROM.
#[derive(Debug, Drop)]
pub enum Picked {
    /// `SELECT *`
    Star,
    /// `SELECT VALUE e`
    Value(Expr),
    /// `SELECT a, b AS c`
    Items(ItemList),
}

/// The source after FROM: the steps from a container, and the alias that is written.
#[derive(Debug, Drop)]
pub struct Source {
    pub container: Text,
    /// Whether the alias is bound to each element of a list, by IN.
    pub each: bool,
    pub steps: StepList,
    pub alias: Option<Text>,
}

/// A source after JOIN: the alias that is bound to each element, and the steps from another alias.
#[derive(Debug, Drop)]
pub struct Joined {
    pub alias: Text,
    pub base: Text,
    pub steps: StepList,
}

/// An item of ORDER BY: an alias, and the names of a path from it.
#[derive(Debug, Drop)]
pub struct Ordered {
    pub alias: Text,
    pub path: NameList,
    /// Whether DESC is written.
    pub down: bool,
}

/// The numbers after OFFSET and LIMIT.
#[derive(Clone, Copy, Debug, PartialEq, Eq)]
pub struct Window {
    pub offset: u32,
    pub limit: u32,
}

/// What a query writes, before its sources and items have their names.
#[derive(Debug, Drop)]
pub struct Written {
    pub distinct: bool,
    /// The number after TOP.
    pub top: Option<u32>,
    pub picked: Picked,
    pub source: Source,
    pub joins: JoinedList,
    /// The expression after WHERE.
    pub condition: Option<Expr>,
    /// The expressions after GROUP BY.
    pub groups: ExprList,
    pub orders: OrderedList,
    pub window: Option<Window>,
}

pub type ItemList = Items<Item>;

pub type JoinedList = Items<Joined>;

pub type NameList = Items<Text>;

pub type OrderedList = Items<Ordered>;
