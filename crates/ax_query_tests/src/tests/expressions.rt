//! Expressions over one document, which is bound to `c`, with the values worked out by hand from the
//! definitions of the query language.
use super::texts::{check_text, into_text, query_of};
use ax_eval::{Env, Memory as OutOfMemory, Scope, eval, eval_in, is_true_in};
use ax_func::Seen;
use ax_mean::{Expr, Memory, Pick, Query, Text, Tree, Value, write_tree};
use ax_text::read_tree;
use std::alloc::Global;
use std::process::Abort;
use std::test::Fail;

const DOCUMENT: &str = "{\"id\":\"a\",\"kind\":3,\"list\":[10,20],\"n\":501,\"nil\":null}";

fn alias(alloc: Global) -> Result<Text, Fail> {
    Ok(Text::from_string(String::from_str(alloc, "c")?))
}

fn document(alloc: Global) -> Result<Tree, Fail> {
    Ok(read_tree(alloc, DOCUMENT.as_bytes())?)
}

/// The query that picks the value of an expression.
fn query_picking(alloc: Global, expr: &str) -> Result<Query, Fail> {
    let text = format!(in alloc; "SELECT VALUE {expr} FROM c")?;
    query_of(alloc, text.as_str())
}

/// The expression that a query picks.
fn picked(query: &Query) -> Option<&Expr> {
    match &query.pick {
        Pick::Value(expr) => Some(expr),
        _ => None,
    }
}

fn env_of(alloc: Global, alias: Text, document: Tree) -> Result<Env, OutOfMemory> {
    let mut env = Env::new(alloc);
    match env.push(alias, Value::Defined(document)) {
        Ok(()) => Ok(env),
        Err(fault) => {
            drop(env);
            Err(fault)
        }
    }
}

fn env(alloc: Global) -> Result<Env, Fail> {
    let alias = alias(alloc)?;
    let document = document(alloc)?;
    Ok(env_of(alloc, alias, document)?)
}

fn value_in(alloc: Global, expr: &Expr, env: &Env) -> Result<Vec<u8>, Fail> {
    into_text(alloc, eval(alloc, expr, env)?)
}

fn value_in_document(alloc: Global, expr: &Expr) -> Result<Vec<u8>, Fail> {
    let env = env(alloc)?;
    let value = value_in(alloc, expr, &env);
    drop(env);
    value
}

fn value_picked(alloc: Global, query: &Query) -> Result<Vec<u8>, Fail> {
    match picked(query) {
        Some(expr) => value_in_document(alloc, expr),
        None => Ok(Vec::new(alloc)),
    }
}

/// The text of the value that an expression has in the document.
fn value_of(alloc: Global, expr: &str) -> Result<Vec<u8>, Fail> {
    let query = query_picking(alloc, expr)?;
    let value = value_picked(alloc, &query);
    drop(query);
    value
}

/// Sees that each expression has the value of this text in the document.
fn check(rt: &impl Abort, alloc: Global, table: &[(&str, &str)]) -> Result<(), Fail> {
    for (expr, expected) in table {
        let found = value_of(alloc, expr)?;
        check_text(rt, found.as_slice(), expected, expr);
    }
    Ok(())
}

#[test]
fn values_are_compared(rt: HostRuntime) -> Result<(), Fail> {
    const TABLE: [(&str, &str); 12] = [
        ("c.n > 500", "true"),
        ("c.none = 1", "undefined"),
        ("c.none = c.none", "undefined"),
        ("c.none != 1", "undefined"),
        ("1 != '1'", "undefined"),
        ("c.id != null", "undefined"),
        ("1 <> 2", "true"),
        ("c.nil = null", "true"),
        ("false < true", "true"),
        ("'b' <= 'a'", "false"),
        ("c.list = [10, 20]", "true"),
        ("c.list != [10]", "undefined"),
    ];
    check(&rt, rt.alloc(), &TABLE)
}

#[test]
fn truths_are_joined_with_undefined(rt: HostRuntime) -> Result<(), Fail> {
    const TABLE: [(&str, &str); 12] = [
        ("true AND c.none", "undefined"),
        ("false AND c.none", "false"),
        ("c.none AND false", "false"),
        ("true AND 1", "undefined"),
        ("true OR c.none", "true"),
        ("c.none OR true", "true"),
        ("c.none OR false", "undefined"),
        ("true OR true AND false", "true"),
        ("NOT c.none", "undefined"),
        ("NOT 1", "undefined"),
        ("NOT (c.n > 500)", "false"),
        ("NOT false AND false", "false"),
    ];
    check(&rt, rt.alloc(), &TABLE)
}

#[test]
fn a_value_is_chosen(rt: HostRuntime) -> Result<(), Fail> {
    const TABLE: [(&str, &str); 10] = [
        ("c.none ?? 7", "7"),
        ("c.id ?? 7", "\"a\""),
        ("c.nil ?? 7", "null"),
        ("c.none ?? c.none ?? 3", "3"),
        ("c.none ?? c.none", "undefined"),
        ("c.n > 500 ? 'yes' : 'no'", "\"yes\""),
        ("c.none ? 1 : 2", "2"),
        ("1 ? 1 : 2", "2"),
        ("false ? 1 : true ? 2 : 3", "2"),
        ("c.none ?? true ? 1 : 2", "1"),
    ];
    check(&rt, rt.alloc(), &TABLE)
}

#[test]
fn texts_count_characters(rt: HostRuntime) -> Result<(), Fail> {
    const TABLE: [(&str, &str); 11] = [
        ("'aé' LIKE 'a_'", "true"),
        ("'é' LIKE '__'", "false"),
        ("c.id NOT LIKE 'a%'", "false"),
        ("c.id NOT LIKE '['", "undefined"),
        ("c.n LIKE '%'", "undefined"),
        ("LEFT('éab', 2)", "\"éa\""),
        ("LENGTH('é😀')", "2"),
        ("CONCAT('a', 'é', c.id)", "\"aéa\""),
        ("CONCAT(c.id, c.none)", "undefined"),
        ("c.id || 'b' || c.id", "\"aba\""),
        ("c.id || 1", "undefined"),
    ];
    check(&rt, rt.alloc(), &TABLE)
}

#[test]
fn numbers_are_reckoned(rt: HostRuntime) -> Result<(), Fail> {
    const TABLE: [(&str, &str); 13] = [
        ("7 / 2", "undefined"),
        ("-6 / 3", "-2"),
        ("1 / 0", "undefined"),
        ("-7 % 3", "-1"),
        ("7 % -3", "1"),
        ("-9223372036854775808", "-9223372036854775808"),
        ("--9223372036854775808", "undefined"),
        ("9223372036854775807 + 1", "undefined"),
        ("2 + 3 * 4", "14"),
        ("10 - 3 - 2", "5"),
        ("2 * 3 % 4", "2"),
        ("-c.kind + c.n", "498"),
        ("+c.id", "undefined"),
    ];
    check(&rt, rt.alloc(), &TABLE)
}

#[test]
fn a_value_is_among_others(rt: HostRuntime) -> Result<(), Fail> {
    const TABLE: [(&str, &str); 11] = [
        ("c.kind BETWEEN 1 AND 3", "true"),
        ("c.kind NOT BETWEEN 1 AND 2", "true"),
        ("c.kind BETWEEN 4 AND c.none", "false"),
        ("c.kind BETWEEN 1 AND c.none", "undefined"),
        ("c.kind BETWEEN 'a' AND 5", "undefined"),
        ("c.kind IN (1, 3)", "true"),
        ("c.kind IN (c.none, 3)", "true"),
        ("c.kind IN (1, '3')", "undefined"),
        ("c.kind NOT IN (1, 2)", "true"),
        ("c.none IN (1)", "undefined"),
        ("c.list IN ([10], [10, 20])", "true"),
    ];
    check(&rt, rt.alloc(), &TABLE)
}

#[test]
fn parts_are_undefined_or_there(rt: HostRuntime) -> Result<(), Fail> {
    const TABLE: [(&str, &str); 9] = [
        ("c.list[0]", "10"),
        ("c.list[1]", "20"),
        ("c.list[2]", "undefined"),
        ("c.id[0]", "undefined"),
        ("c['n']", "501"),
        ("c.n.x.y", "undefined"),
        ("IS_DEFINED(null)", "true"),
        ("IS_DEFINED(c.nil)", "true"),
        ("IS_DEFINED(c.nil.x)", "false"),
    ];
    check(&rt, rt.alloc(), &TABLE)
}

// What is undefined is left out. Of a repeated name the last counts.
#[test]
fn lists_and_maps_are_made(rt: HostRuntime) -> Result<(), Fail> {
    const TABLE: [(&str, &str); 7] = [
        ("[1, c.none, c.id]", "[1,\"a\"]"),
        ("[c.none]", "[]"),
        ("[[], {}]", "[[],{}]"),
        ("{a: c.n, z: c.none}", "{\"a\":501}"),
        ("{b: 1, a: 2, 'b': 3}", "{\"a\":2,\"b\":3}"),
        ("{b: 1, b: c.none}", "{}"),
        ("{select: [c.list[1]]}", "{\"select\":[20]}"),
    ];
    check(&rt, rt.alloc(), &TABLE)
}

/// Whether the condition is true of the document, and whether it is where no alias is bound.
fn holds<'a>(
    alloc: Global,
    condition: &'a Expr,
    alias: &'a Text,
    document: &'a Tree,
) -> Result<(bool, bool), Fail> {
    let mut scope = Scope::new(alloc);
    scope.push(alias, document)?;
    let bound = is_true_in(alloc, condition, &scope)?;
    scope.pop();
    let unbound = is_true_in(alloc, condition, &scope)?;
    Ok((bound, unbound))
}

fn holds_of(alloc: Global, query: &Query, document: &Tree) -> Result<(bool, bool), Fail> {
    let alias = alias(alloc)?;
    match picked(query) {
        Some(condition) => holds(alloc, condition, &alias, document),
        None => Ok((false, false)),
    }
}

fn holds_of_document(alloc: Global, query: &Query) -> Result<(bool, bool), Fail> {
    let document = document(alloc)?;
    let found = holds_of(alloc, query, &document);
    drop(document);
    found
}

/// Whether a condition is true of the document, and whether it is where no alias is bound.
fn truth_of(alloc: Global, condition: &str) -> Result<(bool, bool), Fail> {
    let query = query_picking(alloc, condition)?;
    let found = holds_of_document(alloc, &query);
    drop(query);
    found
}

#[test]
fn a_condition_holds_of_the_bound_document(rt: HostRuntime) -> Result<(), Fail> {
    const TABLE: [(&str, bool); 3] = [
        ("c.n > 500 AND c.kind = 3", true),
        ("c.n > 500 AND c.kind = 4", false),
        ("c.n > 500 AND c.kind = '3'", false),
    ];
    let alloc = rt.alloc();
    for (condition, expected) in &TABLE {
        let (bound, unbound) = truth_of(alloc, condition)?;
        assert_eq!(rt; bound, *expected, "{condition}");
        assert!(rt; !unbound, "{condition}");
    }
    Ok(())
}

fn shown(alloc: Global, seen: &Seen) -> Result<Vec<u8>, Memory> {
    match seen.tree() {
        Some(tree) => write_tree(alloc, tree),
        None => Ok(Vec::from_slice(alloc, b"undefined".as_slice())?),
    }
}

fn into_shown(alloc: Global, seen: Seen<'_>) -> Result<Vec<u8>, Fail> {
    let text = shown(alloc, &seen);
    drop(seen);
    Ok(text?)
}

/// The text of the value that an expression has where the alias stands for the document.
fn shown_in<'a>(
    alloc: Global,
    expr: &'a Expr,
    alias: &'a Text,
    document: &'a Tree,
) -> Result<Vec<u8>, Fail> {
    let mut scope = Scope::new(alloc);
    scope.push(alias, document)?;
    into_shown(alloc, eval_in(alloc, expr, &scope)?)
}

fn shown_of(alloc: Global, query: &Query, document: &Tree) -> Result<Vec<u8>, Fail> {
    let alias = alias(alloc)?;
    match picked(query) {
        Some(expr) => shown_in(alloc, expr, &alias, document),
        None => Ok(Vec::new(alloc)),
    }
}

fn shown_of_document(alloc: Global, query: &Query) -> Result<Vec<u8>, Fail> {
    let document = document(alloc)?;
    let found = shown_of(alloc, query, &document);
    drop(document);
    found
}

/// The text of what an expression sees in the document.
fn seen_of(alloc: Global, expr: &str) -> Result<Vec<u8>, Fail> {
    let query = query_picking(alloc, expr)?;
    let found = shown_of_document(alloc, &query);
    drop(query);
    found
}

#[test]
fn what_stands_in_the_document_is_seen_there(rt: HostRuntime) -> Result<(), Fail> {
    const TABLE: [(&str, &str); 5] = [
        ("c", DOCUMENT),
        ("c.kind", "3"),
        ("c.id", "\"a\""),
        ("c.none", "undefined"),
        ("c.n + 1", "502"),
    ];
    let alloc = rt.alloc();
    for (expr, expected) in &TABLE {
        let found = seen_of(alloc, expr)?;
        check_text(&rt, found.as_slice(), expected, expr);
    }
    Ok(())
}
