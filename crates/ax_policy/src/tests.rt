use crate::read_path::rule_path;
use crate::{Policy, PolicyFault, PolicyTable, TableFault, default_policy, read_policy};
use ax_mean::{Items, Memory};
use ax_text::read_tree;
use std::alloc::Global;
use std::test::Fail;

/// The normal text of the policy that a text is; the empty text of one that is refused.
fn normal(alloc: Global, text: &str) -> Result<Vec<u8>, Memory> {
    let Ok(tree) = read_tree(alloc, text.as_bytes()) else {
        return Err(Memory);
    };
    match read_policy(alloc, &tree) {
        Ok(policy) => policy.normal(alloc),
        Err(PolicyFault::Refused) => Ok(Vec::new(alloc)),
        Err(PolicyFault::Memory) => Err(Memory),
    }
}

// Normal texts by hand, from the manual's rules on members, defaults and order.
#[test]
fn a_policy_has_its_normal_text(rt: HostRuntime) -> Result<(), Fail> {
    let alloc = rt.alloc();
    for (text, expected) in [
        (
            r#"{"includedPaths":[{"path":"/*"}],"excludedPaths":[{"path":"/\"_etag\"/?"}]}"#,
            r#"{"automatic":true,"compositeIndexes":[],"excludedPaths":[{"path":"/\"_etag\"/?"}],"includedPaths":[{"path":"/*"}],"indexingMode":"consistent"}"#,
        ),
        (
            r#"{"indexingMode":"NONE","automatic":false,"other":1}"#,
            r#"{"automatic":false,"compositeIndexes":[],"excludedPaths":[],"includedPaths":[],"indexingMode":"none"}"#,
        ),
        (
            r#"{"includedPaths":[{"path":"/a/?"},{"path":"/a/b/?"},{"path":"/*","indexes":[]},{"path":"/\"a\"/*"},{"path":"/a/?"}]}"#,
            r#"{"automatic":true,"compositeIndexes":[],"excludedPaths":[],"includedPaths":[{"path":"/\"a\"/\"b\"/?"},{"path":"/\"a\"/*"},{"path":"/\"a\"/?"},{"path":"/*"}],"indexingMode":"consistent"}"#,
        ),
        (
            r#"{"excludedPaths":[{"path":"/*"}],"compositeIndexes":[[{"path":"/b"},{"path":"/a/?","order":"descending"}],[{"path":"/a"},{"path":"/b"}]]}"#,
            r#"{"automatic":true,"compositeIndexes":[[{"order":"ascending","path":"/\"a\""},{"order":"ascending","path":"/\"b\""}],[{"order":"ascending","path":"/\"b\""},{"order":"descending","path":"/\"a\""}]],"excludedPaths":[{"path":"/*"}],"includedPaths":[],"indexingMode":"consistent"}"#,
        ),
    ] {
        assert_eq!(rt;
            normal(alloc, text)?.as_slice(),
            expected.as_bytes(),
            "{text}"
        );
    }
    Ok(())
}

#[test]
fn what_is_no_policy_is_refused(rt: HostRuntime) -> Result<(), Fail> {
    let alloc = rt.alloc();
    for text in [
        "[]",
        "{}",
        r#"{"automatic":false}"#,
        r#"{"indexingMode":null}"#,
        r#"{"indexingMode":"lazy"}"#,
        r#"{"indexingMode":"none","automatic":1}"#,
        r#"{"indexingMode":"none","spatialIndexes":null}"#,
        r#"{"indexingMode":"none","vectorIndexes":[1]}"#,
        r#"{"indexingMode":"none","includedPaths":{}}"#,
        r#"{"indexingMode":"none","includedPaths":[{"path":1}]}"#,
        r#"{"includedPaths":[{"path":"/*"},{"path":"/a/?"}],"excludedPaths":[{"path":"/\"a\"/?"}]}"#,
    ] {
        assert!(rt; normal(alloc, text)?.is_empty(), "{text}");
    }
    Ok(())
}

#[test]
fn paths_are_read_as_they_are_written(rt: HostRuntime) -> Result<(), Fail> {
    let alloc = rt.alloc();
    for (path, good) in [
        (r#"/\"\"/?"#, true),
        (r#"/a\\\\b/?"#, true),
        (r#"/[]/?"#, true),
        (r#"/[]x/?"#, true),
        (r#"/\"\\\"\"/*"#, true),
        (r#"/?"#, false),
        (r#"/\"a\"b/?"#, false),
        (r#"/\"\\a\"/?"#, false),
        (r#"/*/a/?"#, false),
        (r#"//?"#, false),
        (r#"a/?"#, false),
        (r#"/a"#, false),
        (r#"/a\"/?"#, false),
    ] {
        let text = format!(in alloc;
            "{{\"includedPaths\":[{{\"path\":\"/*\"}},{{\"path\":\"{path}\"}}]}}"
        )?;
        assert_eq!(rt; !normal(alloc, text.as_str())?.is_empty(), good, "{path}");
    }
    Ok(())
}

/// The policy that a text is.
fn policy(alloc: Global, text: &str) -> Result<Policy, Memory> {
    let Ok(tree) = read_tree(alloc, text.as_bytes()) else {
        return Err(Memory);
    };
    match read_policy(alloc, &tree) {
        Ok(policy) => Ok(policy),
        Err(_) => Err(Memory),
    }
}

#[test]
fn the_default_policy_has_its_normal_text(rt: HostRuntime) -> Result<(), Fail> {
    let alloc = rt.alloc();
    let text = default_policy(alloc)?.normal(alloc)?;
    assert_eq!(rt;
        text.as_slice(),
        br#"{"automatic":true,"compositeIndexes":[],"excludedPaths":[{"path":"/\"_etag\"/?"}],"includedPaths":[{"path":"/*"}],"indexingMode":"consistent"}"#.as_slice()
    );
    Ok(())
}

/// Whether the policy that a text is covers a leaf, `/a/?`, or each below it, `/a/*`.
fn is_covered(alloc: Global, text: &str, path: &str) -> Result<bool, Memory> {
    let policy = policy(alloc, text)?;
    covers(alloc, &policy, path)
}

fn covers(alloc: Global, policy: &Policy, path: &str) -> Result<bool, Memory> {
    match rule_path(alloc, path)? {
        Some(path) => Ok(if path.all {
            policy.covers_all(&path.steps)
        } else {
            policy.covers(&path.steps)
        }),
        None => Err(Memory),
    }
}

// By the manual's rule: most steps, and of equal steps `/?`.
#[test]
fn the_most_precise_path_decides(rt: HostRuntime) -> Result<(), Fail> {
    let alloc = rt.alloc();
    for (text, path, expected) in [
        (LEAF_OUT, "/a/?", false),
        (LEAF_OUT, "/a/b/?", true),
        (LEAF_OUT, "/b/*", true),
        (LEAF_OUT, "/a/*", false),
        (LEAF_IN, "/a/?", false),
        (LEAF_IN, "/a/b/?", true),
        (LEAF_IN, "/a/b/c/?", false),
        (ITEMS_OUT, "/a/[]/?", false),
        (ITEMS_OUT, r#"/a/"[]"/?"#, true),
        (ITEMS_OUT, "/a/[]/b/*", true),
        (BOTH_MARKS, "/a/?", true),
        (BOTH_MARKS, "/a/b/?", false),
        (
            r#"{"indexingMode":"none","includedPaths":[{"path":"/*"}]}"#,
            "/a/?",
            false,
        ),
        (
            r#"{"automatic":false,"includedPaths":[{"path":"/*"}]}"#,
            "/a/?",
            false,
        ),
    ] {
        assert_eq!(rt; is_covered(alloc, text, path)?, expected, "{text} {path}");
    }
    Ok(())
}

const LEAF_OUT: &str = r#"{"includedPaths":[{"path":"/*"}],"excludedPaths":[{"path":"/a/?"}]}"#;

const LEAF_IN: &str =
    r#"{"includedPaths":[{"path":"/a/b/?"}],"excludedPaths":[{"path":"/*"},{"path":"/a/*"}]}"#;

const ITEMS_OUT: &str = r#"{"includedPaths":[{"path":"/*"}],"excludedPaths":[{"path":"/a/[]/?"}]}"#;

const BOTH_MARKS: &str =
    r#"{"includedPaths":[{"path":"/a/?"}],"excludedPaths":[{"path":"/*"},{"path":"/a/*"}]}"#;

/// Whether the policy that a text is keeps the order of the first composite of another.
fn is_kept(alloc: Global, text: &str, orders: &str) -> Result<bool, Memory> {
    let policy = policy(alloc, text)?;
    keeps(alloc, &policy, orders)
}

fn keeps(alloc: Global, keeper: &Policy, orders: &str) -> Result<bool, Memory> {
    let other = policy(alloc, orders)?;
    match other.composite(0) {
        Some(orders) => Ok(keeper.orderable(orders)),
        None => Err(Memory),
    }
}

#[test]
fn orders_are_kept_with_all_directions_equal_or_opposite(rt: HostRuntime) -> Result<(), Fail> {
    let alloc = rt.alloc();
    for (policy, orders, expected) in [
        (
            "",
            r#"[{"path":"/a"},{"path":"/b","order":"descending"}]"#,
            true,
        ),
        (
            "",
            r#"[{"path":"/a","order":"descending"},{"path":"/b"}]"#,
            true,
        ),
        ("", r#"[{"path":"/a"},{"path":"/b"}]"#, false),
        (
            "",
            r#"[{"path":"/b","order":"descending"},{"path":"/a"}]"#,
            false,
        ),
        (
            r#""indexingMode":"none","#,
            r#"[{"path":"/a"},{"path":"/b","order":"descending"}]"#,
            false,
        ),
        (
            r#""automatic":false,"#,
            r#"[{"path":"/a"},{"path":"/b","order":"descending"}]"#,
            false,
        ),
    ] {
        let text = format!(in alloc;
            "{{{policy}\"includedPaths\":[{{\"path\":\"/*\"}}],\"compositeIndexes\":[[{{\"path\":\"/a\"}},{{\"path\":\"/b\",\"order\":\"descending\"}}]]}}"
        )?;
        let wanted = format!(in alloc;
            "{{\"includedPaths\":[{{\"path\":\"/*\"}}],\"compositeIndexes\":[{orders}]}}"
        )?;
        assert_eq!(rt;
            is_kept(alloc, text.as_str(), wanted.as_str())?,
            expected,
            "{policy} {orders}"
        );
    }
    assert!(rt; default_policy(alloc)?.orderable(&Items::new(alloc)));
    Ok(())
}

/// The number under which the policy that excludes that name is now; `None` where the table is full.
fn set_now(alloc: Global, table: &mut PolicyTable, name: &str) -> Result<Option<u8>, Memory> {
    let text = format!(in alloc;
        "{{\"includedPaths\":[{{\"path\":\"/*\"}}],\"excludedPaths\":[{{\"path\":\"/{name}/?\"}}]}}"
    )?;
    let policy = policy(alloc, text.as_str())?;
    match table.set_now(alloc, policy) {
        Ok(()) => Ok(Some(table.now())),
        Err(TableFault::Full) => Ok(None),
        Err(TableFault::Memory) => Err(Memory),
    }
}

/// One document more under the policy now.
fn create(table: &mut PolicyTable) {
    let number = table.now();
    if table.count(number) < 1_048_576 {
        table.count_in(number);
    }
}

#[test]
fn a_policy_keeps_its_number_while_it_is_in_use(rt: HostRuntime) -> Result<(), Fail> {
    let alloc = rt.alloc();
    let mut table = PolicyTable::fresh(alloc)?;
    for (name, documents, expected) in [
        ("_etag", false, 0),
        ("a", false, 1),
        ("b", true, 0),
        ("a", false, 1),
        ("b", false, 0),
        ("c", true, 1),
        ("a", false, 2),
        ("c", false, 1),
    ] {
        let number = set_now(alloc, &mut table, name)?;
        assert_eq!(rt; number, Some(expected), "{name}");
        if documents {
            create(&mut table);
        }
    }
    assert_eq!(rt; table.left(), 1);
    Ok(())
}

#[test]
fn a_ninth_policy_in_use_is_too_many(rt: HostRuntime) -> Result<(), Fail> {
    let alloc = rt.alloc();
    let mut table = PolicyTable::fresh(alloc)?;
    for (name, expected) in [
        ("p1", 1),
        ("p2", 0),
        ("p3", 2),
        ("p4", 3),
        ("p5", 4),
        ("p6", 5),
        ("p7", 6),
        ("p8", 7),
    ] {
        let number = set_now(alloc, &mut table, name)?;
        assert_eq!(rt; number, Some(expected), "{name}");
        create(&mut table);
    }
    assert_eq!(rt; set_now(alloc, &mut table, "p9")?, None);
    assert_eq!(rt; set_now(alloc, &mut table, "p3")?, Some(2));
    assert_eq!(rt; table.left(), 7);
    Ok(())
}

#[test]
fn a_policy_is_put_under_a_number_and_started(rt: HostRuntime) -> Result<(), Fail> {
    let alloc = rt.alloc();
    let mut table = PolicyTable::fresh(alloc)?;
    let policy = default_policy(alloc)?;
    table.put(3, policy)?;
    assert!(rt; table.policy(3).is_some());
    assert!(rt; table.policy(4).is_none());
    if table.policy(3).is_some() {
        table.start(3);
    }
    create(&mut table);
    let number = table.now();
    assert_eq!(rt; (number, table.count(3)), (3, 1));
    if table.count(number) > 0 {
        table.count_out(number);
    }
    assert_eq!(rt; table.count(3), 0);
    Ok(())
}

#[test]
fn moved_documents_are_noted_until_a_policy_is_started(rt: HostRuntime) -> Result<(), Fail> {
    let alloc = rt.alloc();
    let mut table = PolicyTable::fresh(alloc)?;
    assert_eq!(rt; table.moved(), 0);
    table.set_moved(7);
    create(&mut table);
    let policy = default_policy(alloc)?;
    table.put(3, policy)?;
    assert_eq!(rt; table.moved(), 7);
    if table.policy(3).is_some() {
        table.start(3);
    }
    assert_eq!(rt; (table.now(), table.moved()), (3, 0));
    Ok(())
}

#[test]
fn a_policy_stands_under_the_number_that_was_asked_for_it(rt: HostRuntime) -> Result<(), Fail> {
    let alloc = rt.alloc();
    let mut table = PolicyTable::fresh(alloc)?;
    create(&mut table);
    table.set_moved(1);
    let policy = policy(alloc, LEAF_OUT)?;
    match table.number_for(alloc, &policy)? {
        Some(number) => table.put_now(number, policy),
        None => drop(policy),
    }
    assert_eq!(rt; (table.now(), table.moved(), table.left()), (1, 0, 1));
    Ok(())
}
