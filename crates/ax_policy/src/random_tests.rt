use crate::{Policy, RuleWalk, read_policy};
use ax_mean::Memory;
use ax_text::read_tree;
use std::alloc::Global;
use std::test::Fail;

/// Words of steps as a policy's text has them, each with the name that it is. The first is the step
/// to an item.
const WORDS: [(&str, &str); 4] = [
    ("[]", ""),
    (r#"\"a\""#, "a"),
    (r#"\"a!\""#, "a!"),
    (r#"\"a\\\"\""#, "a\""),
];

/// One or two steps by the places of their words; a second of 4 is none.
#[derive(Clone, Copy, PartialEq, Eq)]
struct Steps {
    first: usize,
    second: usize,
}

#[derive(Clone, Copy)]
struct Rule {
    steps: Steps,
    all: bool,
}

impl Rule {
    /// The same for equal rules, so that no path stands in both lists.
    fn is_included(self, seed: usize) -> bool {
        (self.steps.first ^ self.steps.second ^ seed) & 1 == 0
    }

    /// How much the rule tells of a leaf with these steps: 0 where it does not match, and else the
    /// more, the more steps it has, and with `/?` more than with `/*`.
    fn rank(self, steps: Steps) -> u8 {
        if self.steps == steps {
            return if self.all { 3 } else { 4 };
        }
        if self.all && self.steps.first == steps.first && self.steps.second == 4 {
            return 1;
        }
        0
    }
}

/// The next number of a linear congruential generator, below a bound.
fn drawn(state: &mut u64, bound: u64) -> usize {
    *state = state
        .wrapping_mul(6364136223846793005)
        .wrapping_add(1442695040888963407);
    ((*state >> 33) % bound.max(1)) as usize
}

fn drawn_steps(state: &mut u64) -> Steps {
    Steps {
        first: drawn(state, 4),
        second: drawn(state, 5),
    }
}

fn drawn_rules(alloc: Global, state: &mut u64) -> Result<Vec<Rule>, Memory> {
    let mut rules = Vec::new(alloc);
    for _ in 0..14 {
        let steps = drawn_steps(state);
        let all = drawn(state, 2) == 0;
        rules.push(Rule { steps, all })?;
    }
    Ok(rules)
}

/// What the manual says, by a look at each rule: that with the greatest rank decides, and with none
/// `/*` does, which is an included one.
fn is_covered(rules: &[Rule], seed: usize, steps: Steps) -> bool {
    let mut best = 0;
    let mut covered = true;
    for rule in rules {
        if rule.rank(steps) > best {
            best = rule.rank(steps);
            covered = rule.is_included(seed);
        }
    }
    covered
}

fn written(word: usize) -> &'static str {
    match WORDS.get(word) {
        Some((written, _)) => *written,
        None => "",
    }
}

fn push_rules(
    text: &mut String,
    rules: &[Rule],
    seed: usize,
    included: bool,
) -> Result<(), Memory> {
    for rule in rules {
        if rule.is_included(seed) == included {
            push_rule(text, *rule)?;
        }
    }
    Ok(())
}

fn push_rule(text: &mut String, rule: Rule) -> Result<(), Memory> {
    text.push_str(r#",{"path":"/"#)?;
    text.push_str(written(rule.steps.first))?;
    if rule.steps.second < 4 {
        text.push_str("/")?;
        text.push_str(written(rule.steps.second))?;
    }
    text.push_str(if rule.all { r#"/*"}"# } else { r#"/?"}"# })?;
    Ok(())
}

/// The policy of these rules, of `/*`, and of one for a name that no path has.
fn policy_of(alloc: Global, rules: &[Rule], seed: usize) -> Result<Policy, Memory> {
    let mut text = String::from_str(alloc, r#"{"includedPaths":[{"path":"/*"}"#)?;
    push_rules(&mut text, rules, seed, true)?;
    text.push_str(r#"],"excludedPaths":[{"path":"/b/?"}"#)?;
    push_rules(&mut text, rules, seed, false)?;
    text.push_str("]}")?;
    let Ok(tree) = read_tree(alloc, text.as_bytes()) else {
        return Err(Memory);
    };
    match read_policy(alloc, &tree) {
        Ok(policy) => Ok(policy),
        Err(_fault) => Err(Memory),
    }
}

/// The walk a step further, looked for from that place on.
fn walk_on<'a>(walk: RuleWalk<'a>, word: usize, near: usize) -> RuleWalk<'a> {
    let mut near = near;
    match WORDS.get(word) {
        Some((_, name)) => {
            if word == 0 {
                walk.item()
            } else {
                walk.name_near(*name, &mut near)
            }
        }
        None => walk,
    }
}

#[test]
fn random_paths_are_covered_as_the_manual_says(rt: HostRuntime) -> Result<(), Fail> {
    let alloc = rt.alloc();
    for seed in 0..6usize {
        let mut state = seed as u64;
        let rules = drawn_rules(alloc, &mut state)?;
        let policy = policy_of(alloc, rules.as_slice(), seed)?;
        for _ in 0..6 {
            let steps = drawn_steps(&mut state);
            let near = drawn(&mut state, 20);
            let walk = walk_on(
                walk_on(policy.walk(), steps.first, near),
                steps.second,
                near,
            );
            let covered = is_covered(rules.as_slice(), seed, steps);
            assert_eq!(rt; walk.covers(), covered, "{seed}");
        }
    }
    Ok(())
}
