//! The rules of a policy, from its two lists of paths.
ghost use Rattle.std.specs.Prelude.{◌≡◌, [], ◌∷◌, ◌||◌, ◌&&◌, true, false, IfOk, IfSome, OnOk, codes, is_some, map, not, option_map, string_bytes};
ghost use Rattle.std.specs.List.{fold, list_all, list_any};
ghost use Rattle.ax_tree.specs.Document.{member as member_of};
ghost use Rattle.ax_policy.specs.Paths.{rule_text as text_of_path};
ghost use Rattle.ax_policy.specs.Reading.{read_all};
ghost use Rattle.ax_policy.specs.Rules as spec;
ghost use Rattle.ax_policy.specs.Written.{is_written, are_written, is_path};

use crate::limits::is_short_path;
use crate::members::{items_in, text_member};
use crate::mode::Mode;
use crate::path_text::rule_text;
use crate::read_path::rule_path;
use crate::rule_path::RulePath;
use crate::rules::Rules;
use ax_mean::{Items, Member, Members, Memory, Text, Tree};
use std::alloc::Global;
use std::collections::BTreeMap;

type TextList = Items<Text>;

/// The rules of a policy of that mode; `None` where a path is none or too long, one is in both
/// lists, or nothing is said of all paths and the mode wants it.
pub(crate) fn rules_in(alloc: Global, tree: &Tree, mode: Mode) -> Result<Option<Rules>, Memory>
    ensures { IfOk result (λ rules. rules ≡ spec.rules_of mode
        (member_of (codes "includedPaths") tree.now) (member_of (codes "excludedPaths") tree.now)) }
{
    let Some(included) = texts_in(alloc, tree, "includedPaths")? else {
        return Ok(None);
    };
    match texts_in(alloc, tree, "excludedPaths") {
        Ok(Some(excluded)) => rules_from(alloc, mode, included, excluded),
        Ok(None) => {
            drop(included);
            Ok(None)
        }
        Err(fault) => {
            drop(included);
            Err(fault)
        }
    }
}

/// The texts of the paths of a list.
fn texts_in(alloc: Global, tree: &Tree, name: &str) -> Result<Option<TextList>, Memory>
    ensures texts { IfOk result (λ texts. texts ≡ spec.texts_of (member_of name.now tree.now)) }
    ensures written { IfOk result (λ texts. IfSome texts (λ l. list_all is_written l ≡ true)) }
{
    match items_in(tree, name) {
        Some(items) => item_texts(alloc, items),
        None => Ok(None),
    }
}

fn item_texts(alloc: Global, items: &[Tree]) -> Result<Option<TextList>, Memory>
    ensures texts { IfOk result (λ texts. texts ≡ read_all spec.item_text items.now) }
    ensures written { IfOk result (λ texts. IfSome texts (λ l. list_all is_written l ≡ true)) }
{
    let mut texts = Vec::with_capacity(alloc, items.len())?;
    for item in items {
        let Some(text) = item_text(alloc, item)? else {
            return Ok(None);
        };
        texts.push(text)?;
    }
    Ok(Some(Items::from_vec(texts)))
}

/// The path of an item, as it is written with every name quoted.
fn item_text(alloc: Global, item: &Tree) -> Result<Option<Text>, Memory>
    ensures text { IfOk result (λ text. text ≡ spec.item_text item.now) }
    ensures written { IfOk result (λ text. IfSome text (λ t. is_written t ≡ true)) }
{
    let Some(text) = text_member(item, "path") else {
        return Ok(None);
    };
    match rule_path(alloc, text.as_str())? {
        Some(path) => path_text(alloc, path),
        None => Ok(None),
    }
}

fn path_text(alloc: Global, path: RulePath) -> Result<Option<Text>, Memory>
    requires { is_path path ≡ true }
    ensures text { IfOk result (λ text. text ≡ spec.path_text path) }
    ensures written { IfOk result (λ text. IfSome text (λ t. is_written t ≡ true)) }
{
    if is_short_path(path.steps.as_slice()) {
        Ok(Some(rule_text(alloc, &path)?))
    } else {
        Ok(None)
    }
}

fn rules_from(
    alloc: Global,
    mode: Mode,
    included: TextList,
    excluded: TextList,
) -> Result<Option<Rules>, Memory>
    requires included { list_all is_written included ≡ true }
    requires excluded { list_all is_written excluded ≡ true }
    ensures { IfOk result (λ rules. rules ≡ spec.if_allowed mode included excluded) }
{
    let rules = match first_rules(alloc, included) {
        Ok(rules) => rules,
        Err(fault) => {
            drop(excluded);
            return Err(fault);
        }
    };
    if has_any(&rules, excluded.as_slice()) {
        drop(rules);
        drop(excluded);
        return Ok(None);
    }
    let both = with_all(rules, excluded, false)?;
    let found = if_says(alloc, mode, both)?;
    Ok(found)
}

/// The rules of included paths with these texts.
#[tactic(auto, using(crate::proofs::RuleMaps::none_in))]
fn first_rules(alloc: Global, texts: TextList) -> Result<BTreeMap<String, bool>, Memory>
    ensures { IfOk result (λ rules.
        map (λ e. record { name = string_bytes e.0; value = e.1 }) rules.entries
        ≡ fold spec.with_rule [] (spec.flagged true texts)) }
{
    let mut rules = BTreeMap::new(alloc);
    match put_all(&mut rules, texts, true) {
        Ok(()) => Ok(rules),
        Err(fault) => {
            drop(rules);
            Err(fault)
        }
    }
}

/// The rules, where they say of all paths what the mode wants.
fn if_says(
    alloc: Global,
    mode: Mode,
    rules: BTreeMap<String, bool>,
) -> Result<Option<Rules>, Memory>
    requires { are_written (map (λ e. record { name = string_bytes e.0; value = e.1 }) rules.entries) ≡ true }
    ensures { IfOk result (λ found. found ≡ spec.if_holds mode
        (map (λ e. record { name = string_bytes e.0; value = e.1 }) rules.entries)) }
{
    if says_of_all(mode, &rules) {
        Ok(Some(Rules::from_members(alloc, members_from(alloc, rules)?)?))
    } else {
        drop(rules);
        Ok(None)
    }
}

/// The rules, with the texts put among them.
fn with_all(
    rules: BTreeMap<String, bool>,
    texts: TextList,
    included: bool,
) -> Result<BTreeMap<String, bool>, Memory>
    ensures { IfOk result (λ more.
        map (λ e. record { name = string_bytes e.0; value = e.1 }) more.entries
        ≡ fold spec.with_rule
        (map (λ e. record { name = string_bytes e.0; value = e.1 }) rules.entries)
        (spec.flagged included texts)) }
{
    let mut rules = rules;
    match put_all(&mut rules, texts, included) {
        Ok(()) => Ok(rules),
        Err(fault) => {
            drop(rules);
            Err(fault)
        }
    }
}

/// Puts the texts among the rules; each counts in place of an equal one before.
fn put_all(
    rules: &mut BTreeMap<String, bool>,
    texts: TextList,
    included: bool,
) -> Result<(), Memory>
    ensures { OnOk result
        (map (λ e. record { name = string_bytes e.0; value = e.1 }) rules.new.entries
        ≡ fold spec.with_rule
        (map (λ e. record { name = string_bytes e.0; value = e.1 }) rules.old.entries)
        (spec.flagged included texts)) }
{
    for text in texts.into_vec() {
        put(rules, text, included)?;
    }
    Ok(())
}

fn put(rules: &mut BTreeMap<String, bool>, text: Text, included: bool) -> Result<(), Memory>
    ensures { OnOk result
        (map (λ e. record { name = string_bytes e.0; value = e.1 }) rules.new.entries
        ≡ spec.with_rule
        (map (λ e. record { name = string_bytes e.0; value = e.1 }) rules.old.entries)
        (record { name = text; value = included })) }
{
    rules.insert(text.into_string(), included)?;
    Ok(())
}

/// Whether one of the texts is that of a rule.
fn has_any(rules: &BTreeMap<String, bool>, texts: &[Text]) -> bool
    ensures { result ≡ list_any (λ text. is_some (spec.under text
        (map (λ e. record { name = string_bytes e.0; value = e.1 }) rules.now.entries))) texts.now }
{
    for text in texts {
        if has(rules, text.as_str()) {
            return true;
        }
    }
    false
}

fn has(rules: &BTreeMap<String, bool>, text: &str) -> bool
    ensures { result ≡ is_some (spec.under text.now
        (map (λ e. record { name = string_bytes e.0; value = e.1 }) rules.now.entries)) }
{
    rules.contains_key(text)
}

/// Whether the rules say something of all paths, where the mode wants it.
fn says_of_all(mode: Mode, rules: &BTreeMap<String, bool>) -> bool
    ensures { result ≡ spec.holds_all mode
        (map (λ e. record { name = string_bytes e.0; value = e.1 }) rules.now.entries) }
{
    match mode {
        Mode::Consistent => has(rules, "/*"),
        Mode::None => true,
    }
}

/// The rules of the map, in order.
fn members_from(alloc: Global, rules: BTreeMap<String, bool>) -> Result<Members<bool>, Memory>
    ensures { IfOk result (λ members. members
        ≡ map (λ e. record { name = string_bytes e.0; value = e.1 }) rules.entries) }
{
    let mut members = Vec::with_capacity(alloc, rules.len())?;
    for (name, value) in rules {
        let name = Text::from_string(name);
        members.push(Member { name, value })?;
    }
    Ok(Members::from_vec(members))
}
