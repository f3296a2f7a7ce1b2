//! The parameters of a query, each once in memory, however often the query names it.

ghost use Rattle.std.specs.Prelude.{◌≡◌, ◌∷◌, IfOk};
ghost use Rattle.std.specs.Str.{bytes_eq};
ghost use Rattle.ax_mean.specs.declared.value.Value.TheVariants.{Defined};
ghost use Rattle.ax_grammar.specs.Tables.{parameter_of};
ghost use Rattle.ax_parse.specs.Params.{IsLiteralOf, Tells, given};

use crate::fault::ParseFault;
use ax_mean::{Member, Members, Memory, Shared, Tree, Value};
use std::alloc::Global;
use std::marker::Model;

/// Parameters, whose names have the `@`, with the value that each use of one shares. Contracts see
/// the list that they were made from.
#[derive(Debug, Drop)]
pub(crate) struct Params {
    members: Vec<Member<Shared<Value>>>,
}

impl Model for Params {
    ghost use Rattle.std.specs.Prelude.{ℕ, List, refl};
    ghost use Rattle.std.specs.Coded.{code_by, coded_list, coded×, coded_ℕ};
    ghost use Rattle.ax_tree.specs.contracts.tree.Tree as tree;
    ghost use Rattle.ax_tree.specs.declared.members.Member.{Member};
    ghost use Rattle.ax_tree.specs.declared.tree.Tree as trees;
    ghost use Rattle.ax_parse.specs.Params.{given};

    ghost Value = { List (Member trees.Tree) };

    ghost coded = { coded_list (code_by (List ℕ × trees.Tree) (coded× (coded_list coded_ℕ) tree.the_row.coded) (λ m. (m.name, m.value)) (λ p. record { name = p.0; value = p.1 }) (λ _. refl)) };

    ghost view = { λ params. given params.members.items };
}

impl Params {
    /// The same parameters. Each value is copied once.
    pub(crate) fn of(alloc: Global, params: &Members<Tree>) -> Result<Params, Memory>
        ensures { IfOk result (λ made. made ≡ params.now) }
    {
        Ok(Params {
            members: all_shared(alloc, params.as_slice())?,
        })
    }

    /// The value of a parameter, by the word behind its `@`.
    pub(crate) fn value_of(&self, word: &str) -> Result<&Shared<Value>, ParseFault>
        ensures { IsLiteralOf result (parameter_of self.now word.now) }
    {
        value_among(self.members.as_slice(), word)
    }
}

#[tactic(auto, using(crate::proofs::Given::given_more))]
fn all_shared(alloc: Global, params: &[Member<Tree>]) -> Result<Vec<Member<Shared<Value>>>, Memory>
    ensures { IfOk result (λ made. given made.items ≡ params.now) }
{
    let mut members = Vec::with_capacity(alloc, params.len())?;
    for member in params {
        members.push(shared(alloc, member)?)?;
    }
    Ok(members)
}

fn value_among<'p>(
    members: &'p [Member<Shared<Value>>],
    word: &str,
) -> Result<&'p Shared<Value>, ParseFault>
    ensures { IsLiteralOf result (parameter_of (given members.now) word.now) }
{
    for member in members {
        if let Some(value) = value_if_named(member, word) {
            return Ok(value);
        }
    }
    Err(ParseFault::Text)
}

fn shared(alloc: Global, member: &Member<Tree>) -> Result<Member<Shared<Value>>, Memory>
    ensures name { IfOk result (λ made. made.name ≡ member.now.name) }
    ensures value { IfOk result (λ made. made.value ≡ Defined member.now.value) }
{
    let name = member.name.copy(alloc)?;
    let value = Value::Defined(member.value.copy(alloc)?);
    Ok(Member {
        name,
        value: Shared::new(alloc, value)?,
    })
}

/// The value of the parameter, where it has the name and a value.
fn value_if_named<'p>(member: &'p Member<Shared<Value>>, word: &str) -> Option<&'p Shared<Value>>
    ensures { Tells (64 ∷ word.now) member.now result }
{
    match member.value.get() {
        Value::Defined(_) if is_parameter(member.name.as_str(), word) => Some(&member.value),
        _ => None,
    }
}

/// Is the name the `@` and the word?
fn is_parameter(name: &str, word: &str) -> bool
    ensures { result ≡ bytes_eq name.now (64 ∷ word.now) }
{
    match name.as_bytes().split_first() {
        Some((b'@', rest)) => rest == word.as_bytes(),
        _ => false,
    }
}
