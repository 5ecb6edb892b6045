//! The tree of a text, by recursive descent.

ghost use Rattle.std.specs.Prelude.{◌≡◌};
ghost use Rattle.std.specs.Result.{MatchResult};
ghost use Rattle.std.specs.Option.{option_and_then};
ghost use Rattle.target_filter.specs.Grammar as grammar;
ghost use Rattle.target_filter.specs.Descent as descent;
ghost use Rattle.target_filter.specs.Views.{tree_of};
ghost use Rattle.target_filter.specs.private.Gives.{Gives};

use crate::comparison::{ParseFault, comparison_at};
use crate::tree::Tree;
use std::alloc::Global;

fn close(alloc: Global, tree: Tree, text: &[u8]) -> Result<(Tree, &[u8]), ParseFault>
    ensures { Gives (descent.closed (tree_of tree, text.now)) result }
{
    match text {
        [b')', rest @ ..] => {
            let tree = Box::new(alloc, tree)?;
            Ok((Tree::Group(tree), rest))
        }
        _ => Err(ParseFault::Missing),
    }
}

fn or(alloc: Global, left: Tree, right: Tree) -> Result<Tree, ParseFault>
    ensures { MatchResult result (λ t. tree_of t ≡ grammar.Or (tree_of left) (tree_of right)) (λ e. e ≡ ParseFault.Memory) }
{
    let left = Box::new(alloc, left)?;
    let right = Box::new(alloc, right)?;
    Ok(Tree::Or(left, right))
}

fn and(alloc: Global, left: Tree, right: Tree) -> Result<Tree, ParseFault>
    ensures { MatchResult result (λ t. tree_of t ≡ grammar.And (tree_of left) (tree_of right)) (λ e. e ≡ ParseFault.Memory) }
{
    let left = Box::new(alloc, left)?;
    let right = Box::new(alloc, right)?;
    Ok(Tree::And(left, right))
}

/// The tree with which the text begins, and what stands behind it.
///
/// `fuel` bounds how deep the calls nest. They nest at most 3 deep for each byte, and 3 at the end.
#[cycle(parser)]
pub(crate) fn or_at(alloc: Global, fuel: usize, text: &[u8]) -> Result<(Tree, &[u8]), ParseFault>
    ensures { Gives (descent.or_at fuel text.now) result }
{
    if fuel == 0 {
        return Err(ParseFault::Missing);
    }
    let (tree, rest) = and_at(alloc, fuel - 1, text)?;
    more_ors(alloc, fuel - 1, tree, rest)
}

#[cycle(parser)]
fn more_ors(
    alloc: Global,
    fuel: usize,
    tree: Tree,
    text: &[u8],
) -> Result<(Tree, &[u8]), ParseFault>
    ensures { Gives (descent.more_ors fuel (tree_of tree) text.now) result }
{
    if fuel == 0 {
        return Ok((tree, text));
    }
    let Some(behind) = text.strip_prefix(b",") else {
        return Ok((tree, text));
    };
    let (right, rest) = and_at(alloc, fuel - 1, behind)?;
    let tree = or(alloc, tree, right)?;
    more_ors(alloc, fuel - 1, tree, rest)
}

#[cycle(parser)]
fn and_at(alloc: Global, fuel: usize, text: &[u8]) -> Result<(Tree, &[u8]), ParseFault>
    ensures { Gives (descent.and_at fuel text.now) result }
{
    if fuel == 0 {
        return Err(ParseFault::Missing);
    }
    let (tree, rest) = atom_at(alloc, fuel - 1, text)?;
    more_ands(alloc, fuel - 1, tree, rest)
}

#[cycle(parser)]
fn more_ands(
    alloc: Global,
    fuel: usize,
    tree: Tree,
    text: &[u8],
) -> Result<(Tree, &[u8]), ParseFault>
    ensures { Gives (descent.more_ands fuel (tree_of tree) text.now) result }
{
    if fuel == 0 {
        return Ok((tree, text));
    }
    let Some(behind) = text.strip_prefix(b";") else {
        return Ok((tree, text));
    };
    let (right, rest) = atom_at(alloc, fuel - 1, behind)?;
    let tree = and(alloc, tree, right)?;
    more_ands(alloc, fuel - 1, tree, rest)
}

#[cycle(parser)]
fn group_at(alloc: Global, fuel: usize, text: &[u8]) -> Result<(Tree, &[u8]), ParseFault>
    ensures { Gives (option_and_then descent.closed (descent.or_at fuel text.now)) result }
{
    let (tree, rest) = or_at(alloc, fuel, text)?;
    close(alloc, tree, rest)
}

#[cycle(parser)]
fn atom_at(alloc: Global, fuel: usize, text: &[u8]) -> Result<(Tree, &[u8]), ParseFault>
    ensures { Gives (descent.atom_at fuel text.now) result }
{
    if fuel == 0 {
        return Err(ParseFault::Missing);
    }
    match text.strip_prefix(b"(") {
        Some(group) => group_at(alloc, fuel - 1, group),
        None => comparison_at(alloc, text),
    }
}
