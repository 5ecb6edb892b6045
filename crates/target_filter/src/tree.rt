//! What a filter says, as a tree.

ghost use Rattle.std.specs.Prelude.{◌≡◌};
ghost use Rattle.std.specs.List.{list_any};
ghost use Rattle.target_filter.specs.Patterns.{matches};
ghost use Rattle.target_filter.specs.Meaning.{holds, field_matches, attribute_matches, compared, pattern_of};
ghost use Rattle.target_filter.specs.Names.{before_star, compared_start, first_tag, first_told, id_start, is_attribute_field, is_name_field, is_only};
ghost use Rattle.target_filter.specs.Names.{is_tag_field, names_attributes, names_names, names_only, names_tags, only_tag, tag_start};
ghost use Rattle.target_filter.specs.Views.{tree_of, field_of, operator_of, value_of};

use crate::pattern::{before_star, matches};
use rollout_model::{Attribute, Target, Word};

#[derive(Drop)]
pub(crate) enum Field {
    Id,
    Name,
    Tag,
    Attribute(Vec<u8>),
}

#[derive(Clone, Copy)]
pub(crate) enum Operator {
    Equal,
    NotEqual,
}

/// A pattern, and how it was written.
#[derive(Drop)]
pub(crate) enum Value {
    Bare(Vec<u8>),
    Quoted(Vec<u8>),
}

#[derive(Drop)]
pub(crate) enum Tree {
    Or(Box<Tree>, Box<Tree>),
    And(Box<Tree>, Box<Tree>),
    Group(Box<Tree>),
    Comparison(Field, Operator, Value),
}

fn any_tag_matches(pattern: &[u8], tags: &[Word]) -> bool
    ensures { result ≡ list_any (matches pattern.now) tags.now }
{
    tags.iter().any(|tag| matches(pattern, tag.as_bytes()))
}

fn attribute_matches(key: &[u8], pattern: &[u8], attribute: &Attribute) -> bool
    ensures { result ≡ attribute_matches key.now pattern.now attribute.now }
{
    attribute.key.as_bytes() == key && matches(pattern, attribute.value.as_str().as_bytes())
}

fn any_attribute_matches(key: &[u8], pattern: &[u8], attributes: &[Attribute]) -> bool
    ensures { result ≡ list_any (attribute_matches key.now pattern.now) attributes.now }
{
    attributes
        .iter()
        .any(|attribute| attribute_matches(key, pattern, attribute))
}

impl Field {
    fn matches(&self, pattern: &[u8], target: &Target) -> bool
        ensures { result ≡ field_matches (field_of self.now) pattern.now target.now }
    {
        match self {
            Field::Id => matches(pattern, target.id.as_bytes()),
            Field::Name => matches(pattern, target.name.as_str().as_bytes()),
            Field::Tag => any_tag_matches(pattern, target.tags.as_slice()),
            Field::Attribute(key) => any_attribute_matches(
                key,
                pattern,
                target.attributes.as_slice(),
            ),
        }
    }

    fn is_name(&self) -> bool
        ensures { result ≡ is_name_field (field_of self.now) }
    {
        match self {
            Field::Name => true,
            Field::Id | Field::Tag | Field::Attribute(_) => false,
        }
    }

    fn is_tag(&self) -> bool
        ensures { result ≡ is_tag_field (field_of self.now) }
    {
        match self {
            Field::Tag => true,
            Field::Id | Field::Name | Field::Attribute(_) => false,
        }
    }

    fn is_attribute(&self) -> bool
        ensures { result ≡ is_attribute_field (field_of self.now) }
    {
        match self {
            Field::Attribute(_) => true,
            Field::Id | Field::Name | Field::Tag => false,
        }
    }
}

impl Operator {
    fn compare(self, matched: bool) -> bool
        ensures { result ≡ compared (operator_of self) matched }
    {
        match self {
            Operator::Equal => matched,
            Operator::NotEqual => !matched,
        }
    }
}

impl Value {
    fn pattern(&self) -> &[u8]
        ensures { result.now ≡ pattern_of (value_of self.now) }
    {
        match self {
            Value::Bare(pattern) | Value::Quoted(pattern) => pattern,
        }
    }
}

/// The first, unless it is empty.
fn first_told<'a>(first: &'a [u8], other: &'a [u8]) -> &'a [u8]
    ensures { result.now ≡ first_told first.now other.now }
{
    if first.is_empty() { other } else { first }
}

/// How the pattern begins, where tags are compared with it.
fn tag_start<'a>(field: &Field, start: &'a [u8]) -> &'a [u8]
    ensures { result.now ≡ tag_start (field_of field.now) start.now }
{
    if field.is_tag() { start } else { &[] }
}

/// Are tags not compared, or with this text?
fn is_only(tag: &[u8], field: &Field, pattern: &[u8]) -> bool
    ensures { result ≡ is_only tag.now (field_of field.now) pattern.now }
{
    !field.is_tag() || pattern == tag
}

/// How an id begins by a comparison with a pattern that begins so.
fn compared_start<'a>(field: &Field, operator: Operator, start: &'a [u8]) -> &'a [u8]
    ensures { result.now ≡ compared_start (field_of field.now) (operator_of operator) start.now }
{
    match (field, operator) {
        (Field::Id, Operator::Equal) => start,
        _ => &[],
    }
}

impl Tree {
    /// Does the target match?
    pub(crate) fn holds(&self, target: &Target) -> bool
        ensures { result ≡ holds (tree_of self.now) target.now }
    {
        match self {
            Tree::Or(left, right) => left.holds(target) || right.holds(target),
            Tree::And(left, right) => left.holds(target) && right.holds(target),
            Tree::Group(tree) => tree.holds(target),
            Tree::Comparison(field, operator, value) => operator.compare(field.matches(
                value.pattern(),
                target,
            )),
        }
    }

    /// Is some comparison of names?
    pub(crate) fn names_names(&self) -> bool
        ensures { result ≡ names_names (tree_of self.now) }
    {
        match self {
            Tree::Or(left, right) | Tree::And(left, right) => {
                left.names_names() || right.names_names()
            }
            Tree::Group(tree) => tree.names_names(),
            Tree::Comparison(field, _, _) => field.is_name(),
        }
    }

    /// Is some comparison of tags?
    pub(crate) fn names_tags(&self) -> bool
        ensures { result ≡ names_tags (tree_of self.now) }
    {
        match self {
            Tree::Or(left, right) => left.names_tags() || right.names_tags(),
            Tree::And(left, right) => left.names_tags() || right.names_tags(),
            Tree::Group(tree) => tree.names_tags(),
            Tree::Comparison(field, _, _) => field.is_tag(),
        }
    }

    /// Is some comparison of an attribute?
    pub(crate) fn names_attributes(&self) -> bool
        ensures { result ≡ names_attributes (tree_of self.now) }
    {
        match self {
            Tree::Or(left, right) => left.names_attributes() || right.names_attributes(),
            Tree::And(left, right) => left.names_attributes() || right.names_attributes(),
            Tree::Group(tree) => tree.names_attributes(),
            Tree::Comparison(field, _, _) => field.is_attribute(),
        }
    }

    /// How the first pattern begins that tags are compared with, of those that begin with something.
    fn first_tag(&self) -> &[u8]
        ensures { result.now ≡ first_tag (tree_of self.now) }
    {
        match self {
            Tree::Or(left, right) | Tree::And(left, right) => first_told(
                left.first_tag(),
                right.first_tag(),
            ),
            Tree::Group(tree) => tree.first_tag(),
            Tree::Comparison(field, _, value) => tag_start(field, before_star(value.pattern())),
        }
    }

    /// Are tags compared with this text alone?
    fn names_only(&self, tag: &[u8]) -> bool
        ensures { result ≡ names_only tag.now (tree_of self.now) }
    {
        match self {
            Tree::Or(left, right) | Tree::And(left, right) => {
                left.names_only(tag) && right.names_only(tag)
            }
            Tree::Group(tree) => tree.names_only(tag),
            Tree::Comparison(field, _, value) => is_only(tag, field, value.pattern()),
        }
    }

    /// The only text without a star that tags are compared with: empty where there is none.
    pub(crate) fn only_tag(&self) -> &[u8]
        ensures { result.now ≡ only_tag (tree_of self.now) }
    {
        let first = self.first_tag();
        if self.names_only(first) { first } else { &[] }
    }

    /// How the id of each target begins that matches, as far as comparisons say it that `;` joins.
    pub(crate) fn id_start(&self) -> &[u8]
        ensures { result.now ≡ id_start (tree_of self.now) }
    {
        match self {
            Tree::Or(_, _) => &[],
            Tree::And(left, right) => first_told(left.id_start(), right.id_start()),
            Tree::Group(tree) => tree.id_start(),
            Tree::Comparison(field, operator, value) => compared_start(
                field,
                *operator,
                before_star(value.pattern()),
            ),
        }
    }
}
