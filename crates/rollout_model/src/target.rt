//! Targets, the devices of a fleet.

ghost use Rattle.std.specs.Prelude.{◌≡◌, true, [], ◌∷◌, ◌++◌, nat_eq, IfOk, OnOk, OnErr};
ghost use Rattle.std.specs.Cmp.{on_equiv, on_per, partial_equiv_from_equiv};
ghost use Rattle.std.specs.Cmp.Lexicographic.{pointwise, lists_equiv, nat_list_eq_equiv};
ghost use Rattle.std.specs.List.{list_all};
ghost use Rattle.rollout_model.specs.Pairs.{is_attribute, is_same_attribute, pair_of};

use crate::tags::Tags;
use crate::text::Text;
use crate::value::Value;
use crate::word::{ControllerId, Word};
use std::alloc::{AllocError, Global};
use std::marker::Model;

/// A key with its value.
#[derive(Drop)]
pub struct Attribute {
    pub key: Word,
    pub value: Value,
}

impl Attribute {
    /// The same attribute in memory of its own.
    pub fn copy(&self, alloc: Global) -> Result<Attribute, AllocError>
        ensures { IfOk result (λ attribute. attribute ≡ self.now) }
    {
        let value = self.value.copy(alloc)?;
        Ok(Attribute {
            key: self.key,
            value,
        })
    }

    /// An attribute keeps the rule of attributes, as the types of its parts promise.
    fn keeps_its_rule(&self)
        ensures { is_attribute self.now ≡ true }
    {
        let _key = self.key.as_str();
        let _value = self.value.as_str();
    }
}

impl PartialEq for Attribute {
    ghost eq = { is_same_attribute };

    ghost laws = { on_per pair_of (partial_equiv_from_equiv (lists_equiv nat_list_eq_equiv)) };

    fn eq(&self, other: &Self) -> bool {
        self.key == other.key && self.value == other.value
    }
}

impl Eq for Attribute {
    ghost laws = { on_equiv pair_of (lists_equiv nat_list_eq_equiv) };
}

/// The attributes of a target, a list of keys with their values.
#[derive(Drop)]
pub struct Attributes {
    pairs: Vec<Attribute>,
}

impl Model for Attributes {
    ghost use Rattle.std.specs.Prelude.{◌≡◌, List, true};
    ghost use Rattle.std.specs.List.{list_all};
    ghost use Rattle.rollout_model.specs.Pairs.{is_attribute};
    ghost use Rattle.rollout_model.specs.declared.target.Attribute.{Attribute};

    ghost Value = { List Attribute };

    ghost view = { λ s. s.pairs.items };

    ghost invariant = { λ s. list_all is_attribute s.pairs.items ≡ true };
}

impl Attributes {
    /// No attributes.
    pub fn new(alloc: Global) -> Attributes
        ensures { result ≡ [] }
    {
        Attributes {
            pairs: Vec::new(alloc),
        }
    }

    /// Adds an attribute at the end.
    pub fn push(&mut self, attribute: Attribute) -> Result<(), AllocError>
        ensures ok { OnOk result (self.new ≡ self.old ++ attribute ∷ []) }
        ensures err { OnErr result (self.new ≡ self.old) }
    {
        attribute.keeps_its_rule();
        self.pairs.push(attribute)?;
        Ok(())
    }

    pub fn as_slice(&self) -> &[Attribute]
        ensures value { result.now ≡ self.now }
        ensures rules { list_all is_attribute result.now ≡ true }
    {
        self.pairs.as_slice()
    }

    /// The same attributes in memory of their own.
    pub fn copy(&self, alloc: Global) -> Result<Attributes, AllocError>
        ensures { IfOk result (λ attributes. attributes ≡ self.now) }
    {
        let mut pairs = Vec::with_capacity(alloc, self.pairs.len())?;
        for pair in self.as_slice() {
            pairs.push(pair.copy(alloc)?)?;
        }
        Ok(Attributes { pairs })
    }
}

impl PartialEq for Attributes {
    ghost eq = { λ s t. pointwise is_same_attribute s t };

    ghost laws = { partial_equiv_from_equiv (lists_equiv (on_equiv pair_of (lists_equiv nat_list_eq_equiv))) };

    fn eq(&self, other: &Self) -> bool {
        self.as_slice() == other.as_slice()
    }
}

impl Eq for Attributes {
    ghost laws = { lists_equiv (on_equiv pair_of (lists_equiv nat_list_eq_equiv)) };
}

/// A device of the fleet, as filters see it.
#[derive(Drop)]
pub struct Target {
    pub id: ControllerId,
    pub name: Text,
    pub tags: Tags,
    pub attributes: Attributes,
}
