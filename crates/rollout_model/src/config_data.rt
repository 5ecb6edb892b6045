//! The attributes that devices give.

ghost use Rattle.std.specs.Prelude.{◌≡◌, true, nat_eq, IfOk};
ghost use Rattle.std.specs.Cmp.{on_equiv, on_per, partial_equiv_from_equiv};
ghost use Rattle.std.specs.Cmp.Lexicographic.{pointwise, lists_equiv, nat_list_eq_equiv};
ghost use Rattle.std.specs.List.{list_all};
ghost use Rattle.rollout_model.specs.Pairs.{is_attribute, is_config_data, is_same_attribute, pair_of};
ghost use Rattle.rollout_model.specs.Rules.{kept_if};

use crate::limits::ATTRIBUTE_LIMIT;
use crate::target::{Attribute, Attributes};
use std::alloc::{AllocError, Global};
use std::marker::Model;

/// The attributes that a device gives at once: at most 32. Of those with one key the last one counts.
#[derive(Drop)]
pub struct ConfigData {
    attributes: Attributes,
}

impl Model for ConfigData {
    ghost use Rattle.std.specs.Prelude.{◌≡◌, List, true};
    ghost use Rattle.rollout_model.specs.Pairs.{is_config_data};
    ghost use Rattle.rollout_model.specs.declared.target.Attribute.{Attribute};

    ghost Value = { List Attribute };

    ghost view = { λ s. s.attributes };

    ghost invariant = { λ s. is_config_data s.attributes ≡ true };
}

impl ConfigData {
    /// The attributes, where there are at most 32. Takes no memory.
    pub fn from_attributes(attributes: Attributes) -> Option<ConfigData>
        ensures { result ≡ kept_if is_config_data attributes }
    {
        if attributes.as_slice().len() > ATTRIBUTE_LIMIT {
            return None;
        }
        Some(ConfigData { attributes })
    }

    pub fn as_slice(&self) -> &[Attribute]
        ensures value { result.now ≡ self.now }
        ensures few { is_config_data result.now ≡ true }
        ensures rules { list_all is_attribute result.now ≡ true }
    {
        self.attributes.as_slice()
    }

    /// The same attributes in memory of their own.
    pub fn copy(&self, alloc: Global) -> Result<ConfigData, AllocError>
        ensures { IfOk result (λ copy. copy ≡ self.now) }
    {
        let attributes = self.attributes.copy(alloc)?;
        Ok(ConfigData { attributes })
    }
}

impl PartialEq for ConfigData {
    ghost eq = { λ s t. pointwise is_same_attribute s t };

    ghost laws = { on_per (λ s. s) (partial_equiv_from_equiv (lists_equiv (on_equiv pair_of (lists_equiv nat_list_eq_equiv)))) };

    fn eq(&self, other: &Self) -> bool {
        self.as_slice() == other.as_slice()
    }
}

impl Eq for ConfigData {
    ghost laws = { lists_equiv (on_equiv pair_of (lists_equiv nat_list_eq_equiv)) };
}
