//! A filter that was read.

ghost use Rattle.std.specs.Prelude.{◌≡◌, ◌⊎◌, None, IfOk, IfErr};
ghost use Rattle.std.specs.Option.{IsSomeAnd};
ghost use Rattle.std.specs.Result.{MatchResult};
ghost use Rattle.target_filter.specs.Grammar.{Tree, IsFilter};
ghost use Rattle.target_filter.specs.Meaning.{holds};
ghost use Rattle.target_filter.specs.Names.{id_start, names_attributes, names_names, names_tags, only_tag};
ghost use Rattle.target_filter.specs.Profile.{IsProfileFilter, IsInProfile, filter_of};
ghost use Rattle.target_filter.specs.Faults.{IsRefused};
ghost use Rattle.target_filter.specs.Views.{tree_of};
ghost use Rattle.target_filter.specs.declared.fault.FilterFault.TheVariants.{Memory};

use crate::comparison::ParseFault;
use crate::fault::FilterFault;
use crate::parser::or_at;
use crate::scanner::scan;
use crate::tree;
use rollout_model::Target;
use rollout_model::limits::{FILTER_DEPTH_LIMIT, FILTER_LENGTH_LIMIT};
use std::alloc::Global;
use std::marker::Model;

/// A filter over targets, which contracts see as its text. It has the tree of that text.
#[derive(Drop)]
pub struct Filter {
    text: String,
    tree: tree::Tree,
}

impl Model for Filter {
    ghost use Rattle.std.specs.Prelude.{List, ℕ, string_bytes};
    ghost use Rattle.target_filter.specs.Profile.{IsProfileFilter};
    ghost use Rattle.target_filter.specs.Views.{tree_of};

    ghost Value = { List ℕ };

    ghost view = { λ f. string_bytes f.text };

    ghost invariant = { λ f. IsProfileFilter (string_bytes f.text) (tree_of f.tree) };
}

/// The tree of a text that has one.
fn tree_at(alloc: Global, text: &[u8]) -> Result<tree::Tree, FilterFault>
    requires { IsInProfile text.now }
    ensures { MatchResult result (λ t. IsProfileFilter text.now (tree_of t)) (λ e. e ≡ Memory) }
{
    match or_at(alloc, 3 * text.len() + 3, text) {
        Ok((tree, _)) => Ok(tree),
        Err(ParseFault::Memory) => Err(FilterFault::Memory),
        Err(ParseFault::Missing) => unreachable!(),
    }
}

impl Filter {
    /// The filter of a text of the profile.
    fn of(alloc: Global, text: &str) -> Result<Filter, FilterFault>
        requires { IsInProfile text.now }
        ensures { MatchResult result (λ f. f ≡ text.now) (λ e. e ≡ Memory) }
    {
        let tree = tree_at(alloc, text.as_bytes())?;
        let text = String::from_str(alloc, text)?;
        Ok(Filter { text, tree })
    }

    /// Reads a filter.
    ///
    /// # Errors
    ///
    /// `TooLong` over 512 bytes; else `Syntax` where the text isn't in the grammar; else `TooDeep` where
    /// parentheses nest more than 16 deep; `Memory` where memory is refused for the tree or the text.
    pub fn read(alloc: Global, text: &str) -> Result<Filter, FilterFault>
        // Ok for the texts of the profile alone, and the filter is the text.
        ensures text { IfOk result (λ f. f ≡ text.now) }
        ensures profile { IfOk result (λ _. IsInProfile text.now) }

        // Each fault comes where the text has it, and want of memory hides none.
        ensures fault { IfErr result (λ e. IsRefused text.now e) }
        ensures refused { IfErr result (λ e. (e ≡ Memory) ⊎ (filter_of text.now ≡ None)) }
    {
        if text.len() > FILTER_LENGTH_LIMIT {
            return Err(FilterFault::TooLong);
        }
        match scan(text.as_bytes()) {
            Err(at) => Err(FilterFault::Syntax { at }),
            Ok(deepest) if deepest > FILTER_DEPTH_LIMIT => Err(FilterFault::TooDeep),
            Ok(_) => Filter::of(alloc, text),
        }
    }

    /// The text that was read.
    pub fn text(&self) -> &str
        ensures { result.now ≡ self.now }
    {
        self.text.as_str()
    }

    /// Does the target match? Takes no memory.
    pub fn matches(&self, target: &Target) -> bool
        ensures meaning { (tree : Tree) → IsFilter self.now tree → result ≡ holds tree target.now }
        ensures computed { IsSomeAnd (filter_of self.now) (λ tree. result ≡ holds tree target.now) }
        ensures profile { IsInProfile self.now }
    {
        self.tree.holds(target)
    }

    /// Does the filter name targets' names? Where it doesn't, what it says of a target doesn't depend on the target's name.
    pub fn names_names(&self) -> bool
        ensures meaning { (tree : Tree) → IsFilter self.now tree → result ≡ names_names tree }
        ensures computed { IsSomeAnd (filter_of self.now) (λ tree. result ≡ names_names tree) }
    {
        self.tree.names_names()
    }

    /// Does the filter name tags? Where it doesn't, what it says of a target doesn't depend on the target's tags.
    pub fn names_tags(&self) -> bool
        ensures meaning { (tree : Tree) → IsFilter self.now tree → result ≡ names_tags tree }
        ensures computed { IsSomeAnd (filter_of self.now) (λ tree. result ≡ names_tags tree) }
    {
        self.tree.names_tags()
    }

    /// The only text without a star that tags are compared with: empty where there is none. Where there is one, what the filter says
    /// of a target doesn't depend on the target's other tags.
    pub fn only_tag(&self) -> &[u8]
        ensures meaning { (tree : Tree) → IsFilter self.now tree → result.now ≡ only_tag tree }
        ensures computed { IsSomeAnd (filter_of self.now) (λ tree. result.now ≡ only_tag tree) }
    {
        self.tree.only_tag()
    }

    /// Does the filter name an attribute? Where it doesn't, what it says of a target doesn't depend on the target's attributes.
    pub fn names_attributes(&self) -> bool
        ensures meaning { (tree : Tree) → IsFilter self.now tree → result ≡ names_attributes tree }
        ensures computed { IsSomeAnd (filter_of self.now) (λ tree. result ≡ names_attributes tree) }
    {
        self.tree.names_attributes()
    }

    /// How the id of each target begins that matches, as far as comparisons say it that `;` joins: empty where they don't.
    pub fn id_start(&self) -> &[u8]
        ensures meaning { (tree : Tree) → IsFilter self.now tree → result.now ≡ id_start tree }
        ensures computed { IsSomeAnd (filter_of self.now) (λ tree. result.now ≡ id_start tree) }
    {
        self.tree.id_start()
    }
}
