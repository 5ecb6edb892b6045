//! Laws of the definitions, each proved as the contract of a function that does nothing.

ghost use Rattle.target_filter.specs.Laws.{HasOneTree, MatchesByTest, ComputesFilters, ComputesNothingElse, NegatesEqual, BindsAndOnTheRight};
ghost use Rattle.target_filter.specs.Laws.{BindsAndOnTheLeft, DependsOnNamedAlone, TellsIdStart};

/// A text has one tree.
pub fn one_tree()
    ensures { HasOneTree }
{}

/// A pattern matches a text where the text is the pattern's pieces in order, with some text in each place of a `*`.
pub fn pieces_in_order()
    ensures { MatchesByTest }
{}

/// `filter_of` gives a tree exactly where it is the tree of a text of the profile, and nothing exactly where there is none.
pub fn computed_filter()
    ensures tree { ComputesFilters }
    ensures none { ComputesNothingElse }
{}

/// `!=` is the negation of `==`.
pub fn not_equal_negates_equal()
    ensures { NegatesEqual }
{}

/// What a filter says of a target depends on its id, and on its name, tags and attributes where the filter names them.
pub fn depends_on_named_alone()
    ensures { DependsOnNamedAlone }
{}

/// The id of a target that matches begins as the filter says.
pub fn tells_id_start()
    ensures { TellsIdStart }
{}

/// `;` binds tighter than `,`.
pub fn and_binds_tighter_than_or()
    ensures right { BindsAndOnTheRight }
    ensures left { BindsAndOnTheLeft }
{}
