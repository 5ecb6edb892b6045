//! What the definitions of the machine mean: laws of all command lists. Each function does nothing, and each of its clauses is a law.

ghost use Rattle.rollout_machine.specs.GroupCounts.{GroupsAreCounted};
ghost use Rattle.rollout_machine.specs.GroupOffers.{GroupOffersStay, OfferOfOthers, OffersAfterGroup, OffersAfterNoGroup, OffersAfterNone};
ghost use Rattle.rollout_machine.specs.GroupOffers.{OffersAfterStart, OffersOfActor, OffersOfNoStart, OffersOfStart, OffersStep, StartedByAny};
ghost use Rattle.rollout_machine.specs.GroupOffers.{StartedByAnyThen};
ghost use Rattle.rollout_machine.specs.Groupings.{GroupingCovers};
ghost use Rattle.rollout_machine.specs.Meanings.{FirstStartedIs, StartedIs, FinalIsAll, OfferIsLeast, TargetsAreNamed, ValueIsLast};
ghost use Rattle.rollout_machine.specs.Meanings.{NumbersActions, NumbersDiffer, RowIsLast, TagsAreSaid, OutcomeIsFirst, CancelingIsLast, PausedIs};
ghost use Rattle.rollout_machine.specs.Orders.{ListsRiseInOrder};
ghost use Rattle.rollout_machine.specs.Promises.{NumbersRise, OffersStay, OffersFollow, NotesGrow};
ghost use Rattle.rollout_machine.specs.Promises.{OneGroupStarts, OthersStay, NoGroupIsLeft, NamedIsOfferable, DownloadsAreOffered, StoredSayAll};
ghost use Rattle.rollout_machine.specs.Repeats.{RepeatsLeaveNoTrace};
ghost use Rattle.rollout_machine.specs.Splits.{FirstEmptyTells, SplitCovers};
ghost use Rattle.rollout_machine.specs.Validity.{StepsRecords};

/// What the records of a list of accepted commands are:
/// - `records_follow`: they change by one step a command
/// - `stored_say_all`: the counts of groups are those of their actions, so the kinds of records that are stored say all
/// - `lists_rise_in_order`: targets, the tags of each, and the members of each rollout are in byte order, each once
/// - `repeats_leave_no_trace`: repeated feedback and doubled imports leave no trace
pub fn lists()
    ensures records_follow { StepsRecords }
    ensures stored_say_all { StoredSayAll }
    ensures lists_rise_in_order { ListsRiseInOrder }
    ensures repeats_leave_no_trace { RepeatsLeaveNoTrace }
{}

/// What a list says of targets:
/// - `row_is_last`: the row of a target is the last that names it
/// - `targets_are_named`: a target is there where some row names it
/// - `value_is_last`: the value of an attribute is the last that was given to its key
/// - `tags_are_said`: a tag is listed where the last command that spoke of it says so
pub fn targets()
    ensures row_is_last { RowIsLast }
    ensures targets_are_named { TargetsAreNamed }
    ensures value_is_last { ValueIsLast }
    ensures tags_are_said { TagsAreSaid }
{}

/// What it says of actions:
/// - `numbers_actions`: an action's number is its member's position plus the sizes of the rollouts started before
/// - `numbers_differ`: no two numbers have one action
/// - `outcome_is_first`: an action's outcome is that of the first command that gives it one
/// - `canceling_is_last`: an action is canceling where it is open and the last among its cancels and rejections is a cancel
/// - `notes_grow`: an action has as many notes more as its feedback adds
/// - `numbers_rise`: the numbers of the feedback on an action rise
pub fn actions()
    ensures numbers_actions { NumbersActions }
    ensures numbers_differ { NumbersDiffer }
    ensures outcome_is_first { OutcomeIsFirst }
    ensures canceling_is_last { CancelingIsLast }
    ensures notes_grow { NotesGrow }
    ensures numbers_rise { NumbersRise }
{}

/// What it says of rollouts and their groups:
/// - `paused_is`: a rollout is paused where some prefix began a pause and no resume follows
/// - `first_started_is`: the first group is started where the start is in the list
/// - `started_is`: a further group is started at some prefix, by success without a pause or by a trigger
/// - `final_is_all`: a group's counts add up to its size where each of its members has an outcome
/// - `groups_are_counted`: the counts of a group are those of its actions
/// - `one_group_starts`: a command starts at most one group, of all groups of all rollouts
/// - `others_stay`: a command leaves all rollouts as they are but the one that it is on
/// - `no_group_is_left`: after a command no group is left to start
pub fn rollouts()
    ensures paused_is { PausedIs }
    ensures first_started_is { FirstStartedIs }
    ensures started_is { StartedIs }
    ensures final_is_all { FinalIsAll }
    ensures groups_are_counted { GroupsAreCounted }
    ensures one_group_starts { OneGroupStarts }
    ensures others_stay { OthersStay }
    ensures no_group_is_left { NoGroupIsLeft }
{}

/// What it says of offers:
/// - `offer_is_least`: the offer is the least open action of a started group
/// - `named_is_offerable`: an action that an answer to a device names is open, and its group is started
/// - `downloads_are_offered`: a device gets artifacts of what it is offered as a deployment, and no others
/// - `offers_stay`: the offers of the targets that a command doesn't touch stay
/// - `offers_follow`: what can be offered after a command is what could be before it and got no outcome, and the group that it starts
pub fn offers()
    ensures offer_is_least { OfferIsLeast }
    ensures named_is_offerable { NamedIsOfferable }
    ensures downloads_are_offered { DownloadsAreOffered }
    ensures offers_stay { OffersStay }
    ensures offers_follow { OffersFollow }
{}

/// How the members of a rollout are cut into groups:
/// - `split_covers`: the groups of a split by percentages, of which none is empty and the last takes all that is left, follow one another
///   from the first member to the last
/// - `grouping_covers`: so do the groups of a rollout, even or defined, of which none would be empty
/// - `first_empty_tells`: no group of a split is empty where none is the first empty one
pub fn groupings()
    ensures split_covers { SplitCovers }
    ensures grouping_covers { GroupingCovers }
    ensures first_empty_tells { FirstEmptyTells }
{}

/// What one command does to the offers, id by id:
/// - `starts_offer_the_lesser`: after a command that starts a group each id is offered the lesser of what it would be and its action in the
///   group
/// - `none_starts`: after one that starts no group each id is offered its first open action of the groups that were started
/// - `others_stay`: a command on an action leaves the offers of all other ids, before any group starts
/// - `actors_are_sought`: a command changes no offer but that of the id that it names, before any group starts
/// - `groups_stay`: what a group offers can be read before or after the rest of the command's work
/// - `steps`: the two steps of a command at once
pub fn offers_of_commands()
    ensures starts_offer_the_lesser { OffersOfStart }
    ensures none_starts { OffersOfNoStart }
    ensures others_stay { OfferOfOthers }
    ensures actors_are_sought { OffersOfActor }
    ensures groups_stay { GroupOffersStay }
    ensures steps { OffersStep }
{}

/// The offers after a command, by what a store has before it:
/// - `after_start`: of a command that starts a group
/// - `after_none`: of one that starts none
/// - `after_group`: of one that starts a group, which the records before it and after it tell
/// - `after_no_group`: of one that starts none
/// - `any_group_tells`: an action's group is started where any group of its rollout is that holds its place
/// - `any_group_tells_then`: and so once a command has changed its action, or added its actions, before it starts a group
pub fn offers_of_a_store()
    ensures after_start { OffersAfterStart }
    ensures after_none { OffersAfterNone }
    ensures after_group { OffersAfterGroup }
    ensures after_no_group { OffersAfterNoGroup }
    ensures any_group_tells { StartedByAny }
    ensures any_group_tells_then { StartedByAnyThen }
{}
