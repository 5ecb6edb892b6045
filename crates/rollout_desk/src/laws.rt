//! What is known of the records of accepted commands as a desk is opened over them.

ghost use Rattle.rollout_desk.specs.Openings.{RecordsCanBeMigrated};

/// An opening that migrates them can read each of their rollouts.
pub fn records_can_be_migrated()
    ensures { RecordsCanBeMigrated }
{}
