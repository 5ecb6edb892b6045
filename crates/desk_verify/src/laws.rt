//! What is known of a desk that holds the records of accepted commands.

ghost use Rattle.desk_verify.specs.Promises.{RecordsAgree, RecordsAreReadable};

/// Its tables agree, each of them.
pub fn records_agree()
    ensures { RecordsAgree }
{}

/// Its tables can be read, as long as its histories can be counted.
pub fn records_are_readable()
    ensures { RecordsAreReadable }
{}
