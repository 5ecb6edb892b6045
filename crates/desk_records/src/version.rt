//! The versions of a desk's schema.

ghost use Rattle.std.specs.Prelude.{◌≡◌};
ghost use Rattle.desk_records.specs.Versions.{table_count_of};

/// A version of the schema that the program reads. The newest is the one that it writes.
#[derive(Clone, Copy)]
pub enum Version {
    One,
    Two,
    Three,
}

impl Version {
    /// How many tables it has, in the order in which they are made.
    pub fn table_count(self) -> usize
        ensures { result ≡ table_count_of self }
    {
        match self {
            Version::One => 15,
            Version::Two => 16,
            Version::Three => 17,
        }
    }
}
