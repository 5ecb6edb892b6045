//! The desk that an order names.

ghost use Rattle.std.specs.Prelude.{◌≡◌};
ghost use Rattle.command_line.specs.Orders.{asks_approval, database_of};

use crate::order::Order;

impl<'a> Order<'a> {
    /// The path of the database.
    pub fn db(&self) -> &'a str
        ensures { result.now ≡ database_of self.now }
    {
        match self {
            Order::Run(setup) => setup.db,
            Order::Serve { setup, .. } => setup.db,
            Order::Import { db, .. } => db,
            Order::Report { db, .. } => db,
            Order::Verify { db } => db,
        }
    }

    /// Whether a new desk asks for approval of each rollout.
    pub fn approval(&self) -> bool
        ensures { result ≡ asks_approval self.now }
    {
        match self {
            Order::Run(setup) => setup.approval,
            Order::Serve { setup, .. } => setup.approval,
            Order::Import { .. } => false,
            Order::Report { .. } => false,
            Order::Verify { .. } => false,
        }
    }
}
