//! Routers over a table of routes.

ghost use Rattle.std.specs.Prelude.{◌≡◌, ℕ, List, [], true, map, IfOk};
ghost use Rattle.request_target.specs.Routes.{route_in};
ghost use Rattle.request_target.specs.Rows.{are_routes, rows_with};

use matchit::Router;
use std::alloc::{AllocError, Global};

/// A router with these routes, each with what it leads to.
pub fn router_of<T: Copy + Drop>(
    alloc: Global,
    table: &[(&str, T)],
) -> Result<Router<T>, AllocError>
    ensures { IfOk result (λ r. r ≡ rows_with (map (λ t. (t.0.now, t.1)) table.now) []) }
{
    let mut router = Router::new(alloc);
    for (route, value) in table {
        if router.insert(route, *value).is_err() {
            return Err(AllocError);
        }
    }
    Ok(router)
}

/// What the route of a path leads to: on a router of a table of routes, the table's own answer.
pub fn route_of<T: Copy + Drop>(router: &Router<T>, path: &str) -> Option<T>
    ensures { (table : List (List ℕ × T)) → are_routes table ≡ true → router.now ≡ rows_with table [] → result ≡ route_in table path.now }
{
    match router.at(path) {
        Ok(found) => Some(*found.value),
        Err(_) => None,
    }
}
