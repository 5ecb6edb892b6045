//! How members are cut, and when a group has success or an error.

use campaign_core::{
    SplitFault, cut_groups, error_begins, group_bounds, split_groups, success_holds,
};
use rollout_machine::Bounds;
use rollout_model::Percentage;
use std::alloc::Global;

/// Whether these are the positions from one to another.
fn is_cut(bounds: Bounds, first: u32, last: u32) -> bool {
    bounds.first == first && bounds.last == last
}

/// The bounds of seven members in three groups; `None` for want of memory.
fn seven_in_three(alloc: Global) -> Option<bool> {
    let cuts = cut_groups(alloc, 7, 3).ok()?;
    match cuts.as_slice() {
        [first, second, third] => {
            Some(is_cut(*first, 1, 2) && is_cut(*second, 3, 4) && is_cut(*third, 5, 7))
        }
        _ => Some(false),
    }
}

#[test]
fn bounds_of_groups(rt: HostRuntime) {
    assert!(rt; seven_in_three(rt.alloc()) == Some(true));
    assert!(rt; is_cut(group_bounds(10, 1, 3), 1, 3));
    assert!(rt; is_cut(group_bounds(10, 2, 3), 4, 6));
    assert!(rt; is_cut(group_bounds(10, 3, 3), 7, 10));
}

/// The bounds of ten members in groups of 10, 50 and 100 percent of what is left; `None` for want of memory.
fn ten_by_percentages(alloc: Global) -> Option<bool> {
    let percentages = [
        Percentage::new(10)?,
        Percentage::new(50)?,
        Percentage::new(100)?,
    ];
    let groups = split_groups(alloc, 10, &percentages).ok()?;
    match groups.as_slice() {
        [first, second, third] => {
            Some(is_cut(*first, 1, 1) && is_cut(*second, 2, 6) && is_cut(*third, 7, 10))
        }
        _ => Some(false),
    }
}

/// The first empty group of two members in groups of 99, 50 and 100 percent of what is left.
fn first_empty_of_two(alloc: Global) -> Option<u32> {
    let percentages = [
        Percentage::new(99)?,
        Percentage::new(50)?,
        Percentage::new(100)?,
    ];
    match split_groups(alloc, 2, &percentages) {
        Err(SplitFault::Empty(number)) => Some(number),
        Ok(_) | Err(SplitFault::Memory) => None,
    }
}

#[test]
fn bounds_by_percentages(rt: HostRuntime) {
    assert!(rt; ten_by_percentages(rt.alloc()) == Some(true));
    assert!(rt; first_empty_of_two(rt.alloc()) == Some(2));
}

#[test]
fn thresholds(rt: HostRuntime) {
    assert!(rt; !success_holds(1, 3, 50));
    assert!(rt; success_holds(2, 3, 50));
    assert!(rt; !error_begins(0, 1, 3, 34));
    assert!(rt; error_begins(0, 1, 3, 33));
    assert!(rt; !error_begins(1, 2, 3, 33));
}
