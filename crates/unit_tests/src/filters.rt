//! Where a text stops being the beginning of a filter.

use std::alloc::Global;
use target_filter::{Filter, FilterFault};

/// Texts that are no filters, each with the length of its longest beginning that some continuation makes one.
const WRONG: [(&str, usize); 12] = [
    ("", 0),
    ("Tag==a", 0),
    ("tag=a", 4),
    ("tag==", 5),
    ("tag==a tag==b", 6),
    ("tag==a;", 7),
    ("(tag==a", 7),
    ("(tag==a))", 8),
    ("name==\"a", 8),
    ("name==\u{e9}", 6),
    ("name==\"\u{e9}\u{7f}\"", 9),
    ("name==\"\u{e9}\"\u{e9}", 10),
];

fn is_refused_as(alloc: Global, text: &str, wanted: FilterFault) -> bool {
    match Filter::read(alloc, text) {
        Err(fault) => fault == wanted,
        Ok(_) => false,
    }
}

/// Whether a text is refused for its syntax at this place.
fn is_wrong_at(alloc: Global, text: &str, at: usize) -> bool {
    is_refused_as(alloc, text, FilterFault::Syntax { at })
}

#[test]
fn wrong_texts(rt: HostRuntime) {
    for (text, at) in WRONG {
        assert!(rt; is_wrong_at(rt.alloc(), text, at), "{text}");
    }
}

/// Texts of 17 parentheses, closed and not: the second is wrong before it is too deep.
const DEEP: &str = "(((((((((((((((((tag==a)))))))))))))))))";

const DEEP_AND_OPEN: &str = "(((((((((((((((((tag==a";

/// A filter of 513 bytes, one more than is read.
const LONG: &str =
    "name==a,name==a,name==a,name==a,name==a,name==a,name==a,name==a,name==a,name==a,name==a,name==a,name==a,name==a,name==a,name==a,\
    name==a,name==a,name==a,name==a,name==a,name==a,name==a,name==a,name==a,name==a,name==a,name==a,name==a,name==a,name==a,name==a,\
    name==a,name==a,name==a,name==a,name==a,name==a,name==a,name==a,name==a,name==a,name==a,name==a,name==a,name==a,name==a,name==a,\
    name==a,name==a,name==a,name==a,name==a,name==a,name==a,name==a,name==a,name==a,name==a,name==a,name==a,name==a,name==a,name==abc";

#[test]
fn deep_texts(rt: HostRuntime) {
    assert!(rt; is_refused_as(rt.alloc(), DEEP, FilterFault::TooDeep));
    assert!(rt; is_wrong_at(rt.alloc(), DEEP_AND_OPEN, 23));
    assert!(rt; is_refused_as(rt.alloc(), LONG, FilterFault::TooLong));
}
