//! Tests of the allocator that refuses chosen requests, which stand here since a crate with tests
//! of its own is proved twice.
use refusing_alloc::{Refusal, RefusingAlloc};
use std::alloc::{Allocator, Global};
use std::test::Fail;

/// Whether one request is granted.
fn is_granted<A: Allocator>(alloc: A) -> bool {
    let mut octets: Vec<u8, A> = Vec::new(alloc);
    octets.push(7).is_ok()
}

/// Which of five requests under an order are granted.
fn granted(alloc: Global, refusal: Refusal) -> [bool; 5] {
    let refusing = RefusingAlloc::new(alloc);
    refusing.order(refusal);
    [
        is_granted(&refusing),
        is_granted(&refusing),
        is_granted(&refusing),
        is_granted(&refusing),
        is_granted(&refusing),
    ]
}

fn are_refused_as_ordered(alloc: Global) -> bool {
    granted(alloc, Refusal::Never) == [true; 5]
        && granted(alloc, Refusal::Only(0)) == [false, true, true, true, true]
        && granted(alloc, Refusal::Only(2)) == [true, true, false, true, true]
        && granted(alloc, Refusal::Only(5)) == [true; 5]
        && granted(alloc, Refusal::From(0)) == [false; 5]
        && granted(alloc, Refusal::From(3)) == [true, true, true, false, false]
        && granted(alloc, Refusal::From(5)) == [true; 5]
}

#[test]
fn an_order_says_which_are_refused(rt: HostRuntime) {
    assert!(rt; are_refused_as_ordered(rt.alloc()));
}

/// Whether one more request is granted, so many were made since the order, and none was refused.
fn is_counted(refusing: &RefusingAlloc, requests: u64) -> bool {
    is_granted(refusing) && refusing.requests() == requests && !refusing.has_refused()
}

fn are_counted(refusing: &RefusingAlloc) -> bool {
    let before = is_counted(refusing, 1);
    refusing.order(Refusal::Only(1));
    let none = refusing.requests() == 0;
    let one = is_counted(refusing, 1);
    let second = !is_granted(refusing) && refusing.requests() == 2 && refusing.has_refused();
    refusing.order(Refusal::Never);
    before && none && one && second && is_counted(refusing, 1)
}

#[test]
fn counts_since_the_order(rt: HostRuntime) {
    let refusing = RefusingAlloc::new(rt.alloc());
    assert!(rt; are_counted(&refusing));
}

#[test]
fn a_refused_growth_keeps_what_was_there(rt: HostRuntime) -> Result<(), Fail> {
    let refusing = RefusingAlloc::new(rt.alloc());
    let mut numbers = vec![in &refusing; 1u64, 2]?;
    refusing.order(Refusal::From(0));
    assert!(rt; numbers.push(3).is_err());
    assert!(rt; numbers.as_slice() == [1, 2].as_slice());
    refusing.order(Refusal::Never);
    numbers.push(3)?;
    assert!(rt; numbers.as_slice() == [1, 2, 3].as_slice());
    Ok(())
}
