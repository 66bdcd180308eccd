//! The host's procedures at the edges of longs.

use som_model::HostCode;
use som_test_naive::answer_of;
use std::alloc::Global;

const LEAST: i32 = i32::MIN;

const GREATEST: i32 = i32::MAX;

// Whether a procedure answers the third of these numbers for the first two, in each case.
fn answers(alloc: Global, code: HostCode, cases: &[(i32, i32, i32)]) -> bool {
    for (a, b, wanted) in cases {
        match answer_of(alloc, code, *a, *b) {
            Ok(number) => if number != *wanted {
                return false;
            },
            Err(_) => return false,
        }
    }
    true
}

#[test]
fn the_lower_and_the_higher_number_are_answered_at_the_edges(rt: HostRuntime) {
    let alloc = rt.alloc();
    let lower = [(3, -4, -4), (LEAST, GREATEST, LEAST)];
    assert!(rt; answers(alloc, HostCode::Min, &lower));
    let higher = [(3, -4, 3), (LEAST, GREATEST, GREATEST)];
    assert!(rt; answers(alloc, HostCode::Max, &higher));
}

#[test]
fn bits_and_sums_are_answered_at_the_edges(rt: HostRuntime) {
    let alloc = rt.alloc();
    let both = [(6, 3, 2), (LEAST, -1, LEAST), (LEAST, GREATEST, 0)];
    assert!(rt; answers(alloc, HostCode::And, &both));
    let either = [(4, 1, 5), (LEAST, GREATEST, -1)];
    assert!(rt; answers(alloc, HostCode::Or, &either));
    let one = [(-1, 1, -2), (LEAST, LEAST, 0), (GREATEST, -1, LEAST)];
    assert!(rt; answers(alloc, HostCode::Xor, &one));
    let sum = [
        (GREATEST, 1, LEAST),
        (LEAST, -1, GREATEST),
        (LEAST, GREATEST, -1),
    ];
    assert!(rt; answers(alloc, HostCode::WrapAdd, &sum));
}
