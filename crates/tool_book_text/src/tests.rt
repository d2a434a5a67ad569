// The number of a heading: the one that is given, or the one behind an index. Behind the heading both forms write the same.
use crate::entry::{
    append_delivery, append_delivery_by_index, append_submission, append_submission_by_index,
};
use book::{PendingDelivery, SubmittedTx};

#[test]
fn submission_numbers(rt: HostRuntime) {
    let t = SubmittedTx::zero();
    let mut given = [0u8; 4096];
    let mut behind = [0u8; 4096];
    let end = append_submission(&mut given, 0, 0, 7, &t);
    assert!(rt; given.starts_with(b"retained submission 0 of 7\n  id: 0\n"));
    let next_end = append_submission_by_index(&mut behind, 0, 0, 7, &t);
    assert!(rt; behind.starts_with(b"retained submission 1 of 7\n  id: 0\n"));
    assert_eq!(rt; end, next_end);
    assert_eq!(rt; append_submission(&mut given, 0, 1, 7, &t), end);
    assert_eq!(rt; given, behind);
}

#[test]
fn delivery_numbers(rt: HostRuntime) {
    let d = PendingDelivery::zero();
    let mut given = [0u8; 4096];
    let mut behind = [0u8; 4096];
    let end = append_delivery(&mut given, 0, 0, 7, &d);
    assert!(rt; given.starts_with(b"queue entry 0 of 7\n  id: new\n"));
    let next_end = append_delivery_by_index(&mut behind, 0, 0, 7, &d);
    assert!(rt; behind.starts_with(b"queue entry 1 of 7\n  id: new\n"));
    assert_eq!(rt; end, next_end);
    assert_eq!(rt; append_delivery(&mut given, 0, 1, 7, &d), end);
    assert_eq!(rt; given, behind);
}
