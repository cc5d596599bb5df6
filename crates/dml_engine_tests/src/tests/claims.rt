//! What a test claims, each claim by a call: a test is proved before it runs, and the proof of a call is a small part of
//! that of an `assert_eq!` in its place.

use dml_types::Job;
use std::fmt::Debug;
use std::process::Abort;

/// Both are the same.
pub(super) fn same<T: PartialEq + Debug + Drop>(rt: &impl Abort, found: T, wanted: T) {
    assert_eq!(rt; found, wanted);
}

/// So it is.
pub(super) fn holds(rt: &impl Abort, claim: bool) {
    assert!(rt; claim);
}

/// Both are the same, in what has this name.
pub(super) fn same_in<T: PartialEq + Debug + Drop>(
    rt: &impl Abort,
    name: &str,
    found: T,
    wanted: T,
) {
    assert_eq!(rt; found, wanted, "{name}");
}

/// Both are the same, of this job.
pub(super) fn same_for<T: PartialEq + Debug + Drop>(
    rt: &impl Abort,
    job: Job,
    found: T,
    wanted: T,
) {
    assert_eq!(rt; found, wanted, "{job:?}");
}
