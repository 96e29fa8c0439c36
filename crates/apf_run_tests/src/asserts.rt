//! Assertions as calls: the writing of a failed one is proved once here, and not at each place.

use std::fmt::Debug;
use std::process::Abort;

/// Asserts that what was found is what is wanted.
pub fn is<T: PartialEq + Debug + Drop>(rt: &impl Abort, found: T, want: T) {
    assert_eq!(rt; found, want);
}
