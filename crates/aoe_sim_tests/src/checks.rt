//! What the tests of several files share.
use std::process::Abort;

/// The case that this text names is as it has to be.
pub(super) fn holds(rt: &impl Abort, is_so: bool, case: &str) {
    assert!(rt; is_so, "{case}");
}
