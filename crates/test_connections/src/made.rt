//! Calls that are not to be refused.

use std::test::Fail;

/// What a call gave. A refusal is let go, and fails the test, which then names the call.
pub(crate) fn made<T: Drop, E: Drop>(call: &'static str, outcome: Result<T, E>) -> Result<T, Fail> {
    match outcome {
        Ok(given) => Ok(given),
        Err(_) => Err(call.into()),
    }
}
