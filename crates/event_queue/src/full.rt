//! Why an event wasn't recorded.

use thiserror::Error;

/// The queue was full at some moment of the call.
#[derive(Clone, Copy, Debug, Error)]
#[error("the queue is full")]
pub struct Full;
