//! What open calls of an order are claimed to have been answered.

use rmm_spec::{Line, Reply};

/// A hash of all those claims, in whatever order their calls stand: that of two orders mostly differs where their claims do.
#[derive(Clone, Copy)]
pub(crate) struct Claims {
    sum: u64,
}

impl Claims {
    /// No call is open.
    pub(crate) fn empty() -> Claims {
        Claims { sum: 0 }
    }

    /// With the claim of a line, if it has one.
    pub(crate) fn with(self, line: &Line) -> Claims {
        let Line::Unfinished { cpu, reply, .. } = line else {
            return self;
        };
        Claims {
            sum: self.sum.wrapping_add(hash(*cpu, reply)),
        }
    }

    pub(crate) fn are(self, others: Claims) -> bool {
        self.sum == others.sum
    }
}

// A hash of a reply to a CPU's call.
fn hash(cpu: u8, reply: &Reply) -> u64 {
    let mut hash = mixed(u64::from(cpu));
    match reply {
        Reply::Ok(words) => {
            for word in words {
                hash = mixed(hash ^ word);
            }
        }
        Reply::Err(status, index) => {
            hash = mixed(hash ^ (1 << 32) ^ u64::from(*status) ^ (u64::from(*index) << 8));
        }
        Reply::Misplaced => hash = mixed(hash ^ (1 << 33)),
    }
    hash
}

fn mixed(word: u64) -> u64 {
    let product = (word ^ (word >> 32)).wrapping_mul(0x9e37_79b9_7f4a_7c15);
    product ^ (product >> 29)
}
