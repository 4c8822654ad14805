//! What calls that don't return are claimed to have been answered.

use rmi_view::copied_reply;
use rmm_spec::Reply;
use std::alloc::{AllocError, Global};

/// What the last call of a CPU, which doesn't return, is claimed to have been answered.
#[derive(Drop)]
pub struct Claim {
    pub cpu: u8,
    pub reply: Reply,
}

/// The claims, in place of earlier ones of their CPUs.
pub(crate) fn put_claims(claims: &mut Vec<Claim>, later: &[Claim]) -> Result<(), AllocError> {
    for claim in later {
        put_claim(claims, claim.cpu, copied_reply(&claim.reply))?;
    }
    Ok(())
}

/// The claim of a CPU, in place of an earlier one.
pub(crate) fn put_claim(claims: &mut Vec<Claim>, cpu: u8, reply: Reply) -> Result<(), AllocError> {
    claims.retain(|earlier| earlier.cpu != cpu);
    claims.push(Claim { cpu, reply })?;
    Ok(())
}

/// The claims once more.
pub(crate) fn copied_claims(alloc: Global, claims: &[Claim]) -> Result<Vec<Claim>, AllocError> {
    let mut copied = Vec::new(alloc);
    put_claims(&mut copied, claims)?;
    Ok(copied)
}
