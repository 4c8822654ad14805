//! Two tokens tell each other what they were told of.

ghost use Rattle.std.specs.Prelude.{◌≡◌, max};

use crate::site::Site;
use crate::token::CpuToken;

/// Two tokens of one monitor, as their type says, meet: each was then told of all that either was told of. Nothing else changes.
pub fn meet<S: Site>(token: &mut CpuToken<S>, other: &mut CpuToken<S>)
    ensures token { token.new ≡ record token.old { seen = max token.old.seen other.old.seen } }
    ensures other { other.new ≡ record other.old { seen = max token.old.seen other.old.seen } }
{
    let seen = token.seen.max(other.seen);
    token.seen = seen;
    other.seen = seen;
}
