//! Since which step a refused line is what it is.

ghost use Rattle.std.specs.Prelude.{◌≡◌, IfOk};

use crate::Object;
use crate::call::{step_naming, step_of};
use crate::fact::fact_of;
use reasons::{LateCommit, Since};
use std::alloc::{AllocError, Global};

/// The step with which it turned, or those that made and last set what it is about.
pub(crate) fn since_of(alloc: Global, since: &Since) -> Result<Object, AllocError>
    ensures { IfOk result (λ object. object.bound ≡ 3) }
{
    let mut object = Object::new(alloc, 3);
    match since {
        Since::Turned(step) => object.object("turned", step_of(alloc, step)?)?,
        Since::Never { made, set } => {
            if let Some(step) = made {
                object.object("made", step_of(alloc, step)?)?;
            }
            if let Some(step) = set {
                object.object("set", step_of(alloc, step)?)?;
            }
        }
    }
    Ok(object)
}

/// A later step with which the condition would hold, and what it would read then.
pub(crate) fn late_of(alloc: Global, late: &LateCommit) -> Result<Object, AllocError>
    ensures { IfOk result (λ object. object.bound ≡ 2) }
{
    let mut object = step_naming(alloc, late.step, &late.call)?;
    let function = late.call.call.command.function;
    object.object("makes", fact_of(alloc, function, &late.makes)?)?;
    Ok(object)
}
