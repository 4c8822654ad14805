//! The functions' names.

use rmm_spec::FunctionId;

/// The function with that name.
pub(crate) fn function_named(name: &str) -> Option<FunctionId> {
    for function in FunctionId::all() {
        if name_of(function) == name {
            return Some(function);
        }
    }
    None
}

/// The name of a function.
pub(crate) fn name_of(function: FunctionId) -> &'static str {
    let names = function.row().names;
    let (name, _) = names.split_once(' ').unwrap_or((names, ""));
    name
}
