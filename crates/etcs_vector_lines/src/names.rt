//! The variables by their names.

use etcs_vars::inner::COUNT;
use etcs_vars::{Var, variables};

/// A variable.
macro_rules! var {
    ($var:ident $($more:tt)*) => { Var::$var };
}

/// Every variable.
static VARIABLES: [Var; COUNT] = variables!(var);

/// The variable of a name. The header's version is `M_VERSION_HEADER`.
pub fn variable(name: &str) -> Option<Var> {
    if name == "M_VERSION_HEADER" {
        return Some(Var::M_VERSION_HEADER);
    }
    for var in VARIABLES.iter() {
        if var.name() == name && *var != Var::M_VERSION_HEADER {
            return Some(*var);
        }
    }
    None
}
