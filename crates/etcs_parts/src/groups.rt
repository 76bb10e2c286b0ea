//! Groups of numbers after a flag, which are there if the flag is 1.
//!
//! A group lists its numbers in a macro of its own that hands the list to one of these: after the flag `Q_OVERLAP`
//! each number with a name, its variable and its type, as `time: T_OL u16`.

/// Refuses a group with a number that isn't admitted.
macro_rules! check_group {
    ({ $group:ident } $flag:ident $($name:ident: $var:ident $type:ident),*) => {{
        if let Some(($($name),*)) = $group {
            $(check(Var::$var, u64::from($name))?;)*
        }
        Ok(())
    }};
}

/// Sends the flag and the group.
macro_rules! send_group {
    ({ $group:ident, $out:ident } $flag:ident $($name:ident: $var:ident $type:ident),*) => {
        match $group {
            None => $out.send(&[(Var::$flag, 0)]),
            Some(($($name),*)) => $out.send(&[(Var::$flag, 1), $((Var::$var, u64::from($name))),*]),
        }
    };
}

/// Takes the group if its flag is set.
macro_rules! take_group {
    ({ $numbers:ident, $flagged:expr } $flag:ident $($name:ident: $var:ident $type:ident),*) => {{
        if !$flagged {
            return Some(None);
        }
        let run = $numbers.run(etcs_bodies::run_of!($($var $type),*))?;
        etcs_bodies::name_run!(run $($name: $type),*);
        Some(Some(($($name),*)))
    }};
}

pub(crate) use check_group;
pub(crate) use send_group;
pub(crate) use take_group;
