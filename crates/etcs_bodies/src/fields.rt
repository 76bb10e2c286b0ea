//! The fields of a part or a packet, listed once.
//!
//! A type lists its fields in the order of its row, in a macro `fields` of its own that hands the list to one of the
//! macros below. `d_loc: D_LOC u16` is a number, with its variable and its type, and `bool` is the type of a flag;
//! `end: Shown` is a part with its type. Semicolons separate parts from the numbers before and after them.

/// The value of these fields, as the body of a part's constructor. A number that isn't admitted is a fault. In
/// brackets is what is returned with a fault.
#[macro_export]
macro_rules! build_part {
    ({ [$back:ident] $($($value:expr),+);+ } $($($field:ident: $($kind:ident)+),+);+) => {{
        $($(let $field = $value;
        $crate::check_field!([$back] $field $($kind)+);)+)+
        Ok(Self { $($($field),+),+ })
    }};
    ({ $($($value:expr),+);+ } $($($field:ident: $($kind:ident)+),+);+) => {{
        $($(let $field = $value;
        $crate::check_field!([] $field $($kind)+);)+)+
        Ok(Self { $($($field),+),+ })
    }};
}

/// The same for a packet, after its direction; the brackets are empty if nothing is returned with a fault.
#[macro_export]
macro_rules! build_packet {
    ({ $back:tt $dir:ident; $($($value:expr),+);+ } $($($field:ident: $($kind:ident)+),+);+) => {{
        $crate::check_field!($back $dir Q_DIR u8);
        $($(let $field = $value;
        $crate::check_field!($back $field $($kind)+);)+)+
        Ok(Self { $dir, $($($field),+),+ })
    }};
}

/// The value that the numbers begin with, as the body of `take`.
#[macro_export]
macro_rules! take_fields {
    ({ $alloc:ident, $numbers:ident $(, $dir:ident)? } $($($field:ident: $($kind:ident)+),+);+) => {{
        $($crate::take_run!($alloc $numbers $($field: $($kind)+),+);)+
        Ok(Some(Self { $($dir,)? $($($field),+),+ }))
    }};
}

/// The same of a part without lists, as the body of `read`.
#[macro_export]
macro_rules! read_fields {
    ({ $numbers:ident } $($($field:ident: $($kind:ident)+),+);+) => {{
        $($crate::read_run!($numbers $($field: $($kind)+),+);)+
        Some(Self { $($($field),+),+ })
    }};
}

/// Sends all fields, as the body of `send`.
#[macro_export]
macro_rules! send_fields {
    ({ $this:ident, $out:ident } $($($field:ident: $($kind:ident)+),+);+) => {{
        $($crate::send_run!($this $out $($field: $($kind)+),+)?;)+
        Ok(())
    }};
}

/// An equal value, as the body of a copying function.
#[macro_export]
macro_rules! copy_fields {
    ({ $this:ident, $alloc:ident $(, $dir:ident)? } $($($field:ident: $($kind:ident)+),+);+) => {
        Ok(Self { $($dir: $this.$dir,)? $($($field: $crate::copy_field!($this $alloc $field $($kind)+)),+),+ })
    };
}

/// What was taken; if there is none, the function returns `Ok(None)`.
#[macro_export]
macro_rules! taken {
    ($taken:expr) => {
        match $taken {
            Some(taken) => taken,
            None => return Ok(None),
        }
    };
}

/// Tests one field; a fault is returned with what is in the brackets.
#[macro_export]
macro_rules! check_field {
    ($back:tt $field:ident $var:ident bool) => {};
    ([] $field:ident $var:ident $type:ident) => {
        $crate::check(Var::$var, u64::from($field))?
    };
    ([$($back:ident),+] $field:ident $var:ident $type:ident) => {
        if let Err(fault) = $crate::check(Var::$var, u64::from($field)) {
            return Err((fault, $($back),+));
        }
    };
    ($back:tt $field:ident $part:ident) => {
        $field.holds()
    };
}

/// The next number, or flag.
#[macro_export]
macro_rules! next_field {
    ($numbers:ident $var:ident bool) => {
        $numbers.flag(Var::$var)
    };
    ($numbers:ident $var:ident $type:ident) => {
        $numbers.next(Var::$var)
    };
    ($numbers:ident $($var:ident $type:ident),+) => {
        $numbers.run($crate::run_of!($($var $type),+))
    };
}

/// Takes a part, or numbers that follow one another.
#[macro_export]
macro_rules! take_run {
    ($alloc:ident $numbers:ident $field:ident: $part:ident) => {
        let $field = $crate::taken!($part::take($alloc, $numbers)?);
    };
    ($alloc:ident $numbers:ident $($field:ident: $var:ident $type:ident),+) => {
        let run = $crate::taken!($crate::next_field!($numbers $($var $type),+));
        $crate::name_run!(run $($field: $type),+);
    };
}

/// Takes a part without lists, or numbers that follow one another.
#[macro_export]
macro_rules! read_run {
    ($numbers:ident $field:ident: $part:ident) => {
        let $field = $part::read($numbers)?;
    };
    ($numbers:ident $($field:ident: $var:ident $type:ident),+) => {
        let run = $crate::next_field!($numbers $($var $type),+)?;
        $crate::name_run!(run $($field: $type),+);
    };
}

/// The variables of a run.
#[macro_export]
macro_rules! run_of {
    ($var:ident bool) => { $crate::Flag(Var::$var) };
    ($var:ident $type:ident) => { Var::$var };
    ($var:ident $type:ident, $($vars:ident $types:ident),+) => {
        ($crate::run_of!($var $type), $crate::run_of!($($vars $types),+))
    };
}

/// The numbers of a run, by name.
#[macro_export]
macro_rules! name_run {
    ($run:ident $field:ident: bool) => { let $field = $run; };
    ($run:ident $field:ident: $type:ident) => { let $field = $run as $type; };
    ($run:ident $field:ident: bool, $($fields:ident: $types:ident),+) => {
        let ($field, beyond) = $run;
        $crate::name_run!(beyond $($fields: $types),+);
    };
    ($run:ident $field:ident: $type:ident, $($fields:ident: $types:ident),+) => {
        let (number, beyond) = $run;
        let $field = number as $type;
        $crate::name_run!(beyond $($fields: $types),+);
    };
}

/// Sends a part, or numbers that follow one another.
#[macro_export]
macro_rules! send_run {
    ($this:ident $out:ident $field:ident: $part:ident) => {
        $this.$field.send($out)
    };
    ($this:ident $out:ident $($field:ident: $var:ident $type:ident),+) => {
        $out.send(&[$((Var::$var, u64::from($this.$field))),+])
    };
}

/// Copies one field.
#[macro_export]
macro_rules! copy_field {
    ($this:ident $alloc:ident $field:ident $var:ident $type:ident) => {
        $this.$field
    };
    ($this:ident $alloc:ident $field:ident $part:ident) => {
        $this.$field.try_clone($alloc)?
    };
}
