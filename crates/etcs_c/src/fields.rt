//! The fields of items: their variables, of which bits of one run are joined.

ghost use Rattle.std.specs.Prelude.{◌≡◌, IfOk};
ghost use Rattle.etcs_bits.specs.Bits.{bits};
ghost use Rattle.etcs_c.specs.Fields.{field, fields_of, is_run, joins, var_number};
ghost use Rattle.etcs_c.specs.ItemFields.{SaysFields};

use crate::answer::{EtcsAnswer, WHOLE, deliver};
use crate::found::variables_of;
use crate::vars::var_number;
use etcs_text::Kind;
use etcs_vars::Var;
use etcs_vars::inner::VarSink;
use std::alloc::{AllocError, Global};
use std::marker::Model;

/// A variable of an item, or up to 64 bits one after another of FILL, OTHER_DATA, PADDING or PAD.
#[repr(C)]
#[derive(Clone, Copy, PartialEq, Eq)]
pub struct EtcsField {
    /// Its number; in a run of bits the first one is the highest.
    pub number: u64,
    /// The number of the variable: its `ETCS_VAR_..` in C.
    pub var: u32,
    /// How many bits its number takes.
    pub width: u32,
}

/// Whether bits of the variable are joined.
fn is_run(var: Var) -> bool
    ensures { result ≡ is_run var }
{
    matches!(var, Var::FILL | Var::OTHER_DATA | Var::PADDING | Var::PAD)
}

/// A variable with its number.
fn field_of(var: Var, number: u64) -> EtcsField
    ensures { result ≡ field (var, number) }
{
    EtcsField {
        number,
        var: var_number(var),
        width: var.width() as u32,
    }
}

/// Whether a variable with its number is one more bit of this field.
fn joins(field: &EtcsField, var: Var, number: u64) -> bool
    ensures { result ≡ joins field.now (var, number) }
{
    is_run(var)
        && field.var == var_number(var)
        && field.width < 64
        && field.number < 1 << 63
        && number < 2
}

/// Fields of variables, in the order of sending. The last one is kept apart, since one more bit may join it.
#[derive(Drop)]
struct FieldList {
    before: Vec<EtcsField>,
    last: Option<EtcsField>,
}

impl Model for FieldList {
    ghost use Rattle.etcs_c.specs.Fields.{Joined};

    ghost Value = { Joined };

    ghost view = { λ s. (s.before.items, s.last) };
}

impl FieldList {
    ghost use Rattle.std.specs.Prelude.{[], None, OnOk};
    ghost use Rattle.etcs_c.specs.Fields.{closed, join};

    /// No fields.
    fn new(alloc: Global) -> FieldList
        ensures { result ≡ ([], None) }
    {
        FieldList {
            before: Vec::new(alloc),
            last: None,
        }
    }

    /// Takes the next variable.
    fn join(&mut self, var: Var, number: u64) -> Result<(), AllocError>
        ensures { OnOk result (self.new ≡ join self.old (var, number)) }
    {
        if let Some(last) = self.last {
            if joins(&last, var, number) {
                self.last = Some(EtcsField {
                    number: last.number * 2 + number,
                    var: last.var,
                    width: last.width + 1,
                });
                return Ok(());
            }
            self.before.push(last)?;
        }
        self.last = Some(field_of(var, number));
        Ok(())
    }

    /// All of them.
    fn into_vec(self) -> Result<Vec<EtcsField>, AllocError>
        ensures { IfOk result (λ fields. fields.items ≡ closed self) }
    {
        let FieldList { mut before, last } = self;
        if let Some(last) = last {
            before.push(last)?;
        }
        Ok(before)
    }
}

impl VarSink for FieldList {
    ghost use Rattle.std.proofs.Common.{refl};
    ghost use Rattle.etcs_c.specs.Fields.{joined};
    ghost use Rattle.etcs_c.specs.laws.Joining.{joined_both};

    ghost with = { joined };

    ghost failed = { λ s t. Unit {0} };

    ghost with_none = { λ s. refl };

    ghost with_both = { joined_both };

    ghost failed_after = { λ s a t h. tt };

    fn send(&mut self, sent: &[(Var, u64)]) -> Result<(), AllocError> {
        for pair in sent {
            self.join(pair.0, pair.1)?;
        }
        Ok(())
    }
}

/// Returns the fields of variables, in their order.
///
/// # Errors
///
/// `AllocError` if out of memory.
pub fn fields_in(alloc: Global, vars: &[(Var, u64)]) -> Result<Vec<EtcsField>, AllocError>
    ensures { IfOk result (λ fields. fields.items ≡ fields_of vars.now) }
{
    let mut list = FieldList::new(alloc);
    list.send(vars)?;
    list.into_vec()
}

/// Returns the status of what the bytes begin with, and writes the fields of an item.
pub(crate) fn write_fields(
    alloc: Global,
    kind: Kind,
    bytes: &[u8],
    out: &mut [EtcsField],
    answer: &mut EtcsAnswer,
) -> u32
    ensures { SaysFields kind (bits bytes.now) out.old out.new result answer.new }
{
    match variables_of(alloc, kind, bytes, answer) {
        Ok(account) => {
            let fields = fields_in(alloc, account.fields.as_slice());
            deliver(WHOLE, fields, out, answer)
        }
        Err(status) => status,
    }
}
