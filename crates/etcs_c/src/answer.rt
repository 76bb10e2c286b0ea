//! What a call returns.

ghost use Rattle.std.specs.Prelude.{◌≡◌, MatchResult};
ghost use Rattle.etcs_c.specs.Writes.{Starves, WritesAs, name_field};

use etcs_vars::Var;
use std::alloc::AllocError;

/// The call did what it is for.
pub const WHOLE: u32 = 0;
/// The bytes are only the beginning of an item.
pub const MORE: u32 = 1;
/// A bit is refused.
pub const REFUSED: u32 = 2;
/// The buffer is too short.
pub const NO_ROOM: u32 = 3;
/// Out of memory.
pub const NO_MEMORY: u32 = 4;
/// No kind has this number.
pub const UNKNOWN_KIND: u32 = 5;
/// No item of the kind has this JSON.
pub const BAD_JSON: u32 = 6;
/// A number has more bits than its width, a width is above 64, or the item that the bits begin with has other fields; for a
/// meaning: no variable has this number.
pub const BAD_FIELDS: u32 = 7;
/// A line is blank, or a comment.
pub const EMPTY_LINE: u32 = 8;
/// No digits are found in a line, by the rule of [`etcs_runs::line_bytes`].
pub const NO_DIGITS: u32 = 9;
/// The number of a line's digits is odd.
pub const ODD_DIGITS: u32 = 10;
/// N_PIG of a telegram is above N_TOTAL.
pub const CLASH_POSITION: u32 = 11;
/// A telegram is the first of its group with M_DUP 2, or the last with M_DUP 1.
pub const CLASH_DUPLICATE: u32 = 12;
/// A telegram is of another group than one before it.
pub const CLASH_GROUP: u32 = 13;
/// Its N_TOTAL is another.
pub const CLASH_TOTAL: u32 = 14;
/// Its M_MCOUNT doesn't agree with another.
pub const CLASH_COUNTER: u32 = 15;
/// Another telegram is at its position.
pub const CLASH_DIFFERS: u32 = 16;

/// What a call returns beside its status.
#[repr(C)]
#[derive(Drop)]
pub struct EtcsAnswer {
    /// How many bytes of the input the item takes; for `etcs_line_bytes` an odd number of digits, for `etcs_assemble`
    /// the index of the first telegram that isn't held.
    pub taken: usize,
    /// How many bytes or fields were written, or with `NO_ROOM` would be.
    pub written: usize,
    /// The first bit that is refused, counted from 0.
    pub bit: usize,
    /// The name of the variable that holds it, or that was asked for, and zeros after it.
    pub var: [u8; 32],
}

/// Returns the variable's name, and zeros after it.
#[tactic(auto, using(crate::proofs::Names::name_short))]
pub fn name_field(var: Var) -> [u8; 32]
    ensures { result ≡ name_field var }
{
    let name = var.name().as_bytes();
    let mut field = [0; 32];
    field[..name.len()].copy_from_slice(name);
    field
}

/// Puts how many bytes the item has into the answer, and returns the status `WHOLE`.
pub fn accept(taken: usize, answer: &mut EtcsAnswer) -> u32
    ensures status { result ≡ 0 }
    ensures taken { answer.new.taken ≡ taken }
    ensures written { answer.new.written ≡ answer.old.written }
{
    answer.taken = taken;
    WHOLE
}

/// Puts the refused bit and the name of the variable that holds it into the answer, and returns the status `REFUSED`.
pub fn refuse(bit: usize, var: Var, answer: &mut EtcsAnswer) -> u32
    ensures status { result ≡ 2 }
    ensures bit { answer.new.bit ≡ bit }
    ensures var { answer.new.var ≡ name_field var }
    ensures written { answer.new.written ≡ answer.old.written }
{
    answer.bit = bit;
    answer.var = name_field(var);
    REFUSED
}

/// Writes the items to the front of `out` and returns the status `done`; or, if `out` is shorter than they are, writes
/// nothing and returns `NO_ROOM`. Either way `written` is how many they are, and the rest of the answer is as before.
pub fn write_out<T: Copy>(done: u32, items: &[T], out: &mut [T], answer: &mut EtcsAnswer) -> u32
    ensures writes { WritesAs done items.now out.old out.new result answer.new }
    ensures taken { answer.new.taken ≡ answer.old.taken }
    ensures bit { answer.new.bit ≡ answer.old.bit }
    ensures var { answer.new.var ≡ answer.old.var }
{
    let count = items.len();
    answer.written = count;
    if count > out.len() {
        return NO_ROOM;
    }
    out[..count].copy_from_slice(items);
    done
}

/// Writes the items that were made as [`write_out`] does; or, if out of memory for them, writes nothing and returns
/// `NO_MEMORY`. The rest of the answer is as before.
pub fn deliver<T: Copy>(
    done: u32,
    made: Result<Vec<T>, AllocError>,
    out: &mut [T],
    answer: &mut EtcsAnswer,
) -> u32
    ensures writes { MatchResult made (λ items. WritesAs done items.items out.old out.new result answer.new) (λ _. Starves out.old out.new result) }
    ensures taken { answer.new.taken ≡ answer.old.taken }
    ensures bit { answer.new.bit ≡ answer.old.bit }
    ensures var { answer.new.var ≡ answer.old.var }
{
    match made {
        Ok(items) => write_out(done, items.as_slice(), out, answer),
        Err(AllocError) => NO_MEMORY,
    }
}
