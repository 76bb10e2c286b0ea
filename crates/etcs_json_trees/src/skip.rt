//! Skipping values: nothing is made of them.

ghost use Rattle.std.specs.Prelude.{ℕ, ◌≡◌, ◌∷◌, ◌<◌, List, length, false, None, Ok, OnErr, OnOk, Some, true};
ghost use Rattle.std.specs.Bool.{MatchBool};
ghost use Rattle.json.specs.Json.{after_end_array, read_key};
ghost use Rattle.json.specs.Token.{begin_array, begin_object};
ghost use Rattle.serde_json.specs.Data.{Data};
ghost use Rattle.etcs_json_trees.specs.Found.{first_value};
ghost use Rattle.etcs_json_trees.specs.Skips.{NoItems, NoMembers, SkipsItems, SkipsMembers};

use crate::number::number;
use json::{Invalid, Reader, Token};

/// What a value is, by its first token.
enum Shape {
    Scalar,
    Array,
    Object,
}

/// Takes the first token of a value. Not inlined, so that no level of nesting holds its part of the stack.
#[inline(never)]
fn begin(reader: &mut Reader<'_>) -> Result<Shape, Invalid>
    ensures scalar { result ≡ Ok Shape.Scalar → (d : Data) × ((depth : ℕ) → first_value depth reader.old ≡ Some (d, reader.new)) }
    ensures array { result ≡ Ok Shape.Array → reader.old ≡ begin_array ∷ reader.new }
    ensures object { result ≡ Ok Shape.Object → reader.old ≡ begin_object ∷ reader.new }
    ensures shorter { OnOk result (length reader.new < length reader.old) }
    ensures err { OnErr result ((depth : ℕ) → first_value depth reader.old ≡ None) }
{
    let token = reader.next().ok_or(Invalid)?;
    match token {
        Token::String(_) => Ok(Shape::Scalar),
        Token::Bool(_) => Ok(Shape::Scalar),
        Token::Null => Ok(Shape::Scalar),
        Token::Number(text) => match number(text) {
            Some(_) => Ok(Shape::Scalar),
            None => Err(Invalid),
        },
        Token::BeginArray => Ok(Shape::Array),
        Token::BeginObject => Ok(Shape::Object),
        Token::EndObject | Token::EndArray | Token::Key(_) | Token::Bad => Err(Invalid),
    }
}

/// Takes the bracket that closes a list, if it is next. Not inlined, as [`begin`].
#[inline(never)]
fn end_items(reader: &mut Reader<'_>) -> bool
    ensures { MatchBool result (after_end_array reader.old ≡ Some reader.new) ((after_end_array reader.old ≡ None) × (reader.new ≡ reader.old)) }
{
    reader.take_end_array()
}

/// Takes the name of a member and returns `true`, or takes the brace that closes the object and returns `false`. Not
/// inlined, as [`begin`].
#[inline(never)]
fn begin_member(reader: &mut Reader<'_>) -> Result<bool, Invalid>
    ensures more { result ≡ Ok true → (name : List ℕ) × (read_key reader.old ≡ Some (Some name, reader.new)) }
    ensures last { result ≡ Ok false → read_key reader.old ≡ Some (None, reader.new) }
    ensures err { OnErr result (read_key reader.old ≡ None) }
{
    match reader.next_key()? {
        Some(_) => Ok(true),
        None => Ok(false),
    }
}

/// Skips a value in which lists and objects nest at most `depth` deep.
#[cycle(skip)]
#[inline(always)]
pub(crate) fn skip(reader: &mut Reader<'_>, depth: usize) -> Result<(), Invalid>
    ensures ok { OnOk result ((d : Data) × (first_value depth reader.old ≡ Some (d, reader.new))) }
    ensures shorter { OnOk result (length reader.new < length reader.old) }
    ensures err { OnErr result (first_value depth reader.old ≡ None) }
{
    match begin(reader)? {
        Shape::Scalar => Ok(()),
        Shape::Array => skip_items(reader, depth.checked_sub(1).ok_or(Invalid)?),
        Shape::Object => skip_members(reader, depth.checked_sub(1).ok_or(Invalid)?),
    }
}

/// Skips what is left of a list, with its end.
#[cycle(skip)]
#[inline(never)]
pub(crate) fn skip_items(reader: &mut Reader<'_>, depth: usize) -> Result<(), Invalid>
    ensures ok { OnOk result (SkipsItems depth reader.old reader.new) }
    ensures shorter { OnOk result (length reader.new < length reader.old) }
    ensures err { OnErr result (NoItems depth reader.old) }
{
    'items: while !end_items(reader) {
        skip(reader, depth)?;
    }
    Ok(())
}

/// Skips what is left of an object, with its end.
#[cycle(skip)]
#[inline(never)]
pub(crate) fn skip_members(reader: &mut Reader<'_>, depth: usize) -> Result<(), Invalid>
    ensures ok { OnOk result (SkipsMembers depth reader.old reader.new) }
    ensures shorter { OnOk result (length reader.new < length reader.old) }
    ensures err { OnErr result (NoMembers depth reader.old) }
{
    'members: while begin_member(reader)? {
        skip(reader, depth)?;
    }
    Ok(())
}
