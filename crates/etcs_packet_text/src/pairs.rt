//! Variables as pairs of name and number.

ghost use Rattle.std.specs.Prelude.{◌≡◌, ◌++◌, OnErr, OnOk};
ghost use Rattle.serde_json.specs.Written.{compact_text};
ghost use Rattle.etcs_packet_text.specs.Fronts.{Begins};
ghost use Rattle.etcs_packet_text.specs.Trees.{pairs_tree};

use crate::json_page::JsonPage;
use etcs_vars::inner::Variables;
use std::alloc::AllocError;

/// Appends the pairs of a run of variables, as a list: the compact text of their JSON tree.
///
/// # Errors
///
/// `AllocError` if out of memory. The page then begins with what was there; what else it has isn't promised.
pub fn write_variables<V: Variables>(variables: &V, page: &mut JsonPage) -> Result<(), AllocError>
    ensures ok { OnOk result (page.new.0 ≡ page.old.0 ++ compact_text (pairs_tree (V.reading_of variables.now))) }
    ensures err { OnErr result (Begins page.old.0 page.new.0) }
{
    page.open_list()?;
    variables.send(page)?;
    page.put_array(b"]")
}
