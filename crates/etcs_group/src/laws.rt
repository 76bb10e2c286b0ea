//! Laws, each the contract of a function.

ghost use Rattle.etcs_group.specs.OneGroups.{OneList, OneOfEach, OneText, OwnTelegrams};
ghost use Rattle.etcs_group.specs.Orders.{AnyOrder};

/// If no telegram of a list is refused by what those before it make, none is in any other order of the list, and what
/// is held then is the same.
pub fn any_order()
    ensures { AnyOrder }
{}

/// Telegrams in an order have one list of groups, in which no two are of the same NID_C and NID_BG; and groups have one
/// text.
pub fn one_list()
    ensures groups { OneList }
    ensures distinct { OneOfEach }
    ensures text { OneText }
{}

/// A group holds what an `Assembly` holds after the group's own telegrams alone, in their order, and its clashes are
/// those of them that the `Assembly` refuses.
pub fn own_telegrams()
    ensures { OwnTelegrams }
{}
