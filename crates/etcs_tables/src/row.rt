//! Rows and the two ways that they go.

ghost use Rattle.std.specs.Prelude.{IsTrue};
ghost use Rattle.etcs_tables.specs.Layouts.{layout, is_sound};

use crate::item::RowItem;

/// Which way a packet or a message goes.
#[derive(Clone, Copy, Debug, PartialEq, Eq)]
pub enum Way {
    /// From track to train.
    ToTrain,
    /// From train to track.
    ToTrack,
}

/// A row of a packet or a message, as a constant table of items. Its items are sound (`is_sound`), which is computed
/// for each table and kept here.
///
/// Its groups nest at most four deep, and each begins with a variable; a guard looks at
/// the variable just before it, with nothing between them but groups on that variable; a count has at
/// most 8 bits.
#[derive(Clone, Copy)]
pub struct Row {
    /// The items, in the order of sending.
    pub items: &'static [RowItem],
    ghost sound: { IsTrue (is_sound (layout items.now)) },
}
