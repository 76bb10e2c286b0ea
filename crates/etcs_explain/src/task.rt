//! What is to be explained.

use etcs_reasons::Layout;
use etcs_runs::Form;
use etcs_text::Kind;

/// What is to be explained, and how.
#[derive(Clone, Copy, Debug, PartialEq, Eq)]
pub struct Task {
    /// The kind of the input's items. `None`: that of each is guessed.
    pub kind: Option<Kind>,
    /// The form of the input.
    pub from: Form,
    /// The form of the output.
    pub layout: Layout,
}
