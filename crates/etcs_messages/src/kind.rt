//! What a head and a body of a typed message are.

ghost use Rattle.std.specs.Prelude.{◌≡◌, ℕ, None, Some, OnOk, IfErr};

use etcs_packets::inner::AnyPacket;
use etcs_sequence::ListStore;
use etcs_vars::BuildFault;
use etcs_vars::inner::Variables;
use std::fmt::Debug;

/// What is in the header of a typed message after its number and length (SUBSET-026, 8). By its law a head is sent as
/// its variables, and a head and its variables determine each other: each admitted head has a reading of the header's
/// variables, no other head has that one, and each such reading has a head.
pub trait Head: Variables + Copy {
    ghost use Rattle.etcs_messages.specs.Kinds.{HeadOf, HeadLaws, IsHeadNumbers};

    /// The packets of such messages, which go the same way.
    type Packet: AnyPacket + Debug + PartialEq + Eq;

    /// In what a reader of such messages keeps them.
    type Store: ListStore<Self::Packet>;

    /// The laws of such heads.
    ghost head: { HeadOf Self };

    /// Succeeds exactly if each of the head's variables admits its number.
    ///
    /// # Errors
    ///
    /// The fault of the first variable, in the order of sending, that doesn't.
    fn check(self) -> Result<(), BuildFault>
        ensures ok { OnOk result (head.fault self ≡ None) }
        ensures types { head.Fits self }
        ensures fault { IfErr result (λ e. head.fault self ≡ Some e) };

    /// The head whose variables have these numbers, in the order of sending.
    ///
    /// Requires the numbers of a reading of the header's variables: as many, each admitted.
    fn of_numbers(numbers: &[u64]) -> Self
        requires { IsHeadNumbers Self.Packet.WAY numbers.now }
        ensures { result ≡ head.made numbers.now };

    /// A head is sent as its variables, and a head and its variables determine each other.
    ghost laws: { HeadLaws Self.Packet.WAY Self Self.reading_of head };
}

/// The number of a typed message and the variables of its own (SUBSET-026, 8). By its law a body is sent as its
/// variables, and a body and its number with these determine each other: each admitted body has a reading of the row of
/// its number, no other body of that number has that one, and each such reading has a body.
pub trait Own: Variables + Copy {
    ghost use Rattle.etcs_messages.specs.Kinds.{OwnOf, OwnLaws, IsOwnNumbers};

    /// What comes before it.
    type Front: Head;

    /// The laws of such bodies.
    ghost own: { OwnOf Self };

    /// NID_MESSAGE.
    fn nid(&self) -> u8
        ensures { result ≡ own.nid self.now };

    /// Whether the number is one of those that the body's variant is for.
    fn is_of_variant(&self) -> bool
        ensures { result ≡ own.is_of_variant self.now };

    /// Succeeds exactly if each of the body's variables admits its number.
    ///
    /// # Errors
    ///
    /// The fault of the first variable, in the order of sending, that doesn't.
    fn check(self) -> Result<(), BuildFault>
        ensures ok { OnOk result (own.fault self ≡ None) }
        ensures types { own.Fits self }
        ensures fault { IfErr result (λ e. own.fault self ≡ Some e) };

    /// The body of a typed message of this number, the variables of whose row have these numbers, in the order of
    /// sending.
    ///
    /// Requires a number that is typed, and the numbers of a reading of its row.
    fn of_numbers(nid: u8, numbers: &[u64]) -> Self
        requires { IsOwnNumbers Self.Front.Packet.WAY nid numbers.now }
        ensures { result ≡ own.made nid numbers.now };

    /// A body is sent as its variables, and a body and its number with these determine each other.
    ghost laws: { OwnLaws Self.Front.Packet.WAY Self Self.reading_of own };
}
