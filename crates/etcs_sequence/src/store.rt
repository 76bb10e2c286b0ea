//! Where packets go as they are read.

ghost use Rattle.std.specs.Prelude.{true, ◌≡◌, ◌≤◌, ◌<◌, ◌^◌, ◌+◌, ℕ, Bool, false, List, [], ◌∷◌, ◌++◌, length, None, Some, IsTrue, OnOk, OnErr, IfOk};
ghost use Rattle.etcs_bits.specs.Bits.{bits, part};
ghost use Rattle.etcs_vars.specs.Reading.{spelled, numbers};
ghost use Rattle.etcs_tables.specs.Frames.{kept_limit, is_marker};
ghost use Rattle.etcs_tables.specs.Layouts.{Layout};
ghost use Rattle.etcs_tables.specs.Rows.{row_to};
ghost use Rattle.etcs_tables.specs.Typed.{IsTyped};
ghost use Rattle.etcs_flat.specs.Others.{other_fault};
ghost use Rattle.etcs_packets.specs.PacketValues.{PacketValue, marker, kept, variables_of, IsTypedOf, IsPacketTo};

use etcs_bits::BitSlice;
use std::alloc::AllocError;

/// Where whole packets go, one after another: it holds those that it was given. If it is out of memory, no clause says what it
/// holds.
pub trait PacketSink {
    ghost use Rattle.etcs_tables.specs.declared.row.Way.{Way};

    /// Which way its packets go.
    ghost WAY: { Way };

    /// It holds these packets, and of the one that is being read these numbers after L_PACKET and these
    /// bits.
    ghost holds: { Self → List PacketValue → List ℕ → List Bool → Type 0 };

    /// What it had before any packet was put into it, which stays.
    ghost before: { Self → List ℕ };

    /// Such a sink may be out of memory. False of one that takes none.
    ghost fails: { Type 0 };

    /// Puts packet 0 with this NID_VBCMK after the packets that the sink holds, if its way has one with this number.
    ///
    /// # Errors
    ///
    /// `AllocError`: out of memory.
    fn marker(&mut self, number: u8) -> Result<(), AllocError>
        ensures ok { OnOk result (IsTrue (is_marker WAY number) → (vs : List PacketValue) → holds self.old vs [] [] → holds self.new (vs ++ marker number ∷ []) [] []) }
        ensures before { before self.new ≡ before self.old }
        ensures err { OnErr result fails };

    /// Puts the packet of this number and direction that is kept as these bits after the packets that the sink holds. Requires
    /// that there is such a packet.
    ///
    /// # Errors
    ///
    /// `AllocError`: out of memory.
    fn keep(&mut self, nid: u8, dir: u8, body: &BitSlice<'_>) -> Result<(), AllocError>
        requires { other_fault WAY nid dir (length body.now) ≡ None }
        ensures ok { OnOk result ((vs : List PacketValue) → holds self.old vs [] [] → holds self.new (vs ++ kept nid dir body.now ∷ []) [] []) }
        ensures before { before self.new ≡ before self.old }
        ensures err { OnErr result fails };

    /// Puts the packet of this number and direction with these bits of a piece after L_PACKET after the packets that the
    /// sink holds, and returns `true`: then the number is typed, and there is such a packet. If it returns `false`, the
    /// sink stays as it was; no clause says when.
    ///
    /// Requires that the piece holds the bits, that a word counts those of the piece, and that there are no more than a
    /// kept packet of this way may have.
    ///
    /// # Errors
    ///
    /// `AllocError`: out of memory.
    fn whole(
        &mut self,
        nid: u8,
        dir: u8,
        piece: &[u8],
        at: usize,
        len: usize,
    ) -> Result<bool, AllocError>
        requires inside { at + len ≤ length (bits piece.now) }
        requires small { length (bits piece.now) < 2 ^ 64 }
        requires short { len ≤ kept_limit WAY }
        ensures row { IfOk result (λ b. IsTrue b → ((row : Layout) × (row_to WAY nid ≡ Some row))) }
        ensures packet { IfOk result (λ b. IsTrue b → ((v : PacketValue) × (IsTypedOf nid dir v × (IsPacketTo WAY v × (spelled (variables_of v) ≡ part at len (bits piece.now)))))) }
        ensures held { IfOk result (λ b. IsTrue b → (vs : List PacketValue) (v : PacketValue) → holds self.old vs [] [] → IsTypedOf nid dir v → IsPacketTo WAY v → spelled (variables_of v) ≡ part at len (bits piece.now) → holds self.new (vs ++ v ∷ []) [] []) }
        ensures none { IfOk result (λ b. b ≡ false → self.new ≡ self.old) }
        ensures before { before self.new ≡ before self.old }
        ensures err { OnErr result fails };
}

/// Where packets go as they are read: first the numbers of a typed packet's row, or the bits of one that is
/// kept, and then the packet that they make. A store that is given what was read holds it.
pub trait PacketStore: PacketSink {
    /// Puts the next number of a row after those that the store holds.
    ///
    /// # Errors
    ///
    /// `AllocError`: out of memory.
    fn number(&mut self, number: u64) -> Result<(), AllocError>
        ensures ok { OnOk result ((vs : List PacketValue) (f : List ℕ) (k : List Bool) → Self.holds self.old vs f k → Self.holds self.new vs (f ++ number ∷ []) k) }
        ensures err { OnErr result Self.fails };

    /// Puts bits of a packet that is kept, or of FILL, after those that the store holds. Requires that these are
    /// at most 8,191 in all.
    ///
    /// # Errors
    ///
    /// `AllocError`: out of memory.
    fn bits(&mut self, slice: &BitSlice<'_>) -> Result<(), AllocError>
        requires { ∥ ((vs : List PacketValue) × ((f : List ℕ) × ((k : List Bool) × (Self.holds self.old vs f k × (length k + length slice.now ≤ 8191))))) ∥₁ }
        ensures ok { OnOk result ((vs : List PacketValue) (f : List ℕ) (k : List Bool) → Self.holds self.old vs f k → Self.holds self.new vs f (k ++ slice.now)) }
        ensures err { OnErr result Self.fails };

    /// Puts the typed packet of this number and direction, with the numbers that the store holds, after its packets; it
    /// then holds no numbers. Requires that there is such a packet.
    ///
    /// # Errors
    ///
    /// `AllocError`: out of memory.
    fn typed(&mut self, nid: u8, dir: u8) -> Result<(), AllocError>
        requires { ∥ ((vs : List PacketValue) × ((f : List ℕ) × (Self.holds self.old vs f [] × IsTyped Self.WAY nid dir f))) ∥₁ }
        ensures ok { OnOk result ((vs : List PacketValue) (f : List ℕ) (v : PacketValue) → Self.holds self.old vs f [] → IsTypedOf nid dir v → IsPacketTo Self.WAY v → numbers (variables_of v) ≡ f → Self.holds self.new (vs ++ v ∷ []) [] []) }
        ensures err { OnErr result Self.fails };

    /// Puts the kept packet of this number and direction, with the bits that the store holds, after its packets; it
    /// then holds no bits. Requires that there is such a packet.
    ///
    /// # Errors
    ///
    /// `AllocError`: out of memory.
    fn kept(&mut self, nid: u8, dir: u8) -> Result<(), AllocError>
        requires { ∥ ((vs : List PacketValue) × ((k : List Bool) × (Self.holds self.old vs [] k × (other_fault Self.WAY nid dir (length k) ≡ None)))) ∥₁ }
        ensures ok { OnOk result ((vs : List PacketValue) (k : List Bool) → Self.holds self.old vs [] k → Self.holds self.new (vs ++ kept nid dir k ∷ []) [] []) }
        ensures err { OnErr result Self.fails };
}
