//! The laws that what a switch gives meets.
ghost use Rattle.std.specs.Prelude.{ℕ, ◌≡◌, ◌≢◌, List, [], ◌++◌, All, Some, slice_get, true};
ghost use Rattle.aoe_vlan.specs.Switched.{IsAccess, Passing, at_port, carries_at, given, inputs_of, switched, switched_from, vlan_at};
ghost use Rattle.aoe_vlan.specs.Running.{IsCut, IsPiece, piece, switched_behind};
ghost use Rattle.aoe_vlan.specs.declared.port.PortKind.{PortKind};

/// A law: what the inputs of a VLAN give is what they give alone, whatever comes of other VLANs.
pub fn vlans_are_independent()
    ensures { (ports : List PortKind) (vid : ℕ) (inputs : List Passing)
        → switched_from ports vid inputs ≡ switched ports (inputs_of ports vid inputs) }
{}

/// A law: an input goes to other ports alone, and those are of its VLAN.
pub fn frames_stay_in_their_vlan()
    ensures { (ports : List PortKind) (vid : ℕ) (inputs : List Passing) (i : Passing)
        → vlan_at ports i ≡ Some vid
        → All (λ o. (carries_at vid (slice_get ports o.port) ≡ true) × (o.port ≢ i.port))
        (given ports inputs i) }
{}

/// A law: a port of one VLAN gives what it gives where nothing comes of any other.
pub fn a_port_gives_frames_of_its_vlan()
    ensures { (ports : List PortKind) (port vid : ℕ) (inputs : List Passing)
        → IsAccess ports port vid
        → at_port port (switched ports inputs)
        ≡ at_port port (switched ports (inputs_of ports vid inputs)) }
{}

/// A law: runs of a switch follow one another. What the inputs of a run give stands behind what those
/// before gave; in the first run it is what all inputs give.
pub fn runs_follow_one_another()
    ensures further { (ports : List PortKind) (before inputs : List Passing)
        → switched ports (inputs ++ before)
        ≡ switched ports before ++ switched_behind ports before inputs }
    ensures first { (ports : List PortKind) (inputs : List Passing)
        → switched_behind ports [] inputs ≡ switched ports inputs }
{}

/// A law: bytes that begin with a frame at its port aren't at an end and aren't cut, so that each end
/// of a run comes exactly where its clause holds.
pub fn piece_begins_no_cut_stream()
    ensures { (ports : ℕ) (p : Passing) (rest : List ℕ) → IsPiece ports p
        → (piece p ++ rest ≢ []) × (IsCut ports (piece p ++ rest) → ⊥) }
{}
