//! What the definition of a capture file comes to.
ghost use Rattle.std.specs.Prelude.{Bool, List, ℕ, [], ◌≡◌, ◌≢◌, ◌≤◌, ◌++◌, All, false, length, map};
ghost use Rattle.std.specs.List.{flat_map};
ghost use Rattle.aoe_base.specs.Sizes.{longest_frame};
ghost use Rattle.aoe_pcap.specs.Capture.{FileHead, IsCapture, IsCut, IsPacket, Packet, frame_of, head_bytes, kind, packet_bytes, packet_of, written_head};
ghost use Rattle.aoe_pcap.specs.declared.reader.Record.TheVariants.{Whole};

/// A law: a file has one header and one list of packets.
pub fn capture_has_one_list_of_packets()
    ensures { (bytes : List ℕ) (h g : FileHead) (ps qs : List Packet)
        → IsCapture bytes h ps → IsCapture bytes g qs → (h ≡ g) × (ps ≡ qs) }
{}

/// A law: bytes that begin with a record aren't at an end and aren't cut, so that each answer of
/// `next_record` comes exactly where its clause holds.
pub fn record_begins_no_cut_capture()
    ensures { (big : Bool) (p : Packet) (rest : List ℕ) → IsPacket p
        → (packet_bytes big p ++ rest ≢ []) × (IsCut big (packet_bytes big p ++ rest) → ⊥) }
{}

/// A law: the header that is written, and the record of each frame behind it, are a file that has a
/// packet of each frame, and no other; and each is read as a whole frame, which is the one that was
/// written.
pub fn written_capture_reads_back()
    ensures capture { (frames : List (List ℕ)) → All (λ f. length f ≤ longest_frame) frames
        → IsCapture (head_bytes written_head ++ flat_map (λ f. packet_bytes false (packet_of f)) frames)
        written_head (map packet_of frames) }
    ensures whole { (f : List ℕ) → length f ≤ longest_frame
        → (kind (length f) (length f) ≡ Whole) × (frame_of f ≡ f) }
{}
