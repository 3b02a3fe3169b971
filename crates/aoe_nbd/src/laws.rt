//! What the definitions of requests, replies and streams come to.
ghost use Rattle.std.specs.Prelude.{ℕ, List, ◌≡◌, ◌+◌, ◌^◌, ◌<◌, ◌++◌, None, Some, length, slice_index, slice_range, take};
ghost use Rattle.std.specs.List.{flat_map, AllByRecursion};
ghost use Rattle.aoe_nbd.specs.declared.export.Export.{Export};
ghost use Rattle.aoe_nbd.specs.declared.request.RequestHead.{RequestHead};
ghost use Rattle.aoe_nbd.specs.declared.transmission.Stage.{Stage};
ghost use Rattle.aoe_nbd.specs.declared.handshake.HandshakeStage.{HandshakeStage};
ghost use Rattle.aoe_nbd.specs.Handshakes.{IsShortOption, LeadsTo, Talk};
ghost use Rattle.aoe_nbd.specs.Options.{info_data, name_len};
ghost use Rattle.aoe_nbd.specs.Refusals.{IsCarriedOut, refusal};
ghost use Rattle.aoe_nbd.specs.Replies.{IsReply, Reply, reply_bytes};
ghost use Rattle.aoe_nbd.specs.Requests.{Fits, head_bytes, head_of};
ghost use Rattle.aoe_nbd.specs.Streams.{Past, IsShortRequest, StandsAt};

/// A law: what is written as a request is read as it, whatever follows.
pub fn request_reads_back()
    ensures { (h : RequestHead) (rest : List ℕ) → Fits h → head_of (head_bytes h ++ rest) ≡ Some h }
{}

/// A law: what is read as a request begins with its one spelling.
pub fn request_spelling_is_one()
    ensures { (f : List ℕ) (h : RequestHead) → ((i : ℕ) → slice_index f i < 256)
        → head_of f ≡ Some h → Fits h × (take 28 f ≡ head_bytes h) }
{}

/// A law: what a client said is a function of its bytes, however they are cut: the requests that
/// came whole, and the data of the one that didn't.
pub fn one_stream_says_one_thing()
    ensures { (e : Export) (p q : Past) (s t : Stage) → StandsAt e p s → StandsAt e q t
        → p.stream ≡ q.stream → (p.messages ≡ q.messages) × (p.part ≡ q.part) }
{}

/// A law: the same where more bytes came than could be taken: which are left is a function of all of
/// them, too.
pub fn pieces_of_requests_do_not_matter()
    ensures { (e : Export) (p q : Past) (s t : Stage) (x y : List ℕ) → StandsAt e p s
        → StandsAt e q t → IsShortRequest s x → IsShortRequest t y
        → p.stream ++ x ≡ q.stream ++ y
        → (p.messages ≡ q.messages) × (p.part ≡ q.part) × (x ≡ y) }
{}

/// A law: a client that knows how much it asked for reads each reply of a list, and no others.
pub fn one_stream_has_one_list_of_replies()
    ensures { (asked : ℕ → ℕ) (rs ss : List Reply) → AllByRecursion (IsReply asked) rs
        → AllByRecursion (IsReply asked) ss
        → flat_map reply_bytes rs ≡ flat_map reply_bytes ss → rs ≡ ss }
{}

/// A law: the same of the handshake: the client's flags, its options, and what is said to it.
pub fn one_handshake_says_one_thing()
    ensures { (e : Export) (p q : Talk) (s t : HandshakeStage) → LeadsTo e p s → LeadsTo e q t
        → p.stream ≡ q.stream → p ≡ q }
{}

/// A law: the same where more bytes came than could be taken.
pub fn pieces_of_a_handshake_do_not_matter()
    ensures { (e : Export) (p q : Talk) (s t : HandshakeStage) (x y : List ℕ) → LeadsTo e p s
        → LeadsTo e q t → IsShortOption s x → IsShortOption t y → p.stream ++ x ≡ q.stream ++ y
        → (p ≡ q) × (x ≡ y) }
{}

/// A law: what the table of refusals lets through.
pub fn what_is_carried_out()
    ensures { (e : Export) (h : RequestHead) → refusal e h ≡ None → IsCarriedOut e h }
{}

/// A law: the name that the data of INFO and GO spells is the one that is looked at.
pub fn info_data_reads_back()
    ensures { (name infos : List ℕ) → length name < 2 ^ 32 → length infos < 2 ^ 16
        → (name_len (info_data name infos) ≡ Some (length name))
        × (slice_range (info_data name infos) 4 (length name + 4) ≡ name) }
{}
