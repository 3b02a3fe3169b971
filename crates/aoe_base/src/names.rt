//! The laws that texts of addresses and names of devices meet.
ghost use Rattle.std.specs.Prelude.{ℕ, ◌≡◌, ◌^◌, ◌<◌, ◌↔◌, List, Some, All, length};
ghost use Rattle.aoe_base.specs.Addresses.{broadcast};
ghost use Rattle.aoe_base.specs.declared.address.Mac.{Mac};
ghost use Rattle.aoe_base.specs.declared.address.TheConstants.{BROADCAST};
ghost use Rattle.aoe_base.specs.declared.address.TargetId.{TargetId};
ghost use Rattle.aoe_base.specs.Names.{device_of, mac_of, mac_text, IsNameOf};

/// A law: an address is read from its text.
pub fn mac_reads_back()
    ensures { (mac : Mac) → length mac.0 ≡ 6 → All (λ b. b < 2 ^ 8) mac.0
        → mac_of (mac_text mac) ≡ Some mac }
{}

/// A law: no other text is read as the address.
pub fn mac_spelling_is_one()
    ensures { (mac : Mac) (text : List ℕ) → mac_of text ≡ Some mac → text ≡ mac_text mac }
{}

/// A law: the texts that are read as a device are those of `e`, its shelf's number, a point and
/// its slot's number.
pub fn device_law()
    ensures { (id : TargetId) (text : List ℕ) → (device_of text ≡ Some id) ↔ (IsNameOf id text) }
{}

/// A law: the address of all stations has no bit that is 0.
pub fn broadcast_law()
    ensures { BROADCAST ≡ broadcast }
{}
