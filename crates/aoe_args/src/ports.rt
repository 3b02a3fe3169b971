//! Lists of ports as text.
ghost use Rattle.std.specs.Prelude.{◌≡◌, ◌==◌, option_map, true, IfSome};
ghost use Rattle.std.specs.List.{slice_split};
ghost use Rattle.aoe_base.specs.Texts.{each};
ghost use Rattle.aoe_args.specs.Values.{port_of, ports_of, up_to};
ghost use Rattle.aoe_args.specs.Words.{ArePorts};
ghost use Rattle.aoe_base.specs.Addresses.{all_unique, is_individual};

use aoe_base::{Mac, Ports, all_unique, read_mac};

/// The address of a port: of one station, and of no group.
pub(crate) fn read_port(text: &[u8]) -> Option<Mac>
    ensures value { result ≡ port_of text.now }
    ensures individual { IfSome result (λ port. is_individual port ≡ true) }
{
    let mac = read_mac(text)?;
    if mac.is_individual() { Some(mac) } else { None }
}

/// The addresses of ports that the parts of a text spell, where they are four at most.
fn each_port(text: &[u8]) -> Option<Ports>
    ensures { option_map (λ ports. ports.items) result
        ≡ up_to 4 (each port_of (slice_split (λ c. c == 44) text.now)) }
{
    let mut ports = Ports::new();
    'parts: for part in text.split(|byte| *byte == b',') {
        let port = read_port(part)?;
        if ports.is_full() {
            return None;
        }
        ports.push(port);
    }
    Some(ports)
}

/// The addresses of ports that a text spells: one to four, joined by commas, none twice.
#[tactic(auto, unfolding(crate::specs::Values::ports_of))]
pub(crate) fn read_ports(text: &[u8]) -> Option<Ports>
    ensures value { option_map (λ ports. ports.items) result ≡ ports_of text.now }
    ensures ports { IfSome result (λ ports. ArePorts ports.items) }
{
    let ports = each_port(text)?;
    if all_unique(ports.as_slice()) {
        Some(ports)
    } else {
        None
    }
}
