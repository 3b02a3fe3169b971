//! What the tools print.
ghost use Rattle.std.specs.Prelude.{◌≡◌, ◌<◌, ◌++◌, IfOk, OnOk, drop};
ghost use Rattle.aoe_base.specs.Names.{device_text};
ghost use Rattle.aoe_tools.specs.Text.{config_text, device_end, device_line, digit_of, extent_text, found_text, mac_line, masks_text, pieces, reserves_text, sectors_text, size_text, stat_head, stat_line, stat_tail, stat_text, state_text, thousandths_text};

use crate::found::{Found, Seen, State};
use aoe_base::{Blob, Mac, NoMemory, TargetId, put, put_macs, put_pairs};
use aoe_lists::Args;
use std::alloc::Global;

/// Adds the name of a device.
fn put_device(alloc: Global, out: &mut Vec<u8>, id: TargetId) -> Result<(), NoMemory>
    ensures { OnOk result (out.new.items ≡ out.old.items ++ device_text id) }
{
    let TargetId { major, minor } = id;
    let name = format!(in alloc; "e{major}.{minor}")?;
    put(out, name.as_bytes())
}

/// Adds a config string and a line feed.
fn put_config(out: &mut Vec<u8>, args: &Args) -> Result<(), NoMemory>
    ensures { OnOk result (out.new.items ≡ out.old.items ++ config_text args.now.items) }
{
    put(out, behind(args.as_slice(), 8))?;
    put(out, b"\n")
}

/// Adds the end of the line of a device that was found.
fn put_end(out: &mut Vec<u8>, seen: &Seen, long: bool) -> Result<(), NoMemory>
    ensures { OnOk result (out.new.items ≡ out.old.items ++ device_end long seen.now) }
{
    if !long {
        return put(out, b"\n");
    }
    put(out, b" ")?;
    put_config(out, &seen.args)
}

/// Adds the line of a device that was found.
fn put_line(alloc: Global, out: &mut Vec<u8>, seen: &Seen, long: bool) -> Result<(), NoMemory>
    ensures { OnOk result (out.new.items ≡ out.old.items ++ device_line long seen.now) }
{
    put_device(alloc, out, seen.id)?;
    put(out, b" ")?;
    put_macs(out, seen.ports.as_slice())?;
    put_end(out, seen, long)
}

/// What `discover` prints: the devices with their ports, one a line, and where `long` is set with
/// their config strings behind these.
pub fn print_found(alloc: Global, found: &Found, long: bool) -> Result<Blob, NoMemory>
    ensures { IfOk result (λ text. text ≡ found_text long found.now) }
{
    let mut out = Vec::new(alloc);
    'devices: for i in 0..found.count() {
        put_line(alloc, &mut out, found.device(i), long)?;
    }
    Ok(Blob::from_vec(out))
}

/// A decimal digit of a number: that of 1, of 10 or of 100.
fn digit_of(n: u64, unit: u64) -> u8
    requires { 0 < unit }
    ensures { result ≡ digit_of n unit }
{
    b'0' + (n / unit % 10) as u8
}

/// Adds a number of thousandths with its three decimals.
fn put_thousandths(alloc: Global, out: &mut Vec<u8>, n: u64) -> Result<(), NoMemory>
    ensures { OnOk result (out.new.items ≡ out.old.items ++ thousandths_text n) }
{
    let whole = n / 1000;
    let text = format!(in alloc; "{whole}.")?;
    put(out, text.as_bytes())?;
    put(out, &[digit_of(n, 100), digit_of(n, 10), digit_of(n, 1)])
}

/// Adds the size of a device.
fn put_size(alloc: Global, out: &mut Vec<u8>, total: Option<u64>) -> Result<(), NoMemory>
    ensures { OnOk result (out.new.items ≡ out.old.items ++ size_text total) }
{
    let Some(total) = total else {
        return put(out, b"-");
    };
    let megabytes = u128::from(total) * 512 / 1_000_000;
    put_thousandths(alloc, out, megabytes as u64)?;
    put(out, b"GB")
}

/// Adds the number of sectors of a device.
fn put_sectors(alloc: Global, out: &mut Vec<u8>, total: Option<u64>) -> Result<(), NoMemory>
    ensures { OnOk result (out.new.items ≡ out.old.items ++ sectors_text total) }
{
    let Some(total) = total else {
        return put(out, b"-");
    };
    let text = format!(in alloc; "{total}")?;
    put(out, text.as_bytes())
}

/// Adds how long a device is, in units of 10^9 bytes or in sectors.
fn put_extent(
    alloc: Global,
    out: &mut Vec<u8>,
    total: Option<u64>,
    sectors: bool,
) -> Result<(), NoMemory>
    ensures { OnOk result (out.new.items ≡ out.old.items ++ extent_text sectors total) }
{
    if sectors {
        put_sectors(alloc, out, total)
    } else {
        put_size(alloc, out, total)
    }
}

/// Adds what is known of a device.
fn put_state(out: &mut Vec<u8>, state: State) -> Result<(), NoMemory>
    ensures { OnOk result (out.new.items ≡ out.old.items ++ state_text state) }
{
    match state {
        State::Found => put(out, b"found"),
        State::Up => put(out, b"up"),
        State::Reserved => put(out, b"reserved"),
        State::Silent => put(out, b"silent"),
        State::Error => put(out, b"error"),
    }
}

/// Adds the name and the size of a device that was asked.
fn put_stat_head(
    alloc: Global,
    out: &mut Vec<u8>,
    seen: &Seen,
    sectors: bool,
) -> Result<(), NoMemory>
    ensures { OnOk result (out.new.items ≡ out.old.items ++ stat_head sectors seen.now) }
{
    put_device(alloc, out, seen.id)?;
    put(out, b" ")?;
    put_extent(alloc, out, seen.total, sectors)
}

/// Adds its ports and its state.
fn put_stat_tail(out: &mut Vec<u8>, seen: &Seen) -> Result<(), NoMemory>
    ensures { OnOk result (out.new.items ≡ out.old.items ++ stat_tail seen.now) }
{
    put(out, b" ")?;
    put_macs(out, seen.ports.as_slice())?;
    put(out, b" ")?;
    put_state(out, seen.state)?;
    put(out, b"\n")
}

/// Adds the line of a device that was asked.
fn put_stat_line(
    alloc: Global,
    out: &mut Vec<u8>,
    seen: &Seen,
    sectors: bool,
) -> Result<(), NoMemory>
    ensures { OnOk result (out.new.items ≡ out.old.items ++ stat_line sectors seen.now) }
{
    put_stat_head(alloc, out, seen, sectors)?;
    put_stat_tail(out, seen)
}

/// What `stat` prints: the devices with their sizes, ports and states, one a line. Where `sectors`
/// is set the sizes are numbers of sectors.
pub fn print_stat(alloc: Global, found: &Found, sectors: bool) -> Result<Blob, NoMemory>
    ensures { IfOk result (λ text. text ≡ stat_text sectors found.now) }
{
    let mut out = Vec::new(alloc);
    'devices: for i in 0..found.count() {
        put_stat_line(alloc, &mut out, found.device(i), sectors)?;
    }
    Ok(Blob::from_vec(out))
}

/// The arguments behind the fixed ones.
fn behind(args: &[u8], fixed: usize) -> &[u8]
    ensures { result.now ≡ drop fixed args.now }
{
    match args.get(fixed..) {
        Some(rest) => rest,
        None => &[],
    }
}

/// The arguments behind the fixed ones, in pieces of `N` bytes each.
pub(crate) fn pieces<const N: usize>(args: &[u8], fixed: usize) -> &[[u8; N]]
    requires { 0 < N }
    ensures { result.now ≡ pieces N fixed args.now }
{
    behind(args, fixed).as_chunks::<N>().0
}

/// What `cfg` prints: the string of the arguments that it gave, and a line feed.
pub fn print_config(alloc: Global, args: &Args) -> Result<Blob, NoMemory>
    ensures { IfOk result (λ text. text ≡ config_text args.now.items) }
{
    let mut out = Vec::new(alloc);
    put_config(&mut out, args)?;
    Ok(Blob::from_vec(out))
}

/// Adds the line of an address, by its bytes.
fn put_mac_line(out: &mut Vec<u8>, bytes: &[u8]) -> Result<(), NoMemory>
    ensures { OnOk result (out.new.items ≡ out.old.items ++ mac_line bytes.now) }
{
    put_pairs(out, bytes)?;
    put(out, b"\n")
}

/// What `mask` prints: the addresses of the arguments that it gave, one a line.
pub fn print_masks(alloc: Global, args: &Args) -> Result<Blob, NoMemory>
    ensures { IfOk result (λ text. text ≡ masks_text args.now.items) }
{
    let mut out = Vec::new(alloc);
    let dirs = pieces::<8>(args.as_slice(), 4);
    'dirs: for dir in dirs {
        put_mac_line(&mut out, behind(dir, 2))?;
    }
    Ok(Blob::from_vec(out))
}

/// What `reserve` prints: the addresses of the arguments that it gave, one a line.
pub fn print_reserves(alloc: Global, args: &Args) -> Result<Blob, NoMemory>
    ensures { IfOk result (λ text. text ≡ reserves_text args.now.items) }
{
    let mut out = Vec::new(alloc);
    let macs = pieces::<6>(args.as_slice(), 2);
    'macs: for mac in macs {
        put_mac_line(&mut out, mac)?;
    }
    Ok(Blob::from_vec(out))
}
