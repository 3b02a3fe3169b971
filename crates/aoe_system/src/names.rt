//! The absolute name of a file, and its digest.
ghost use Rattle.std.specs.Prelude.{◌≡◌, ◌==◌, ◌++◌, IfOk, slice_index_or};
ghost use Rattle.sha2.specs.Sha256.{sha256};
ghost use Rattle.aoe_system.specs.Names.{absolute, behind_slash, is_part, parts};

use sha2::{Digest, Sha256};
use std::alloc::{AllocError, Global};
use std::{env, io};

/// Whether a part of a name says something: it isn't empty, and not `.`.
fn is_part(part: &[u8]) -> bool
    ensures { result ≡ is_part part.now }
{
    if part.len() == 1 {
        return part[0] != b'.';
    }
    !part.is_empty()
}

/// Adds a part of a name behind a `/`, where it says something.
fn add_part(all: &mut Vec<u8>, part: &[u8]) -> Result<(), AllocError>
    ensures { IfOk result (λ _. all.new.items ≡ all.old.items ++ behind_slash part.now) }
{
    if is_part(part) {
        all.push(b'/')?;
        all.extend_from_slice(part)?;
    }
    Ok(())
}

/// Adds the parts of a name.
fn add_parts(all: &mut Vec<u8>, name: &[u8]) -> Result<(), AllocError>
    ensures { IfOk result (λ _. all.new.items ≡ all.old.items ++ parts name.now) }
{
    'parts: for part in name.split(|byte| *byte == b'/') {
        add_part(all, part)?;
    }
    Ok(())
}

fn is_absolute(name: &[u8]) -> bool
    ensures { result ≡ (slice_index_or name.now 0 0 == 47) }
{
    !name.is_empty() && name[0] == b'/'
}

/// The name of a file in a folder, as an absolute one.
fn absolute(alloc: Global, folder: &[u8], name: &[u8]) -> Result<Vec<u8>, AllocError>
    ensures { IfOk result (λ all. all.items ≡ absolute folder.now name.now) }
{
    let mut all = Vec::new(alloc);
    if !is_absolute(name) {
        add_parts(&mut all, folder)?;
    }
    add_parts(&mut all, name)?;
    Ok(all)
}

/// The digest of a name in a folder.
fn digest_in(alloc: Global, folder: &[u8], name: &[u8]) -> Result<[u8; 32], AllocError>
    ensures { IfOk result (λ digest. digest ≡ sha256 (absolute folder.now name.now)) }
{
    let name = absolute(alloc, folder, name)?;
    Ok(Sha256::digest(name.as_slice()))
}

/// The digest by SHA-256 of a file's absolute name: behind the current folder's where it doesn't begin with `/`,
/// and without the parts that are empty or `.`. Nothing is looked up: a link is as good a name as what it leads to,
/// and `..` stays. An error of the system where that doesn't tell the folder, and for want of memory.
pub fn name_digest(rt: &HostRuntime, name: &str) -> io::Result<[u8; 32]> {
    let folder = env::current_dir(rt)?;
    let digest = digest_in(rt.alloc(), folder.as_str().as_bytes(), name.as_bytes())?;
    Ok(digest)
}
