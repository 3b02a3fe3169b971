//! Byte strings, on the heap and in fixed room.
ghost use Rattle.std.specs.Prelude.{◌≡◌, ◌+◌, ◌≤◌, ◌++◌, ℕ, List, length, take, drop, replicate, IfOk};
ghost use Rattle.arrayvec.specs.ArrayVec.{array_vec_len};

use crate::NoMemory;
use arrayvec::ArrayVec;
use std::alloc::Global;
use std::marker::Model;

/// A byte string, which contracts see as the list of its bytes.
#[derive(Drop)]
pub struct Blob {
    held: Vec<u8>,
}

impl Model for Blob {
    ghost Value = { List ℕ };

    ghost view = { λ b. b.held.items };
}

impl Blob {
    /// A copy of the bytes.
    pub fn of(alloc: Global, bytes: &[u8]) -> Result<Blob, NoMemory>
        ensures { IfOk result (λ blob. blob ≡ bytes.now) }
    {
        let held = Vec::from_slice(alloc, bytes)?;
        Ok(Blob { held })
    }

    /// The bytes of a vector, which aren't copied.
    pub fn from_vec(bytes: Vec<u8>) -> Blob
        ensures { result ≡ bytes.items }
    {
        Blob { held: bytes }
    }

    /// `len` zeros.
    pub fn zeros(alloc: Global, len: usize) -> Result<Blob, NoMemory>
        ensures { IfOk result (λ zeros. zeros ≡ replicate {A = ℕ} len 0) }
    {
        let held = Vec::from_elem(alloc, 0u8, len)?;
        Ok(Blob { held })
    }

    /// Writes other bytes over these, as many.
    pub fn fill(&mut self, bytes: &[u8])
        requires { length bytes.now ≡ length self.old }
        ensures { self.new ≡ bytes.now }
    {
        self.held.as_mut_slice().copy_from_slice(bytes);
    }

    /// Writes other bytes over those from `start` on.
    pub fn overwrite(&mut self, start: usize, bytes: &[u8])
        requires { start + length bytes.now ≤ length self.old }
        ensures { self.new ≡ take start self.old ++ bytes.now
            ++ drop (start + length bytes.now) self.old }
    {
        self.held[start..start + bytes.len()].copy_from_slice(bytes);
    }

    /// The bytes.
    pub fn bytes(&self) -> &[u8]
        ensures { result.now ≡ self.now }
    {
        self.held.as_slice()
    }
}

/// Appends bytes, for which there is room.
pub fn append<const CAP: usize>(out: &mut ArrayVec<u8, CAP>, bytes: &[u8])
    requires { array_vec_len out.old + length bytes.now ≤ CAP }
    ensures { out.new.items ≡ out.old.items ++ bytes.now }
{
    let _ = out.try_extend_from_slice(bytes);
}

/// A copy of a list in fixed room, which takes no memory.
pub fn copy_of<T: Copy + Default + Drop, const CAP: usize>(
    list: &ArrayVec<T, CAP>,
) -> ArrayVec<T, CAP>
    ensures { result ≡ list.now }
{
    let mut copy = ArrayVec::new();
    let _ = copy.try_extend_from_slice(list.as_slice());
    copy
}
