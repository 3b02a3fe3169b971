//! Clients in memory.
use aoe_base::{Failed, Millis};
use aoe_clients::{Bell, Clients, MemBell, MemClient, MemClients, Moved};
use std::collections::VecDeque;
use std::test::Fail;

/// What a call of clients does.
#[derive(Clone, Copy)]
enum Call<'a> {
    Accepts(Result<bool, Failed>),
    /// It reads into room for four bytes, which begins with these then.
    Reads(Moved, &'a [u8]),
    Writes(&'a [u8], Moved),
    Closes,
}

/// Whether a read comes to this, with these bytes.
fn reads<C: Clients>(clients: &mut C, moved: Moved, bytes: &[u8]) -> bool {
    let mut out = [0; 4];
    clients.is_connected() && clients.read(&mut out) == moved && out.starts_with(bytes)
}

/// Whether a write comes to this.
fn writes<C: Clients>(clients: &mut C, piece: &[u8], moved: Moved) -> bool {
    clients.is_connected() && !piece.is_empty() && clients.write(piece) == moved
}

/// Whether a call does as it is to.
fn does<C: Clients>(clients: &mut C, call: Call<'_>) -> bool {
    match call {
        Call::Accepts(came) => !clients.is_connected() && clients.accept() == came,
        Call::Reads(moved, bytes) => reads(clients, moved, bytes),
        Call::Writes(piece, moved) => writes(clients, piece, moved),
        Call::Closes if clients.is_connected() => {
            clients.close();
            !clients.is_connected()
        }
        Call::Closes => false,
    }
}

#[test]
fn clients_come_one_after_another(rt: HostRuntime) -> Result<(), Fail> {
    let mut coming = VecDeque::new(rt.alloc());
    coming.push_back(MemClient::of(rt.alloc(), b"hello", 3)?)?;
    let mut silent = MemClient::of(rt.alloc(), b"", 0)?;
    silent.stay();
    coming.push_back(silent)?;
    coming.push_back(MemClient::of(rt.alloc(), b"x", 9)?)?;
    let mut clients = MemClients::of(rt.alloc(), coming, 12)?;
    clients.cut(3);
    clients.fail_at(12);
    let calls = [
        Call::Accepts(Ok(true)),
        Call::Reads(Moved::Bytes(3), b"hel"),
        Call::Reads(Moved::Bytes(2), b"lo"),
        Call::Reads(Moved::Nothing, b""),
        Call::Writes(b"abcd", Moved::Bytes(3)),
        Call::Writes(b"d", Moved::Nothing),
        Call::Reads(Moved::Left, b""),
        Call::Accepts(Ok(true)),
        Call::Reads(Moved::Nothing, b""),
        Call::Closes,
        Call::Accepts(Ok(true)),
        Call::Reads(Moved::Bytes(1), b"x"),
        // The twelfth call that can fail: the connection breaks.
        Call::Writes(b"y", Moved::Left),
        Call::Accepts(Ok(false)),
    ];
    for call in &calls {
        let is_done = does(&mut clients, *call);
        assert!(rt; is_done);
    }
    clients.fail_at(1);
    let is_refused = does(&mut clients, Call::Accepts(Err(Failed)));
    assert!(rt; is_refused);
    Ok(())
}

#[test]
fn a_bell_in_memory_does_not_wait(rt: HostRuntime) -> Result<(), Fail> {
    let mut bell = MemBell::new(rt.alloc(), 1)?;
    bell.wait(Millis(10));
    bell.wait(Millis(u64::MAX));
    Ok(())
}
