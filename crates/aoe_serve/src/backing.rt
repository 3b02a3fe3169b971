//! The store of a slot, over its file.
ghost use Rattle.std.specs.Prelude.{◌≡◌, ◌≤◌, ℕ, IfErr, IfOk, IfSome, None, Option};
ghost use Rattle.aoe_base.specs.Sizes.{most_cached};
ghost use Rattle.aoe_cache.specs.Any.{any_disk, any_state};
ghost use Rattle.aoe_serve.specs.Backing.{IsBacking, held_back, lasts_of, over_file, seen_as};
ghost use Rattle.aoe_serve.specs.Files.{IsUnder};

use aoe_base::Failed;
use aoe_cache::AnyStore;
use aoe_disk::Disk;
use aoe_store::{Direct, Durable, Store};
use std::alloc::Global;
use std::marker::{Brand, Model, PhantomData};

/// How many sectors the stores of a shelf hold back at most: none where their writes last, and no
/// number where they write through.
pub(crate) trait Most {
    ghost most: { Option ℕ };
}

impl Most for Brand {
    ghost most = { None };
}

/// How many sectors a store holds back at most.
pub(crate) fn held_back(durable: bool, cache: u32) -> Option<u32>
    ensures most { result ≡ held_back durable cache }
    ensures limit { cache ≤ most_cached → IfSome result (λ n. n ≤ most_cached) }
{
    if durable {
        return Some(0);
    }
    match cache {
        0 => None,
        most => Some(most),
    }
}

/// A store that needn't sync, or one whose writes last.
#[derive(Drop)]
enum FileStore<D: Disk> {
    Any(AnyStore<D>),
    Durable(Durable<Direct<D>>),
}

/// A store over the file that holds back up to so many sectors. Where there is no memory the file is
/// given back.
fn store_over<D: Disk>(alloc: Global, file: D, most: Option<u32>) -> Result<FileStore<D>, D>
    requires { IfSome most (λ n. n ≤ most_cached) }
    ensures kind { IfOk result (λ store. IsBacking most store) }
    ensures store { IfOk result (λ store. seen_as store ≡ over_file most file) }
    ensures refused { IfErr result (λ d. d ≡ file) }
{
    match most {
        Some(0) => Ok(FileStore::Durable(Durable::new(Direct::new(file)))),
        room => match AnyStore::over(alloc, file, room) {
            Ok(store) => Ok(FileStore::Any(store)),
            Err((_, file)) => Err(file),
        },
    }
}

/// A store over a file, which holds back as many sectors as `M` says.
#[derive(Drop)]
pub(crate) struct Backing<D: Disk, M: Most> {
    store: FileStore<D>,
    most: PhantomData<M>,
}

impl<D: Disk, M: Most> Model for Backing<D, M> {
    ghost use Rattle.aoe_cache.specs.declared.any.AnyStore.{AnyStore};
    ghost use Rattle.aoe_serve.specs.Backing.{IsBacking, seen_as};

    ghost Value = { AnyStore D };

    ghost view = { λ b. seen_as b.store };

    ghost invariant = { λ b. IsBacking M.most b.store };
}

impl<D: Disk, M: Most> Backing<D, M> {
    /// A store over the file. All its memory is taken here; where there is none the file is given
    /// back.
    pub(crate) fn new(alloc: Global, file: D, most: Option<u32>) -> Result<Backing<D, M>, D>
        requires most { most ≡ M.most }
        requires limit { IfSome most (λ n. n ≤ most_cached) }
        ensures store { IfOk result (λ store. store ≡ over_file M.most file) }
        ensures refused { IfErr result (λ d. d ≡ file) }
    {
        match store_over(alloc, file, most) {
            Ok(store) => Ok(Backing {
                store,
                most: PhantomData,
            }),
            Err(file) => Err(file),
        }
    }

    /// The file. What the store holds back is lost, so sync before.
    pub(crate) fn close(self) -> D
        ensures file { result ≡ any_disk self }
        ensures under { IsUnder M.most (D.state result) (any_state D.state self) }
    {
        match self.store {
            FileStore::Any(AnyStore::Direct(store)) => store.close(),
            FileStore::Any(AnyStore::Cached(store)) => store.close(),
            FileStore::Durable(store) => store.close().close(),
        }
    }
}

impl<D: Disk, M: Most> Store for Backing<D, M> {
    ghost state = { λ s. any_state D.state s };

    ghost lasts = { lasts_of M.most };

    ghost under = { λ s. None };

    fn sectors(&self) -> u64 {
        match &self.store {
            FileStore::Any(store) => store.sectors(),
            FileStore::Durable(store) => store.sectors(),
        }
    }

    #[inline(always)]
    fn read(&mut self, at: u64, out: &mut [u8]) -> Result<(), Failed> {
        match &mut self.store {
            FileStore::Any(store) => store.read(at, out),
            FileStore::Durable(store) => store.read(at, out),
        }
    }

    #[inline(always)]
    fn write(&mut self, at: u64, piece: &[u8]) -> Result<(), Failed> {
        match &mut self.store {
            FileStore::Any(store) => store.write(at, piece),
            FileStore::Durable(store) => store.write(at, piece),
        }
    }

    fn sync(&mut self) -> Result<(), Failed> {
        match &mut self.store {
            FileStore::Any(store) => store.sync(),
            FileStore::Durable(store) => store.sync(),
        }
    }
}
