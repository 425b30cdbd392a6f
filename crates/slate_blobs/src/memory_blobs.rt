// Keeping the blobs of a folder in memory.
ghost use Rattle.std.specs.Prelude.{◌≡◌, Some, [], IfOk};
ghost use Rattle.slate_types.specs.Counts.{one_more};

use crate::Blobs;
use bytes::Bytes;
use slate_types::{NoMemory, Seq, StoreError};
use std::alloc::Global;
use std::collections::BTreeMap;

/// The blobs of a folder in memory. They never fail: a call answers `NoMemory`, or what is asked. They are modelled.
///
/// A call takes a look-up, logarithmic in the blobs, but for the listing, which is linear in them. A put copies the
/// bytes, and a get shares them.
pub struct MemoryBlobs<K: Copy + Ord> {
    blobs: BTreeMap<K, Bytes>,
    calls: u64,
}

impl<K: Copy + Ord + Drop> Drop for MemoryBlobs<K> {
    fn drop(self) {
        let MemoryBlobs { blobs: _, calls: _ } = self;
    }
}

impl<K: Copy + Ord> MemoryBlobs<K> {
    /// A folder without blobs that wasn't called yet. It takes no memory.
    pub fn new(alloc: Global) -> MemoryBlobs<K>
        ensures held { ⟦<MemoryBlobs<K> as Blobs<K>>⟧.held result ≡ Some [] }
        ensures calls { ⟦<MemoryBlobs<K> as Blobs<K>>⟧.calls result ≡ 0 }
    {
        MemoryBlobs {
            blobs: BTreeMap::new(alloc),
            calls: 0,
        }
    }

    fn count_call(&mut self)
        ensures { self.new ≡ record self.old { calls = one_more self.old.calls } }
    {
        self.calls = self.calls.saturating_add(1);
    }
}

impl<K: Copy + Ord> Blobs<K> for MemoryBlobs<K> {
    ghost use Rattle.std.specs.Prelude.{Some};

    ghost held = { λ s. Some s.blobs.entries };

    ghost faults = { λ _. 0 };

    ghost calls = { λ s. s.calls };

    fn put_if_absent(&mut self, alloc: Global, id: K, bytes: &[u8]) -> Result<(), StoreError> {
        self.count_call();
        if self.blobs.contains_key(&id) {
            return Err(StoreError::Exists);
        }
        let bytes = Bytes::copy_from_slice(alloc, bytes).map_err(NoMemory::from)?;
        self.blobs.insert(id, bytes).map_err(NoMemory::from)?;
        Ok(())
    }

    fn get(&mut self, alloc: Global, id: K) -> Result<Bytes, StoreError> {
        self.count_call();
        match self.blobs.get(&id) {
            None => Err(StoreError::NotFound),
            Some(bytes) => Ok(bytes.clone().map_err(NoMemory::from)?),
        }
    }

    fn list(&mut self, alloc: Global) -> Result<Seq<K>, StoreError> {
        self.count_call();
        let ids = self.blobs.keys().copied().collect(alloc);
        Ok(Seq::of(ids.map_err(NoMemory::from)?))
    }

    fn remove(&mut self, alloc: Global, id: K) -> Result<(), StoreError> {
        self.count_call();
        self.blobs.remove(&id);
        Ok(())
    }
}
