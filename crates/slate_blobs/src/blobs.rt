// The calls on the blobs of a folder, and what each answers and changes.
ghost use Rattle.std.specs.Prelude.{◌≡◌, ℕ, List, Option, IfSome, IfOk, IfErr};
ghost use Rattle.std.specs.List.Sorted.{IsStrictlySortedBy};
ghost use Rattle.std.specs.Map.{keys_of};
ghost use Rattle.slate_store.specs.Calls.{IsCall, WhereModelled, Finds, IsOfList, IsOfRead, IsOfPut};
ghost use Rattle.slate_blobs.specs.Entries.{PutsAt, RemovesAt, value_at};

use bytes::Bytes;
use slate_types::{Seq, StoreError};
use std::alloc::Global;

/// The blobs of one folder of an object store: bytes, each under an id of the type `K`. A blob is put once, never
/// changed, and may be removed.
///
/// Every call may answer `Failed`, where the count of faults has risen, and `NoMemory`; one that answers anything but
/// `Failed` leaves that count as it was. A put or a removal that answers `Failed` may have taken place; a call that
/// answers anything else but Ok did nothing.
pub trait Blobs<K: Copy + Ord> {
    /// The blobs that the folder holds, in the order of their ids, where it is modelled.
    ghost held: { Self → Option (List (K × List ℕ)) };

    /// How often it has failed. The count never falls.
    ghost faults: { Self → ℕ };

    /// How often it was called. The count stays at the end of a `u64`.
    ghost calls: { Self → ℕ };

    /// Stores bytes under an id. It answers `Exists` where some are stored under it.
    fn put_if_absent(&mut self, alloc: Global, id: K, bytes: &[u8]) -> Result<(), StoreError>
        ensures counts { IsCall (faults self.old) (faults self.new) (calls self.old) (calls self.new) result }
        ensures put { WhereModelled (PutsAt K.cmp id bytes.now result) (held self.old) (held self.new) }
        ensures refusals { IfErr result IsOfPut };

    /// The bytes under an id. It answers `NotFound` where none are stored under it.
    fn get(&mut self, alloc: Global, id: K) -> Result<Bytes, StoreError>
        ensures counts { IsCall (faults self.old) (faults self.new) (calls self.old) (calls self.new) result }
        ensures kept { held self.new ≡ held self.old }
        ensures found { IfSome (held self.old) (λ blobs. Finds (value_at K.cmp id blobs) result) }
        ensures refusals { IfErr result IsOfRead };

    /// The ids of all blobs, rising.
    fn list(&mut self, alloc: Global) -> Result<Seq<K>, StoreError>
        ensures counts { IsCall (faults self.old) (faults self.new) (calls self.old) (calls self.new) result }
        ensures kept { held self.new ≡ held self.old }
        ensures found { IfSome (held self.old) (λ blobs. IfOk result (λ ids. ids ≡ keys_of blobs)) }
        ensures rising { IfSome (held self.old) (λ blobs. IfOk result (IsStrictlySortedBy K.cmp)) }
        ensures refusals { IfErr result IsOfList };

    /// Removes the bytes under an id. It is Ok too where none are stored under it.
    fn remove(&mut self, alloc: Global, id: K) -> Result<(), StoreError>
        ensures counts { IsCall (faults self.old) (faults self.new) (calls self.old) (calls self.new) result }
        ensures removed { WhereModelled (RemovesAt K.cmp id result) (held self.old) (held self.new) }
        ensures refusals { IfErr result IsOfList };
}
