// Sets of keys.
ghost use Rattle.std.specs.Prelude.{◌≡◌, [], OnOk, OnErr};
ghost use Rattle.slate_transactions.specs.Writes.{is_among, with_key};

use bytes::Bytes;
use slate_types::NoMemory;
use std::alloc::Global;
use std::collections::BTreeSet;
use std::marker::Model;

/// A set of keys. A contract sees the list of them, in order.
#[derive(Debug)]
pub struct KeySet {
    pub(crate) keys: BTreeSet<Bytes>,
}

impl Drop for KeySet {
    fn drop(self) {
        let KeySet { keys: _ } = self;
    }
}

impl Model for KeySet {
    ghost use Rattle.std.specs.Prelude.{ℕ, List};

    ghost Value = { List (List ℕ) };

    ghost view = { λ s. s.keys.keys };
}

impl KeySet {
    /// No key. It takes no memory.
    pub fn new(alloc: Global) -> KeySet
        ensures { result ≡ [] }
    {
        KeySet {
            keys: BTreeSet::new(alloc),
        }
    }

    /// Adds a key, which it copies. Where memory ran out the set is as before. It takes a logarithm of the keys.
    pub fn insert(&mut self, alloc: Global, key: &[u8]) -> Result<(), NoMemory>
        ensures ok { OnOk result (self.new ≡ with_key self.old key.now) }
        ensures err { OnErr result (self.new ≡ self.old) }
    {
        self.keys.insert(Bytes::copy_from_slice(alloc, key)?)?;
        Ok(())
    }

    /// Whether it has a key. It takes a logarithm of the keys.
    pub fn contains(&self, key: &Bytes) -> bool
        ensures { result ≡ is_among self.now key.now }
    {
        self.keys.contains(key)
    }
}
