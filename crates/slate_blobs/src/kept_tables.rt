// Tables that are kept decoded, as many as a bound of bytes has room for.
ghost use Rattle.std.specs.Prelude.{◌≡◌, ◌≤◌, ◌+◌, ◌-◌, ◌<◌, ◌^◌, [], IfSome, Some};
ghost use Rattle.slate_blobs.specs.Kept.{bytes_of, is_of, kept_at, newest, others, Keeps};

use slate_reads::Table;
use slate_store::TableId;
use std::alloc::Global;

/// A table that is kept.
#[derive(Drop)]
pub(crate) struct KeptTable {
    pub(crate) id: TableId,
    pub(crate) table: Table,
    /// The length of its encoded blob.
    pub(crate) bytes: u64,
}

/// The tables that are kept. Their bytes are within the bound.
///
/// A call takes time linear in the tables that are kept, and copies none.
pub(crate) struct KeptTables {
    // the oldest first
    tables: Vec<KeptTable>,
    bytes: u64,
    bound: u64,
    ghost counted: { bytes ≡ bytes_of tables.items },
    ghost bounded: { bytes ≤ bound },
}

impl Drop for KeptTables {
    fn drop(self) {
        let KeptTables {
            tables: _,
            bytes: _,
            bound: _,
        } = self;
    }
}

impl KeptTables {
    /// No tables yet. It takes no memory.
    pub(crate) fn new(alloc: Global, bound: u64) -> KeptTables
        ensures tables { result.tables.items ≡ [] }
        ensures bound { result.bound ≡ bound }
    {
        KeptTables {
            tables: Vec::new(alloc),
            bytes: 0,
            bound,
        }
    }

    /// The table that is kept under an id. It answers None too where the table has as many copies as there may be.
    pub(crate) fn get(&self, id: TableId) -> Option<Table>
        ensures { IfSome result (λ table. kept_at id self.now.tables.items ≡ Some table) }
    {
        let kept = self.tables.iter().find(|kept| is_of(kept, id))?;
        kept.table.clone().ok()
    }

    /// Keeps a table whose encoded blob has so many bytes, and drops the oldest ones until all are within the bound. It
    /// isn't kept where it is larger than the bound, where memory is wanting, or where it has as many copies as there
    /// may be.
    pub(crate) fn keep(&mut self, id: TableId, table: &Table, bytes: u64)
        ensures tables { Keeps self.old.bound (record { id = id; table = table.now; bytes = bytes }) self.old.tables.items self.new.tables.items }
        ensures bound { self.new.bound ≡ self.old.bound }
    {
        self.forget(id);
        if bytes > self.bound {
            return;
        }
        let Ok(table) = table.clone() else {
            return;
        };
        self.make_room(bytes);
        if self.tables.push(KeptTable { id, table, bytes }).is_ok() {
            self.bytes += bytes;
        }
    }

    /// Forgets the table under an id.
    pub(crate) fn forget(&mut self, id: TableId)
        ensures tables { self.new.tables.items ≡ others id self.old.tables.items }
        ensures bound { self.new.bound ≡ self.old.bound }
    {
        let _before = self.bytes;
        self.tables.retain(|kept| !is_of(kept, id));
        self.bytes = bytes_of(self.tables.as_slice());
    }

    // Drops the oldest tables until there is room for so many bytes more.
    fn make_room(&mut self, bytes: u64)
        requires { bytes ≤ self.old.bound }
        ensures tables { self.new.tables.items ≡ newest (self.old.bound - bytes) self.old.tables.items }
        ensures room { self.new.bytes + bytes ≤ self.new.bound }
        ensures bound { self.new.bound ≡ self.old.bound }
    {
        let room = self.bound - bytes;
        while self.bytes > room {
            let oldest = self.tables.remove(0);
            self.bytes -= oldest.bytes;
        }
    }
}

// Whether a table is kept under this id.
fn is_of(kept: &KeptTable, id: TableId) -> bool
    ensures { result ≡ is_of id kept.now }
{
    kept.id.epoch == id.epoch && kept.id.index == id.index
}

// The bytes of these tables.
fn bytes_of(tables: &[KeptTable]) -> u64
    requires { bytes_of tables.now < 2 ^ 64 }
    ensures { result ≡ bytes_of tables.now }
{
    let mut bytes = 0;
    for kept in tables {
        bytes += kept.bytes;
    }
    bytes
}
