// A state of a reader that follows a database, as it is published.
ghost use Rattle.std.specs.Prelude.{◌≡◌};
ghost use Rattle.slate_published.specs.Published.{rows_of};
ghost use Rattle.slate_published.specs.States.{nothing_published};

use slate_reads::Table;
use slate_store::TableId;
use slate_types::Seq;
use std::alloc::Global;
use std::marker::Model;

/// What a reader that follows a database sees at one moment: the tables of the manifest that it goes by, and the batches
/// above them. It shares the batches in memory, with their indexes, and never changes.
///
/// A contract sees its fields, and its memory as the list of the batches.
#[derive(Drop)]
pub struct PublishedState {
    number: u64,
    manifest_id: u64,
    tables: Seq<TableId>,
    last_l0_seq: u64,
    memory: Vec<Table>,
}

impl Model for PublishedState {
    ghost use Rattle.slate_published.specs.Published.{Published, rows_of};

    ghost Value = { Published };

    ghost view = { λ s. record { number = s.number; manifest_id = s.manifest_id; tables = s.tables; last_l0_seq = s.last_l0_seq; memory = rows_of s.memory.items } };
}

impl PublishedState {
    /// The state with this number of the last batch that is seen, this manifest with its tables and the last number in them,
    /// and the batches above that in tables, oldest first. It takes no memory, and shares the batches with the tables.
    pub fn of(
        number: u64,
        manifest_id: u64,
        tables: Seq<TableId>,
        last_l0_seq: u64,
        memory: Vec<Table>,
    ) -> PublishedState
        ensures { result ≡ record { number = number; manifest_id = manifest_id; tables = tables; last_l0_seq = last_l0_seq; memory = rows_of memory.items } }
    {
        PublishedState {
            number,
            manifest_id,
            tables,
            last_l0_seq,
            memory,
        }
    }

    /// The state before any is published: number 0, no table and no batch. It takes no memory.
    pub fn nothing(alloc: Global) -> PublishedState
        ensures { result ≡ nothing_published }
    {
        PublishedState::of(0, 0, Seq::of(Vec::new(alloc)), 0, Vec::new(alloc))
    }

    /// The number of the last batch that is seen.
    pub fn number(&self) -> u64
        ensures { result ≡ self.now.number }
    {
        self.number
    }

    /// The id of the manifest.
    pub fn manifest_id(&self) -> u64
        ensures { result ≡ self.now.manifest_id }
    {
        self.manifest_id
    }

    /// The ids of the manifest's tables.
    pub fn tables(&self) -> &[TableId]
        ensures { result.now ≡ self.now.tables }
    {
        self.tables.as_slice()
    }

    /// The last number in these tables.
    pub fn last_l0_seq(&self) -> u64
        ensures { result ≡ self.now.last_l0_seq }
    {
        self.last_l0_seq
    }

    /// The tables with the batches above it, oldest first. Copies of them share the batches.
    pub fn memory(&self) -> &[Table]
        ensures { rows_of result.now ≡ self.now.memory }
    {
        self.memory.as_slice()
    }
}
