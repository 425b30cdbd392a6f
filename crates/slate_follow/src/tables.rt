// The tables in memory of a reader, oldest first: they are shared, so what a poll found comes after them in a table of its own, with
// which small ones are joined.
ghost use Rattle.std.specs.Prelude.{◌≡◌, ◌+◌, ◌≤◌, ◌++◌, ℕ, length, IfOk, OnOk};
ghost use Rattle.slate_types.specs.Line.{AreNumberedFrom, batches_above};
ghost use Rattle.slate_follow.specs.Joined.{AreFilled, joined};

use slate_reads::{IndexedTable, Table};
use slate_types::NoMemory;
use std::alloc::Global;

/// A list of a table, and of none where it has no batch.
pub(crate) fn list_of(alloc: Global, table: IndexedTable) -> Result<Vec<Table>, NoMemory>
    ensures same { IfOk result (λ tables. joined tables.items ≡ table) }
    ensures filled { IfOk result (λ tables. AreFilled tables.items) }
{
    let mut tables = Vec::new(alloc);
    push_table(&mut tables, shared(alloc, table)?)?;
    Ok(tables)
}

/// The table, to be shared.
fn shared(alloc: Global, table: IndexedTable) -> Result<Table, NoMemory>
    ensures { IfOk result (λ same. same ≡ table) }
{
    Table::new(alloc, table).map_err(|_table| NoMemory)
}

/// Adds a table after others, where it has a batch.
fn push_table(tables: &mut Vec<Table>, table: Table) -> Result<(), NoMemory>
    ensures same { OnOk result (joined tables.new.items ≡ joined tables.old.items ++ table) }
    ensures filled { AreFilled tables.old.items → OnOk result (AreFilled tables.new.items) }
{
    if table.batches().is_empty() {
        return Ok(());
    }
    tables.push(table).map_err(NoMemory::from)
}

/// Adds tables after others, and shares their batches.
pub(crate) fn share(tables: &mut Vec<Table>, more: &[Table]) -> Result<(), NoMemory>
    ensures { OnOk result (joined tables.new.items ≡ joined tables.old.items ++ joined more.now) }
{
    for table in more {
        tables.push(table.clone()?)?;
    }
    Ok(())
}

/// Tables with the batches above a number, which share those that have no other.
pub(crate) fn tables_above(
    alloc: Global,
    tables: &[Table],
    number: u64,
) -> Result<Vec<Table>, NoMemory>
    ensures same { IfOk result (λ left. joined left.items ≡ batches_above number (joined tables.now)) }
    ensures filled { IfOk result (λ left. AreFilled left.items) }
{
    let mut left = Vec::new(alloc);
    for table in tables {
        let rest = table.above(alloc, number)?;
        push_table(&mut left, rest)?;
    }
    Ok(left)
}

/// Adds a table after others, where it has a batch. The newest of them that have fewer than `limit` bytes, half of which are no more
/// than those of what comes after them, become one table with it. So a table with fewer has more than twice the bytes of the next, and
/// a batch is indexed again only as its table grows by half.
pub(crate) fn add_table(
    alloc: Global,
    tables: &mut Vec<Table>,
    limit: u64,
    table: IndexedTable,
) -> Result<(), NoMemory>
    requires { (floor : ℕ) × AreNumberedFrom floor (joined tables.old.items ++ table) }
    ensures ok { OnOk result (joined tables.new.items ≡ joined tables.old.items ++ table) }
    ensures filled { AreFilled tables.old.items → OnOk result (AreFilled tables.new.items) }
{
    if table.batches().is_empty() {
        return Ok(());
    }
    let first = first_joined(tables.as_slice(), limit, table.size());
    if first == tables.len() {
        return push_table(tables, shared(alloc, table)?);
    }
    let whole = join(alloc, &tables[first..], &table)?;
    tables.truncate(first);
    push_table(tables, shared(alloc, whole)?)
}

/// The first of the tables that are joined with a table of this size.
fn first_joined(tables: &[Table], limit: u64, size: u64) -> usize
    ensures { result ≤ length tables.now }
{
    let mut first = tables.len();
    let mut whole = size;
    while first > 0 {
        let older = tables[first - 1].indexed().size();
        if older >= limit || older / 2 > whole {
            return first;
        }
        whole = whole.saturating_add(older);
        first -= 1;
    }
    first
}

/// One table of tables and of one after them. It copies no key and no value.
fn join(alloc: Global, tables: &[Table], table: &IndexedTable) -> Result<IndexedTable, NoMemory>
    requires { (floor : ℕ) × AreNumberedFrom floor (joined tables.now ++ table.now) }
    ensures { IfOk result (λ whole. whole ≡ joined tables.now ++ table.now) }
{
    let mut whole = IndexedTable::new(alloc);
    for older in tables {
        whole.push_all(older.batches())?;
    }
    whole.push_all(table.batches())?;
    Ok(whole)
}

/// Adds the newest table to the one before it, where nobody shares that and it has fewer than `limit` bytes. So a reader whose tables
/// nobody shares keeps one, and a batch is indexed twice.
pub(crate) fn join_newest(tables: &mut Vec<Table>, limit: u64)
    requires { (floor : ℕ) × AreNumberedFrom floor (joined tables.old.items) }
    ensures same { joined tables.new.items ≡ joined tables.old.items }
    ensures filled { AreFilled tables.old.items → AreFilled tables.new.items }
{
    let Some(newest) = tables.pop() else {
        return;
    };
    let Some(mut older) = tables.pop() else {
        tables.push_reserved(newest);
        return;
    };
    if older.indexed().size() < limit && older.append_alone(newest.batches()) {
        tables.push_reserved(older);
        return;
    }
    tables.push_reserved(older);
    tables.push_reserved(newest);
}
