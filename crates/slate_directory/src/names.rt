// The names of files, which are the ids of blobs.
ghost use Rattle.std.specs.Prelude.{◌≡◌, ◌≢◌, ◌<◌, ◌^◌, ◌++◌, ◌∷◌, ℕ, List, None, IfOk, IfSome, length, string_bytes};
ghost use Rattle.slate_directory.specs.Names.{number_stem, table_stem};

use slate_store::TableId;
use slate_text::read_number;
use slate_types::NoMemory;
use std::alloc::Global;

/// How many decimal digits a number has in a name. So names in the order of their bytes are in the order of their ids.
const DIGITS: usize = 20;

/// An id that names a file.
pub trait FileId: Copy + Ord {
    /// The name of an id's file, without its extension.
    ghost stem: { Self → List ℕ };

    /// The numbers of an id are below 2^64.
    ghost fits: { Self → Type 0 };

    /// The name of the id's file, without its extension.
    fn to_stem(self, alloc: Global) -> Result<String, NoMemory>
        ensures { IfOk result (λ name. string_bytes name ≡ stem self) };

    /// The id whose file has this name without its extension, or None where no id's has. It takes no memory.
    fn from_stem(name: &[u8]) -> Option<Self>
        ensures found { IfSome result (λ id. name.now ≡ stem id) }
        ensures none { result ≡ None → (id : Self) → fits id → name.now ≢ stem id };
}

impl FileId for u64 {
    ghost stem = { number_stem };

    ghost fits = { λ n. n < 2 ^ 64 };

    fn to_stem(self, alloc: Global) -> Result<String, NoMemory> {
        Ok(format!(in alloc; "{self:020}")?)
    }

    fn from_stem(name: &[u8]) -> Option<u64> {
        if name.len() == DIGITS {
            read_number(name)
        } else {
            None
        }
    }
}

impl FileId for TableId {
    ghost use Rattle.std.specs.Prelude.{◌<◌, ◌^◌};

    ghost stem = { table_stem };

    ghost fits = { λ id. (id.epoch < 2 ^ 64) × (id.index < 2 ^ 64) };

    fn to_stem(self, alloc: Global) -> Result<String, NoMemory> {
        Ok(format!(in alloc; "{:020}-{:020}", self.epoch, self.index)?)
    }

    fn from_stem(name: &[u8]) -> Option<TableId> {
        let (epoch, index) = split_at_dash(name)?;
        Some(TableId {
            epoch: u64::from_stem(epoch)?,
            index: u64::from_stem(index)?,
        })
    }
}

/// The bytes of a name before and behind the `-` that follows 20 bytes, where one does.
fn split_at_dash(name: &[u8]) -> Option<(&[u8], &[u8])>
    ensures found { IfSome result (λ parts. (name.now ≡ parts.0.now ++ (45 ∷ parts.1.now)) × (length parts.0.now ≡ 20)) }
    ensures none { result ≡ None → (first second : List ℕ) → length first ≡ 20 → name.now ≢ first ++ (45 ∷ second) }
{
    let (first, rest) = name.split_at_checked(DIGITS)?;
    let second = rest.strip_prefix(b"-")?;
    Some((first, second))
}

/// The id whose file has this name, which ends in the extension, or None where no id's has.
pub(crate) fn read_name<K: FileId>(name: &[u8], extension: &[u8]) -> Option<K>
    ensures found { IfSome result (λ id. name.now ≡ K.stem id ++ extension.now) }
    ensures none { result ≡ None → (id : K) → K.fits id → name.now ≢ K.stem id ++ extension.now }
{
    K::from_stem(strip_extension(name, extension)?)
}

/// A name without its extension, where it ends in it.
fn strip_extension<'a>(name: &'a [u8], extension: &[u8]) -> Option<&'a [u8]>
    ensures found { IfSome result (λ stem. name.now ≡ stem.now ++ extension.now) }
    ensures none { result ≡ None → (stem : List ℕ) → name.now ≢ stem ++ extension.now }
{
    name.strip_suffix(extension)
}
