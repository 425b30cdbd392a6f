// The options of a scan, and the order of its keys.
ghost use Rattle.std.specs.Prelude.{◌≡◌, false};

use crate::DurabilityLevel;
use std::cmp::Ordering;

/// The order in which a scan gives its rows, by key.
#[derive(Clone, Copy, Debug, PartialEq, Eq)]
pub enum IterationOrder {
    Ascending,
    Descending,
}

impl IterationOrder {
    ghost use Rattle.slate_types.specs.Order.{order_cmp, is_before};

    /// How two keys stand in this order.
    pub fn compare(self, key: &[u8], other: &[u8]) -> Ordering
        ensures { result ≡ order_cmp self key.now other.now }
    {
        match self {
            IterationOrder::Ascending => key.cmp(other),
            IterationOrder::Descending => other.cmp(key),
        }
    }

    /// Whether a key comes before another in this order.
    pub fn is_before(self, key: &[u8], other: &[u8]) -> bool
        ensures { result ≡ is_before self key.now other.now }
    {
        self.compare(key, other).is_lt()
    }
}

impl Default for IterationOrder {
    ghost use Rattle.slate_types.specs.declared.scan_options.IterationOrder.TheVariants.{Ascending};

    ghost is_default = { λ order. order ≡ Ascending };

    fn default() -> IterationOrder {
        IterationOrder::Ascending
    }
}

/// How to scan a range.
#[derive(Clone, Copy, Debug, PartialEq, Eq)]
pub struct ScanOptions {
    /// From where the rows are taken.
    pub durability_filter: DurabilityLevel,
    /// Whether writes that aren't committed are read. Every accepted write is, so that the answer is the same.
    pub dirty: bool,
    /// The order of the keys.
    pub order: IterationOrder,
}

/// Memory, not dirty, and ascending.
impl Default for ScanOptions {
    ghost use Rattle.slate_types.specs.declared.options.DurabilityLevel.TheVariants.{Memory};
    ghost use Rattle.slate_types.specs.declared.scan_options.IterationOrder.TheVariants.{Ascending};

    ghost is_default = { λ o. o ≡ record { durability_filter = Memory; dirty = false; order = Ascending } };

    fn default() -> ScanOptions {
        ScanOptions {
            durability_filter: DurabilityLevel::Memory,
            dirty: false,
            order: IterationOrder::Ascending,
        }
    }
}
