// Looking up a key's partner in two lists by binary search.
ghost use Rattle.std.specs.Prelude.{◌≡◌, ◌<◌, ◌≤◌, length, true, false, MatchOption, slice_index_or};
ghost use Rattle.std.specs.Ordering.{is_lt, is_le};
ghost use Rattle.std.specs.List.Sorted.{IsSorted, IsPartitionPoint};
ghost use Rattle.slate_seqtrack.specs.Lookup.{AnswersAt, NoneAnswers, IsPartner};

use crate::FindOption;

/// How many keys of a list that never falls are below the one sought.
fn count_below<K: Ord>(keys: &[K], sought: &K) -> usize
    requires { IsSorted K.cmp keys.now }
    ensures bound { result ≤ length keys.now }
    ensures point { IsPartitionPoint (λ key. is_lt (K.cmp key sought.now) ≡ true) (λ key. is_lt (K.cmp key sought.now) ≡ false) keys.now result }
{
    keys.partition_point(|key| key.cmp(sought).is_lt())
}

/// How many keys of a list that never falls are at most the one sought.
fn count_up_to<K: Ord>(keys: &[K], sought: &K) -> usize
    requires { IsSorted K.cmp keys.now }
    ensures bound { result ≤ length keys.now }
    ensures point { IsPartitionPoint (λ key. is_le (K.cmp key sought.now) ≡ true) (λ key. is_le (K.cmp key sought.now) ≡ false) keys.now result }
{
    keys.partition_point(|key| key.cmp(sought).is_le())
}

/// The place of the key that answers in a list that never falls, by binary search.
fn place_of<K: Ord>(keys: &[K], sought: &K, find: FindOption) -> Option<usize>
    requires { IsSorted K.cmp keys.now }
    ensures { MatchOption result (NoneAnswers K.cmp find sought.now keys.now) (AnswersAt K.cmp find sought.now keys.now) }
{
    match find {
        FindOption::RoundUp => {
            let place = count_below(keys, sought);
            if place < keys.len() {
                Some(place)
            } else {
                None
            }
        }
        FindOption::RoundDown => {
            let end = count_up_to(keys, sought);
            if end == 0 {
                return None;
            }
            Some(count_below(keys, &keys[end - 1]))
        }
    }
}

/// The partner of the key that answers in a list that never falls.
pub(crate) fn partner_of<K: Ord, V: Copy>(
    keys: &[K],
    partners: &[V],
    sought: &K,
    find: FindOption,
) -> Option<V>
    requires sorted { IsSorted K.cmp keys.now }
    requires paired { length partners.now ≡ length keys.now }
    ensures { IsPartner K.cmp find sought.now keys.now partners.now result }
{
    let place = place_of(keys, sought, find)?;
    Some(partners[place])
}
