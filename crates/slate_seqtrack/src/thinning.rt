// Thinning a list that is past its capacity.
ghost use Rattle.std.specs.Prelude.{◌≡◌, ◌<◌, ◌∷◌, [], ◌++◌};
ghost use Rattle.std.specs.Vec.{vec_len, vec_capacity};
ghost use Rattle.slate_seqtrack.specs.Thinning.{evens, last_alone, thinned};

/// Keeps the elements at positions 0, 2, 4 and on, in place.
fn keep_evens<T: Copy>(list: &mut Vec<T>)
    ensures items { list.new.items ≡ evens list.old.items }
    ensures capacity { vec_capacity list.new ≡ vec_capacity list.old }
{
    let count = list.len().div_ceil(2);
    for i in 0..count {
        list[i] = list[2 * i];
    }
    list.truncate(count);
}

/// Adds an element at the end, and keeps every other one where the list is then past its capacity. It takes no memory.
pub(crate) fn push_thinned<T: Copy>(list: &mut Vec<T>, item: T, capacity: u32)
    requires { vec_len list.old < vec_capacity list.old }
    ensures items { list.new.items ≡ thinned capacity (list.old.items ++ item ∷ []) }
    ensures capacity { vec_capacity list.new ≡ vec_capacity list.old }
{
    list.push_reserved(item);
    if list.len() > capacity as usize {
        keep_evens(list);
    }
}

/// Keeps the last element alone. It takes no memory.
pub(crate) fn keep_last<T: Copy>(list: &mut Vec<T>)
    ensures items { list.new.items ≡ last_alone list.old.items }
    ensures capacity { vec_capacity list.new ≡ vec_capacity list.old }
{
    let Some(last) = list.pop() else {
        return;
    };
    list.clear();
    list.push_reserved(last);
}
