// Lists and texts, as records hold them.
ghost use Rattle.std.specs.Prelude.{◌≡◌, length, string_bytes, nat_eq};
ghost use Rattle.std.specs.List.{AllZip};
ghost use Rattle.std.specs.Cmp.{partial_equiv_from_equiv};
ghost use Rattle.std.specs.Cmp.Lexicographic.{pointwise, lists_per, lists_equiv, nat_list_eq_equiv};

use std::alloc::AllocError;
use std::marker::Model;

/// A list of values, as records hold it. A contract sees the list.
#[derive(Debug)]
pub struct Seq<T> {
    pub(crate) list: Vec<T>,
}

impl<T: Drop> Drop for Seq<T> {
    fn drop(self) {
        let Seq { list: _ } = self;
    }
}

impl<T> Model for Seq<T> {
    ghost use Rattle.std.specs.Prelude.{List};

    ghost Value = { List T };

    ghost view = { λ s. s.list.items };
}

impl<T> Seq<T> {
    /// The list of these values. It takes no memory.
    pub fn of(list: Vec<T>) -> Seq<T>
        ensures { result ≡ list.items }
    {
        Seq { list }
    }

    /// The values, in order.
    pub fn as_slice(&self) -> &[T]
        ensures { result.now ≡ self.now }
    {
        self.list.as_slice()
    }

    /// The values as a vector. It takes no memory.
    pub fn into_vec(self) -> Vec<T>
        ensures { result.items ≡ self }
    {
        let Seq { list } = self;
        list
    }
}

impl<T: Clone> Clone for Seq<T> {
    ghost is_clone = { λ s copy. AllZip T.is_clone s copy × (length copy ≡ length s) };

    fn clone(&self) -> Result<Seq<T>, AllocError> {
        Ok(Seq {
            list: self.list.clone()?,
        })
    }
}

impl<T: PartialEq> PartialEq for Seq<T> {
    ghost eq = { pointwise T.eq };

    ghost laws = { lists_per T.laws };

    fn eq(&self, other: &Seq<T>) -> bool {
        self.list == other.list
    }
}

impl<T: Eq> Eq for Seq<T> {
    ghost laws = { lists_equiv T.Eq.laws };
}

/// A text, as records hold it. A contract sees its bytes.
#[derive(Debug)]
pub struct Name {
    text: String,
}

impl Drop for Name {
    fn drop(self) {
        let Name { text: _ } = self;
    }
}

impl Model for Name {
    ghost use Rattle.std.specs.Prelude.{List, ℕ, string_bytes};

    ghost Value = { List ℕ };

    ghost view = { λ n. string_bytes n.text };
}

impl Name {
    /// The name that is this text. It takes no memory.
    pub fn of(text: String) -> Name
        ensures { result ≡ string_bytes text }
    {
        Name { text }
    }

    /// The text of the name.
    pub fn as_str(&self) -> &str
        ensures { result.now ≡ self.now }
    {
        self.text.as_str()
    }
}

impl Clone for Name {
    ghost is_clone = { λ name copy. copy ≡ name };

    fn clone(&self) -> Result<Name, AllocError> {
        Ok(Name {
            text: self.text.clone()?,
        })
    }
}

impl PartialEq for Name {
    ghost eq = { pointwise nat_eq };

    ghost laws = { partial_equiv_from_equiv nat_list_eq_equiv };

    fn eq(&self, other: &Name) -> bool {
        self.text == other.text
    }
}

impl Eq for Name {
    ghost laws = { nat_list_eq_equiv };
}
