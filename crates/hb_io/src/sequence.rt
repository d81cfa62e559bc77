//! How is a list handed between crates, so that contracts see its items and nothing else?

ghost use Rattle.std.specs.Prelude.{◌≡◌, ◌↔◌, [], ◌∷◌, ◌++◌, length, IsTrue, OnOk, OnErr};

use crate::Text;
use std::alloc::{AllocError, Global};
use std::marker::Model;

/// A list that owns its memory. Contracts see it as the list of its items.
#[derive(Clone, Debug, Drop)]
pub struct Sequence<T> {
    inner: Vec<T>,
}

/// A list of texts.
pub type Texts = Sequence<Text>;

/// A list of bytes.
pub type Bytes = Sequence<u8>;

impl<T> Model for Sequence<T> {
    ghost use Rattle.std.specs.Prelude.{List};

    ghost Value = { List T };

    ghost view = { λ s. s.inner.items };
}

impl<T> Sequence<T> {
    /// No items, and no memory yet.
    pub fn new(alloc: Global) -> Self
        ensures { result ≡ [] }
    {
        Sequence {
            inner: Vec::new(alloc),
        }
    }

    /// The items of a vector.
    pub fn from_vec(items: Vec<T>) -> Self
        ensures { result ≡ items.items }
    {
        Sequence { inner: items }
    }

    /// The items as a vector.
    pub fn into_vec(self) -> Vec<T>
        ensures { result.items ≡ self }
    {
        self.inner
    }

    /// The items as a slice.
    pub fn as_slice(&self) -> &[T]
        ensures { result.now ≡ self.now }
    {
        self.inner.as_slice()
    }

    /// How many items there are.
    pub fn len(&self) -> usize
        ensures { result ≡ length self.now }
    {
        self.inner.len()
    }

    /// Whether there is no item.
    pub fn is_empty(&self) -> bool
        ensures { IsTrue result ↔ (self.now ≡ []) }
    {
        self.inner.is_empty()
    }
}

impl<T: Drop> Sequence<T> {
    /// Appends an item. Without memory for it the list stays as it was, and the item is dropped.
    pub fn push(&mut self, item: T) -> Result<(), AllocError>
        ensures ok { OnOk result (self.new ≡ self.old ++ item ∷ []) }
        ensures err { OnErr result (self.new ≡ self.old) }
    {
        self.inner.push(item)?;
        Ok(())
    }

    /// Appends the items of another list. Without memory for them all it appends none, and they are
    /// dropped.
    pub fn append(&mut self, mut more: Self) -> Result<(), AllocError>
        ensures ok { OnOk result (self.new ≡ self.old ++ more) }
        ensures err { OnErr result (self.new ≡ self.old) }
    {
        self.inner.append(&mut more.inner)
    }
}

impl<T: Copy> Sequence<T> {
    /// Appends copies of items. Without memory for them all it appends none.
    pub fn extend(&mut self, more: &[T]) -> Result<(), AllocError>
        ensures ok { OnOk result (self.new ≡ self.old ++ more.now) }
        ensures err { OnErr result (self.new ≡ self.old) }
    {
        self.inner.extend_from_slice(more)
    }
}

impl<T: PartialEq> PartialEq for Sequence<T> {
    ghost use Rattle.std.specs.Cmp.Lexicographic.{pointwise, lists_per};

    ghost eq = { pointwise T.eq };

    ghost laws = { lists_per T.laws };

    fn eq(&self, other: &Self) -> bool {
        self.inner == other.inner
    }
}

impl<T: Eq> Eq for Sequence<T> {
    ghost use Rattle.std.specs.Cmp.Lexicographic.{lists_equiv};

    ghost laws = { lists_equiv T.Eq.laws };
}
