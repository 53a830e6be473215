// Lists that rows own.
ghost use Rattle.std.specs.Prelude.{◌≡◌, List, length};

use std::marker::Model;

/// A list that a row owns. Contracts see it as the list of its items, so rows that hold it can be
/// compared as plain data.
pub struct OwnList<T> {
    items: Vec<T>,
}

impl<T: Drop> Drop for OwnList<T> {
    fn drop(self) {
        let OwnList { items } = self;
        drop(items);
    }
}

impl<T> Model for OwnList<T> {
    ghost Value = { List T };

    ghost view = { λ l. l.items.items };
}

impl<T> OwnList<T> {
    pub fn of(items: Vec<T>) -> OwnList<T>
        ensures { result ≡ items.items }
    {
        OwnList { items }
    }

    pub fn as_slice(&self) -> &[T]
        ensures { result.now ≡ self.now }
    {
        self.items.as_slice()
    }

    pub fn into_vec(self) -> Vec<T>
        ensures { result.items ≡ self }
    {
        let OwnList { items } = self;
        items
    }
}
