/// A table with an entry for each of the 1,024 megacells, by their numbers. It is an array, since the library has no heap.
#[derive(Drop)]
pub struct Table<T> {
    entries: [T; 1024],
}

pub mod methods;
