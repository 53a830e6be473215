// What searches answer.
use crate::trees::Node;
use header_boxes::Row;
use vpc_base::Header;

/// What is known of all headers of a box.
#[derive(Drop)]
pub enum Cover<W> {
    /// The first header that gets through.
    Found(Header),
    /// None gets through: rows that hold all headers.
    Blocked(Vec<Row<W>>),
    /// As many rows as were allowed, and the first header outside them.
    More(Vec<Row<W>>, Header),
}

/// What is known of all headers of a box, with the rows as leaves of a tree.
#[derive(Drop)]
pub enum Grown<W> {
    /// The first header that gets through.
    Found(Header),
    /// None gets through: a cut tree of the box.
    Blocked(Vec<Node<W>>),
    /// As many rows as leaves were allowed, and the first header outside them.
    More(Vec<Row<W>>, Header),
}

/// What a search of some parts found.
#[derive(Drop)]
pub enum Searched {
    /// The first header that gets through.
    Found(Header),
    /// None gets through.
    Blocked,
    /// More parts are to be asked of.
    Unfinished,
}

/// What is known of the headers of a box that are told something.
#[derive(Drop)]
pub enum Gathered<W> {
    /// Rows that hold all of them.
    All(Vec<Row<W>>),
    /// As many rows as there was room for, and the first of them outside the rows.
    More(Vec<Row<W>>, Header),
}
