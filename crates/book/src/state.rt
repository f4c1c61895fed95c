// Who has the rows: a book, or a search that the book was given up to.
use super::book::Book;
use super::search::Search;

#[derive(Drop)]
pub enum State<W> {
    Free(Book),
    Searching(Search<W>),
}
