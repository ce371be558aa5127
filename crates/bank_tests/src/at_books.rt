use books::{Book, FreeBook, StrictBook};
use protocol::{BookFault, Mark};
use std::process::Abort;

// Takes a mark, or gives the number of the refusal.
fn take<B: Book>(book: &mut B, lane: usize, sequence: usize, mark: Mark) -> Result<(), u8> {
    book.take(lane, sequence, mark).map_err(BookFault::number)
}

// What both books do, and how each answers where sequence 2 comes first and sequence 3 after 1 and 2.
fn try_out<B: Book>(rt: &impl Abort, book: &mut B, early: Result<(), u8>) {
    assert_eq!(rt; take(book, 32, 1, Mark::Good), Err(11));
    assert_eq!(rt; take(book, 31, 0, Mark::Good), Err(18));
    assert_eq!(rt; take(book, 31, 513, Mark::Good), Err(18));
    assert_eq!(rt; take(book, 31, 2, Mark::Good), early);
    assert_eq!(rt; take(book, 31, 1, Mark::RegisterFull), Ok(()));
    assert_eq!(rt; take(book, 31, 1, Mark::Good), Err(25));
    assert_eq!(rt; book.look(31, 2).is_some(), early.is_ok());
    let again = if early.is_ok() { Err(25) } else { Ok(()) };
    assert_eq!(rt; take(book, 31, 2, Mark::Good), again);
    assert_eq!(rt; take(book, 31, 3, Mark::TooManyHops), Ok(()));
    assert_eq!(rt; book.look(31, 1), Some(Mark::RegisterFull));
    assert!(rt;
        book.look(30, 1).is_none() && book.look(31, 0).is_none() && book.look(32, 1).is_none()
    );
    assert!(rt; book.lower_marked(31, 4) && !book.lower_marked(31, 5));
    book.clear();
    assert!(rt; book.look(31, 1).is_none());
}

#[test]
fn a_free_book_takes_sequences_in_any_order(rt: HostRuntime) {
    let mut book = FreeBook::new();
    assert!(rt; !book.is_strict());
    try_out(&rt, &mut book, Ok(()));
}

#[test]
fn a_strict_book_takes_sequences_in_their_order(rt: HostRuntime) {
    let mut book = StrictBook::new();
    assert!(rt; book.is_strict());
    try_out(&rt, &mut book, Err(26));
    assert_eq!(rt; take(&mut book, 0, 1, Mark::Good), Ok(()));
    assert_eq!(rt; take(&mut book, 0, 3, Mark::Good), Err(26));
}
