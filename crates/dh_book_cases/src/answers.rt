//! What questions are answered, as texts.

use dh_books::Books;
use dh_rules::{answer, balance, matching, vacant};
use dh_test_kit::{Answer, Fields, Unreadable, answer_text, copy_of, numbers_of};
use dh_types::{Balance, Client, EntryDay, LeaseNo, Property, Question};
use std::alloc::{AllocError, Global};

/// The answer to the question.
pub(crate) fn shown(
    alloc: Global,
    books: &Books,
    question: &Question,
) -> Result<String, AllocError> {
    let answer = answer(alloc, copy_of(alloc, books)?, question)?;
    answer_text(alloc, &answer)
}

fn vacant_on(alloc: Global, books: &Books, day: EntryDay) -> Result<Vec<Property>, AllocError> {
    vacant(alloc, copy_of(alloc, books)?, day.day())
}

/// `vacant,DAY`: the numbers of the vacant properties.
pub(crate) fn vacancies(alloc: Global, books: &Books, fields: &mut Fields) -> Answer {
    let found = vacant_on(alloc, books, fields.day()?)?;
    Ok(numbers_of(alloc, &found)?)
}

fn matching_on(
    alloc: Global,
    books: &Books,
    client: &Client,
    day: EntryDay,
) -> Result<Vec<Property>, AllocError> {
    matching(alloc, copy_of(alloc, books)?, client, day.day())
}

/// `matching,CLIENT,DAY`: the numbers of the properties that the client would take.
pub(crate) fn matched(alloc: Global, books: &Books, fields: &mut Fields) -> Answer {
    let client = books.client(&fields.id()?).ok_or(Unreadable)?;
    let found = matching_on(alloc, books, client, fields.day()?)?;
    Ok(numbers_of(alloc, &found)?)
}

fn balance_of(books: &Books, lease: LeaseNo) -> Balance {
    Balance::of_pence(balance(books, lease))
}

/// `balance,LEASE`
pub(crate) fn balanced(alloc: Global, books: &Books, fields: &mut Fields) -> Answer {
    Ok(balance_of(books, fields.lease_no()?).to_string(alloc)?)
}
