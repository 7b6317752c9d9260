//! Checks that several commands share.

ghost use Rattle.std.specs.Prelude.{◌≡◌, if◌then◌else◌, [], ◌∷◌};
ghost use Rattle.dh_types.specs.declared.reply.Refusal.TheVariants as refusal;
ghost use Rattle.dh_types.specs.declared.reply.Reply.TheVariants as reply;
ghost use Rattle.dh_model.specs.declared.rows.Verdict.TheVariants as verdict;
ghost use Rattle.dh_model.specs.Checks.{failing, first_failing, has_room, managed_besides, of_branch, unless};

use dh_books::Books;
use dh_model::{MANAGED_AT_MOST, Verdict};
use dh_types::{Id, Property, Refusal, Reply};

/// What the books say of a row whose place is taken: by the same one, or by another.
pub(crate) fn found_already(is_same: bool) -> Verdict
    ensures { result ≡ (if is_same then verdict.Already reply.Already else verdict.Refused refusal.Taken) }
{
    if is_same {
        Verdict::Already(Reply::Already)
    } else {
        Verdict::Refused(Refusal::Taken)
    }
}

// How many properties the member of staff manages, but for this one.
fn managed_besides(books: &Books, member: &Id, property: &Id) -> usize
    ensures { result ≡ managed_besides books.now.books member.now property.now }
{
    books
        .properties()
        .filter(|other| other.staff == Some(*member) && other.number != *property)
        .count()
}

/// `WrongBranch` unless the member of staff is there and belongs to the branch.
pub(crate) fn of_branch(books: &Books, member: &Id, branch: &Id) -> Option<Refusal>
    ensures { result ≡ failing (of_branch books.now.books member.now branch.now) }
{
    match books.member(member) {
        Some(member) if member.branch == *branch => None,
        _ => Some(Refusal::WrongBranch),
    }
}

// `TooMany` where the member of staff manages as many properties as one may, but for this one.
fn has_room(books: &Books, member: &Id, property: &Id) -> Option<Refusal>
    ensures { result ≡ failing (unless (has_room books.now.books member.now property.now) refusal.TooMany) }
{
    if (managed_besides(books, member, property) as u64) < MANAGED_AT_MOST {
        None
    } else {
        Some(Refusal::TooMany)
    }
}

/// The first of these checks that fails: the member of staff belongs to the property's branch, and has room for it.
pub(crate) fn may_manage(books: &Books, member: &Id, property: &Property) -> Option<Refusal>
    ensures { result ≡ first_failing (of_branch books.now.books member.now property.now.branch
        ∷ unless (has_room books.now.books member.now property.now.number) refusal.TooMany ∷ []) }
{
    of_branch(books, member, &property.branch).or_else(|| has_room(books, member, &property.number))
}
