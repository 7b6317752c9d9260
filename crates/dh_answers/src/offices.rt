//! Branches and their fees, staff and owners.

ghost use Rattle.std.specs.Prelude.{◌≡◌, IfOk};
ghost use Rattle.dh_model.specs.Verdicts.{branch_ruling, decided, fee_ruling, owner_ruling, staff_ruling};

use crate::checks::found_already;
use dh_books::Books;
use dh_model::{Change, Verdict};
use dh_types::{Branch, BranchFee, Owner, Refusal, Reply, Staff, field};
use std::alloc::{AllocError, Global};

/// What the books say of a new branch: its row; that it is there already; or that its number is taken.
pub(crate) fn decide_branch(
    alloc: Global,
    books: &Books,
    branch: &Branch,
) -> Result<Verdict, AllocError>
    ensures { IfOk result (λ v. v ≡ decided (branch_ruling books.now.books branch.now)) }
{
    match books.branch(&branch.number) {
        None => Ok(Verdict::Change(Change::Branch(branch.try_clone(alloc)?))),
        Some(there) => Ok(found_already(branch == there)),
    }
}

/// What the books say of a branch's fee: its row, for a branch that is there; or that the branch has this fee.
pub(crate) fn decide_fee(books: &Books, fee: &BranchFee) -> Verdict
    ensures { result ≡ decided (fee_ruling books.now.books fee.now) }
{
    if books.branch(&fee.branch).is_none() {
        return Verdict::Refused(Refusal::Unknown(field::FEE_BRANCH));
    }
    if fee.fee == books.fee_at(&fee.branch) {
        return Verdict::Already(Reply::Already);
    }
    match books.branch_fee(&fee.branch) {
        None => Verdict::Change(Change::NewFee(*fee)),
        Some(_) => Verdict::Change(Change::Fee(*fee)),
    }
}

/// What the books say of a new member of staff, who belongs to a branch that is there.
pub(crate) fn decide_staff(
    alloc: Global,
    books: &Books,
    member: &Staff,
) -> Result<Verdict, AllocError>
    ensures { IfOk result (λ v. v ≡ decided (staff_ruling books.now.books member.now)) }
{
    match books.member(&member.number) {
        None if books.branch(&member.branch).is_none() => {
            Ok(Verdict::Refused(Refusal::Unknown(field::STAFF_BRANCH)))
        }
        None => Ok(Verdict::Change(Change::Staff(member.try_clone(alloc)?))),
        Some(there) => Ok(found_already(member == there)),
    }
}

/// What the books say of a new owner: its row; that it is there already; or that its number is taken.
pub(crate) fn decide_owner(
    alloc: Global,
    books: &Books,
    owner: &Owner,
) -> Result<Verdict, AllocError>
    ensures { IfOk result (λ v. v ≡ decided (owner_ruling books.now.books owner.now)) }
{
    match books.owner(&owner.number) {
        None => Ok(Verdict::Change(Change::Owner(owner.try_clone(alloc)?))),
        Some(there) => Ok(found_already(owner == there)),
    }
}
