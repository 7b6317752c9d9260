//! How many batches a rent run takes, and how many of them are posted.

ghost use Rattle.std.specs.Prelude.{◌≡◌, ◌+◌, ◌^◌, ◌≤◌, ℕ, IfOk};
ghost use Rattle.dh_model.specs.Rules.{ArePosted};
ghost use Rattle.dh_model.specs.Runs.{batch_size, batches, batches_for};
ghost use Rattle.dh_model.specs.Whole.{batches_shown};

use crate::parts::branch_parts;
use dh_books::Books;
use dh_model::BATCH_SIZE;
use dh_types::EntryMonth;
use std::alloc::{AllocError, Global};

/// The batches of a branch with so many dues: one at least.
pub fn batches_for(count: u64) -> u128
    ensures value { result ≡ batches_for batch_size count }
    ensures bound { result ≤ count + 1 }
{
    let full = (u128::from(count) + u128::from(BATCH_SIZE - 1)) / u128::from(BATCH_SIZE);
    full.max(1)
}

/// How many batches the month's rent run takes, over all branches.
pub fn batches(alloc: Global, books: &Books, month: EntryMonth) -> Result<u128, AllocError>
    ensures { IfOk result (λ n. n ≡ batches batch_size books.now.books month) }
{
    let parts = branch_parts(alloc, books, month)?;
    let mut all = 0;
    for part in parts.iter() {
        all += batches_for(u64::from(part.count));
    }
    Ok(all)
}

/// The batches that the month's part rows stand for: each those that its charges take. Those of any list can be counted with them. Where a
/// number of the month's batches is posted, it is that number.
pub fn batches_shown(books: &Books, month: EntryMonth) -> u128
    ensures value { result ≡ batches_shown batch_size books.now.books month }
    ensures room { result + 2 ^ 64 ≤ 2 ^ 128 }
    ensures posted { (done : ℕ) → ArePosted books.now.books batch_size month done → result ≡ done }
{
    let parts = books.parts();
    // No more than this many, so that their sum fits.
    let _count = parts.len();
    let mut done = 0u128;
    for part in parts {
        if part.month == month {
            done += batches_for(u64::from(part.count));
        }
    }
    done
}
