//! What the batches of a rent run are.

ghost use Rattle.std.specs.Prelude.{◌≡◌, ◌<◌, ◌≤◌, ◌+◌, ◌++◌, All, List, Some, IfOk, OnOk, length, map};
ghost use Rattle.dh_values.specs.declared.limits.TheConstants.{MOST_NUMBER};
ghost use Rattle.dh_types.specs.declared.lease.Charge.{Charge};
ghost use Rattle.dh_model.specs.Books.{State};
ghost use Rattle.dh_model.specs.Runs.{batch_size};
ghost use Rattle.dh_laws.specs.StateTables.{IsStateInOrder};
ghost use Rattle.dh_leases.specs.Plans.{FallsInTime, HaveTheLeases, IsPlanOf};
ghost use Rattle.dh_leases.specs.Rows.{branch_run, charges_at, fee_after, rows_after, rows_of};
ghost use Rattle.dh_leases.specs.Sums.{sum_of};

use crate::batch_counts::batches_for;
use crate::by_branch::{dues_by_branch, of_branch};
use crate::posted::first_batches;
use crate::sums::{Sum, fee_of_sum, part_of_sum, sum_of, sum_with};
use dh_books::Books;
use dh_days::limits::LAST_ENTRY_MONTH;
use dh_model::OpenRun;
use dh_types::{Charge, EntryMonth, Fee, Id, Part, PartFee, Version};
use std::alloc::{AllocError, Global};

/// The rows of a batch: its charges, and what its branch then has of the run.
#[derive(Drop)]
pub struct BatchRows {
    pub charges: Vec<Charge>,
    pub part: Part,
    /// What the branch then takes of the run; none in the first version.
    pub fee: Option<PartFee>,
    /// Whether the branch has its rows of the run, the part row and the fee row, before this batch.
    pub has_part: bool,
}

/// A branch in a rent run, with its fee in these books.
#[derive(Clone, Copy)]
pub struct BranchRun {
    pub version: Version,
    pub month: EntryMonth,
    pub branch: Id,
    pub fee: Fee,
}

/// The batches that an open run lacks, in their order.
#[derive(Drop)]
pub struct Plan {
    pub month: EntryMonth,
    /// How many batches were done before.
    pub done: u128,
    pub batches: Vec<BatchRows>,
}

// The charges of the branch's batch of this number, from 0.
fn charges_at(dues: &[Charge], number: u128) -> &[Charge]
    requires { number < u128.MAX }
    ensures { result.now ≡ charges_at batch_size dues.now number }
{
    let so_far = first_batches(dues, number + 1);
    let before = first_batches(dues, number);
    &so_far[before.len()..]
}

// What the branch takes of the run, where its charges come to the sum; nothing in the first version.
fn fee_row(run: BranchRun, sum: Sum) -> Option<PartFee>
    requires { sum.fee ≡ run.fee }
    ensures { (charges : List Charge) → sum ≡ sum_of run.fee charges → result ≡ fee_after run charges }
{
    match run.version {
        Version::First => None,
        Version::Second => Some(fee_of_sum(run.month, run.branch, sum)),
    }
}

// The rows of these charges, after which the branch has this part and this fee row.
fn rows_with(
    alloc: Global,
    charges: &[Charge],
    part: Part,
    fee: Option<PartFee>,
    has_part: bool,
) -> Result<BatchRows, AllocError>
    ensures { IfOk result (λ rows. rows_of rows ≡ (charges.now, part, fee, has_part)) }
{
    Ok(BatchRows {
        charges: charges.to_vec(alloc)?,
        part,
        fee,
        has_part,
    })
}

// Puts the branch's batches behind the others, without so many that are done.
fn put_batches(
    alloc: Global,
    batches: &mut Vec<BatchRows>,
    run: BranchRun,
    dues: &[Charge],
    done: u128,
) -> Result<(), AllocError>
    requires { length dues.now ≤ MOST_NUMBER + 1 }
    ensures { OnOk result
        (map rows_of batches.new.items ≡ map rows_of batches.old.items ++ rows_after batch_size run dues.now done) }
{
    let mut sum = sum_of(run.fee, first_batches(dues, done));
    for number in done..batches_for(dues.len() as u64) {
        let batch = charges_at(dues, number);
        sum = sum_with(sum, batch);
        let part = part_of_sum(run.month, run.branch, sum);
        let fee = fee_row(run, sum);
        batches.push(rows_with(alloc, batch, part, fee, number > 0)?)?;
    }
    Ok(())
}

// The branch in the run of the month, with its fee.
fn branch_run(books: &Books, month: EntryMonth, branch: &Id) -> BranchRun
    ensures { result ≡ branch_run books.now.books month branch.now }
{
    BranchRun {
        version: books.version(),
        month,
        branch: *branch,
        fee: books.fee_at(branch),
    }
}

/// The batches that the open run lacks, over the branches with their fees, the properties, the leases and the endings of books. Each of their
/// charges falls due in a month that lines know. It fails where memory runs out.
pub fn plan_of(alloc: Global, books: &Books, run: OpenRun) -> Result<Plan, AllocError>
    ensures plan { IfOk result (λ plan. (t : State) → IsStateInOrder t → t.open_run ≡ Some run → HaveTheLeases books.now.books t.books → IsPlanOf plan t) }
    ensures done { IfOk result (λ plan. plan.done ≡ run.done) }
    ensures in_time { IfOk result (λ plan. All FallsInTime plan.batches.items) }
{
    prove!(run.month.number() <= LAST_ENTRY_MONTH);
    let dues = dues_by_branch(alloc, books, run.month)?;
    let mut batches = Vec::new(alloc);
    let mut left = run.done;
    for branch in books.branch_numbers() {
        let all = of_branch(&dues, branch);
        let at = branch_run(books, run.month, branch);
        put_batches(alloc, &mut batches, at, all, left)?;
        left = left.saturating_sub(batches_for(all.len() as u64));
    }
    Ok(Plan {
        month: run.month,
        done: run.done,
        batches,
    })
}
