//! The answer to a question, from the rows that it is about.

ghost use Rattle.std.specs.Prelude.{◌≡◌, ◌≤◌, ◌<◌, ◌+◌, ◌↔◌, ◌++◌, List, ◌∷◌, [], map, nat_eq, true, ◌&&◌, ◌||◌, Bool, IsTrue, None};
ghost use Rattle.std.specs.Prelude.{All, IsSome, IfSome, IfOk, IfErr, OnOk, OnErr};
ghost use Rattle.std.specs.List.{list_any};
ghost use Rattle.std.specs.FinMap as fin;
ghost use Rattle.std.specs.FinMap.{get};
ghost use Rattle.sqlite_trees.specs.View.{doubt};
ghost use Rattle.sqlite.specs.State.{HasCleanDisk};
ghost use Rattle.sqlite.specs.Held.{state};
ghost use Rattle.dh_days.specs.Days.{month_of_day};
ghost use Rattle.dh_days.specs.declared.limits.TheConstants.{FIRST_MONTH};
ghost use Rattle.dh_types.specs.declared.lease.Charge.{Charge as charge_row};
ghost use Rattle.dh_types.specs.declared.lease.Lease.{Lease as lease_row};
ghost use Rattle.dh_types.specs.declared.question.Question.TheVariants as asked;
ghost use Rattle.dh_types.specs.Reports.{report_of};
ghost use Rattle.dh_model.specs.Answers.{is_put_off, report};
ghost use Rattle.dh_model.specs.Books.{State, start};
ghost use Rattle.dh_model.specs.Checks.{is_same_text};
ghost use Rattle.dh_model.specs.Whole.{rows_where};
ghost use Rattle.dh_laws.specs.AskedAbout.{account_of, asked_about, charged_by, let_or_vacant, with_accounts};
ghost use Rattle.dh_schema.specs.Faults.{IsFirstFault};
ghost use Rattle.dh_schema.specs.Store.{IsReady, Leaves, StaysReady, tables};
ghost use Rattle.dh_schema.specs.Looked.{AreBoth};
ghost use Rattle.dh_store.specs.AnsweredFrom.{Fills, GathersLeases, HasNoAccounts, answered_from, charged_in, let_by};
ghost use Rattle.dh_schema.specs.Months.{IsReadyIn, IsReadyOf};
ghost use Rattle.dh_schema.specs.Reading.{OnlyReads};

use crate::endings::held_leases;
use dh_answers::{answer_passed, is_put_off};
use dh_books::Books;
use dh_rows::Meta;
use dh_schema::{
    StoreFault, find_open_run, look, look_at_all, look_at_lettings, look_later, months_now, no_rows,
};
use dh_tables::{
    BranchNumbered, ChargeOf, ChargesOfLease, ClientNumbered, FeesOfMonth, LeaseNumbered,
    LeasesOfProperty, OwnerNumbered, PartsOfMonth, PropertiesOfBranch, PropertiesOfOwner,
    ReceiptsOfLease, RunOf,
};
use dh_types::{
    Answer, Branch, ChargeIndex, EntryMonth, Id, Lease, LeaseNo, OwnerMonth, Question, Refusal,
    Version,
};
use sqlite::{Alter, Connection};
use std::alloc::Global;

// The properties, the leases and the endings, and the client.
fn gather_matching<S: Alter>(
    alloc: Global,
    conn: &mut Connection<S>,
    version: Version,
    client: Id,
    books: &mut Books,
) -> Result<(), StoreFault>
    requires ready { HasCleanDisk (state S.Store conn.old) → IsReadyOf version (state S.Store conn.old) }
    requires none { books.old ≡ start FIRST_MONTH }
    ensures gathered { Fills (λ all. record (let_or_vacant all) { clients = rows_where (λ it. is_same_text it.number client) all.clients })
        result (state S.Store conn.old) books.old (state S.Store conn.new) books.new }
    ensures reads { OnlyReads (state S.Store conn.old) (state S.Store conn.new) result }
{
    look_at_lettings(alloc, conn, version, books)?;
    look(alloc, conn, &ClientNumbered { number: client }, books)
}

// The lease, and what was charged and paid on it.
fn gather_account<S: Alter>(
    alloc: Global,
    conn: &mut Connection<S>,
    lease: LeaseNo,
    books: &mut Books,
) -> Result<(), StoreFault>
    requires { HasCleanDisk (state S.Store conn.old) → IsReady (state S.Store conn.old) }
    ensures gathered { Fills (λ all. account_of all lease) result (state S.Store conn.old) books.old (state S.Store conn.new) books.new }
    ensures reads { OnlyReads (state S.Store conn.old) (state S.Store conn.new) result }
{
    look(alloc, conn, &LeaseNumbered { number: lease }, books)?;
    look(alloc, conn, &ChargesOfLease { lease }, books)?;
    look(alloc, conn, &ReceiptsOfLease { lease }, books)
}

// The run of the month, and its parts.
fn gather_run<S: Alter>(
    alloc: Global,
    conn: &mut Connection<S>,
    month: EntryMonth,
    books: &mut Books,
) -> Result<(), StoreFault>
    requires { HasCleanDisk (state S.Store conn.old) → IsReady (state S.Store conn.old) }
    ensures gathered { Fills (λ all. asked_about all (asked.Run month)) result (state S.Store conn.old) books.old (state S.Store conn.new) books.new }
    ensures reads { OnlyReads (state S.Store conn.old) (state S.Store conn.new) result }
{
    look(alloc, conn, &RunOf { month }, books)?;
    look(alloc, conn, &PartsOfMonth { month }, books)
}

// The leases on the properties of these numbers.
fn gather_leases<S: Alter>(
    alloc: Global,
    conn: &mut Connection<S>,
    properties: &[Id],
    books: &mut Books,
) -> Result<(), StoreFault>
    requires { HasCleanDisk (state S.Store conn.old) → IsReady (state S.Store conn.old) }
    ensures gathered { HasCleanDisk (state S.Store conn.new)
        → OnOk result (books.old.books.leases ≡ fin.empty → books.new ≡ record books.old {
          books = record books.old.books {
            leases = rows_where (λ lease. list_any (is_same_text lease.terms.property) properties.now) (tables (state S.Store conn.old)).books.leases;
          };
        }) }
    ensures reads { OnlyReads (state S.Store conn.old) (state S.Store conn.new) result }
{
    for property in properties {
        let number = *property;
        look(alloc, conn, &LeasesOfProperty { property: number }, books)?;
    }
    Ok(())
}

// The client of the lease, and what was charged and paid on it, beside those of other leases.
fn put_account<S: Alter>(
    alloc: Global,
    conn: &mut Connection<S>,
    lease: &Lease,
    books: &mut Books,
) -> Result<(), StoreFault>
    requires { HasCleanDisk (state S.Store conn.old) → IsReady (state S.Store conn.old) }
    ensures gathered { (t b : State) (before : List lease_row)
        → AreBoth t (record b { books = with_accounts t.books b.books before }) (state S.Store conn.old) books.old
        → OnOk result (AreBoth t (record b { books = with_accounts t.books b.books (before ++ lease.now ∷ []) }) (state S.Store conn.new) books.new) }
    ensures reads { OnlyReads (state S.Store conn.old) (state S.Store conn.new) result }
{
    let number = lease.terms.number;
    let client = lease.terms.client;
    look(alloc, conn, &ClientNumbered { number: client }, books)?;
    look(alloc, conn, &ChargesOfLease { lease: number }, books)?;
    look(alloc, conn, &ReceiptsOfLease { lease: number }, books)?;
    Ok(())
}

// So for each of these leases.
fn gather_accounts<S: Alter>(
    alloc: Global,
    conn: &mut Connection<S>,
    leases: &[Lease],
    books: &mut Books,
) -> Result<(), StoreFault>
    requires { HasCleanDisk (state S.Store conn.old) → IsReady (state S.Store conn.old) }
    ensures gathered { HasCleanDisk (state S.Store conn.new)
        → OnOk result (HasNoAccounts books.old.books
        → books.new ≡ record books.old { books = with_accounts (tables (state S.Store conn.old)).books books.old.books leases.now }) }
    ensures reads { OnlyReads (state S.Store conn.old) (state S.Store conn.new) result }
{
    for lease in leases {
        put_account(alloc, conn, lease, books)?;
    }
    Ok(())
}

// The leases on the properties that the books have, where these are all that a test picks out.
fn gather_let<S: Alter>(
    alloc: Global,
    conn: &mut Connection<S>,
    books: &mut Books,
) -> Result<(), StoreFault>
    requires { HasCleanDisk (state S.Store conn.old) → IsReady (state S.Store conn.old) }
    ensures gathered { GathersLeases result (state S.Store conn.old) books.old (state S.Store conn.new) books.new }
    ensures reads { OnlyReads (state S.Store conn.old) (state S.Store conn.new) result }
{
    let numbers = held_properties(alloc, books)?;
    gather_leases(alloc, conn, &numbers, books)?;
    Ok(())
}

// The branch, its properties, and the leases of these.
fn gather_branch<S: Alter>(
    alloc: Global,
    conn: &mut Connection<S>,
    branch: Id,
    books: &mut Books,
) -> Result<(), StoreFault>
    requires { HasCleanDisk (state S.Store conn.old) → IsReady (state S.Store conn.old) }
    ensures gathered { Fills (λ all. let_by all branch) result (state S.Store conn.old) books.old (state S.Store conn.new) books.new }
    ensures reads { OnlyReads (state S.Store conn.old) (state S.Store conn.new) result }
{
    look(alloc, conn, &BranchNumbered { number: branch }, books)?;
    look(alloc, conn, &PropertiesOfBranch { branch }, books)?;
    gather_let(alloc, conn, books)
}

// These, and for each of the leases its client and what was charged and paid on it.
fn gather_arrears<S: Alter>(
    alloc: Global,
    conn: &mut Connection<S>,
    branch: Id,
    books: &mut Books,
) -> Result<(), StoreFault>
    requires { HasCleanDisk (state S.Store conn.old) → IsReady (state S.Store conn.old) }
    ensures gathered { Fills (λ all. answered_from all (asked.Arrears branch)) result (state S.Store conn.old) books.old (state S.Store conn.new) books.new }
    ensures reads { OnlyReads (state S.Store conn.old) (state S.Store conn.new) result }
{
    gather_branch(alloc, conn, branch, books)?;
    let leases = held_leases(alloc, books)?;
    gather_accounts(alloc, conn, &leases, books)?;
    Ok(())
}

// The numbers of the properties that the books have.
fn held_properties(alloc: Global, books: &Books) -> Result<Vec<Id>, StoreFault>
    ensures numbers { IfOk result (λ numbers. numbers.items ≡ map (λ property. property.number) (fin.values books.now.books.properties)) }
    ensures cause { IfErr result IsFirstFault }
{
    let numbers = books.properties().map(|property| property.number);
    Ok(numbers.collect(alloc)?)
}

// The owner, the owner's properties, and the leases of these.
fn gather_owned<S: Alter>(
    alloc: Global,
    conn: &mut Connection<S>,
    owner: Id,
    books: &mut Books,
) -> Result<(), StoreFault>
    requires { HasCleanDisk (state S.Store conn.old) → IsReady (state S.Store conn.old) }
    ensures gathered { Fills (λ all. record (charged_by all owner) { charges = fin.empty })
        result (state S.Store conn.old) books.old (state S.Store conn.new) books.new }
    ensures reads { OnlyReads (state S.Store conn.old) (state S.Store conn.new) result }
{
    look(alloc, conn, &OwnerNumbered { number: owner }, books)?;
    look(alloc, conn, &PropertiesOfOwner { owner }, books)?;
    gather_let(alloc, conn, books)
}

// The index of the lease's charge of the month, if the lease runs as long as it was signed for. `None` where the month comes
// before its start or after its last.
fn index_in(lease: &Lease, month: EntryMonth) -> Option<ChargeIndex>
    ensures value { IfSome result (λ k. month_of_day lease.now.terms.start + k ≡ month) }
    ensures exact { IsSome result
        ↔ ((month_of_day lease.now.terms.start ≤ month) × (month < month_of_day lease.now.terms.start + lease.now.terms.months)) }
{
    let start = lease.terms.start.day();
    let months = lease.terms.months.number();
    let index = month.number().checked_sub(start.month().number())?;
    if index >= months {
        return None;
    }
    Some(ChargeIndex::of_number(index))
}

// What was charged on the lease in the month, beside the charges that the books have. The lease is one of the tables. It is one
// look by key, where the lease can have a charge in the month, and else none.
fn put_charge<S: Alter>(
    alloc: Global,
    conn: &mut Connection<S>,
    it: &Lease,
    month: EntryMonth,
    books: &mut Books,
) -> Result<(), StoreFault>
    requires ready { HasCleanDisk (state S.Store conn.old) → IsReady (state S.Store conn.old) }
    requires there { HasCleanDisk (state S.Store conn.old)
        → get (tables (state S.Store conn.old)).books.leases it.now.terms.number ≡ Some it.now }
    ensures put { HasCleanDisk (state S.Store conn.new) → OnOk result ((test : charge_row → Bool)
        → books.old.books.charges ≡ rows_where test (tables (state S.Store conn.old)).books.charges
        → books.new ≡ record books.old {
          books = record books.old.books {
            charges = rows_where (λ charge. test charge || (nat_eq charge.lease it.now.terms.number && nat_eq charge.month month))
                (tables (state S.Store conn.old)).books.charges;
          };
        }) }
    ensures reads { OnlyReads (state S.Store conn.old) (state S.Store conn.new) result }
{
    let lease = it.terms.number;
    match index_in(it, month) {
        Some(index) => look(alloc, conn, &ChargeOf { lease, index }, books),
        None => Ok(()),
    }
}

// What was charged on each of these leases in the month. They are leases of the tables.
fn gather_charges<S: Alter>(
    alloc: Global,
    conn: &mut Connection<S>,
    leases: &[Lease],
    month: EntryMonth,
    books: &mut Books,
) -> Result<(), StoreFault>
    requires ready { HasCleanDisk (state S.Store conn.old) → IsReady (state S.Store conn.old) }
    requires there { HasCleanDisk (state S.Store conn.old)
        → All (λ lease. get (tables (state S.Store conn.old)).books.leases lease.terms.number ≡ Some lease) leases.now }
    requires none { HasCleanDisk (state S.Store conn.old) → books.old.books.charges ≡ fin.empty }
    ensures gathered { HasCleanDisk (state S.Store conn.new)
        → OnOk result (books.new ≡ record books.old {
          books = record books.old.books {
            charges = rows_where (λ charge. list_any (λ lease. nat_eq charge.lease lease.terms.number) leases.now && nat_eq charge.month month)
                (tables (state S.Store conn.old)).books.charges;
          };
        }) }
    ensures reads { OnlyReads (state S.Store conn.old) (state S.Store conn.new) result }
{
    for lease in leases {
        put_charge(alloc, conn, lease, month, books)?;
    }
    Ok(())
}

// The owner, the owner's properties, the leases of these, and what was charged on these in the month.
fn gather_charged<S: Alter>(
    alloc: Global,
    conn: &mut Connection<S>,
    it: OwnerMonth,
    books: &mut Books,
) -> Result<(), StoreFault>
    requires ready { HasCleanDisk (state S.Store conn.old) → IsReady (state S.Store conn.old) }
    requires none { books.old ≡ start FIRST_MONTH }
    ensures gathered { Fills (λ all. charged_in all it.owner it.month) result (state S.Store conn.old) books.old (state S.Store conn.new) books.new }
    ensures reads { OnlyReads (state S.Store conn.old) (state S.Store conn.new) result }
{
    gather_owned(alloc, conn, it.owner, books)?;
    let leases = held_leases(alloc, books)?;
    gather_charges(alloc, conn, &leases, it.month, books)?;
    Ok(())
}

// These, the run of the month, and its fees.
fn gather_owner<S: Alter>(
    alloc: Global,
    conn: &mut Connection<S>,
    version: Version,
    it: OwnerMonth,
    books: &mut Books,
) -> Result<(), StoreFault>
    requires ready { HasCleanDisk (state S.Store conn.old) → IsReadyOf version (state S.Store conn.old) }
    requires none { books.old ≡ start FIRST_MONTH }
    ensures gathered { Fills (λ all. answered_from all (asked.Owner it)) result (state S.Store conn.old) books.old (state S.Store conn.new) books.new }
    ensures reads { OnlyReads (state S.Store conn.old) (state S.Store conn.new) result }
{
    let month = it.month;
    gather_charged(alloc, conn, it, books)?;
    look(alloc, conn, &RunOf { month }, books)?;
    look_later(alloc, conn, version, &FeesOfMonth { month }, books)
}

// The rows that the question is about; of an owner's statement not the charges of other months.
fn gather<S: Alter>(
    alloc: Global,
    conn: &mut Connection<S>,
    version: Version,
    question: &Question,
    books: &mut Books,
) -> Result<(), StoreFault>
    requires ready { HasCleanDisk (state S.Store conn.old) → IsReadyOf version (state S.Store conn.old) }
    requires none { books.old ≡ start FIRST_MONTH }
    ensures gathered { Fills (λ all. answered_from all question.now) result (state S.Store conn.old) books.old (state S.Store conn.new) books.new }
    ensures reads { OnlyReads (state S.Store conn.old) (state S.Store conn.new) result }
{
    match *question {
        Question::Branches => {
            look_at_all::<Branch, S>(alloc, conn, books)?;
            Ok(())
        }
        Question::Vacant(_) => {
            look_at_lettings(alloc, conn, version, books)?;
            Ok(())
        }
        Question::Matching(asked) => gather_matching(alloc, conn, version, asked.client, books),
        Question::Statement(lease) => gather_account(alloc, conn, lease, books),
        Question::Arrears(branch) => gather_arrears(alloc, conn, branch, books),
        Question::Run(month) => gather_run(alloc, conn, month, books),
        Question::Owner(it) => gather_owner(alloc, conn, version, it, books),
    }
}

// The answer to a question that no open run puts off.
fn answer_now<S: Alter>(
    alloc: Global,
    conn: &mut Connection<S>,
    version: Version,
    question: &Question,
) -> Result<Answer, StoreFault>
    requires { HasCleanDisk (state S.Store conn.old) → IsReadyOf version (state S.Store conn.old) }
    ensures answer { HasCleanDisk (state S.Store conn.new) → (is_put_off question.now ≡ true → (tables (state S.Store conn.old)).open_run ≡ None)
        → IfOk result (λ a. report_of a ≡ report (tables (state S.Store conn.old)) question.now) }
    ensures reads { OnlyReads (state S.Store conn.old) (state S.Store conn.new) result }
{
    let mut books = no_rows(alloc);
    gather(alloc, conn, version, question, &mut books)?;
    Ok(answer_passed(alloc, books, question)?)
}

// The answer to a question that an open run puts off.
fn answer_put_off<S: Alter>(
    alloc: Global,
    conn: &mut Connection<S>,
    months: Meta,
    question: &Question,
) -> Result<Answer, StoreFault>
    requires ready { HasCleanDisk (state S.Store conn.old) → IsReadyIn months (state S.Store conn.old) }
    requires off { is_put_off question.now ≡ true }
    ensures answer { HasCleanDisk (state S.Store conn.new) → IfOk result (λ a. report_of a ≡ report (tables (state S.Store conn.old)) question.now) }
    ensures reads { OnlyReads (state S.Store conn.old) (state S.Store conn.new) result }
{
    let found = find_open_run(alloc, conn, months)?;
    match found {
        Some(run) => Ok(Answer::Refused(Refusal::RunOpen(run.month.month()))),
        None => answer_now(alloc, conn, months.version(), question),
    }
}

// The answer to any question. The version and the months are read once.
fn answer_question<S: Alter>(
    alloc: Global,
    conn: &mut Connection<S>,
    question: &Question,
) -> Result<Answer, StoreFault>
    requires ready { HasCleanDisk (state S.Store conn.old) → IsReady (state S.Store conn.old) }
    ensures answer { HasCleanDisk (state S.Store conn.new) → IfOk result (λ a. report_of a ≡ report (tables (state S.Store conn.old)) question.now) }
    ensures reads { OnlyReads (state S.Store conn.old) (state S.Store conn.new) result }
{
    let months = months_now(alloc, conn)?;
    if is_put_off(question) {
        answer_put_off(alloc, conn, months, question)
    } else {
        answer_now(alloc, conn, months.version(), question)
    }
}

/// The answer to the question; it changes nothing, at a fault too. While a run is open, `statement`, `arrears`, `run` and `owner`
/// are refused 10 with its month. A fault comes where memory runs out or the store fails.
pub fn look_up<S: Alter>(
    alloc: Global,
    conn: &mut Connection<S>,
    question: &Question,
) -> Result<Answer, StoreFault>
    requires { HasCleanDisk (state S.Store conn.old) → IsReady (state S.Store conn.old) }
    ensures answer { HasCleanDisk (state S.Store conn.new) → IfOk result (λ a. report_of a ≡ report (tables (state S.Store conn.old)) question.now) }
    ensures done { HasCleanDisk (state S.Store conn.new) → OnOk result (StaysReady (state S.Store conn.old) (state S.Store conn.new)) }
    ensures undone { HasCleanDisk (state S.Store conn.new) → IsTrue (state S.Store conn.new).is_open
        → OnErr result (StaysReady (state S.Store conn.old) (state S.Store conn.new)) }
    ensures cause { IfErr result IsFirstFault }
    ensures crash { HasCleanDisk (state S.Store conn.new) → Leaves (state S.Store conn.new) (λ t. t ≡ tables (state S.Store conn.old)) }
    ensures was_clean { doubt (state S.Store conn.old).is_clean ≤ doubt (state S.Store conn.new).is_clean }
{
    answer_question(alloc, conn, question)
}
