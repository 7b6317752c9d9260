//! Laws of values: each function does nothing, and its clauses are the laws.

ghost use Rattle.std.specs.Fmt.{decimal};
ghost use Rattle.dh_values.specs.Counts.{IsBatchCount, IsFee, IsLeaseMonths, IsLeaseNo, IsReceiptNo, IsRooms};
ghost use Rattle.dh_values.specs.Counts.{batch_count_of, fee_of, lease_months_of, lease_no_of, rooms_of};
ghost use Rattle.dh_values.specs.Kinds.{payment_method_of, payment_method_text, position_of, position_text, property_type_of, property_type_text};
ghost use Rattle.dh_values.specs.Kinds.{receipt_kind_of, receipt_kind_text};
ghost use Rattle.dh_values.specs.Laws.{AreReadBack, HaveOneText, IsAny, MoneyIsReadAgain, BalancesPrintApart, PenceAreReadBack, PrintApart};
ghost use Rattle.dh_values.specs.Money.{IsAmount, IsPence, IsRent, amount_of, pence_text, rent_of};

/// The numbers of leases are read as they are printed, and printed as they are read.
pub fn lease_nos()
    ensures { HaveOneText IsLeaseNo decimal lease_no_of }
{}

/// Numbers of rooms are read as they are printed, and printed as they are read.
pub fn rooms()
    ensures { HaveOneText IsRooms decimal rooms_of }
{}

/// Numbers of months are read as they are printed, and printed as they are read.
pub fn lease_months()
    ensures { HaveOneText IsLeaseMonths decimal lease_months_of }
{}

/// Numbers of batches are read as they are printed, and printed as they are read.
pub fn batch_counts()
    ensures { HaveOneText IsBatchCount decimal batch_count_of }
{}

/// Fees are read as they are printed, and printed as they are read.
pub fn fees()
    ensures { HaveOneText IsFee decimal fee_of }
{}

/// Numbers of receipts that print as one are one.
pub fn receipt_nos()
    ensures { PrintApart IsReceiptNo decimal }
{}

/// Money is read as it is printed, as far as a text can spell it. What a text spells prints as a
/// text that spells the same.
pub fn money()
    ensures read_back { PenceAreReadBack }
    ensures apart { PrintApart IsPence pence_text }
    ensures read_again { MoneyIsReadAgain }
{}

/// Balances that print as one are one.
pub fn balances()
    ensures { BalancesPrintApart }
{}

/// Rents are read as they are printed.
pub fn rents()
    ensures read_back { AreReadBack IsRent pence_text rent_of }
    ensures apart { PrintApart IsRent pence_text }
{}

/// What receipts take is read as it is printed.
pub fn amounts()
    ensures read_back { AreReadBack IsAmount pence_text amount_of }
    ensures apart { PrintApart IsAmount pence_text }
{}

/// The types of properties are read as they are printed, and printed as they are read.
pub fn property_types()
    ensures { HaveOneText IsAny property_type_text property_type_of }
{}

/// The positions of staff are read as they are printed, and printed as they are read.
pub fn positions()
    ensures { HaveOneText IsAny position_text position_of }
{}

/// The methods of payment are read as they are printed, and printed as they are read.
pub fn payment_methods()
    ensures { HaveOneText IsAny payment_method_text payment_method_of }
{}

/// The kinds of receipts are read as they are printed, and printed as they are read.
pub fn receipt_kinds()
    ensures { HaveOneText IsAny receipt_kind_text receipt_kind_of }
{}
