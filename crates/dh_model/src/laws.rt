//! Laws of the model: each function does nothing, and its clause is the law.

ghost use Rattle.dh_model.specs.Laws.{DuesAreCovered, DuesAreThoseOfLeases, DuesLieInTheirMonth, DuesNumberTheMonths, MonthsShareNoDue, OneDueInAMonth};
ghost use Rattle.dh_model.specs.Laws.{FeesAreNoMore};
ghost use Rattle.dh_model.specs.Laws.{OverlapGoesBothWays, OverlapIsByEnds, OverlapIsCommonDay};

/// Leases overlap exactly where they are of one property and some day is covered by both.
pub fn overlap_is_a_common_day()
    ensures { OverlapIsCommonDay }
{}

/// It doesn't matter which of two leases is named first.
pub fn overlap_goes_both_ways()
    ensures { OverlapGoesBothWays }
{}

/// Leases of one property overlap exactly where each starts before the other's end.
pub fn overlap_is_by_ends()
    ensures { OverlapIsByEnds }
{}

/// What falls due in a month is each lease's charge of that month, and nothing else.
pub fn dues_are_those_of_leases()
    ensures { DuesAreThoseOfLeases }
{}

/// No charge falls due in two months.
pub fn months_share_no_due()
    ensures { MonthsShareNoDue }
{}

/// A lease has as many dues as months that it runs.
pub fn dues_number_the_months()
    ensures { DuesNumberTheMonths }
{}

/// A due's day lies in its month.
pub fn dues_lie_in_their_month()
    ensures { DuesLieInTheirMonth }
{}

/// A lease has one due in a month.
pub fn one_due_in_a_month()
    ensures { OneDueInAMonth }
{}

/// Each due lies on a day that the lease covers.
pub fn dues_are_covered()
    ensures { DuesAreCovered }
{}

/// What a fee takes of charges is no more than they come to.
pub fn fees_are_no_more()
    ensures { FeesAreNoMore }
{}
