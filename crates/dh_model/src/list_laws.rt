//! Laws of the lists that the model makes: each function does nothing, and its clause is the law.

ghost use Rattle.dh_model.specs.ListLaws.{DuesRiseByLease, EachDueIsListedOnce, MatchingRiseByRent, MatchingSuitTheClient, VacantAreNotLet, VacantRiseByNumber};

/// The dues of a month rise by lease.
pub fn dues_rise_by_lease()
    ensures { DuesRiseByLease }
{}

/// No due is listed twice, and no lease and index are.
pub fn each_due_is_listed_once()
    ensures { EachDueIsListedOnce }
{}

/// Vacant are exactly the properties that no lease covers that day.
pub fn vacant_are_not_let()
    ensures { VacantAreNotLet }
{}

/// Vacant properties rise by number.
pub fn vacant_rise_by_number()
    ensures { VacantRiseByNumber }
{}

/// Matching are exactly the properties of the client's preferred type, at no more than the client's greatest rent, that no lease
/// covers that day.
pub fn matching_suit_the_client()
    ensures { MatchingSuitTheClient }
{}

/// Matching properties rise by rent, and then by number.
pub fn matching_rise_by_rent()
    ensures { MatchingRiseByRent }
{}
