//! A law of the records: the function does nothing, and its clauses are the law.

ghost use Rattle.dh_types.specs.Laws.{TellsApart};
ghost use Rattle.dh_types.specs.Records.{is_same_branch, is_same_staff, is_same_owner, is_same_property, is_same_client, is_same_registration, is_same_viewing};
ghost use Rattle.dh_types.specs.Records.{is_same_inspection, is_same_lease_terms, is_same_lease, is_same_charge, is_same_payment, is_same_receipt};
ghost use Rattle.dh_types.specs.Records.{is_same_run, is_same_part};

/// Two records of one kind are the same exactly where they are one.
pub fn same_records_are_equal()
    ensures branch { TellsApart is_same_branch }
    ensures staff { TellsApart is_same_staff }
    ensures owner { TellsApart is_same_owner }
    ensures property { TellsApart is_same_property }
    ensures client { TellsApart is_same_client }
    ensures registration { TellsApart is_same_registration }
    ensures viewing { TellsApart is_same_viewing }
    ensures inspection { TellsApart is_same_inspection }
    ensures lease_terms { TellsApart is_same_lease_terms }
    ensures lease { TellsApart is_same_lease }
    ensures charge { TellsApart is_same_charge }
    ensures payment { TellsApart is_same_payment }
    ensures receipt { TellsApart is_same_receipt }
    ensures run { TellsApart is_same_run }
    ensures part { TellsApart is_same_part }
{}
