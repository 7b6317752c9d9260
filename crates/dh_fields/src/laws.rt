//! A law of the lines: its function does nothing, and its clauses are the law.

ghost use Rattle.dh_fields.specs.Named as named;

/// The fields that refusals name, one for each line and each question: what its form reads from the field of that number.
pub fn fields_that_refusals_name()
    ensures fee_branch { named.FeeBranch }
    ensures staff_branch { named.StaffBranch }
    ensures property_owner { named.PropertyOwner }
    ensures property_staff { named.PropertyStaff }
    ensures property_branch { named.PropertyBranch }
    ensures assigned_property { named.AssignedProperty }
    ensures assigned_staff { named.AssignedStaff }
    ensures rent_property { named.RentProperty }
    ensures registered_client { named.RegisteredClient }
    ensures registered_branch { named.RegisteredBranch }
    ensures registered_staff { named.RegisteredStaff }
    ensures viewing_client { named.ViewingClient }
    ensures viewing_property { named.ViewingProperty }
    ensures comment_client { named.CommentClient }
    ensures inspected_property { named.InspectedProperty }
    ensures inspection_staff { named.InspectionStaff }
    ensures lease_client { named.LeaseClient }
    ensures lease_property { named.LeaseProperty }
    ensures ended_lease { named.EndedLease }
    ensures receipt_lease { named.ReceiptLease }
    ensures asked_client { named.AskedClient }
    ensures asked_lease { named.AskedLease }
    ensures asked_branch { named.AskedBranch }
    ensures asked_owner { named.AskedOwner }
{}
