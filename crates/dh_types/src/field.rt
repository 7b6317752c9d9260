//! The fields that a refusal names, by their places in the line: the word of the line is field 1. Each stands under the line that it is of.

ghost use Rattle.std.specs.Prelude.{◌≡◌};

/// A branch's fee: the branch.
pub const FEE_BRANCH: u8 = 2;

/// A new member of staff: the branch.
pub const STAFF_BRANCH: u8 = 5;

/// A new property: the owner.
pub const PROPERTY_OWNER: u8 = 9;

/// A new property: the manager.
pub const PROPERTY_STAFF: u8 = 10;

/// A new property: the branch.
pub const PROPERTY_BRANCH: u8 = 11;

/// A property's new manager, or its new rent: the property.
pub const CHANGED_PROPERTY: u8 = 2;

/// A property's new manager: the member of staff.
pub const ASSIGNED_STAFF: u8 = 3;

/// A registration: the client.
pub const REGISTERED_CLIENT: u8 = 2;

/// A registration: the branch.
pub const REGISTERED_BRANCH: u8 = 3;

/// A registration: the member of staff.
pub const REGISTERED_STAFF: u8 = 4;

/// A viewing, or its comment: the client.
pub const VIEWING_CLIENT: u8 = 2;

/// A viewing: the property.
pub const VIEWING_PROPERTY: u8 = 3;

/// An inspection: the property.
pub const INSPECTED_PROPERTY: u8 = 2;

/// An inspection: the member of staff.
pub const INSPECTION_STAFF: u8 = 4;

/// A new lease: the client.
pub const LEASE_CLIENT: u8 = 3;

/// A new lease: the property.
pub const LEASE_PROPERTY: u8 = 4;

/// The end of a lease: the lease.
pub const ENDED_LEASE: u8 = 2;

/// A receipt: the lease.
pub const RECEIPT_LEASE: u8 = 3;

/// A question: what it is about, as the client, the lease, the branch or the owner.
pub const ASKED_ABOUT: u8 = 3;

/// The places in figures, which no definition says.
pub fn places_in_figures()
    ensures fee_branch { FEE_BRANCH ≡ 2 }
    ensures staff_branch { STAFF_BRANCH ≡ 5 }
    ensures property_owner { PROPERTY_OWNER ≡ 9 }
    ensures property_staff { PROPERTY_STAFF ≡ 10 }
    ensures property_branch { PROPERTY_BRANCH ≡ 11 }
    ensures changed_property { CHANGED_PROPERTY ≡ 2 }
    ensures assigned_staff { ASSIGNED_STAFF ≡ 3 }
    ensures registered_client { REGISTERED_CLIENT ≡ 2 }
    ensures registered_branch { REGISTERED_BRANCH ≡ 3 }
    ensures registered_staff { REGISTERED_STAFF ≡ 4 }
    ensures viewing_client { VIEWING_CLIENT ≡ 2 }
    ensures viewing_property { VIEWING_PROPERTY ≡ 3 }
    ensures inspected_property { INSPECTED_PROPERTY ≡ 2 }
    ensures inspection_staff { INSPECTION_STAFF ≡ 4 }
    ensures lease_client { LEASE_CLIENT ≡ 3 }
    ensures lease_property { LEASE_PROPERTY ≡ 4 }
    ensures ended_lease { ENDED_LEASE ≡ 2 }
    ensures receipt_lease { RECEIPT_LEASE ≡ 3 }
    ensures asked_about { ASKED_ABOUT ≡ 3 }
{}
