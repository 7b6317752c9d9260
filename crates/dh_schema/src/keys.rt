//! The kinds of record by their keys.

use crate::by_key::KeyedRecord;
use dh_tables::{
    BranchNumbered, ChargeOf, ClientNumbered, EndingOf, FeeOfBranch, FeeOfPart, InspectionOf,
    LeaseNumbered, MemberNumbered, OwnerNumbered, PartOf, PropertyNumbered, ReceiptNumbered,
    RegistrationAt, RunOf, ViewingOf,
};
use dh_types::{
    Branch, BranchFee, Charge, ChargeIndex, Client, Ending, EntryDay, EntryMonth, Id, Inspection,
    Lease, LeaseNo, Owner, Part, PartFee, Property, Receipt, ReceiptNo, Registration, Run, Staff,
    Viewing,
};

impl KeyedRecord for Branch {
    ghost use Rattle.dh_tables.specs.BranchTable.{branch_shape};
    ghost use Rattle.dh_tables.proofs.ByKey.{by_text};

    type ByKey = BranchNumbered;

    ghost question = { λ key. record { number = key } };

    fn by_key(key: &Id) -> BranchNumbered {
        BranchNumbered { number: *key }
    }

    ghost asks_for = { by_text branch_shape };
}

impl KeyedRecord for Staff {
    ghost use Rattle.dh_tables.specs.StaffTable.{staff_shape};
    ghost use Rattle.dh_tables.proofs.ByKey.{by_text};

    type ByKey = MemberNumbered;

    ghost question = { λ key. record { number = key } };

    fn by_key(key: &Id) -> MemberNumbered {
        MemberNumbered { number: *key }
    }

    ghost asks_for = { by_text staff_shape };
}

impl KeyedRecord for Owner {
    ghost use Rattle.dh_tables.specs.OwnerTable.{owner_shape};
    ghost use Rattle.dh_tables.proofs.ByKey.{by_text};

    type ByKey = OwnerNumbered;

    ghost question = { λ key. record { number = key } };

    fn by_key(key: &Id) -> OwnerNumbered {
        OwnerNumbered { number: *key }
    }

    ghost asks_for = { by_text owner_shape };
}

impl KeyedRecord for Property {
    ghost use Rattle.dh_tables.specs.PropertyTable.{property_shape};
    ghost use Rattle.dh_tables.proofs.ByKey.{by_text};

    type ByKey = PropertyNumbered;

    ghost question = { λ key. record { number = key } };

    fn by_key(key: &Id) -> PropertyNumbered {
        PropertyNumbered { number: *key }
    }

    ghost asks_for = { by_text property_shape };
}

impl KeyedRecord for Client {
    ghost use Rattle.dh_tables.specs.ClientTable.{client_shape};
    ghost use Rattle.dh_tables.proofs.ByKey.{by_text};

    type ByKey = ClientNumbered;

    ghost question = { λ key. record { number = key } };

    fn by_key(key: &Id) -> ClientNumbered {
        ClientNumbered { number: *key }
    }

    ghost asks_for = { by_text client_shape };
}

impl KeyedRecord for Registration {
    ghost use Rattle.dh_tables.specs.RegistrationTable.{registration_shape};
    ghost use Rattle.dh_tables.proofs.ByKey.{by_texts};

    type ByKey = RegistrationAt;

    ghost question = { λ key. record { client = key.0; branch = key.1 } };

    fn by_key(key: &(Id, Id)) -> RegistrationAt {
        RegistrationAt {
            client: key.0,
            branch: key.1,
        }
    }

    ghost asks_for = { by_texts registration_shape };
}

impl KeyedRecord for Viewing {
    ghost use Rattle.dh_tables.specs.ViewingTable.{viewing_shape};
    ghost use Rattle.dh_tables.proofs.ByKey.{by_texts};

    type ByKey = ViewingOf;

    ghost question = { λ key. record { client = key.0; property = key.1 } };

    fn by_key(key: &(Id, Id)) -> ViewingOf {
        ViewingOf {
            client: key.0,
            property: key.1,
        }
    }

    ghost asks_for = { by_texts viewing_shape };
}

impl KeyedRecord for Inspection {
    ghost use Rattle.dh_tables.specs.InspectionTable.{inspection_shape};
    ghost use Rattle.dh_tables.proofs.ByKey.{by_text_and_number};

    type ByKey = InspectionOf;

    ghost question = { λ key. record { property = key.0; day = key.1 } };

    fn by_key(key: &(Id, EntryDay)) -> InspectionOf {
        InspectionOf {
            property: key.0,
            day: key.1,
        }
    }

    ghost asks_for = { by_text_and_number inspection_shape };
}

impl KeyedRecord for Lease {
    ghost use Rattle.dh_tables.specs.LeaseTable.{lease_shape};
    ghost use Rattle.dh_tables.proofs.ByKey.{by_number};

    type ByKey = LeaseNumbered;

    ghost question = { λ key. record { number = key } };

    fn by_key(key: &LeaseNo) -> LeaseNumbered {
        LeaseNumbered { number: *key }
    }

    ghost asks_for = { by_number lease_shape };
}

impl KeyedRecord for Charge {
    ghost use Rattle.dh_tables.specs.ChargeTable.{charge_shape};
    ghost use Rattle.dh_tables.proofs.ByKey.{by_numbers};

    type ByKey = ChargeOf;

    ghost question = { λ key. record { lease = key.0; index = key.1 } };

    fn by_key(key: &(LeaseNo, ChargeIndex)) -> ChargeOf {
        ChargeOf {
            lease: key.0,
            index: key.1,
        }
    }

    ghost asks_for = { by_numbers charge_shape };
}

impl KeyedRecord for Receipt {
    ghost use Rattle.dh_tables.specs.ReceiptTable.{receipt_shape};
    ghost use Rattle.dh_tables.proofs.ByKey.{by_number};

    type ByKey = ReceiptNumbered;

    ghost question = { λ key. record { number = key } };

    fn by_key(key: &ReceiptNo) -> ReceiptNumbered {
        ReceiptNumbered { number: *key }
    }

    ghost asks_for = { by_number receipt_shape };
}

impl KeyedRecord for Run {
    ghost use Rattle.dh_tables.specs.RunTable.{run_shape};
    ghost use Rattle.dh_tables.proofs.ByKey.{by_number};

    type ByKey = RunOf;

    ghost question = { λ key. record { month = key } };

    fn by_key(key: &EntryMonth) -> RunOf {
        RunOf { month: *key }
    }

    ghost asks_for = { by_number run_shape };
}

impl KeyedRecord for Part {
    ghost use Rattle.dh_tables.specs.PartTable.{part_shape};
    ghost use Rattle.dh_tables.proofs.ByKey.{by_number_and_text};

    type ByKey = PartOf;

    ghost question = { λ key. record { month = key.0; branch = key.1 } };

    fn by_key(key: &(EntryMonth, Id)) -> PartOf {
        PartOf {
            month: key.0,
            branch: key.1,
        }
    }

    ghost asks_for = { by_number_and_text part_shape };
}

impl KeyedRecord for BranchFee {
    ghost use Rattle.dh_tables.specs.BranchFeeTable.{branch_fee_shape};
    ghost use Rattle.dh_tables.proofs.ByKey.{by_text};

    type ByKey = FeeOfBranch;

    ghost question = { λ key. record { branch = key } };

    fn by_key(key: &Id) -> FeeOfBranch {
        FeeOfBranch { branch: *key }
    }

    ghost asks_for = { by_text branch_fee_shape };
}

impl KeyedRecord for PartFee {
    ghost use Rattle.dh_tables.specs.PartFeeTable.{part_fee_shape};
    ghost use Rattle.dh_tables.proofs.ByKey.{by_number_and_text};

    type ByKey = FeeOfPart;

    ghost question = { λ key. record { month = key.0; branch = key.1 } };

    fn by_key(key: &(EntryMonth, Id)) -> FeeOfPart {
        FeeOfPart {
            month: key.0,
            branch: key.1,
        }
    }

    ghost asks_for = { by_number_and_text part_fee_shape };
}

impl KeyedRecord for Ending {
    ghost use Rattle.dh_tables.specs.EndingTable.{ending_shape};
    ghost use Rattle.dh_tables.proofs.ByKey.{by_number};

    type ByKey = EndingOf;

    ghost question = { λ key. record { lease = key } };

    fn by_key(key: &LeaseNo) -> EndingOf {
        EndingOf { lease: *key }
    }

    ghost asks_for = { by_number ending_shape };
}
