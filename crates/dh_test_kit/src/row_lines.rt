//! Rows, written as the fields of their lines.

use dh_types::{
    Branch, BranchFee, Charge, Client, Ending, Inspection, Lease, Owner, Part, PartFee, Property,
    Receipt, Registration, Run, Staff, Viewing,
};
use std::alloc::{AllocError, Global};

/// A row that is written as the fields of its line, between commas.
pub trait ToLine {
    /// The fields as one text.
    fn to_line(&self, alloc: Global) -> Result<String, AllocError>;
}

impl ToLine for Branch {
    fn to_line(&self, alloc: Global) -> Result<String, AllocError> {
        format!(in alloc;
            "{},{},{},{}",
            self.number, self.street, self.city, self.postcode
        )
    }
}

impl ToLine for Staff {
    fn to_line(&self, alloc: Global) -> Result<String, AllocError> {
        format!(in alloc;
            "{},{},{},{}",
            self.number, self.name, self.position, self.branch
        )
    }
}

impl ToLine for Owner {
    fn to_line(&self, alloc: Global) -> Result<String, AllocError> {
        format!(in alloc;
            "{},{},{},{}",
            self.number, self.name, self.address, self.telephone
        )
    }
}

impl ToLine for Client {
    fn to_line(&self, alloc: Global) -> Result<String, AllocError> {
        format!(in alloc;
            "{},{},{},{},{}",
            self.number, self.name, self.telephone, self.preferred_type, self.greatest_rent
        )
    }
}

impl ToLine for Registration {
    fn to_line(&self, alloc: Global) -> Result<String, AllocError> {
        format!(in alloc;
            "{},{},{},{}",
            self.client, self.branch, self.staff, self.day
        )
    }
}

impl ToLine for Property {
    fn to_line(&self, alloc: Global) -> Result<String, AllocError> {
        let staff = self.staff.as_ref().map_or("", |staff| staff.as_str());
        format!(in alloc;
            "{},{},{},{},{},{},{},{},{},{}",
            self.number,
            self.street,
            self.city,
            self.postcode,
            self.property_type,
            self.rooms,
            self.rent,
            self.owner,
            staff,
            self.branch
        )
    }
}

impl ToLine for Viewing {
    fn to_line(&self, alloc: Global) -> Result<String, AllocError> {
        let comment = self.comment.as_ref().map_or("", |comment| comment.as_str());
        format!(in alloc;
            "{},{},{},{}",
            self.client, self.property, self.day, comment
        )
    }
}

impl ToLine for Inspection {
    fn to_line(&self, alloc: Global) -> Result<String, AllocError> {
        format!(in alloc;
            "{},{},{},{}",
            self.property, self.day, self.staff, self.comment
        )
    }
}

impl ToLine for Lease {
    fn to_line(&self, alloc: Global) -> Result<String, AllocError> {
        let terms = &self.terms;
        format!(in alloc;
            "{},{},{},{},{},{},{}",
            terms.number,
            terms.client,
            terms.property,
            terms.start,
            terms.months,
            terms.method,
            self.rent
        )
    }
}

impl ToLine for Ending {
    fn to_line(&self, alloc: Global) -> Result<String, AllocError> {
        format!(in alloc; "{},{}", self.lease, self.months)
    }
}

impl ToLine for BranchFee {
    fn to_line(&self, alloc: Global) -> Result<String, AllocError> {
        format!(in alloc; "{},{}", self.branch, self.fee)
    }
}

impl ToLine for PartFee {
    fn to_line(&self, alloc: Global) -> Result<String, AllocError> {
        format!(in alloc;
            "{},{},{},{}",
            self.month, self.branch, self.fee, self.total
        )
    }
}

impl ToLine for Charge {
    fn to_line(&self, alloc: Global) -> Result<String, AllocError> {
        format!(in alloc;
            "{},{},{},{},{}",
            self.lease, self.index, self.month, self.day, self.amount
        )
    }
}

impl ToLine for Receipt {
    fn to_line(&self, alloc: Global) -> Result<String, AllocError> {
        let payment = &self.payment;
        format!(in alloc;
            "{},{},{},{},{},{}",
            self.number, self.key, payment.lease, payment.kind, payment.amount, payment.day
        )
    }
}

impl ToLine for Run {
    fn to_line(&self, alloc: Global) -> Result<String, AllocError> {
        let state = if self.is_closed { "closed" } else { "open" };
        format!(in alloc;
            "{},{},{},{},{}",
            self.month, self.key, self.count, self.total, state
        )
    }
}

impl ToLine for Part {
    fn to_line(&self, alloc: Global) -> Result<String, AllocError> {
        match self.through {
            Some(through) => format!(in alloc;
                "{},{},{},{},{}",
                self.month, self.branch, through, self.count, self.total
            ),
            None => format!(in alloc;
                "{},{},,{},{}",
                self.month, self.branch, self.count, self.total
            ),
        }
    }
}
