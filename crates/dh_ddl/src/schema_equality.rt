//! Whether two schemas are the same. A part of a kind that ours never has, as a view, makes the answer false.

ghost use Rattle.std.specs.Prelude.{◌≡◌, ◌&&◌, nat_eq, Bool};
ghost use Rattle.std.specs.Cmp.Lexicographic.{pointwise};
ghost use Rattle.sqlite_schema.specs.Rules.{kind_code};
ghost use Rattle.dh_ddl.specs.SchemaEquality.{are_empty, is_place, is_same_column, is_same_index, is_same_order, is_same_reference, is_same_schema};
ghost use Rattle.dh_ddl.specs.SchemaEquality.{is_same_table};

use sqlite_items::Items;
use sqlite_schema::code::Terms;
use sqlite_schema::schema::{Action, Column, Index, Kind, Reference, Schema, Stamps, Table};
use sqlite_value::keys::{Collation, Order};
use sqlite_value::value::{Bytes, Value};

/// What can be compared with another of its kind.
pub(crate) trait Same {
    ghost same: { Self → Self → Bool };

    fn is_same(&self, other: &Self) -> bool
        ensures { result ≡ same self.now other.now };
}

fn are_same<T: Same>(a: &[T], b: &[T]) -> bool
    ensures { result ≡ pointwise T.same a.now b.now }
{
    match (a, b) {
        ([], []) => true,
        ([x, xs @ ..], [y, ys @ ..]) => x.is_same(y) && are_same(xs, ys),
        _ => false,
    }
}

impl Same for Bytes {
    ghost same = { pointwise nat_eq };

    fn is_same(&self, other: &Bytes) -> bool {
        self.as_slice() == other.as_slice()
    }
}

impl Same for Items<usize> {
    ghost same = { pointwise nat_eq };

    fn is_same(&self, other: &Items<usize>) -> bool {
        self.as_slice() == other.as_slice()
    }
}

impl Same for Order {
    ghost same = { is_same_order };

    fn is_same(&self, other: &Order) -> bool {
        self.digits == other.digits
    }
}

fn kind_code(kind: Kind) -> u8
    ensures { result ≡ kind_code kind }
{
    match kind {
        Kind::Integer => 1,
        Kind::Real => 2,
        Kind::Text => 3,
        Kind::Blob => 4,
        Kind::Any => 0,
    }
}

impl Same for Column {
    ghost same = { is_same_column };

    fn is_same(&self, other: &Column) -> bool {
        self.name.is_same(&other.name)
            && kind_code(self.kind) == kind_code(other.kind)
            && self.is_strict == other.is_strict
            && self.not_null == other.not_null
            && matches!((&self.default, &other.default), (Value::Null, Value::Null))
            && matches!(
                (self.collation, other.collation),
                (Collation::Binary, Collation::Binary)
            )
    }
}

impl Same for Reference {
    ghost same = { is_same_reference };

    fn is_same(&self, other: &Reference) -> bool {
        self.columns.is_same(&other.columns)
            && self.parent.is_same(&other.parent)
            && self.parent_columns.is_empty()
            && other.parent_columns.is_empty()
            && matches!(
                (self.on_delete, other.on_delete),
                (Action::NoAction, Action::NoAction)
            )
            && matches!(
                (self.on_update, other.on_update),
                (Action::NoAction, Action::NoAction)
            )
            && self.is_deferred == other.is_deferred
    }
}

fn have_no_terms(a: &Terms, b: &Terms) -> bool
    ensures { result ≡ are_empty a.now b.now }
{
    a.roots.is_empty() && b.roots.is_empty()
}

fn have_no_stamps(a: &Stamps, b: &Stamps) -> bool
    ensures { result ≡ (are_empty a.now.places b.now.places && are_empty a.now.terms b.now.terms && are_empty a.now.formats b.now.formats) }
{
    a.places.is_empty()
        && b.places.is_empty()
        && have_no_terms(&a.terms, &b.terms)
        && a.formats.is_empty()
        && b.formats.is_empty()
}

fn is_same_key(a: Option<usize>, b: Option<usize>) -> bool
    ensures { result ≡ is_place a b }
{
    match (a, b) {
        (None, None) => true,
        (Some(a), Some(b)) => a == b,
        _ => false,
    }
}

impl Same for Table {
    ghost same = { is_same_table };

    fn is_same(&self, other: &Table) -> bool {
        self.name.is_same(&other.name)
            && self.tree == other.tree
            && are_same(self.columns.as_slice(), other.columns.as_slice())
            && is_same_key(self.key, other.key)
            && self.primary.is_same(&other.primary)
            && are_same(self.uniques.as_slice(), other.uniques.as_slice())
            && are_same(self.orders.as_slice(), other.orders.as_slice())
            && have_no_terms(&self.checks, &other.checks)
            && are_same(self.references.as_slice(), other.references.as_slice())
            && self.computed.is_empty()
            && other.computed.is_empty()
            && have_no_stamps(&self.stamps, &other.stamps)
            && self.is_counted == other.is_counted
    }
}

impl Same for Index {
    ghost same = { is_same_index };

    fn is_same(&self, other: &Index) -> bool {
        self.name.is_same(&other.name)
            && self.tree == other.tree
            && self.table == other.table
            && self.columns.is_same(&other.columns)
            && self.order.is_same(&other.order)
            && self.is_unique == other.is_unique
    }
}

// Whether the schemas are the same and of the plain sort.
pub(crate) fn is_same_schema(a: &Schema, b: &Schema) -> bool
    ensures { result ≡ is_same_schema a.now b.now }
{
    are_same(a.tables.as_slice(), b.tables.as_slice())
        && are_same(a.indexes.as_slice(), b.indexes.as_slice())
        && a.views.is_empty()
        && b.views.is_empty()
}
