//! A store with nothing in it. Only such a store's file is taken back.

ghost use Rattle.std.specs.Prelude.{◌↔◌, IsSome};
ghost use Rattle.sqlite.specs.Held.{state};
ghost use Rattle.dh_agency.specs.Store.{IsBlank};

use sqlite::{Alter, Connection};

/// Says that no object is in a store. Nothing but [`Blank::of`] makes one.
#[derive(Drop)]
pub(crate) struct Blank {
    noted: (),
}

impl Blank {
    /// That no object is in this store, or `None` where one is.
    pub(crate) fn of<S: Alter>(conn: &Connection<S>) -> Option<Blank>
        ensures { IsSome result ↔ IsBlank (state S.Store conn.now) }
    {
        let schema = conn.schema();
        let is_blank = schema.tables.is_empty()
            && schema.indexes.is_empty()
            && schema.views.is_empty();
        is_blank.then_some(Blank { noted: () })
    }
}
