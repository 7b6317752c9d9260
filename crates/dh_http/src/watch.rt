//! Looking for the agency's file where it was.

ghost use Rattle.std.specs.Prelude.{Bool, List, [], ◌∷◌, Option, None};
ghost use Rattle.dh_http.specs.Calls.{Makes};

/// Where the agency's file is looked for before a request is read.
pub trait Watch {
    // What each look so far saw, where that is known.
    ghost sightings: { Self → Option (List Bool) } = { λ _. None };

    /// Whether the file is where it was.
    fn is_there(&mut self) -> bool
        ensures { Makes (sightings self.old) (sightings self.new) (result ∷ []) };
}
