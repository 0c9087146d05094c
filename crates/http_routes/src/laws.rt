//! The law of the places of names. The program doesn't call it.
ghost use Rattle.http_routes.specs.Places.{PlacesAreRight};

/// In the path of each route the names are where the constants of `places` say.
pub fn places_are_right()
    ensures { PlacesAreRight }
{}
