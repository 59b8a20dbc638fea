ghost use Rattle.table_places.specs.Apps.{MainIsTheApp};
ghost use Rattle.table_places.specs.Bodies.{BodiesStand};
ghost use Rattle.table_places.specs.Places.{CasesCounted, PlacesStand};
ghost use Rattle.table_places.specs.Preferences.{KeysPlaced, PreferencesStand};

/// A law: each field, input, slot and case stands where its signature says.
pub fn places_stand()
    ensures law { PlacesStand }
{}

/// A law: an enum has as many cases as its kind says, and nothing else has cases.
pub fn cases_are_counted()
    ensures law { CasesCounted }
{}

/// A law: each declaration that is a preference key has its place among the preference keys.
pub fn keys_are_placed()
    ensures law { KeysPlaced }
{}

/// A law: each preference key has a declaration, with its default and `reduce`.
pub fn preferences_stand()
    ensures law { PreferencesStand }
{}

/// A law: the declaration with `@main` is the app, and there is no other.
pub fn main_is_the_app()
    ensures law { MainIsTheApp }
{}

/// A law: each view and the app have a property `body` that gives views.
pub fn bodies_stand()
    ensures law { BodiesStand }
{}
