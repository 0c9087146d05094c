//! Laws of the definitions. The program calls none of these.

ghost use Rattle.pact_paths.specs.Laws.{HasOneReading};

/// Each text has one reading.
pub fn one_reading()
    ensures { HasOneReading }
{}
