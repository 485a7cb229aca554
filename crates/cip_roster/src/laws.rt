//! What follows from the calls of a roster, as a law.
ghost use Rattle.cip_roster.specs.Kept.{GiversAreSeated, LivesBeginTold, PluginsAreKept};

/// No call loses a plugin: as many as before have seats or stand on the shelf, so what `start` left room for in a kit
/// is enough for `close`.
pub fn plugins_are_kept()
    ensures { PluginsAreKept }
{}

/// Where lines are kept, the words of each plugin are those of a life as `start` answers; the laws of `cip_plugin` say
/// that they stay so.
pub fn lives_begin_told()
    ensures { LivesBeginTold }
{}

/// Who is named beside what a call of a roster gives has a seat, and keeps it: so what is refused of it can be written.
pub fn givers_are_seated()
    ensures { GiversAreSeated }
{}
