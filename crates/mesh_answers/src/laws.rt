//! What is proved of the answers.

ghost use Rattle.mesh_answers.specs.Laws.{AnsweredByEvents, LastAreNodeRows};

/// A law, and no code: what a line is answered goes by all events before it, and the last lines tell what the nodes hold
/// behind all events.
pub fn by_events()
    ensures each { AnsweredByEvents }
    ensures last { LastAreNodeRows }
{}
