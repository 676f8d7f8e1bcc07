//! What is proved of the grammar.

ghost use Rattle.mesh_lines.specs.Laws.{SpellOneMesh, NoWrongLine, OneWrongLine};

/// A law, and no code: the bytes spell one mesh or none, and just where they spell none there is a first wrong line, which
/// begins at one place.
pub fn one_reading()
    ensures one { SpellOneMesh }
    ensures right { NoWrongLine }
    ensures place { OneWrongLine }
{}
