//! What is known of rows that were read.

ghost use Rattle.std.specs.Prelude.{All};
ghost use Rattle.cap_codec.specs.Rows.{IsRaw};

use cap_codec::RawRow;

/// Does nothing: it is called for its clause, that the rows are within their limits.
pub fn known_raws(rows: &[RawRow])
    ensures { All IsRaw rows.now }
{
    for row in rows {
        row.known();
    }
}
