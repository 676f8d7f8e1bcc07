//! What holds of the formats: each value has one spelling, and no spelling begins another.

ghost use Rattle.spelling.specs.Form.{IsForm};
ghost use Rattle.spelling.specs.Reader.{IsReader};
ghost use Rattle.mc_cap.specs.Signature.{signature_spelling, IsSignature};
ghost use Rattle.mc_cap.specs.Forms.{capability_spelling, IsCapability};
ghost use Rattle.cap_codec.specs.Reading.{signature_at, capability_at, token_at};
ghost use Rattle.cap_codec.specs.Rows.{token_spelling, IsToken, raw_spelling, IsRaw, frame, FitsFrame, HaveOneReading};
ghost use Rattle.cap_codec.specs.Numbered.{numbered_spelling, IsNumberedRow, numbered_frame, FitsNumbered, capability_frame, FitsCapability};
ghost use Rattle.cap_codec.specs.Streams.{FramesNeverStop, HaveOneStop};

/// A signature field has one spelling, which begins that of no other.
pub fn one_signature()
    ensures { IsForm signature_spelling IsSignature }
{}

/// A capability has one spelling, which begins that of no other.
pub fn one_capability()
    ensures { IsForm capability_spelling IsCapability }
{}

/// A write token has one spelling, which begins that of no other.
pub fn one_token()
    ensures { IsForm token_spelling IsToken }
{}

/// The readers of signatures, capabilities and tokens go by the spellings alone: a value is whole exactly where its
/// spelling stands in front, a part exactly where the bytes begin a spelling and more is due, and wrong exactly where
/// none begins so.
#[tactic(auto, using(crate::proofs::CapReads::signature_reader, crate::proofs::CapReads::capability_reader, crate::proofs::CapReads::token_reader))]
pub fn readers()
    ensures signature { IsReader signature_at signature_spelling IsSignature }
    ensures capability { IsReader capability_at capability_spelling IsCapability }
    ensures token { IsReader token_at token_spelling IsToken }
{}

/// A row has one body, which begins that of no other.
pub fn one_body()
    ensures { IsForm raw_spelling IsRaw }
{}

/// A row has one frame, which begins that of no other.
pub fn one_frame()
    ensures { IsForm frame FitsFrame }
{}

/// A row that tells its capability by a number has one spelling, which begins that of no other, and one frame, of which
/// the same holds.
pub fn one_numbered()
    ensures spelling { IsForm numbered_spelling IsNumberedRow }
    ensures frame { IsForm numbered_frame FitsNumbered }
{}

/// A capability has one frame, which begins that of no other.
pub fn one_capability_frame()
    ensures { IsForm capability_frame FitsCapability }
{}

/// Bytes are the frames of at most one list of rows.
pub fn one_stream()
    ensures { HaveOneReading }
{}

/// Bytes in which some frame is none are the frames of no rows.
pub fn never_both()
    ensures { FramesNeverStop }
{}

/// The first frame that is none stands at one place.
pub fn one_stop()
    ensures { HaveOneStop }
{}
