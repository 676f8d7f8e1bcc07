//! Bytes answered.

ghost use Rattle.mesh_command.specs.Runs.{AnswersBytes};

use mesh_answers::{MeshStores, text_of};
use mesh_lines::read_mesh;
use peer_stage::Stop;
use spelling::End;
use std::alloc::Global;

/// The text of the lines that the bytes are, or where they go wrong.
pub(crate) fn answer_bytes<M: MeshStores>(alloc: Global, bytes: &[u8]) -> Result<Vec<u8>, Stop>
    ensures { AnswersBytes M.rules bytes.now result }
{
    match read_mesh(alloc, bytes) {
        Ok(text) => Ok(text_of::<M>(alloc, &text)?),
        Err(End::Refused(wrong)) => Err(Stop::bad_input(wrong.at)),
        Err(End::NoMemory) => Err(Stop::NoMemory),
    }
}
