//! Bytes that are written at the end of a vector.

ghost use Rattle.std.specs.Prelude.{◌≡◌, ◌∷◌, [], ◌++◌, OnOk, OnErr};
ghost use Rattle.std.specs.Int.{w16, w32, w64, to_be_bytes};

use crate::ending::NoMemory;

/// Appends the bytes. Without memory nothing is appended.
pub fn put_bytes(out: &mut Vec<u8>, bytes: &[u8]) -> Result<(), NoMemory>
    ensures written { OnOk result (out.new.items ≡ out.old.items ++ bytes.now) }
    ensures kept { OnErr result (out.new.items ≡ out.old.items) }
{
    out.extend_from_slice(bytes)?;
    Ok(())
}

/// Appends one byte. Without memory nothing is appended.
pub fn put_byte(out: &mut Vec<u8>, byte: u8) -> Result<(), NoMemory>
    ensures written { OnOk result (out.new.items ≡ out.old.items ++ byte ∷ []) }
    ensures kept { OnErr result (out.new.items ≡ out.old.items) }
{
    out.push(byte)?;
    Ok(())
}

/// Appends the two bytes of the number, the highest first. Without memory nothing is appended.
pub fn put_u16(out: &mut Vec<u8>, number: u16) -> Result<(), NoMemory>
    ensures written { OnOk result (out.new.items ≡ out.old.items ++ to_be_bytes w16 number) }
    ensures kept { OnErr result (out.new.items ≡ out.old.items) }
{
    put_bytes(out, &number.to_be_bytes())
}

/// Appends the four bytes of the number, the highest first. Without memory nothing is appended.
pub fn put_u32(out: &mut Vec<u8>, number: u32) -> Result<(), NoMemory>
    ensures written { OnOk result (out.new.items ≡ out.old.items ++ to_be_bytes w32 number) }
    ensures kept { OnErr result (out.new.items ≡ out.old.items) }
{
    put_bytes(out, &number.to_be_bytes())
}

/// Appends the eight bytes of the number, the highest first. Without memory nothing is appended.
pub fn put_u64(out: &mut Vec<u8>, number: u64) -> Result<(), NoMemory>
    ensures written { OnOk result (out.new.items ≡ out.old.items ++ to_be_bytes w64 number) }
    ensures kept { OnErr result (out.new.items ≡ out.old.items) }
{
    put_bytes(out, &number.to_be_bytes())
}
