//! The lines of a listing.

ghost use Rattle.std.specs.Prelude.{◌≡◌, ◌++◌, ◌∷◌, ◌≤◌, [], codes, IfOk, OnErr, OnOk, decimal, flat_map, length, take, vec_len};
ghost use Rattle.std.specs.String.{string_bytes};
ghost use Rattle.peer_listing.specs.Listing.{hex_text, key_line, listing_head, listing_line, part_text, path_text};

use itoa::Buffer;
use spelling::{NoMemory, put_byte, put_bytes};
use std::alloc::Global;
use willow_entry::Entry;
use willow_path::{Digest, MAX_PART, NamespaceKey, Path, UserKey};

/// Appends the entry's line to `out`: subspace, path, timestamp, payload length and digest, with one space
/// between and a newline at the end. Keys, digests and the components of a path are lower-case
/// hexadecimal digits, each component behind a `/`, and `.` is the path without components; numbers are
/// decimal. Without memory `out` stays as it was.
pub fn listing_line(entry: &Entry, out: &mut Vec<u8>) -> Result<(), NoMemory>
    ensures appended { OnOk result (out.new.items ≡ out.old.items ++ listing_line entry.now) }
    ensures kept { OnErr result (out.new.items ≡ out.old.items) }
{
    let begun = out.len();
    match put_line(entry, out) {
        Ok(()) => Ok(()),
        Err(NoMemory) => {
            out.truncate(begun);
            Err(NoMemory)
        }
    }
}

/// Appends `namespace`, the namespace's key as lower-case hexadecimal digits, `rows` and their number in
/// decimal, with one space between and a newline at the end. Without memory `out` stays as it was.
pub fn listing_head(namespace: &NamespaceKey, rows: u64, out: &mut Vec<u8>) -> Result<(), NoMemory>
    ensures appended { OnOk result (out.new.items ≡ out.old.items ++ listing_head namespace.now rows) }
    ensures kept { OnErr result (out.new.items ≡ out.old.items) }
{
    let head = head_of(*out.allocator(), namespace, rows)?;
    put_bytes(out, head.as_bytes())
}

/// Appends the user's key as lower-case hexadecimal digits and a newline to `out`. Without memory `out`
/// stays as it was.
pub fn key_line(key: &UserKey, out: &mut Vec<u8>) -> Result<(), NoMemory>
    ensures appended { OnOk result (out.new.items ≡ out.old.items ++ key_line key.now) }
    ensures kept { OnErr result (out.new.items ≡ out.old.items) }
{
    let line = key_line_of(*out.allocator(), key)?;
    put_bytes(out, line.as_bytes())
}

// Appends an entry's line, or without memory a part of it.
fn put_line(entry: &Entry, out: &mut Vec<u8>) -> Result<(), NoMemory>
    ensures appended { OnOk result (out.new.items ≡ out.old.items ++ listing_line entry.now) }
    ensures kept { take (vec_len out.old) out.new.items ≡ out.old.items }
{
    put_place(out, entry)?;
    put_numbers(out, entry)?;
    put_digest(out, &entry.digest)
}

// Appends an entry's subspace and path, or without memory a part of them.
fn put_place(out: &mut Vec<u8>, entry: &Entry) -> Result<(), NoMemory>
    ensures appended { OnOk result (out.new.items ≡ out.old.items ++ (hex_text entry.now.subspace ++ (codes " " ++ path_text entry.now.path))) }
    ensures kept { take (vec_len out.old) out.new.items ≡ out.old.items }
{
    put_digits(out, &entry.subspace.to_bytes())?;
    put_byte(out, b' ')?;
    put_path(out, &entry.path)
}

// Appends an entry's timestamp and payload length, each behind a space, or without memory a part of them.
fn put_numbers(out: &mut Vec<u8>, entry: &Entry) -> Result<(), NoMemory>
    ensures appended { OnOk result (out.new.items ≡ out.old.items ++ (codes " " ++ (decimal entry.now.timestamp ++ (codes " " ++ decimal entry.now.length)))) }
    ensures kept { take (vec_len out.old) out.new.items ≡ out.old.items }
{
    put_byte(out, b' ')?;
    put_decimal(out, entry.timestamp)?;
    put_byte(out, b' ')?;
    put_decimal(out, entry.length)
}

// Appends a digest behind a space, and a newline, or without memory a part.
fn put_digest(out: &mut Vec<u8>, digest: &Digest) -> Result<(), NoMemory>
    ensures appended { OnOk result (out.new.items ≡ out.old.items ++ (codes " " ++ (hex_text digest.now.0 ++ 10 ∷ []))) }
    ensures kept { take (vec_len out.old) out.new.items ≡ out.old.items }
{
    put_byte(out, b' ')?;
    put_digits(out, &digest.0)?;
    put_byte(out, b'\n')
}

// Appends a few bytes as lower-case hexadecimal digits.
fn put_digits(out: &mut Vec<u8>, bytes: &[u8]) -> Result<(), NoMemory>
    requires { length bytes.now ≤ MAX_PART }
    ensures written { OnOk result (out.new.items ≡ out.old.items ++ hex_text bytes.now) }
    ensures kept { take (vec_len out.old) out.new.items ≡ out.old.items }
{
    let begun = out.len();
    out.resize(begun + 2 * bytes.len(), 0)?;
    let _encoded = hex::encode_to_slice(bytes, &mut out[begun..]);
    Ok(())
}

// Appends a number in decimal.
fn put_decimal(out: &mut Vec<u8>, number: u64) -> Result<(), NoMemory>
    ensures written { OnOk result (out.new.items ≡ out.old.items ++ decimal number) }
    ensures kept { OnErr result (out.new.items ≡ out.old.items) }
{
    let mut digits = Buffer::new();
    put_bytes(out, digits.format(number).as_bytes())
}

// The line in front of a listing.
fn head_of(alloc: Global, namespace: &NamespaceKey, rows: u64) -> Result<String, NoMemory>
    ensures { IfOk result (λ line. string_bytes line ≡ listing_head namespace.now rows) }
{
    let key = hex::encode(alloc, namespace.to_bytes())?;
    Ok(format!(in alloc; "namespace {key} rows {rows}\n")?)
}

// A key's line.
fn key_line_of(alloc: Global, key: &UserKey) -> Result<String, NoMemory>
    ensures { IfOk result (λ line. string_bytes line ≡ key_line key.now) }
{
    let digits = hex::encode(alloc, key.to_bytes())?;
    Ok(format!(in alloc; "{digits}\n")?)
}

// Appends a path as text, or without memory a part of it.
fn put_path(out: &mut Vec<u8>, path: &Path) -> Result<(), NoMemory>
    ensures appended { OnOk result (out.new.items ≡ out.old.items ++ path_text path.now) }
    ensures kept { take (vec_len out.old) out.new.items ≡ out.old.items }
{
    if path.count() == 0 {
        return put_byte(out, b'.');
    }
    put_parts(out, path)
}

// Appends the components of a path, each behind a `/`, or without memory a part of them.
fn put_parts(out: &mut Vec<u8>, path: &Path) -> Result<(), NoMemory>
    ensures appended { OnOk result (out.new.items ≡ out.old.items ++ flat_map part_text path.now) }
    ensures kept { take (vec_len out.old) out.new.items ≡ out.old.items }
{
    out.reserve(path.count() + 2 * path.total())?;
    for i in 0..path.count() {
        put_part(out, path.part(i))?;
    }
    Ok(())
}

// Appends a component, or without memory a part of it.
fn put_part(out: &mut Vec<u8>, part: &[u8]) -> Result<(), NoMemory>
    requires { length part.now ≤ MAX_PART }
    ensures appended { OnOk result (out.new.items ≡ out.old.items ++ part_text part.now) }
    ensures kept { take (vec_len out.old) out.new.items ≡ out.old.items }
{
    put_byte(out, b'/')?;
    put_digits(out, part)
}
