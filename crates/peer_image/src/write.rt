//! Images as they are written: of version 2.

ghost use Rattle.std.specs.Prelude.{◌≡◌, ◌+◌, ◌<◌, ◌≤◌, ◌^◌, ◌++◌, length, map, slice_get, take, vec_len, Some, Contains, IfOk, IsTrue, OnOk};
ghost use Rattle.std.specs.List.{AllByRecursion, flat_map};
ghost use Rattle.std.specs.List.Sorted.{IsStrictlySortedBy};
ghost use Rattle.willow_entry.specs.Entry.{bytes_cmp};
ghost use Rattle.willow_entry.specs.EntryForm.{entry_spelling};
ghost use Rattle.willow_entry.specs.Frame.{HasFrame};
ghost use Rattle.willow_entry.specs.Pruning.{rising};
ghost use Rattle.willow_entry.specs.declared.frame.TheConstants.{MAX_FRAME};
ghost use Rattle.cap_codec.specs.TokenParts.{signature_in};
ghost use Rattle.peer_image.specs.Image.{bytes_frame, capabilities, capability_bytes, head_two, image, numbered_as, place_in, placed_frame, trailer};

use block_store::{BlockStore, Rows, Snapshot};
use cap_codec::TokenRow;
use spelling::{NoMemory, put_bytes, put_u32};
use std::alloc::Global;
use willow_path::NamespaceKey;

/// How many bytes stand in front of a frame's bytes for their number, and how many tell a capability's place.
const NUMBER: usize = 4;

/// The image of a snapshot's rows, of version 2: the text WIM2, the namespace key, the number of the capabilities in four
/// bytes, the capabilities of the rows, each once and rising by their bytes, the rows in their order, four bytes 00 and the
/// number of rows in four bytes. Each capability and each row has the number of its bytes in four bytes before it. A row is
/// its entry, the place of its capability in four bytes, counted from 0, and its signature field. Bodies of the rows have
/// at most `MAX_FRAME` bytes.
pub fn write_image<R: TokenRow>(
    alloc: Global,
    namespace: &NamespaceKey,
    snapshot: &Snapshot<R>,
) -> Result<Vec<u8>, NoMemory>
    requires { AllByRecursion HasFrame (map R.value snapshot.now) }
    ensures { IfOk result (λ v. v.items ≡ image namespace.now (map R.value snapshot.now)) }
{
    image_of(
        alloc,
        namespace,
        snapshot.rows(),
        snapshot.rows(),
        snapshot.len(),
    )
}

/// The image of a store's rows, as `write_image` makes it. No snapshot is taken, so no row is hashed.
pub fn write_store_image<R: TokenRow>(
    alloc: Global,
    namespace: &NamespaceKey,
    store: &BlockStore<R>,
) -> Result<Vec<u8>, NoMemory>
    requires { AllByRecursion HasFrame (map R.value store.now) }
    ensures { IfOk result (λ v. v.items ≡ image namespace.now (map R.value store.now)) }
{
    image_of(alloc, namespace, store.rows(), store.rows(), store.len())
}

// The image of so many rows, which are gone over twice: for their capabilities, and for themselves.
fn image_of<R: TokenRow>(
    alloc: Global,
    namespace: &NamespaceKey,
    rows: Rows<'_, R>,
    again: Rows<'_, R>,
    count: u32,
) -> Result<Vec<u8>, NoMemory>
    requires frames { AllByRecursion HasFrame (map R.value rows) }
    requires all { count ≡ length rows }
    requires same { again ≡ rows }
    ensures { IfOk result (λ v. v.items ≡ image namespace.now (map R.value rows.entry)) }
{
    let told = capabilities_of(alloc, rows)?;
    image_telling(alloc, namespace, &told, again, count)
}

// The image of so many rows, which tell these capabilities.
fn image_telling<R: TokenRow>(
    alloc: Global,
    namespace: &NamespaceKey,
    told: &[&[u8]],
    rows: Rows<'_, R>,
    count: u32,
) -> Result<Vec<u8>, NoMemory>
    requires frames { AllByRecursion HasFrame (map R.value rows) }
    requires all { count ≡ length rows }
    requires told { map (λ c. c.now) told.now ≡ capabilities (map R.value rows) }
    requires up { IsStrictlySortedBy (λ c d. bytes_cmp c.now d.now) told.now }
    requires short { AllByRecursion (λ c. length c ≤ MAX_FRAME) (map (λ c. c.now) told.now) }
    ensures { IfOk result (λ v. v.items ≡ image namespace.now (map R.value rows.entry)) }
{
    let mut out = Vec::new(alloc);
    put_image(&mut out, namespace, told, rows, count)?;
    Ok(out)
}

// Appends the image of so many rows, which tell these capabilities. It owns nothing that its many ends would have to let go.
fn put_image<R: TokenRow>(
    out: &mut Vec<u8>,
    namespace: &NamespaceKey,
    told: &[&[u8]],
    rows: Rows<'_, R>,
    count: u32,
) -> Result<(), NoMemory>
    requires frames { AllByRecursion HasFrame (map R.value rows) }
    requires all { count ≡ length rows }
    requires told { map (λ c. c.now) told.now ≡ capabilities (map R.value rows) }
    requires up { IsStrictlySortedBy (λ c d. bytes_cmp c.now d.now) told.now }
    requires short { AllByRecursion (λ c. length c ≤ MAX_FRAME) (map (λ c. c.now) told.now) }
    ensures { OnOk result (out.new.items ≡ out.old.items ++ image namespace.now (map R.value rows.entry)) }
{
    put_told(out, namespace, told, count)?;
    put_rows_two(out, told, rows)?;
    put_trailer(out, count)
}

/// The capabilities of the rows, rising by their bytes, each once.
pub fn capabilities_of<'a, R: TokenRow>(
    alloc: Global,
    rows: Rows<'a, R>,
) -> Result<Vec<&'a [u8]>, NoMemory>
    requires { AllByRecursion HasFrame (map R.value rows) }
    ensures told { IfOk result (λ told. map (λ c. c.now) told.items ≡ capabilities (map R.value rows.entry)) }
    ensures up { IfOk result (λ told. IsStrictlySortedBy (λ c d. bytes_cmp c.now d.now) told.items) }
    ensures short { IfOk result (λ told. AllByRecursion (λ c. length c ≤ MAX_FRAME) (map (λ c. c.now) told.items)) }
{
    let mut told = gathered(alloc, rows)?;
    told.sort_unstable();
    told.dedup();
    Ok(told)
}

// The capability of each row, of neighbours with the same one once.
fn gathered<'a, R: TokenRow>(alloc: Global, rows: Rows<'a, R>) -> Result<Vec<&'a [u8]>, NoMemory>
    requires { AllByRecursion HasFrame (map R.value rows) }
    ensures all { IfOk result (λ told. rising bytes_cmp (map (λ c. c.now) told.items) ≡ capabilities (map R.value rows.entry)) }
    ensures short { IfOk result (λ told. AllByRecursion (λ c. length c ≤ MAX_FRAME) (map (λ c. c.now) told.items)) }
{
    let mut told = Vec::new(alloc);
    let mut left = rows;
    'rows: while let Some(row) = left.next() {
        let capability = short_capability(row);
        if !ends_with(&told, capability) {
            told.push(capability)?;
        }
    }
    Ok(told)
}

// Whether the last of these is this capability.
fn ends_with(told: &[&[u8]], capability: &[u8]) -> bool
    ensures { IsTrue result → Contains (map (λ c. c.now) told.now) capability.now }
{
    match told.last() {
        Some(last) => *last == capability,
        None => false,
    }
}

// The capability of a row.
fn short_capability<R: TokenRow>(row: &R) -> &[u8]
    requires { HasFrame (R.value row.now) }
    ensures capability { result.now ≡ capability_bytes (R.value row.now) }
    ensures short { length result.now ≤ MAX_FRAME }
{
    row.capability_bytes()
}

/// Appends what an image of version 2 begins with: the text WIM2, the namespace key, and the number of the capabilities in
/// four bytes. Without memory a front of it was appended.
pub fn put_head_two(out: &mut Vec<u8>, namespace: &NamespaceKey, count: u32) -> Result<(), NoMemory>
    ensures written { OnOk result (out.new.items ≡ out.old.items ++ head_two namespace.now count) }
    ensures kept { take (vec_len out.old) out.new.items ≡ out.old.items }
{
    put_bytes(out, b"WIM2")?;
    put_bytes(out, &namespace.to_bytes())?;
    put_u32(out, count)
}

/// Appends a capability as an image of version 2 tells it: the number of its bytes in four bytes, and the bytes. Without
/// memory a front of it was appended.
pub fn put_capability(out: &mut Vec<u8>, capability: &[u8]) -> Result<(), NoMemory>
    requires { length capability.now ≤ MAX_FRAME }
    ensures written { OnOk result (out.new.items ≡ out.old.items ++ bytes_frame capability.now) }
    ensures kept { take (vec_len out.old) out.new.items ≡ out.old.items }
{
    put_u32(out, capability.len() as u32)?;
    put_bytes(out, capability)
}

// Appends the head and the capabilities, of which there are no more than rows.
fn put_told(
    out: &mut Vec<u8>,
    namespace: &NamespaceKey,
    told: &[&[u8]],
    rows: u32,
) -> Result<(), NoMemory>
    requires few { length told.now ≤ rows }
    requires short { AllByRecursion (λ c. length c ≤ MAX_FRAME) (map (λ c. c.now) told.now) }
    ensures { OnOk result (out.new.items ≡ out.old.items ++ (head_two namespace.now (length told.now) ++ flat_map bytes_frame (map (λ c. c.now) told.now))) }
{
    put_head_two(out, namespace, told.len() as u32)?;
    put_capabilities(out, told)
}

// Appends the capabilities.
fn put_capabilities(out: &mut Vec<u8>, told: &[&[u8]]) -> Result<(), NoMemory>
    requires { AllByRecursion (λ c. length c ≤ MAX_FRAME) (map (λ c. c.now) told.now) }
    ensures { OnOk result (out.new.items ≡ out.old.items ++ flat_map bytes_frame (map (λ c. c.now) told.now)) }
{
    for capability in told {
        put_capability(out, capability)?;
    }
    Ok(())
}

/// The place of a row's capability among those that are told, counted from 0: where it is none of them, their number. They
/// rise by their bytes. The place `first` is tried before the others: neighbours often have the same capability.
pub fn place_from<R: TokenRow>(told: &[&[u8]], first: u32, row: &R) -> u32
    requires up { IsStrictlySortedBy (λ c d. bytes_cmp c.now d.now) told.now }
    requires few { length told.now < 2 ^ 32 }
    ensures { result ≡ place_in (map (λ c. c.now) told.now) (capability_bytes (R.value row.now)) }
{
    let capability = row.capability_bytes();
    if is_at(told, first, capability) {
        return first;
    }
    place_of(told, capability)
}

// Whether this capability stands at the place.
fn is_at(told: &[&[u8]], place: u32, capability: &[u8]) -> bool
    ensures { IsTrue result → slice_get (map (λ c. c.now) told.now) place ≡ Some capability.now }
{
    match told.get(place as usize) {
        Some(there) => *there == capability,
        None => false,
    }
}

// The place of a capability.
fn place_of(told: &[&[u8]], capability: &[u8]) -> u32
    requires up { IsStrictlySortedBy (λ c d. bytes_cmp c.now d.now) told.now }
    requires few { length told.now < 2 ^ 32 }
    ensures { result ≡ place_in (map (λ c. c.now) told.now) capability.now }
{
    match told.binary_search(&capability) {
        Ok(at) => at as u32,
        Err(_) => told.len() as u32,
    }
}

/// Appends a row as an image of version 2 tells it, with this number for its capability: the number of the bytes that
/// follow in four bytes, its entry, the number in four bytes, and its signature field. Without memory a front of it was
/// appended.
pub fn put_row_two<R: TokenRow>(out: &mut Vec<u8>, row: &R, number: u32) -> Result<(), NoMemory>
    requires { HasFrame (R.value row.now) }
    ensures written { OnOk result (out.new.items ≡ out.old.items ++ bytes_frame (numbered_as number (R.value row.now))) }
    ensures kept { take (vec_len out.old) out.new.items ≡ out.old.items }
{
    let (entry, signature) = (row.entry_bytes(), signature_of(row));
    put_u32(out, (entry.len() + NUMBER + signature.len()) as u32)?;
    put_bytes(out, entry)?;
    put_u32(out, number)?;
    put_bytes(out, signature)
}

// The signature field of a row.
fn signature_of<R: TokenRow>(row: &R) -> &[u8]
    requires { HasFrame (R.value row.now) }
    ensures signature { result.now ≡ signature_in (R.value row.now).token }
    ensures short { length (entry_spelling (R.value row.now).entry) + 4 + length result.now ≤ MAX_FRAME }
{
    let capability = row.capability_bytes();
    &row.token_bytes()[capability.len()..]
}

// Appends the rows.
fn put_rows_two<R: TokenRow>(
    out: &mut Vec<u8>,
    told: &[&[u8]],
    rows: Rows<'_, R>,
) -> Result<(), NoMemory>
    requires frames { AllByRecursion HasFrame (map R.value rows) }
    requires up { IsStrictlySortedBy (λ c d. bytes_cmp c.now d.now) told.now }
    requires few { length told.now < 2 ^ 32 }
    ensures { OnOk result (out.new.items ≡ out.old.items ++ flat_map (placed_frame (map (λ c. c.now) told.now)) (map R.value rows.entry)) }
{
    let mut left = rows;
    let mut place = 0;
    'rows: while let Some(row) = left.next() {
        place = place_from(told, place, row);
        put_row_two(out, row, place)?;
    }
    Ok(())
}

/// Appends what an image of so many rows ends with: four bytes 00 and the count. Without memory a front of it was
/// appended.
pub fn put_trailer(out: &mut Vec<u8>, count: u32) -> Result<(), NoMemory>
    ensures written { OnOk result (out.new.items ≡ out.old.items ++ trailer count) }
    ensures kept { take (vec_len out.old) out.new.items ≡ out.old.items }
{
    put_u32(out, 0)?;
    put_u32(out, count)
}
