//! Items, spelled as bytes.

ghost use Rattle.std.specs.Int.{w32, to_be_bytes};
ghost use Rattle.std.specs.Prelude.{◌≡◌, ◌<◌, ◌++◌, ◌∷◌, [], flat_map, length, slice_get, take, IfSome, OnErr, OnOk, vec_len};
ghost use Rattle.sync_msg.specs.CutPoints.{first_dimension};
ghost use Rattle.sync_msg.specs.Items.{item_value, item_spelling, cut_spelling, cut_in_parts_spelling, point_spelling, HasPoint, HasSpelling};

use crate::item::Item;
use crate::points::Points;
use crate::prints::Prints;
use spelling::{NoMemory, put_byte, put_bytes, put_u32, put_u64};
use willow_area::CutAt;
use willow_entry::{Row, encode_row_frame};

/// Appends the item's spelling to `out`: a byte for its kind and what it carries, numbers with their highest byte
/// first; a row is its frame. Without memory `out` stays as it was.
pub fn encode_item<R: Row>(item: &Item<R>, out: &mut Vec<u8>) -> Result<(), NoMemory>
    requires { HasSpelling (item_value R.value item.now) }
    ensures spelled { OnOk result (out.new.items ≡ out.old.items ++ item_spelling (item_value R.value item.now)) }
    ensures err { OnErr result (out.new.items ≡ out.old.items) }
{
    let begun = out.len();
    match spell_item(item, out) {
        Ok(()) => Ok(()),
        Err(NoMemory) => {
            out.truncate(begun);
            Err(NoMemory)
        }
    }
}

// Appends the item's spelling, or without memory a part of it.
fn spell_item<R: Row>(item: &Item<R>, out: &mut Vec<u8>) -> Result<(), NoMemory>
    requires { HasSpelling (item_value R.value item.now) }
    ensures spelled { OnOk result (out.new.items ≡ out.old.items ++ item_spelling (item_value R.value item.now)) }
    ensures kept { take (vec_len out.old) out.new.items ≡ out.old.items }
{
    match item {
        Item::First { print } => spell_first(print, out),
        Item::Agree => put_byte(out, 2),
        Item::Split { at, lower, upper } => spell_split(at, lower, upper, out),
        Item::Parts { points, prints } => spell_parts(points, prints, out),
        Item::Entries { count } => spell_entries(*count, out),
        Item::Rest { count } => spell_rest(*count, out),
        Item::Row(row) => encode_row_frame(row, out),
        Item::EndTurn => put_byte(out, 6),
        Item::Bye => put_byte(out, 7),
    }
}

// Appends the kind and the fingerprint, or without memory a part of them.
fn spell_first(print: &[u8; 32], out: &mut Vec<u8>) -> Result<(), NoMemory>
    ensures spelled { OnOk result (out.new.items ≡ out.old.items ++ 1 ∷ print.now) }
    ensures kept { take (vec_len out.old) out.new.items ≡ out.old.items }
{
    put_byte(out, 1)?;
    put_bytes(out, print)
}

// Appends the kind, the cut and the fingerprints of its parts, or without memory a part of them.
fn spell_split(
    at: &CutAt,
    lower: &[u8; 32],
    upper: &[u8; 32],
    out: &mut Vec<u8>,
) -> Result<(), NoMemory>
    requires { HasPoint at.now }
    ensures spelled { OnOk result (out.new.items ≡ out.old.items ++ 3 ∷ cut_spelling at.now ++ (lower.now ++ upper.now)) }
    ensures kept { take (vec_len out.old) out.new.items ≡ out.old.items }
{
    put_byte(out, 3)?;
    spell_cut(at, out)?;
    put_bytes(out, lower)?;
    put_bytes(out, upper)
}

// Appends the dimension and the point of a cut, or without memory a part of them.
fn spell_cut(at: &CutAt, out: &mut Vec<u8>) -> Result<(), NoMemory>
    requires { HasPoint at.now }
    ensures spelled { OnOk result (out.new.items ≡ out.old.items ++ cut_spelling at.now) }
    ensures kept { take (vec_len out.old) out.new.items ≡ out.old.items }
{
    match at {
        CutAt::Subspace(key) => {
            put_byte(out, 0)?;
            put_bytes(out, &key.to_bytes())
        }
        CutAt::Path(path) => {
            put_byte(out, 1)?;
            path.encode(out)
        }
        CutAt::Time(_) => Ok(()),
    }
}

// Appends the kind, the dimension and the number of the points, the points and the fingerprints, or without memory a part
// of them.
fn spell_parts(points: &Points, prints: &Prints, out: &mut Vec<u8>) -> Result<(), NoMemory>
    requires some { 0 < length points.now }
    ensures spelled { OnOk result (out.new.items ≡ out.old.items ++ 8 ∷ cut_in_parts_spelling points.now prints.now) }
    ensures kept { take (vec_len out.old) out.new.items ≡ out.old.items }
{
    put_byte(out, 8)?;
    put_byte(out, dimension_of(points))?;
    put_byte(out, points.len() as u8)?;
    spell_points(points, out)?;
    spell_prints(prints, out)
}

// The dimension of the points.
fn dimension_of(points: &Points) -> u8
    requires { 0 < length points.now }
    ensures { result ≡ first_dimension points.now }
{
    match points.get(0) {
        Some(CutAt::Subspace(_)) => 0,
        Some(CutAt::Path(_)) => 1,
        Some(CutAt::Time(_)) => 2,
        None => unreachable!(),
    }
}

// Appends the points, or without memory a part of them.
fn spell_points(points: &Points, out: &mut Vec<u8>) -> Result<(), NoMemory>
    ensures spelled { OnOk result (out.new.items ≡ out.old.items ++ flat_map point_spelling points.now) }
    ensures kept { take (vec_len out.old) out.new.items ≡ out.old.items }
{
    for i in 0..points.len() {
        spell_point_at(points, i, out)?;
    }
    Ok(())
}

// Appends a point without its dimension, or without memory a part of it.
fn spell_point_at(points: &Points, i: usize, out: &mut Vec<u8>) -> Result<(), NoMemory>
    requires { i < length points.now }
    ensures spelled { OnOk result (IfSome (slice_get points.now i) (λ point. out.new.items ≡ out.old.items ++ point_spelling point)) }
    ensures kept { take (vec_len out.old) out.new.items ≡ out.old.items }
{
    match points.get(i) {
        Some(CutAt::Subspace(key)) => put_bytes(out, &key.to_bytes()),
        Some(CutAt::Path(path)) => path.encode(out),
        Some(CutAt::Time(time)) => put_u64(out, *time),
        None => unreachable!(),
    }
}

// Appends the fingerprints, or without memory a part of them.
fn spell_prints(prints: &Prints, out: &mut Vec<u8>) -> Result<(), NoMemory>
    ensures spelled { OnOk result (out.new.items ≡ out.old.items ++ flat_map (λ print. print) prints.now) }
    ensures kept { take (vec_len out.old) out.new.items ≡ out.old.items }
{
    for i in 0..prints.len() {
        match prints.get(i) {
            Some(print) => put_bytes(out, print)?,
            None => unreachable!(),
        }
    }
    Ok(())
}

// Appends the kind and the count, or without memory a part of them.
fn spell_entries(count: u8, out: &mut Vec<u8>) -> Result<(), NoMemory>
    ensures spelled { OnOk result (out.new.items ≡ out.old.items ++ 4 ∷ count ∷ []) }
    ensures kept { take (vec_len out.old) out.new.items ≡ out.old.items }
{
    put_byte(out, 4)?;
    put_byte(out, count)
}

// Appends the kind and the count, or without memory a part of them.
fn spell_rest(count: u32, out: &mut Vec<u8>) -> Result<(), NoMemory>
    ensures spelled { OnOk result (out.new.items ≡ out.old.items ++ 5 ∷ to_be_bytes w32 count) }
    ensures kept { take (vec_len out.old) out.new.items ≡ out.old.items }
{
    put_byte(out, 5)?;
    put_u32(out, count)
}
