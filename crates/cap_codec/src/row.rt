//! Rows: an entry, by whose leave it was written, and the bytes of both. Their tokens are read out, or kept as bytes
//! alone.

ghost use Rattle.std.specs.Prelude.{◌≡◌, ◌++◌, length, Err, IfOk, IfErr, IsErrOf, OnOk};
ghost use Rattle.spelling.specs.declared.ending.End.TheVariants as ends;
ghost use Rattle.spelling.specs.declared.input.Unread.TheVariants as unread;
ghost use Rattle.spelling.specs.Reading.{Gives};
ghost use Rattle.willow_entry.specs.EntryForm.{EntryAsks, IsEntry, entry_spelling};
ghost use Rattle.mc_cap.specs.Forms.{capability_spelling};
ghost use Rattle.mc_cap.specs.Signature.{signature_spelling};
ghost use Rattle.cap_codec.specs.Reading.{raw_at};
ghost use Rattle.cap_codec.specs.Rows.{RawValue, row_of, raw_spelling, IsRaw, IsRawRow, IsToken, ReadsWhole};

use crate::token::{WriteToken, put_signature, read_measured};
use crate::token_row::TokenRow;
use mc_cap::Signature;
use spelling::{End, Input, NoMemory, NotHere, Unread, put_bytes};
use std::alloc::Global;
use std::marker::Model;
use willow_entry::{Entry, Row, RowForm, SharedRow, read_entry};

/// How many bytes stand in front of a signature for its length.
const SIGNATURE_LENGTH: usize = 2;

/// A row with its token read out. It keeps the bytes that it was read from. A contract sees the entry and
/// the token; nothing is said of whether it is authorised.
#[derive(Drop)]
pub struct RawRow {
    entry: Entry,
    token: WriteToken,
    body: Vec<u8>,
    entry_len: usize,
    capability_len: usize,
}

impl Model for RawRow {
    ghost use Rattle.std.specs.Prelude.{◌≡◌, length};
    ghost use Rattle.willow_entry.specs.EntryForm.{entry_spelling};
    ghost use Rattle.mc_cap.specs.Forms.{capability_spelling};
    ghost use Rattle.cap_codec.specs.Rows.{RawValue, IsRaw, raw_spelling};

    ghost Value = { RawValue };

    ghost view = { λ r. record { entry = r.entry; token = r.token } };

    ghost invariant = { λ r. IsRaw (record { entry = r.entry; token = r.token })
        × (r.body.items ≡ raw_spelling (record { entry = r.entry; token = r.token }))
        × (r.entry_len ≡ length (entry_spelling r.entry))
        × (r.capability_len ≡ length (capability_spelling r.token.capability)) };
}

// What is read of a body: the entry, the token, and how many bytes the entry and the token's capability have.
#[derive(Drop)]
struct Parts {
    entry: Entry,
    token: WriteToken,
    entry_len: usize,
    capability_len: usize,
}

impl Parts {
    // The row of these parts, with a copy of the body that they were read from.
    fn with_body(self, alloc: Global, body: &[u8]) -> Result<RawRow, NoMemory>
        requires fits { IsRaw (record { entry = self.entry; token = self.token }) }
        requires spelled { body.now ≡ raw_spelling (record { entry = self.entry; token = self.token }) }
        requires entry_long { self.entry_len ≡ length (entry_spelling self.entry) }
        requires capability_long { self.capability_len ≡ length (capability_spelling self.token.capability) }
        ensures { IfOk result (λ row. row ≡ record { entry = self.entry; token = self.token }) }
    {
        Ok(RawRow {
            entry: self.entry,
            token: self.token,
            body: Vec::from_slice(alloc, body)?,
            entry_len: self.entry_len,
            capability_len: self.capability_len,
        })
    }
}

// Reads an entry and a token from the bytes that are left, which are the whole body.
#[tactic(auto, unfolding(crate::specs::Reading::raw_at), using(willow_entry::proofs::EntryReads::whole_asks))]
fn read_parts(alloc: Global, body: &[u8], input: &mut Input) -> Result<Parts, Unread>
    requires { body.now ≡ input.old }
    ensures gives { Gives {Y = RawValue} (λ parts. record { entry = parts.entry; token = parts.token }) result input.new (raw_at input.old) }
    ensures asked { IsErrOf result unread.NoMemory → EntryAsks input.old }
    ensures asks { OnOk result (EntryAsks input.old) }
    ensures entry_long { IfOk result (λ parts. parts.entry_len ≡ length (entry_spelling parts.entry)) }
    ensures capability_long { IfOk result (λ parts. parts.capability_len ≡ length (capability_spelling parts.token.capability)) }
{
    let entry = read_entry(alloc, input)?;
    let entry_len = input.taken_of(body);
    let behind = input.front();
    let (token, capability_len) = read_measured(alloc, behind, input)?;
    Ok(Parts {
        entry,
        token,
        entry_len,
        capability_len,
    })
}

// The parts of the row that the whole body spells.
fn read_whole(alloc: Global, body: &[u8]) -> Result<Parts, End<NotHere>>
    ensures fits { IfOk result (λ parts. IsRaw (record { entry = parts.entry; token = parts.token })) }
    ensures spelled { IfOk result (λ parts. body.now ≡ raw_spelling (record { entry = parts.entry; token = parts.token })) }
    ensures entry_long { IfOk result (λ parts. parts.entry_len ≡ length (entry_spelling parts.entry)) }
    ensures capability_long { IfOk result (λ parts. parts.capability_len ≡ length (capability_spelling parts.token.capability)) }
    ensures none { IfErr result (λ end. ReadsWhole body.now (Err end)) }
    ensures asked { IsErrOf result ends.NoMemory → EntryAsks body.now }
    ensures asks { OnOk result (EntryAsks body.now) }
{
    let mut input = Input::new(body);
    let parts = read_parts(alloc, body, &mut input)?;
    if input.len() > 0 {
        return Err(End::Refused(NotHere));
    }
    Ok(parts)
}

// The bytes of a row of this entry and this signature, whose capability is spelled so.
fn spelled_body(
    alloc: Global,
    entry: &Entry,
    capability: &[u8],
    signature: &Signature,
) -> Result<Vec<u8>, NoMemory>
    ensures spelled { IfOk result (λ body. body.items ≡ entry_spelling entry.now ++ (capability.now ++ signature_spelling signature.now)) }
    ensures fits { OnOk result (IsEntry entry.now) }
{
    let room = entry
        .spelled_len()
        .saturating_add(capability.len())
        .saturating_add(signature.as_slice().len())
        .saturating_add(SIGNATURE_LENGTH);
    let mut body = Vec::with_capacity(alloc, room)?;
    entry.encode(&mut body)?;
    put_bytes(&mut body, capability)?;
    put_signature(signature, &mut body)?;
    Ok(body)
}

impl RawRow {
    /// The row of this entry and this token.
    pub fn new(alloc: Global, entry: Entry, token: WriteToken) -> Result<RawRow, NoMemory>
        ensures entry { IfOk result (λ row. row.entry ≡ entry) }
        ensures token { IfOk result (λ row. row.token ≡ token) }
    {
        let mut spelled = Vec::new(alloc);
        token.capability.encode(&mut spelled)?;
        RawRow::with_spelled(alloc, entry, token, &spelled)
    }

    // The row of this entry and this token, whose capability is spelled so.
    pub(crate) fn with_spelled(
        alloc: Global,
        entry: Entry,
        token: WriteToken,
        capability: &[u8],
    ) -> Result<RawRow, NoMemory>
        requires { capability.now ≡ capability_spelling token.capability }
        ensures entry { IfOk result (λ row. row.entry ≡ entry) }
        ensures token { IfOk result (λ row. row.token ≡ token) }
    {
        token.known();
        let entry_len = entry.spelled_len();
        let body = spelled_body(alloc, &entry, capability, &token.signature)?;
        Ok(RawRow {
            entry,
            token,
            body,
            entry_len,
            capability_len: capability.len(),
        })
    }

    /// The row that the whole body spells: an entry, a token, and nothing else. It is not here exactly
    /// where no row is spelled so. Memory is asked for behind the entry's path.
    pub fn decode(alloc: Global, body: &[u8]) -> Result<RawRow, End<NotHere>>
        ensures reads { ReadsWhole body.now result }
        ensures asked { IsErrOf result ends.NoMemory → EntryAsks body.now }
    {
        let parts = read_whole(alloc, body)?;
        Ok(parts.with_body(alloc, body)?)
    }

    /// The token.
    pub fn token(&self) -> &WriteToken
        ensures token { result.now ≡ self.now.token }
        ensures fits { IsToken self.now.token }
    {
        &self.token
    }

    /// The bytes of the token's capability: its spelling, as the row keeps it.
    pub fn capability_bytes(&self) -> &[u8]
        ensures { result.now ≡ capability_spelling self.now.token.capability }
    {
        &self.token_bytes()[..self.capability_len]
    }

    /// Does nothing: it is called for its clause, that the entry and the token are within their limits.
    pub fn known(&self)
        ensures { IsRaw self.now }
    {
        let _token = &self.token;
    }

    /// The same row, in less memory: its token is kept as bytes alone.
    pub fn into_spelled(self) -> SpelledRow
        ensures { result ≡ self }
    {
        SpelledRow {
            entry: self.entry,
            body: self.body,
            capability_len: self.capability_len,
        }
    }

    /// An equal row.
    pub fn copy(&self) -> Result<RawRow, NoMemory>
        ensures { IfOk result (λ row. row ≡ self.now) }
    {
        self.copy_parts()?
            .with_body(*self.body.allocator(), &self.body)
    }

    // An equal row, but for its body.
    fn copy_parts(&self) -> Result<Parts, NoMemory>
        ensures entry { IfOk result (λ parts. parts.entry ≡ self.now.entry) }
        ensures token { IfOk result (λ parts. parts.token ≡ self.now.token) }
        ensures entry_long { IfOk result (λ parts. parts.entry_len ≡ length (entry_spelling self.now.entry)) }
        ensures capability_long { IfOk result (λ parts. parts.capability_len ≡ length (capability_spelling self.now.token.capability)) }
    {
        Ok(Parts {
            entry: self.entry.copy()?,
            token: self.token.copy()?,
            entry_len: self.entry_len,
            capability_len: self.capability_len,
        })
    }
}

impl Row for RawRow {
    ghost value = { row_of };

    fn entry(&self) -> &Entry {
        &self.entry
    }

    fn entry_bytes(&self) -> &[u8] {
        &self.body[..self.entry_len]
    }

    fn token_bytes(&self) -> &[u8] {
        &self.body[self.entry_len..]
    }

    fn copy(&self) -> Result<RawRow, NoMemory> {
        self.copy()
    }
}

impl SharedRow for RawRow {}

impl TokenRow for RawRow {
    fn capability_bytes(&self) -> &[u8] {
        self.known();
        self.capability_bytes()
    }
}

/// A row whose token is kept as bytes alone: the entry, and the bytes of both, once. A contract sees the entry and the
/// token that the bytes spell, as it does of a `RawRow`.
#[derive(Drop)]
pub struct SpelledRow {
    entry: Entry,
    body: Vec<u8>,
    capability_len: usize,
}

impl Model for SpelledRow {
    ghost use Rattle.std.specs.Prelude.{◌≡◌, length};
    ghost use Rattle.mc_cap.specs.Forms.{capability_spelling};
    ghost use Rattle.cap_codec.specs.Rows.{RawValue, IsRaw, raw_spelling};
    ghost use Rattle.cap_codec.specs.Spelled.{spelled_row};

    ghost Value = { RawValue };

    ghost view = { λ r. spelled_row r.entry r.body.items };

    ghost invariant = { λ r. IsRaw (spelled_row r.entry r.body.items)
        × (r.body.items ≡ raw_spelling (spelled_row r.entry r.body.items))
        × (r.capability_len ≡ length (capability_spelling (spelled_row r.entry r.body.items).token.capability)) };
}

impl SpelledRow {
    /// Does nothing: it is called for its clause, that the entry and the token are within their limits.
    pub fn known(&self)
        ensures { IsRaw self.now }
    {
        let _body = &self.body;
    }

    /// The bytes of the token's capability: its spelling, as the row keeps it.
    pub fn capability_bytes(&self) -> &[u8]
        ensures { result.now ≡ capability_spelling self.now.token.capability }
    {
        &self.token_bytes()[..self.capability_len]
    }

    /// An equal row.
    pub fn copy(&self) -> Result<SpelledRow, NoMemory>
        ensures { IfOk result (λ row. row ≡ self.now) }
    {
        Ok(SpelledRow {
            entry: self.entry.copy()?,
            body: Vec::from_slice(*self.body.allocator(), &self.body)?,
            capability_len: self.capability_len,
        })
    }
}

impl Row for SpelledRow {
    ghost value = { row_of };

    fn entry(&self) -> &Entry {
        &self.entry
    }

    fn entry_bytes(&self) -> &[u8] {
        &self.body[..self.entry.spelled_len()]
    }

    fn token_bytes(&self) -> &[u8] {
        &self.body[self.entry.spelled_len()..]
    }

    fn copy(&self) -> Result<SpelledRow, NoMemory> {
        self.copy()
    }
}

impl SharedRow for SpelledRow {}

impl TokenRow for SpelledRow {
    fn capability_bytes(&self) -> &[u8] {
        self.known();
        self.capability_bytes()
    }
}

/// The bodies of rows: an entry within its limits, a write token, and nothing else.
pub struct RawRows;

impl RowForm for RawRows {
    type R = RawRow;

    ghost IsRow = { IsRawRow };

    fn read(alloc: Global, body: &[u8]) -> Result<Option<RawRow>, NoMemory> {
        match RawRow::decode(alloc, body) {
            Ok(row) => Ok(Some(row)),
            Err(End::Refused(NotHere)) => Ok(None),
            Err(End::NoMemory) => Err(NoMemory),
        }
    }

    ghost entries_fit = { λ r fits. fits.entry_fits };
}
