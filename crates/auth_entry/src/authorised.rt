//! Rows that are known to be authorised.

ghost use Rattle.std.specs.Prelude.{◌≡◌, None, IfOk, IsErrOf};
ghost use Rattle.spelling.specs.Answers.{Judges};
ghost use Rattle.spelling.specs.declared.ending.End.TheVariants as ends;
ghost use Rattle.cap_codec.specs.Rows.{FitsFrame, row_of};
ghost use Rattle.auth_entry.specs.Authorised.{AuthorisedValue, CheckAsks, early_refusal, row_refusal};

use crate::refusal::check_row;
use cap_codec::{RawRow, SpelledRow, TokenRow};
use mc_cap::RowRefusal;
use scheme_core::{Scheme, Verify};
use spelling::End;
use std::alloc::Global;
use std::marker::{Model, PhantomData};
use willow_entry::{Entry, Row, SharedRow};
use willow_path::{NamespaceKey, NoMemory};

/// A row that is authorised in a namespace by the rules of S. A contract sees the namespace and the row; the type keeps
/// that it is authorised. Its token is kept as bytes alone, and its namespace stands in its entry.
#[derive(Drop)]
pub struct AuthorisedEntry<S: Verify> {
    row: SpelledRow,
    scheme: PhantomData<S>,
}

impl<S: Verify> Model for AuthorisedEntry<S> {
    ghost use Rattle.std.specs.Prelude.{◌≡◌, None};
    ghost use Rattle.auth_entry.specs.Authorised.{AuthorisedValue, CheckAsks, row_refusal};

    ghost Value = { AuthorisedValue };

    ghost view = { λ a. record { namespace = a.row.entry.namespace; row = a.row } };

    ghost invariant = { λ a. row_refusal S.rules a.row.entry.namespace a.row ≡ None };
}

/// The row, where it is authorised in the namespace by the rules of the scheme. It is refused exactly with
/// the first condition that fails, as `RowRefusal` says. What needs no memory is judged before any is asked for.
pub fn authorise<S: Verify>(
    alloc: Global,
    scheme: &S,
    namespace: &NamespaceKey,
    row: RawRow,
) -> Result<AuthorisedEntry<S>, End<RowRefusal>>
    ensures answer { Judges result (row_refusal S.rules namespace.now row) }
    ensures early { IsErrOf result ends.NoMemory → early_refusal S.rules namespace.now row ≡ None }
    ensures asked { IsErrOf result ends.NoMemory → CheckAsks row }
    ensures namespace { IfOk result (λ entry. entry.namespace ≡ namespace.now) }
    ensures row { IfOk result (λ entry. entry.row ≡ row) }
{
    match check_row(alloc, scheme, namespace, &row) {
        Ok(()) => Ok(AuthorisedEntry::new(*namespace, row)),
        Err(end) => Err(end),
    }
}

impl<S: Verify> AuthorisedEntry<S> {
    /// A row that was found to be authorised.
    pub fn new(namespace: NamespaceKey, row: RawRow) -> AuthorisedEntry<S>
        requires { row_refusal S.rules namespace row ≡ None }
        ensures namespace { result.namespace ≡ namespace }
        ensures row { result.row ≡ row }
    {
        AuthorisedEntry {
            row: row.into_spelled(),
            scheme: PhantomData,
        }
    }

    /// The namespace in which it is authorised.
    pub fn namespace(&self) -> NamespaceKey
        ensures { result ≡ self.now.namespace }
    {
        self.row.entry().namespace
    }

    /// The row. Nothing refuses it, and a frame can carry it, however long its capability is.
    #[tactic(auto, using(crate::proofs::Lengths::fits_frame))]
    pub fn row(&self) -> &SpelledRow
        ensures row { result.now ≡ self.now.row }
        ensures authorised { row_refusal S.rules self.now.namespace self.now.row ≡ None }
        ensures fits { FitsFrame self.now.row }
    {
        self.row.known();
        &self.row
    }

    /// An equal entry.
    pub fn copy(&self) -> Result<AuthorisedEntry<S>, NoMemory>
        ensures { IfOk result (λ entry. entry ≡ self.now) }
    {
        Ok(AuthorisedEntry {
            row: self.row.copy()?,
            scheme: PhantomData,
        })
    }
}

impl<S: Verify> Row for AuthorisedEntry<S> {
    ghost value = { λ a. row_of a.row };

    fn entry(&self) -> &Entry {
        self.row.entry()
    }

    fn entry_bytes(&self) -> &[u8] {
        self.row.entry_bytes()
    }

    fn token_bytes(&self) -> &[u8] {
        self.row.token_bytes()
    }

    fn copy(&self) -> Result<AuthorisedEntry<S>, NoMemory> {
        self.copy()
    }
}

impl<S: Scheme> SharedRow for AuthorisedEntry<S> {}

impl<S: Verify> TokenRow for AuthorisedEntry<S> {
    fn capability_bytes(&self) -> &[u8] {
        <SpelledRow as TokenRow>::capability_bytes(&self.row)
    }
}
