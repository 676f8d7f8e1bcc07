//! The capabilities that are to be checked, each once.

ghost use Rattle.std.specs.Prelude.{◌≡◌, ◌<◌, ℕ, Some, slice_get, length, IfOk, IfSome};
ghost use Rattle.mc_cap.specs.Forms.{IsCapability};
ghost use Rattle.mc_cap.specs.declared.capability.Capability.{Capability};
ghost use Rattle.auth_entry.specs.Places.{carried};

use cap_codec::RawRow;
use spelling::NoMemory;
use std::alloc::Global;
use std::collections::BTreeMap;
use std::marker::Model;

/// The capabilities of rows that are to be checked, each once, in the order in which they came. A contract sees their
/// list.
#[derive(Drop)]
pub(crate) struct Unknown<'r> {
    // The first row that carries it, of each.
    rows: Vec<&'r RawRow>,
    // The place of each, by its bytes, which stay in that row. Whatever bytes a peer chooses, few are compared to find them.
    places: BTreeMap<&'r [u8], usize>,
}

impl<'r> Model for Unknown<'r> {
    ghost use Rattle.std.specs.Prelude.{List};
    ghost use Rattle.mc_cap.specs.declared.capability.Capability.{Capability};
    ghost use Rattle.auth_entry.specs.Places.{carried, ArePlaces};

    ghost Value = { List Capability };

    ghost view = { λ u. carried u.rows.items };

    ghost invariant = { λ u. ArePlaces u.rows.items u.places };
}

impl<'r> Unknown<'r> {
    /// None is to be checked.
    pub(crate) fn new(alloc: Global) -> Unknown<'r> {
        Unknown {
            rows: Vec::new(alloc),
            places: BTreeMap::new(alloc),
        }
    }

    /// The place of the row's capability among them. Where it is not there yet it comes behind the others.
    pub(crate) fn place_of(&mut self, row: &'r RawRow) -> Result<usize, NoMemory>
        ensures here { IfOk result (λ at. slice_get self.new at ≡ Some row.now.token.capability) }
        ensures stay { (at : ℕ) (c : Capability) → slice_get self.old at ≡ Some c → slice_get self.new at ≡ Some c }
    {
        row.known();
        if let Some(place) = self.places.get(row.capability_bytes()) {
            let place = *place;
            self.known_at(place);
            return Ok(place);
        }
        self.add(row)
    }

    // Puts the row's capability behind the others.
    fn add(&mut self, row: &'r RawRow) -> Result<usize, NoMemory>
        ensures here { IfOk result (λ at. slice_get self.new at ≡ Some row.now.token.capability) }
        ensures stay { (at : ℕ) (c : Capability) → slice_get self.old at ≡ Some c → slice_get self.new at ≡ Some c }
    {
        let place = self.rows.len();
        self.rows.push(row)?;
        self.places.insert(row.capability_bytes(), place)?;
        Ok(place)
    }

    // Does nothing: it is called for its clause, that the capability at a place is within its limits.
    fn known_at(&self, place: usize)
        requires { place < length self.now }
        ensures { IfSome (slice_get self.now place) IsCapability }
    {
        self.rows[place].known();
    }

    /// The first row that carries it, of each.
    pub(crate) fn rows(&self) -> &[&'r RawRow]
        ensures { carried result.now ≡ self.now }
    {
        &self.rows
    }
}
