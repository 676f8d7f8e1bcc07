//! What holds of files, and of runs of keeps.

ghost use Rattle.log_keeper.specs.BadLogs.{AreReadOneWay};
ghost use Rattle.log_keeper.specs.LogFile.{HoldsOneWay};
ghost use Rattle.log_keeper.specs.Slices.{AreShort};
ghost use Rattle.log_keeper.specs.Runs.{HoldsAllFromThenOn, HoldsAtAnyStop, IsStoreAtAnyStop, IsStoreFromThenOn};

use row_stream::laws::one_reading;
use willow_entry::RowForm;
use willow_outside::Disk;

/// After a stop at any moment of a keep the file holds the rows that it held at first, then those of all slices that were
/// answered Ok, and then nothing or the slice.
pub fn at_any_stop<F: RowForm, D: Disk>()
    ensures { HoldsAtAnyStop F.IsRow D.facts D.may_leave D.moment D.left_since }
{}

/// From the last Ok of all on the file holds the rows that it held at first and all slices that were answered Ok.
pub fn from_then_on<F: RowForm, D: Disk>()
    ensures { HoldsAllFromThenOn F.IsRow D.facts D.may_leave D.moment D.left_since }
{}

/// So after a stop at any moment of a keep the file makes, with the opening rows of a log whose slices these are, the store at
/// a front of that log, which is not below the end of the last slice that was answered Ok.
pub fn store_at_any_stop<F: RowForm, D: Disk>()
    ensures { IsStoreAtAnyStop F.IsRow D.facts D.may_leave D.moment D.left_since }
{}

/// And from the last Ok of all on.
pub fn store_from_then_on<F: RowForm, D: Disk>()
    ensures { IsStoreFromThenOn F.IsRow D.facts D.may_leave D.moment D.left_since }
{}

/// A slice of at most 256 rows has fewer than 2^26 bytes in a file.
pub fn slices_are_short<F: RowForm>()
    ensures { AreShort F.IsRow }
{}

/// A file holds rows in one way.
pub fn holds_one_way<F: RowForm>()
    ensures { HoldsOneWay F.IsRow }
{
    one_reading::<F>();
}

/// A file holds no log, or a log of some rows, or a log that goes wrong at one place.
pub fn read_one_way<F: RowForm>()
    ensures { AreReadOneWay F.IsRow }
{
    one_reading::<F>();
}
