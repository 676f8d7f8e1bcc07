//! What holds of images.

ghost use Rattle.peer_image.specs.Fronts.{FrontsDecideOrder, FrontsGoOn};
ghost use Rattle.peer_image.specs.Order.{IsOrder, IsOrderOfLive};
ghost use Rattle.peer_image.specs.ImageOneReading.{header_at, header_spelling, image_one_spelling, ImagesOneNeverGoWrong, FitsImage, HaveOneImageOne, HaveOnePlaceOne, ReadsBackOne};
ghost use Rattle.peer_image.specs.ImageReading.{image_two_spelling, FitsImageTwo, HaveOneImage, HaveOneImageTwo, HaveOnePlace, HaveOnePlaceTwo, HaveOneSpellingTwo, ImagesNeverGoWrong, ImagesTwoNeverGoWrong, ReadBackAlike, ReadsBack, SpellTheSame};
ghost use Rattle.spelling.specs.Form.{IsForm};
ghost use Rattle.spelling.specs.Reader.{IsReader};
ghost use Rattle.willow_path.specs.Key.{IsKey};

/// The reader of the header of an image of version 1 goes by the spelling alone: the text WIM1 and a key are whole exactly where they
/// stand in front, a part exactly where the bytes begin them and more is due, and wrong exactly where none begins so.
#[tactic(auto, using(crate::proofs::OneStops::header_reader))]
pub fn header()
    ensures { IsReader header_at header_spelling IsKey }
{}

/// Rows are not refused for their order exactly where they rise by subspace and path, and none dominates another.
pub fn order_decides()
    ensures { IsOrder }
{}

/// Rows of one namespace are not refused for their order exactly where a store keeps them all, in this order.
pub fn order_of_live()
    ensures { IsOrderOfLive }
{}

/// Where rows are in order, further ones are so behind them exactly where they are behind those of the rows that stand at
/// prefixes of the last.
pub fn fronts_decide_order()
    ensures { FrontsDecideOrder }
{}

/// Where all are in order, those that stand at prefixes of the last of all are found among the further ones and those that
/// stood at prefixes of the last one before.
pub fn fronts_go_on()
    ensures { FrontsGoOn }
{}

/// Bytes are the image of at most one list of rows, of one namespace, in whatever version.
pub fn one_image()
    ensures { HaveOneImage }
{}

/// Bytes that are no image go wrong at one place.
pub fn one_place()
    ensures { HaveOnePlace }
{}

/// An image goes wrong nowhere.
pub fn never_both()
    ensures { ImagesNeverGoWrong }
{}

/// The image of live rows of one namespace is read back as just these.
pub fn spells()
    ensures { ReadsBack }
{}

/// A namespace with rows has one image of version 1, which begins that of no other.
pub fn one_form()
    ensures { IsForm image_one_spelling FitsImage }
{}

/// Bytes are the image of version 1 of at most one list of rows, of one namespace.
pub fn one_image_one()
    ensures { HaveOneImageOne }
{}

/// Bytes that are no image of version 1 go wrong at one place.
pub fn one_place_one()
    ensures { HaveOnePlaceOne }
{}

/// An image of version 1 goes wrong nowhere.
pub fn never_both_one()
    ensures { ImagesOneNeverGoWrong }
{}

/// The image of version 1 of live rows of one namespace is read back as just these.
pub fn spells_one()
    ensures { ReadsBackOne }
{}

/// A namespace with rows has one image of version 2, which begins that of no other.
pub fn one_form_two()
    ensures { IsForm image_two_spelling FitsImageTwo }
{}

/// An image of version 2 that is read and written again has the same bytes.
pub fn one_spelling_two()
    ensures { HaveOneSpellingTwo }
{}

/// Bytes are the image of version 2 of at most one list of rows, of one namespace.
pub fn one_image_two()
    ensures { HaveOneImageTwo }
{}

/// Bytes that are no image of version 2 go wrong at one place.
pub fn one_place_two()
    ensures { HaveOnePlaceTwo }
{}

/// An image of version 2 goes wrong nowhere.
pub fn never_both_two()
    ensures { ImagesTwoNeverGoWrong }
{}

/// The image of version 1 of a namespace and rows and their image of version 2 spell equal values: each is an image of
/// just this namespace and these rows.
pub fn spell_the_same()
    ensures { SpellTheSame }
{}

/// Live rows of one namespace are read back as just these from either image.
pub fn read_back_alike()
    ensures { ReadBackAlike }
{}
