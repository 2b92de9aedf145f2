//! Laws of the slices of a frame. The functions do nothing when they run.

ghost use Rattle.picture_plane.specs.Covering.{AnySamplesAreShown, OthersStay, PicturesAreOne, SamplesAreCovered, SlicesAreApart, SpotsAreOne};

/// Each sample of a frame stands in exactly one slice, however its coded pictures are cut.
pub fn samples_are_covered()
    ensures covered { SamplesAreCovered }
    ensures once { SpotsAreOne }
{}

/// Slices that are put into a picture one by one leave each other, since they are apart.
pub fn slices_keep_apart()
    ensures apart { SlicesAreApart }
    ensures stay { OthersStay }
{}

/// What its slices show is the whole picture.
pub fn slices_show_one_picture()
    ensures { PicturesAreOne }
{}

/// Whatever samples its slices have, there is a picture that shows them.
pub fn any_samples_are_shown()
    ensures { AnySamplesAreShown }
{}
