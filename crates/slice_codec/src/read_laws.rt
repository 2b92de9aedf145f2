//! Laws of what a slice's bytes mean. The functions do nothing when they run.

ghost use Rattle.slice_codec.specs.Reading.{CodedSlicesMean, RefusalsAreOne, RefusedMeansNothing, SlicesMeanOne};

/// Bytes mean one list of samples.
pub fn slices_mean_one()
    ensures { SlicesMeanOne }
{}

/// Bytes that are refused mean no samples.
pub fn refused_means_nothing()
    ensures { RefusedMeansNothing }
{}

/// Bytes that are refused are refused by one fault.
pub fn refusals_are_one()
    ensures { RefusalsAreOne }
{}

/// What is written is read back as the samples that its levels give.
pub fn coded_slices_mean()
    ensures { CodedSlicesMean }
{}
