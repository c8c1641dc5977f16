//! Theorems: the contract of each function is one, and there is nothing to run.
ghost use Rattle.readout.specs.Decode.{ListingIsOne};

/// A text comes to one listing.
pub fn one_listing()
    ensures { ListingIsOne }
{}
