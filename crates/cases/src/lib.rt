// The exact lines, the worked cases of spreading's two walks, and the program's outputs for the pillow. specs/ has them, each with what
// the definitions compute and what is stated, and proofs/ proves them by computation. There is no code here: a function is a law, which
// its contract states.
#![tactic(auto)]

pub mod worked;

ghost use Rattle.cases.specs.Lines.{LinesHold};
ghost use Rattle.cases.specs.Traps.{TrapsHold};
ghost use Rattle.cases.specs.Listing.{ListingHolds};

// Law: each exact line computes what it states (specs/Lines.antt).
#[tactic(auto, using(crate::proofs::Hold::lines_hold))]
pub fn lines_hold()
    ensures { LinesHold }
{}

// Law: so does each worked case of spreading's two walks (specs/Traps.antt).
#[tactic(auto, using(crate::proofs::Traps::traps_hold))]
pub fn traps_hold()
    ensures { TrapsHold }
{}

// Law: the program writes these bytes for the pillow (specs/Listing.antt).
#[tactic(auto, using(crate::proofs::Listing::listing_holds))]
pub fn listing_holds()
    ensures { ListingHolds }
{}
