// Worked cases: in each topic what the definitions compute of a few inputs, most of them the pillow, is what the topic's file in specs/
// states.

ghost use Rattle.cases.specs.Roots.{RootsHold};
ghost use Rattle.cases.specs.Rounds.{RoundsHold};
ghost use Rattle.cases.specs.SharpEdges.{SharpEdgesHold};
ghost use Rattle.cases.specs.Spreading.{SpreadingHolds};
ghost use Rattle.cases.specs.CreateQuestions.{CreateQuestionsHold};
ghost use Rattle.cases.specs.Entries.{EntriesHold};
ghost use Rattle.cases.specs.Creases.{CreasesHold};
ghost use Rattle.cases.specs.Makings.{MakingsHold};
ghost use Rattle.cases.specs.Curves.{CurvesHold};
ghost use Rattle.cases.specs.Stl.{StlHolds};
ghost use Rattle.cases.specs.Records.{RecordsHold};
ghost use Rattle.cases.specs.Output.{OutputHolds};
ghost use Rattle.cases.specs.Limits.{LimitsHold};

// Law: 2, the largest and the smallest value have the stated square roots (specs/Roots.antt).
#[tactic(auto, using(crate::proofs::Roots::roots_hold))]
pub fn roots_hold()
    ensures { RootsHold }
{}

// Law: the halfedges around the pillow's points are in the stated order (specs/Rounds.antt).
#[tactic(auto, using(crate::proofs::Rounds::rounds_hold))]
pub fn rounds_hold()
    ensures { RoundsHold }
{}

// Law: the pillow's sharp edges are the stated ones by both rules, with slivers too (specs/SharpEdges.antt).
#[tactic(auto, using(crate::proofs::SharpEdges::sharp_edges_hold))]
pub fn sharp_edges_hold()
    ensures { SharpEdgesHold }
{}

// Law: spreading and its preview give the stated numbers and bytes (specs/Spreading.antt).
#[tactic(auto, using(crate::proofs::Spreading::spreading_holds))]
pub fn spreading_holds()
    ensures { SpreadingHolds }
{}

// Law: `create_tangents` accepts and refuses as stated (specs/CreateQuestions.antt).
#[tactic(auto, using(crate::proofs::Create::create_questions_hold))]
pub fn create_questions_hold()
    ensures { CreateQuestionsHold }
{}

// Law: edges have the stated entries, and a flat face adds the stated ones (specs/Entries.antt).
#[tactic(auto, using(crate::proofs::Create::entries_hold))]
pub fn entries_hold()
    ensures { EntriesHold }
{}

// Law: the creases at a point are in the stated order, and are to it what is stated (specs/Creases.antt).
#[tactic(auto, using(crate::proofs::Create::creases_hold))]
pub fn creases_hold()
    ensures { CreasesHold }
{}

// Law: a making fixes, counts and sharpens as stated (specs/Makings.antt).
#[tactic(auto, using(crate::proofs::Create::makings_hold))]
pub fn makings_hold()
    ensures { MakingsHold }
{}

// Law: 0, -0 and 1 are parameters of a curve and the numbers next to them outside are not; of control points 1e200 apart the direction
// is zero, and of an infinite one it is not a number (specs/Curves.antt).
#[tactic(auto, using(crate::proofs::Curves::curves_hold))]
pub fn curves_hold()
    ensures { CurvesHold }
{}

// Law: the tetrahedron is read as stated, and the other files are refused (specs/Stl.antt).
#[tactic(auto, using(crate::proofs::Stl::stl_holds))]
pub fn stl_holds()
    ensures { StlHolds }
{}

// Law: the program's inputs, and numbers in them, are read as stated (specs/Records.antt).
#[tactic(auto, using(crate::proofs::Program::records_hold))]
pub fn records_hold()
    ensures { RecordsHold }
{}

// Law: the program writes the stated lines (specs/Output.antt).
#[tactic(auto, using(crate::proofs::Program::output_holds))]
pub fn output_holds()
    ensures { OutputHolds }
{}

// Law: the limits and sizes that the definitions name by the code's constants are the stated numbers (specs/Limits.antt).
#[tactic(auto, using(crate::proofs::Limits::limits_hold))]
pub fn limits_hold()
    ensures { LimitsHold }
{}
