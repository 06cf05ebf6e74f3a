// What the prover has checked of the machine of one head.
ghost use Rattle.head.specs.Cases.{WorkedCases};
ghost use Rattle.head.specs.WiredCases.{WiredCases};
ghost use Rattle.head.specs.Samples.{SampleRuns};
ghost use Rattle.head.specs.Rising.{NeverFalls};
ghost use Rattle.head.specs.Ranges.{StaysInRange};
ghost use Rattle.head.specs.Leaves.{Leaves, StaysInOrder};

/// What the machine answers and puts in the worked cases, and in three runs of random calls.
pub fn worked_cases()
    ensures cases { WorkedCases }
    ensures runs { SampleRuns }
    ensures wired { WiredCases }
{}

/// No call takes back what a head has, every frame that it puts can be written, and each call leaves as it was all but what its answer says.
pub fn head_laws()
    ensures never_falls { NeverFalls }
    ensures stays_in_range { StaysInRange }
    ensures leaves { Leaves }
    ensures stays_in_order { StaysInOrder }
{}
