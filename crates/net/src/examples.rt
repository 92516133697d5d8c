// The worked examples of the rules.
ghost use Rattle.net.specs.Examples.{ExamplesHold};

// States that the rules give what the worked examples say. It runs nothing: the examples are computed by the proof.
pub fn examples_hold()
    ensures { ExamplesHold }
{}
