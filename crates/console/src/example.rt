// A theorem about the rules of the bench, as the contract of a call.
ghost use Rattle.console.specs.Example.{WorkedExample};

// What a script of seven lines prints.
pub fn worked_example()
    ensures { WorkedExample }
{}
