// A theorem about the rules, the contract of a call.
ghost use Rattle.link.specs.Figures.{FrameFigures};

// Worked figures of frames: lengths, the last number, and an example of each refusal.
pub fn frame_figures()
    ensures { FrameFigures }
{}
