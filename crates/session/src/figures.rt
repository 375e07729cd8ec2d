// A theorem about the rules, the contract of a call.
ghost use Rattle.session.specs.Figures.{SessionFigures};

use duplex::step_counts;

// A key and a nonce take 18 steps; an example of each refusal.
pub fn session_figures()
    ensures { SessionFigures }
{
    step_counts();
}
