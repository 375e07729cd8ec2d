// Work that is done again and again.
ghost use Rattle.std.specs.Prelude.{ℕ, List};
ghost use Rattle.load.specs.Turns.{Turned};

// Something that takes a text and fills an output buffer, and may go on from where it was. It is no closure: the clauses would stand inside the call of `repeat` and be no plainer.
pub(crate) trait Work {
    // What a turn with a text may make of a value and a buffer.
    ghost turned: { List ℕ → Self × List ℕ → Self × List ℕ → Type 0 };

    fn turn(&mut self, text: &[u8], out: &mut [u8])
        ensures { turned text.now (self.old, out.old) (self.new, out.new) };
}

// So many turns with one text.
#[tactic(auto, unfolding(crate::specs::Turns::Turned))]
pub(crate) fn repeat<W: Work>(work: &mut W, text: &[u8], out: &mut [u8], count: u32)
    ensures { Turned (W.Work.turned text.now) count (work.old, out.old) (work.new, out.new) }
{
    for _ in 0..count {
        work.turn(text, out);
    }
}
