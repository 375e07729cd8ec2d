// Runs of bytes.
ghost use Rattle.std.specs.Prelude.{◌≡◌, ◌≤◌, length, position};
ghost use Rattle.wording.specs.Runs.{blank, ends_run, run_length};

// Where a run of bytes ends: at a byte, at a blank, or at what is no blank. No closure, since one as a parameter of a public function would need a `requires` that it may be called, and no public function here asks anything of its caller.
#[derive(Clone, Copy)]
pub enum Stop {
    Byte(u8),
    Blank,
    Word,
}

fn is_blank(c: u8) -> bool
    ensures { result ≡ blank c }
{
    c == b' ' || c == b'\t' || c == b'\r'
}

fn stops(stop: Stop, c: u8) -> bool
    ensures { result ≡ ends_run stop c }
{
    match stop {
        Stop::Byte(b) => c == b,
        Stop::Blank => is_blank(c),
        Stop::Word => !is_blank(c),
    }
}

// The place of the first byte that ends a run.
fn first_stop(text: &[u8], stop: Stop) -> Option<usize>
    ensures { result ≡ position (ends_run stop) text.now }
{
    text.iter().position(|c| stops(stop, *c))
}

// The length of the run at the front of a text. That it is within the text follows; said here, it saves callers the proof.
pub fn run_length(text: &[u8], stop: Stop) -> usize
    ensures value { result ≡ run_length stop text.now }
    ensures within { result ≤ length text.now }
{
    first_stop(text, stop).unwrap_or(text.len())
}
