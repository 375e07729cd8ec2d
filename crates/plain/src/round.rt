// The round on 257 cells.
ghost use Rattle.std.specs.Prelude.{◌≡◌, ℕ, ◌%◌, ◌<◌, List};
ghost use Rattle.duplex.specs.State.{state, chi_bit, theta_bit, pi_bit, round};

// What bit i of the next state is.
trait Rule {
    ghost rule: { List ℕ → ℕ → ℕ };

    fn bit(s: &[u8; 257], i: usize) -> u8
        requires { i < 257 }
        ensures { result ≡ rule s.now i };
}

// The state that a rule makes of another.
fn apply<R: Rule>(s: &[u8; 257]) -> [u8; 257]
    ensures { result ≡ state (R.Rule.rule s.now) }
{
    let mut t = [0u8; 257];
    for i in 0..257 {
        t[i] = R::bit(s, i);
    }
    t
}

// k modulo 257, with no division.
fn wrapped(k: usize) -> usize
    requires { k < 514 }
    ensures { result ≡ k % 257 }
{
    if k < 257 { k } else { k - 257 }
}

struct Chi;

impl Rule for Chi {
    ghost rule = { chi_bit };

    fn bit(s: &[u8; 257], i: usize) -> u8 {
        s[i] ^ ((s[wrapped(i + 1)] ^ 1) & s[wrapped(i + 2)])
    }
}

struct Theta;

impl Rule for Theta {
    ghost rule = { theta_bit };

    fn bit(s: &[u8; 257], i: usize) -> u8 {
        s[i] ^ s[wrapped(i + 3)] ^ s[wrapped(i + 8)]
    }
}

struct Pi;

impl Rule for Pi {
    ghost rule = { pi_bit };

    fn bit(s: &[u8; 257], i: usize) -> u8 {
        s[12 * i % 257]
    }
}

// Chi, iota, theta and pi, each on all the cells that the one before left.
pub fn rounded(s: &[u8; 257]) -> [u8; 257]
    ensures { result ≡ round s.now }
{
    let mut t = apply::<Chi>(s);
    t[0] ^= 1;
    apply::<Pi>(&apply::<Theta>(&t))
}
