//! Who is to go on.

ghost use Rattle.std.specs.Prelude.{◌<◌};

// What is added to the state of a seed at each choice, and what its bits are mixed by: those of splitmix64.
const STEP: u64 = 0x9e37_79b9_7f4a_7c15;

const FIRST_MIX: u64 = 0xbf58_476d_1ce4_e5b9;

const SECOND_MIX: u64 = 0x94d0_49bb_1331_11eb;

/// What picks one of those that can go on.
#[derive(Drop)]
pub enum Chooser {
    /// By numbers that look random, and are the same for the same seed.
    Seed(u64),
    /// By their places: those of the path, and the first one after its end.
    Path(Vec<usize>),
}

// Bits that look random.
fn mixed(state: u64) -> u64 {
    let once = (state ^ (state >> 30)).wrapping_mul(FIRST_MIX);
    let twice = (once ^ (once >> 27)).wrapping_mul(SECOND_MIX);
    twice ^ (twice >> 31)
}

// A place below that number.
fn place_below(bits: u64, options: usize) -> usize
    requires { 0 < options }
    ensures { result < options }
{
    let place = bits.checked_rem(options as u64).unwrap_or(0);
    usize::try_from(place).unwrap_or(0)
}

impl Chooser {
    // The place that is to be taken of so many, after so many choices. A path may name one that isn't there.
    pub(crate) fn place(&mut self, made: usize, options: usize) -> usize
        requires { 0 < options }
    {
        match self {
            Chooser::Seed(state) => {
                *state = state.wrapping_add(STEP);
                place_below(mixed(*state), options)
            }
            Chooser::Path(path) => path.get(made).copied().unwrap_or(0),
        }
    }
}
