// The generator of random turns, a linear congruence, and many of its steps at once.

ghost use Rattle.std.specs.Prelude.{◌≡◌, ℕ};
ghost use Rattle.schedules.specs.Stride.{moved, Makes};
ghost use Rattle.schedules.specs.Turns.{next_state, state_after};

/// Steps of the generator as one: a state v becomes v * multiplier + increment, modulo 2^64.
#[derive(Clone, Copy)]
struct Stride {
    multiplier: u64,
    increment: u64,
}

/// No step.
const NONE: Stride = Stride {
    multiplier: 1,
    increment: 0,
};

/// One step.
const ONE: Stride = Stride {
    multiplier: 6_364_136_223_846_793_005,
    increment: 1_442_695_040_888_963_407,
};

impl Stride {
    /// This stride and then the next one, which is a stride again.
    fn then(self, next: Stride) -> Stride
        ensures { (v : ℕ) → moved result v ≡ moved next (moved self v) }
    {
        Stride {
            multiplier: self.multiplier.wrapping_mul(next.multiplier),
            increment: self
                .increment
                .wrapping_mul(next.multiplier)
                .wrapping_add(next.increment),
        }
    }

    fn from(self, state: u64) -> u64
        ensures { result ≡ moved self state }
    {
        state
            .wrapping_mul(self.multiplier)
            .wrapping_add(self.increment)
    }
}

/// `count` steps, by doubling.
fn stride_of(count: u64) -> Stride
    ensures { Makes result count }
{
    if count == 0 {
        return NONE;
    }
    let half = stride_of(count / 2);
    let double = half.then(half);
    if count % 2 == 0 {
        double
    } else {
        double.then(ONE)
    }
}

/// The generator's next state.
pub fn next_state(state: u64) -> u64
    ensures { result ≡ next_state state }
{
    ONE.from(state)
}

/// The state after `count` steps.
pub(crate) fn state_after(seed: u64, count: u64) -> u64
    ensures { result ≡ state_after count seed }
{
    stride_of(count).from(seed)
}
