// The machine that a program is for.
ghost use Rattle.std.specs.Prelude.{◌≡◌, ◌≤◌};
ghost use Rattle.sigma_spl.specs.Shared.Machine as machine;
ghost use Rattle.sigma_spl.specs.Views.{plain_work};
ghost use Rattle.code_gen.specs.Views.{plain_frame, plain_host};

use ring_mod::Modulus;
use sigma_spl::Work;

/// A machine: the words of an array, residues of a modulus, the processors, the words of a line and the lanes of a
/// register.
#[derive(Drop)]
pub(crate) struct Host {
    pub size: u64,
    pub modulus: Modulus,
    pub procs: u64,
    pub line: u64,
    pub lanes: u64,
}

/// What the variables of a nest's places stand for.
#[derive(Clone, Copy, Debug)]
pub struct Frame {
    /// Whether several processors share the nest: then variable 0 is the processor's.
    pub shared: bool,
    /// The variable of the outermost loop.
    pub first_loop: u64,
}

fn one_if_several(count: u64) -> u64
    ensures value { result ≡ machine.one_if_several count }
    ensures limit { result ≤ 1 }
{
    if count == 1 { 0 } else { 1 }
}

// How many variables the lanes have: a tile has its items on the lanes, other work a copy on each.
fn lane_variables(host: &Host, work: &Work) -> u64
    ensures value { result ≡ machine.lane_variables (plain_host host.now) (plain_work work.now) }
    ensures limit { result ≤ 1 }
{
    match work {
        Work::Tile { .. } => 0,
        _ => one_if_several(host.lanes),
    }
}

/// The frame of a nest that does this work.
pub(crate) fn frame_of(host: &Host, work: &Work) -> Frame
    ensures { plain_frame result ≡ machine.frame_of (plain_host host.now) (plain_work work.now) }
{
    Frame {
        shared: host.procs != 1,
        first_loop: one_if_several(host.procs) + lane_variables(host, work),
    }
}
