// The machine that a request names.
ghost use Rattle.std.specs.Prelude.{◌≡◌};
ghost use Rattle.sigma_spl.specs.Shared.Targets.{target_of};

use operators::Target;
use tree_model::Ctx;

/// The machine of a request.
pub fn target_of(c: &Ctx) -> Target
    ensures { result ≡ target_of c.now }
{
    let request = c.request();
    Target {
        size: request.size,
        modulus: request.modulus,
        procs: request.procs,
        line: request.line,
        lanes: request.lanes,
    }
}
