//! How deep productions may nest.

ghost use Rattle.std.specs.Prelude.{◌≡◌, ◌<◌, ◌+◌, IfOk};
ghost use Rattle.stan_places.specs.Gives.{Gives};
ghost use Rattle.stan_stmt_parts.specs.Gives as spec;

use stan_places::stop::Stop;

/// How many levels may be open at most.
pub const MOST: u32 = 200;

/// How deep productions may still nest, and how many levels are open.
#[derive(Clone, Copy, Debug)]
pub struct Depth {
    pub room: u32,
    pub levels: u32,
}

/// The depth inside a production that opens so many levels: `Absent` where it would be too deep.
pub fn enter(depth: Depth, weight: u32) -> Result<Depth, Stop>
    requires { weight < 2 }
    ensures depth { Gives (λ x. x) result (spec.enter depth weight) }
    ensures room { IfOk result (λ d. d.room + 1 ≡ depth.room) }
{
    if depth.room == 0 {
        return Err(Stop::Absent);
    }
    if depth.levels > MOST - weight {
        return Err(Stop::Absent);
    }
    Ok(Depth {
        room: depth.room - 1,
        levels: depth.levels + weight,
    })
}
