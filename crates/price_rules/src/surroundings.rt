//! The limits next to the place where demand and supply cross.

ghost use Rattle.tick_ladder.specs.TickLadder.{IsLadder};
ghost use Rattle.price_rules.specs.Around.{IsAround};

use tick_ladder::{Crossing, Ladder};

/// The crossing, with the two occupied places before it and the first one after it.
#[derive(Clone, Copy)]
pub struct Around {
    pub crossing: Crossing,
    pub far: Option<usize>,
    pub near: Option<usize>,
    pub after: Option<usize>,
}

/// Finds the crossing and the limits next to it.
pub fn look_around(ladder: &Ladder) -> Around
    ensures value { IsAround ladder.now result }
    ensures sound { IsLadder ladder.now }
{
    let crossing = ladder.crossing();
    let near = ladder.last_before(crossing.place);
    let far = match near {
        Some(place) => ladder.last_before(place),
        None => None,
    };
    Around {
        crossing,
        far,
        near,
        after: ladder.first_from(crossing.place + 1),
    }
}
