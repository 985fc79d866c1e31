// The placement of a stack for a total: its separations, and then its positions.
#![tactic(auto)]

ghost use Rattle.separations.specs.Separations.{SeparateAsks};
ghost use Rattle.solver.specs.Placing.{PlaceAsks, PlacementIs};

use arrays::{Given, SpanTable};
use positions::positions_for;
use separations::separations_for;
use stack::{Placement, Tracks};

// The placement for a total that can be had, from the table of spans.
pub fn place_in(given: &Given, total: usize, table: &SpanTable) -> Placement
    requires { PlaceAsks given.now total × SeparateAsks given.now total table.now }
    ensures { PlacementIs given.now total result }
{
    let separations = separations_for(given, total, table);
    let positions = positions_for(given, &separations);
    Placement {
        total: Tracks(total as u32),
        separations,
        positions,
    }
}
