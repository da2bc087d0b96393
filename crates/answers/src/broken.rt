// The refusals of a table that is no map.
ghost use Rattle.std.specs.Prelude.{◌≡◌, false};
ghost use Rattle.model.specs.Map.{least_breaking, is_map};
ghost use Rattle.model.specs.Checks.{in_order, pass, dim_ok, map_checks};
ghost use Rattle.answers.specs.Openings.{refusing};

use crate::{Reason, Refused};
use reading::Rule;

// The first rule that d breaks, with the least link that breaks it, where d is the least slot that breaks a rule.
pub fn broken_rule(n: u32, table: &[u32], d: u32) -> Refused
    requires { (dim_ok n ≡ pass) × (is_map n table.now ≡ false) × (d ≡ least_breaking n table.now) }
    ensures { in_order (map_checks n table.now) ≡ refusing result }
{
    if let Some(dead) = reading::breaking_link(n, table, d, Rule::LinksLive) {
        return Refused {
            reason: Reason::LinkNotLive,
            place: d,
            count: dead,
        };
    }
    if let Some(lost) = reading::breaking_link(n, table, d, Rule::LinksReturn) {
        return Refused {
            reason: Reason::LinkNotReturned,
            place: d,
            count: lost,
        };
    }
    if let Some(lower) = reading::breaking_link(n, table, d, Rule::PairsCommute) {
        return Refused {
            reason: Reason::PairNotReturning,
            place: d,
            count: lower,
        };
    }
    // n is 2, and link 3 leaves d
    Refused {
        reason: Reason::Link3NotFree,
        place: d,
        count: 3,
    }
}
