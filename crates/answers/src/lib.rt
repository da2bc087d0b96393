// What every call gives back, and the checks that calls begin with: up to those of a map for all, up to 7 for the calls on a side,
// up to 8 for those on a layer.
#![tactic(auto)]

pub use all::opening;
pub use layer::{opening_layer, opening_wall};
pub use refusals::{Reason, Refused};
pub use side::opening_side;

mod all;
mod broken;
mod layer;
mod side;

ghost use Rattle.std.specs.Prelude.{◌≡◌};
ghost use Rattle.answers.specs.Answers.{told};

// "Every call gives number, place, count": the place and the count of a call that is carried out.
#[derive(Clone, Copy, Debug, PartialEq, Eq)]
pub struct Done {
    pub place: u32,
    pub count: u32,
}

// What a call gives: that it is carried out, by number 0, or why it is refused.
pub type Answer = Result<Done, Refused>;

// The three numbers of an answer, as a program is told them.
#[derive(Clone, Copy, Debug, PartialEq, Eq)]
pub struct Told {
    pub number: u32,
    pub place: u32,
    pub count: u32,
}

impl From<Answer> for Told {
    ghost from_gives = { λ answer given. given ≡ told answer };

    fn from(answer: Answer) -> Told {
        match answer {
            Ok(done) => Told {
                number: 0,
                place: done.place,
                count: done.count,
            },
            Err(refused) => Told {
                number: refused.reason.number(),
                place: refused.place,
                count: refused.count,
            },
        }
    }
}
