// Small runs on new locks and books, worked out by hand, as one table.
#![tactic(auto)]

ghost use Rattle.std.specs.Prelude.{◌≡◌, [], ◌∷◌};
ghost use Rattle.worked.specs.Bounds.{ruled};
ghost use Rattle.worked.specs.Table.{Worked};

use array::Array;
use clh::Clh;
use lock::Lock;
use mcs::Mcs;
use tas::Tas;
use ticket::Ticket;

// Says only that every row of the table comes out as it says, by the definitions that the contracts of the calls name.
pub fn worked_cases()
    ensures { Worked }
{}

// The constants of the kinds, as numbers: they are the bounds that the rules go by.
pub fn bounds() -> [u32; 5]
    ensures value { result ≡ 2 ∷ 5 ∷ 4 ∷ 10 ∷ 5 ∷ [] }
    ensures ruled { result ≡ ruled }
{
    [
        Tas::BOUND,
        Ticket::BOUND,
        Array::BOUND,
        Mcs::BOUND,
        Clh::BOUND,
    ]
}
