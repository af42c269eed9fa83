// A port of parts of src/verify.rs of metamath-rs 0.3.9 (verify_segment), changed (see NOTICE).
// What is told of a proof's answer, and how much of what is lent is used.
#![tactic(auto)]

ghost use Rattle.std.specs.Prelude.{◌≡◌};
ghost use Rattle.machine.specs.Memory.{limited};
ghost use Rattle.memory.specs.Shown.{room_of};
ghost use Rattle.told.specs.Says.{SaysAs, room_lent};

use answers::refusal_number;
use findings::Answer;
use memory::Limits;

// What the bench answers: number, place, completed steps. The number is no enum: it is document 01's answer, 0 to 61, which `Says` gives and C is handed.
#[derive(Clone, Copy)]
pub struct Told {
    pub number: usize,
    pub place: usize,
    pub steps: usize,
}

// The answer of a proof, with this paper's number.
pub fn tell(answer: Answer) -> Told
    ensures { SaysAs answer result }
{
    match answer {
        Ok(accepted) => Told {
            number: 0,
            place: accepted.place,
            steps: accepted.steps,
        },
        Err(x) => {
            let why = x.why;
            let number = refusal_number(why);
            Told {
                number,
                place: x.place,
                steps: x.steps,
            }
        }
    }
}

// How much of what is lent is used: at most 65,536 bytes, 1,024 entries and 4,096 places. An entry and a place have ten words each.
#[tactic(auto, unfolding(machine::specs::Memory::limited, crate::specs::Says::room_lent))]
pub fn limits_of(pool: usize, stack: usize, places: usize) -> Limits
    ensures { room_of result ≡ limited (room_lent pool stack places) }
{
    Limits {
        pool: pool.min(65536),
        stack: (stack / 10).min(1024),
        places: (places / 10).min(4096),
    }
}
