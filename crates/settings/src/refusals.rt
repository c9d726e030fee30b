// The scope's refusals, and how a call ends.
ghost use Rattle.std.specs.Prelude.{◌≡◌};
ghost use Rattle.settings.specs.Refusals.{number_of, ending_of, outcome_number};

// The refusals, each with its number in the scope's table.
#[derive(Clone, Copy, PartialEq, Eq, Debug)]
pub enum Refusal {
    Damaged = 1,
    BadPlace = 2,
    Newer = 3,
    BadSheet = 4,
    OtherFeatures = 5,
    BadArgument = 6,
    BadSelector = 7,
    Range = 8,
    NoRoom = 9,
    NoSpace = 10,
    None = 11,
    BadOpening = 12,
}

// How a call ends that answers nothing else.
pub type Outcome = Result<(), Refusal>;

// The number of a refusal, 1 to 12.
pub fn refusal_number(x: Refusal) -> u32
    ensures { result ≡ number_of x }
{
    x as u32
}

// The number of an ending: 0 where the call was taken.
pub fn outcome_number<T>(answer: &Result<T, Refusal>) -> u32
    ensures { result ≡ outcome_number (ending_of answer.now) }
{
    match answer {
        Ok(_) => 0,
        Err(x) => refusal_number(*x),
    }
}
