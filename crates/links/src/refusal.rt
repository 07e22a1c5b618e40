// Why a call is refused.
ghost use Rattle.std.specs.Prelude.{◌≡◌};
ghost use Rattle.links.specs.Refusals.{refusal_number, number_of};

// The causes of the papers, each with its number there.
#[derive(Clone, Copy, PartialEq, Eq, Debug)]
pub enum Refusal {
    InvalidOptions = 1,
    InvalidRankCount = 2,
    LimitPassed = 3,
    InvalidLists = 4,
    SliceTooShort = 5,
    GroupAboveCap = 6,
    FewerGroupsThanRanks = 7,
    GrowthStuck = 8,
    EmptyRank = 9,
    MalformedFile = 10,
    VertexOutOfRange = 11,
    RankOutOfRange = 12,
    InvalidWorkloads = 13,
    LoneVertex = 14,
    InvalidSwaps = 17,
    OwnersNotOnePerVertex = 18,
    InvalidWindows = 19,
    TooFewDays = 20,
    InvalidVisits = 21,
    InvalidSizes = 22,
}

impl Refusal {
    // Rules out: a case's place in the list for its number; 0 for a refusal.
    pub fn number(self) -> u32
        ensures { result ≡ refusal_number self }
    {
        self as u32
    }
}

// The refusal's number, 0 for none.
// Rules out: 0 for a refusal; 1 for an answer.
pub fn number_of<T: Copy + Drop>(answer: Result<T, Refusal>) -> u32
    ensures { result ≡ number_of answer }
{
    match answer {
        Ok(_) => 0,
        Err(refusal) => refusal.number(),
    }
}
