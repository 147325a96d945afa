// Why a paper is refused, and which paper is at fault, by document 01's numbers.
ghost use Rattle.std.specs.Prelude.{◌≡◌};
ghost use Rattle.basics.specs.Faults.{number_of, paper_of, fault_in, fault_unless, blamed};

/// Why a paper is refused.
#[derive(Clone, Copy, Debug, PartialEq, Eq)]
pub enum Fault {
    BitsRunOut = 1,
    FormDiffers = 2,
    OutsideLimit = 3, // N, E, M, K or clock
    LinkBroken = 4,
    TypeBroken = 5,
    FillBroken = 6, // fill not zero, or bytes follow
    RecordBroken = 7, // a record's number too wide for its field, or an unused cell not zero
    CountsDiffer = 10, // the plan's N or K differs from the job's
    OrderBroken = 11, // within a type a selected instance precedes an unselected one
    RowInstance = 12, // not below K
    RowKind = 13, // the instance cannot do it
    RowUnselected = 14, // the instance is not selected
    RowStep = 15, // start or finish outside 1 to T
    PrecedenceBroken = 16,
    ResourceBroken = 17,
    ChainBroken = 18,
    DistanceFar = 20, // outside -31 to 31
    MovedOut = 21, // a moved start below 1, or its finish behind T
    OutputShort = 22,
    BudgetSpent = 30, // the search needs more visits
    NoPlan = 31, // none meets the rules
    NoteLong = 40, // over 60,000 bytes
    VerdictDiffers = 41, // verdict 1 without a plan, or 0 with one
    SplitBroken = 42, // a split on a number not below N, or on an operation placed
    CloseBroken = 43, // bit 0 where it is not allowed
    Cheaper = 44, // all placed, and cheaper than the claim or under verdict 0
    LengthsDiffer = 50, // they do not total the dossier
    DossierLong = 51, // over 65,536 bytes
}

/// The paper at fault.
#[derive(Clone, Copy, Debug, PartialEq, Eq)]
pub enum Paper {
    Job = 0,
    Plan = 1,
    Note = 2,
    Dossier = 3,
    Request = 4,
}

/// A refusal: its reason, and the paper at fault.
#[derive(Clone, Copy, Debug, PartialEq, Eq)]
pub struct Refusal {
    pub fault: Fault,
    pub paper: Paper,
}

impl Fault {
    /// The number that document 01 gives it.
    pub fn number(self) -> u32
        ensures { result ≡ number_of self }
    {
        self as u32
    }
}

impl Paper {
    /// The number that document 01 gives it.
    pub fn number(self) -> u32
        ensures { result ≡ paper_of self }
    {
        self as u32
    }
}

/// The fault where the test fails.
#[tactic(auto, unfolding(crate::specs::Faults::fault_unless))]
pub fn unless(test: bool, fault: Fault) -> Result<(), Fault>
    ensures { fault_in result ≡ fault_unless test (number_of fault) }
{
    if test { Ok(()) } else { Err(fault) }
}

/// What was found, with the paper at fault.
pub fn blame<T>(paper: Paper, found: Result<T, Fault>) -> Result<T, Refusal>
    ensures { result ≡ blamed paper found }
{
    found.map_err(|fault| Refusal { fault, paper })
}
