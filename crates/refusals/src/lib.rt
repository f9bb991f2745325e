// What refuses a call, by name, and the numbers by which C is told of it. An operation tests its refusals in their order, and the first that
// applies is its answer.
#![tactic(auto)]

ghost use Rattle.std.specs.Prelude.{◌≡◌};
ghost use Rattle.refusals.specs.declared.Refusal.TheVariants.{Placed, Plain, TooManyStates};
ghost use Rattle.refusals.specs.Reason.{number_of};
ghost use Rattle.refusals.specs.Refusal.{numbered_refusal, refusal_numbers};

// Why a call is refused, in the order of the numbers, which start at 1: include/ws2s.h has each in words.
#[derive(Clone, Copy, Debug, PartialEq, Eq)]
pub enum Reason {
    RuleShort,
    RuleVersion,
    RuleVariables,
    RuleRecords,
    RuleLength,
    RulePadding,
    Op,
    Variable,
    Record,
    Unused,
    Ceiling,
    Workspace,
    Out,
    States,
    TreeShort,
    TreeVersion,
    TreeVariables,
    TreeCut,
    TreeBare,
    TreePositions,
    TreeLeftOver,
    TreeOther,
    TextGrammar,
    TextName,
    TextVariables,
    TextRecords,
    RuleOut,
    Parts,
    Satisfiable,
    JoinedRecords,
}

impl Reason {
    pub fn number(self) -> u64
        ensures { result ≡ number_of self }
    {
        self as u64 + 1
    }
}

// What a check finds amiss in a strip: why, and the bit place where the field that is meant starts.
#[derive(Clone, Copy, Debug, PartialEq, Eq)]
pub struct Fault {
    pub reason: Reason,
    pub place: u64,
}

// More than c states are built of a record, known by its number.
#[derive(Clone, Copy, Debug, PartialEq, Eq)]
pub struct OverCeiling {
    pub at: usize,
}

// A strip's fault; another reason; or too many states, with the record's number.
#[derive(Clone, Copy, Debug, PartialEq, Eq)]
pub enum Refusal {
    Placed(Fault),
    Plain(Reason),
    TooManyStates(u64),
}

impl From<Fault> for Refusal {
    ghost from_gives = { λ f r. r ≡ Placed f };

    fn from(fault: Fault) -> Refusal {
        Refusal::Placed(fault)
    }
}

impl From<Reason> for Refusal {
    ghost from_gives = { λ k r. r ≡ Plain k };

    fn from(reason: Reason) -> Refusal {
        Refusal::Plain(reason)
    }
}

impl From<OverCeiling> for Refusal {
    ghost from_gives = { λ o r. r ≡ TooManyStates o.at };

    fn from(over: OverCeiling) -> Refusal {
        Refusal::TooManyStates(over.at as u64)
    }
}

// A refusal in numbers; those that do not apply are 0.
#[derive(Clone, Copy)]
pub struct RefusalNumbers {
    pub number: u64,
    pub recordnumber: u64,
    pub place: u64,
}

// A refusal by its number, whichever it is, and the bit place that it names; 0 where it names none.
pub fn numbered_refusal(number: u64, place: u64) -> RefusalNumbers
    ensures { result ≡ numbered_refusal number place }
{
    RefusalNumbers {
        number,
        recordnumber: 0,
        place,
    }
}

// A function, and no `From`: the definitions of what C is told say `refusal_numbers`, and the code is plainer with the same word.
pub fn refusal_numbers(r: Refusal) -> RefusalNumbers
    ensures { result ≡ refusal_numbers r }
{
    match r {
        Refusal::Placed(fault) => numbered_refusal(fault.reason.number(), fault.place),
        Refusal::Plain(reason) => numbered_refusal(reason.number(), 0),
        Refusal::TooManyStates(recordnumber) => RefusalNumbers {
            number: Reason::States.number(),
            recordnumber,
            place: 0,
        },
    }
}
