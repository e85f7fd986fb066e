// Why a call is refused, with the number that it is told by. The numbers stand here and in specs/Refusals.antt, and
// nowhere else: crates name a refusal, and its number is asked for where an answer leaves the engine or is printed.
ghost use Rattle.std.specs.Prelude.{◌≡◌, ◌≤◌, ℕ, ⊤};
ghost use Rattle.basis.specs.Refusals.{number_of, number-small};

#[derive(Clone, Copy, Debug, PartialEq, Eq)]
pub enum Refusal {
    // The header is not sound.
    Header = 1,
    // Fresh: a capacity out of range, or the end above the length.
    Fresh = 2,
    // Cells that are not exactly so many terms.
    Term = 3,
    // More cells than a term may have.
    Length = 4,
    // More distinct variables than a term may have.
    Variables = 5,
    // A called term that begins with neither atom nor functor.
    Predicate = 6,
    // No record of this number.
    Number = 7,
    // An answer to a finished subgoal.
    State = 8,
    // A damaged record, or a path that is no legal form.
    Records = 9,
    // Too few free nodes.
    Nodes = 10,
    // No free record.
    RecordsLeft = 11,
    // Out is too short.
    Out = 12,
    // No legal compact form.
    Form = 13,
    // A source of a join is open.
    SourceOpen = 14,
    // An answer of a join's source holds a variable.
    SourceVariable = 15,
    // A variable or side that a join names is out of range, its pairs are too many, or its copies are not one for each
    // variable of the target.
    Names = 16,
    // The cells of an index that is to be built are no power of two, or fewer than twice the children to enter.
    Slots = 17,
    // A copy: the name of a functor that edition 2 has no room for.
    Functor = 18,
    // A new capacity is too small for what is stored.
    Capacity = 19,
    // A search for detours with other than 1 to 6 goals, a goal of other than two variables, or an answer that is no
    // atom and integer.
    Goals = 22,
    // A listing whose edition, size or symbols are not as they may be given.
    Listing = 23,
    // The term given is not in the list.
    Listed = 24,
}

impl From<Refusal> for u32 {
    ghost from_gives = { λ refusal number. number ≡ number_of refusal };

    fn from(refusal: Refusal) -> u32 {
        refusal as u32
    }
}

// What a refusal is told by: a `Refusal`, or a number alone, such as 20 and 21, which no `Refusal` has.
pub trait Numbered: Copy {
    // The number.
    ghost number: { Self → ℕ };

    // Whether an answer may give it as a refusal.
    ghost told: { Self → Type 0 };

    fn number(self) -> u32
        ensures { result ≡ number self };

    // So it is small beside the cell that holds it.
    ghost small: { (r : Self) → told r → number r ≤ 24 };
}

impl Numbered for Refusal {
    ghost number = { number_of };

    ghost told = { λ _. ⊤ };

    ghost small = { λ r _. number-small r };

    fn number(self) -> u32 {
        u32::from(self)
    }
}

impl Numbered for u32 {
    ghost number = { λ r. r };

    ghost told = { λ r. r ≤ 24 };

    ghost small = { λ _ t. t };

    fn number(self) -> u32 {
        self
    }
}
