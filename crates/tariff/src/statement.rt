// Statement types and their turn.
ghost use Rattle.std.specs.Prelude.{◌≡◌};
ghost use Rattle.tariff.specs.Statements.{rank_of, in_turn, letters_of};

// The types by rank: preliminary, final, six resettlements, and the last one.
#[derive(Clone, Copy, PartialEq, Eq, PartialOrd, Ord)]
pub enum Statement {
    P,
    F,
    R1,
    R2,
    R3,
    R4,
    R5,
    R6,
    RF,
}

impl Statement {
    pub fn rank(self) -> u32
        ensures { result ≡ rank_of self }
    {
        self as u32
    }

    // The letters by which the type is known.
    pub fn letters(self) -> &'static [u8]
        ensures { result.now ≡ letters_of self }
    {
        match self {
            Statement::P => b"P",
            Statement::F => b"F",
            Statement::R1 => b"R1",
            Statement::R2 => b"R2",
            Statement::R3 => b"R3",
            Statement::R4 => b"R4",
            Statement::R5 => b"R5",
            Statement::R6 => b"R6",
            Statement::RF => b"RF",
        }
    }

    // Whether the type may be issued after the last one: P first, F next, then any type of higher rank.
    pub fn is_in_turn(self, last: Option<Statement>) -> bool
        ensures { result ≡ in_turn last self }
    {
        match (last, self) {
            (None, Statement::P) => true,
            (None, _) => false,
            (Some(Statement::P), Statement::F) => true,
            (Some(Statement::P), _) => false,
            (Some(issued), asked) => issued < asked,
        }
    }
}
