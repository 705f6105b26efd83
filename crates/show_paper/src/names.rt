// Names of type variables.
ghost use Rattle.std.specs.Prelude.{◌≡◌, ◌<◌, ◌+◌, ◌*◌};
ghost use Rattle.show_paper.specs.Levels.{LevelNamesDiffer, letter_of, round_of};

// How many letters there are for variables: the small Greek ones but omicron, lambda and mu.
const LETTERS: u64 = 21;

/// The name of a type variable: a letter, by its number, and the number below the letter, 0 for none.
#[derive(Clone, Copy, Debug, PartialEq, Eq)]
pub struct VariableName {
    pub letter: usize,
    pub round: u64,
}

/// The name of the variable of a level, the outermost having level 0: first the letters in their order, then each with
/// 1 below it, and so on.
pub fn variable_name(level: u64) -> VariableName
    ensures letter { result.letter ≡ letter_of level }
    ensures round { result.round ≡ round_of level }
    ensures known { result.letter < 21 }
{
    VariableName {
        letter: (level % LETTERS) as usize,
        round: level / LETTERS,
    }
}

/// The names of two levels differ, in the letter or in the number below it.
pub fn level_names_differ()
    ensures { LevelNamesDiffer }
{}
