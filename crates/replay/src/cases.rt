// A case, which is the record of a call on a mesh: its operation, its counts, the refusal that it ends in, and its lists.

use crate::reader::Reader;

// What is asked of the unit.
#[derive(Clone, Copy, PartialEq)]
pub enum Operation {
    Straighten,
    Check,
    Crease,
    TangentFromNormal,
    InsideQuad,
    FlatFaces,
    Spread,
    Create,
    CreateFromNormals,
    CreaseClean,
}

// A number of no operation.
#[derive(Clone, Copy, PartialEq)]
pub struct UnknownOperation;

impl TryFrom<usize> for Operation {
    type Error = UnknownOperation;

    fn try_from(number: usize) -> Result<Self, UnknownOperation> {
        match number {
            1 => Ok(Operation::Straighten),
            2 => Ok(Operation::Check),
            3 => Ok(Operation::Crease),
            4 => Ok(Operation::TangentFromNormal),
            5 => Ok(Operation::InsideQuad),
            6 => Ok(Operation::FlatFaces),
            7 => Ok(Operation::Spread),
            8 => Ok(Operation::Create),
            9 => Ok(Operation::CreateFromNormals),
            11 => Ok(Operation::CreaseClean),
            _ => Err(UnknownOperation),
        }
    }
}

// The first question answered no, by its number, and its lowest place. No `questions::Refusal`: a question of a number would take a
// match with an arm for each here, and an answer for a number of none, and would be compared by its number all the same.
#[derive(Clone, Copy, PartialEq)]
pub struct Refusal {
    pub number: usize,
    pub place: usize,
}

impl From<questions::Refusal> for Refusal {
    fn from(refusal: questions::Refusal) -> Self {
        Refusal {
            number: refusal.question.number(),
            place: refusal.place,
        }
    }
}

// A case: the operation, the number of halfedges and of points, how the call ends, and what follows: the lists and the answers.
#[derive(Clone, Copy)]
pub struct Case<'a> {
    pub operation: Result<Operation, UnknownOperation>,
    pub n: usize,
    pub p: usize,
    pub outcome: Result<(), Refusal>,
    pub body: Reader<'a>,
}

impl<'a> Case<'a> {
    pub fn new(mut body: Reader<'a>) -> Self {
        Case {
            operation: body.read::<usize>().try_into(),
            n: body.read(),
            p: body.read(),
            outcome: outcome_of(body.read(), body.read()),
            body,
        }
    }
}

// How the call ends whose refusal has this number and place: both are 0 where it is accepted.
fn outcome_of(number: usize, place: usize) -> Result<(), Refusal> {
    match (number, place) {
        (0, 0) => Ok(()),
        _ => Err(Refusal { number, place }),
    }
}

// Does a call with this answer end so?
pub fn ends_as<T: Copy + PartialEq>(
    answer: Result<T, questions::Refusal>,
    outcome: Result<T, Refusal>,
) -> bool {
    answer.map_err(Refusal::from) == outcome
}
