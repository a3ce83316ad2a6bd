// The questions of the calls that are lent more lists: spreading, making from sharp edges, making from normals. Of the positions,
// the normals, the rows and the tangents the case has only the length.

use crate::cases::{Case, Operation, ends_as};
use crate::reader::Reader;
use questions::{Refusal, has_length};

// The lengths of the lists that the case does not hold; that of the tangents only where there are old ones.
#[derive(Clone, Copy)]
struct Lengths {
    positions: usize,
    normals: usize,
    face_normals: usize,
    rows: usize,
    tangents: Option<usize>,
}

impl Lengths {
    fn read(body: &mut Reader<'_>) -> Self {
        let mut lengths = [0usize; 6];
        body.fill(&mut lengths);
        let [positions, normals, face_normals, rows, tangents, old] = lengths;
        Lengths {
            positions,
            normals,
            face_normals,
            rows,
            tangents: (old == 1).then_some(tangents),
        }
    }
}

// What the questions are asked of.
#[derive(Clone, Copy)]
struct Lent<'a> {
    n: usize,
    p: usize,
    lengths: Lengths,
    h: &'a [i32],
    refs: &'a [i32],
    entries: &'a [usize],
    values: &'a [f64],
    fixed: &'a [u8],
}

impl Lent<'_> {
    // Question 2 of the lists that all three are lent.
    fn shared_fit(&self) -> bool {
        has_length(self.h.len(), self.n, mesh::HALFEDGE_STRIDE)
            && has_length(self.lengths.positions, self.p, 3)
            && has_length(self.lengths.normals, self.p, 3)
            && self
                .lengths
                .tangents
                .is_none_or(|len| has_length(len, self.n, 4))
    }

    // And of those that both makings are lent.
    fn faces_fit(&self) -> bool {
        has_length(self.lengths.face_normals, self.n / 3, 3)
            && has_length(self.refs.len(), self.n / 3, mesh::REF_STRIDE)
    }

    // Questions 1 to 7, and 2 of the lists of one operation too.
    fn check_mesh(&self, own_fit: bool) -> Result<(), Refusal> {
        questions::check_mesh(self.h, self.n, self.p, self.shared_fit() && own_fit)
    }

    fn check_spread(&self) -> Result<(), Refusal> {
        let checked = self.check_mesh(has_length(self.fixed.len(), self.n, 1));
        questions::check_flags(checked, self.fixed, self.n)
    }

    fn check_create(&self) -> Result<(), Refusal> {
        let entries_fit = self.entries.len() == self.values.len();
        let checked = self.check_mesh(self.faces_fit() && entries_fit);
        let numbered = questions::check_refs(checked, self.refs, self.n);
        questions::check_entries(numbered, self.entries, self.values, self.n)
    }

    fn check_create_from_normals(&self) -> Result<(), Refusal> {
        let rows_fit = self.lengths.rows % 3 == 0;
        let checked = self.check_mesh(self.faces_fit() && rows_fit);
        let named = questions::check_rows(checked, self.h, self.lengths.rows / 3, self.n);
        questions::check_refs(named, self.refs, self.n)
    }
}

pub fn agrees(mut case: Case<'_>) -> bool {
    let mut h = [0i32; 256];
    let mut refs = [0i32; 256];
    let mut entries = [0usize; 256];
    let mut values = [0.0f64; 256];
    let mut fixed = [0u8; 256];
    let lent = Lent {
        n: case.n,
        p: case.p,
        lengths: Lengths::read(&mut case.body),
        h: case.body.list(&mut h),
        refs: case.body.list(&mut refs),
        entries: case.body.list(&mut entries),
        values: case.body.list(&mut values),
        fixed: case.body.list(&mut fixed),
    };
    let checked = match case.operation {
        Ok(Operation::Spread) => lent.check_spread(),
        Ok(Operation::Create) => lent.check_create(),
        Ok(Operation::CreateFromNormals) => lent.check_create_from_normals(),
        _ => return false,
    };
    ends_as(checked, case.outcome)
}
