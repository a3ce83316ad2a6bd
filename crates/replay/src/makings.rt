// The oracle's answers to both makings: do the calls answer so, and leave their scratch lists so?

mod creation;

use crate::cases::{Case, Operation};
use crate::reader::Reader;
use crate::tally::Tally;
use create::entries;
use create::sharp::Smoothness;
use creation::{Creation, agrees};

// Making from sharp edges, with the entries as two lists.
fn create(case: Creation<'_>) -> bool {
    agrees(
        case,
        case.n,
        |t, fixed, flags, smooth, desired, points, link| {
            create::create_tangents(
                case.n,
                case.p,
                case.h,
                case.pos,
                case.normals,
                case.face_normals,
                case.refs,
                case.entries,
                case.values,
                case.old,
                t,
                fixed,
                flags,
                smooth,
                desired,
                points,
                link,
            )
        },
    )
}

// The most entries of a case.
const ENTRIES: usize = 64;

// The entries of a case as structs, and past them entries that are ignored.
fn entries_of(case: Creation<'_>) -> [Smoothness; ENTRIES] {
    let mut sharp = [Smoothness {
        halfedge: 0,
        smoothness: 1.0,
    }; ENTRIES];
    let pairs = case.entries.iter().zip(case.values);
    for (entry, (halfedge, smoothness)) in sharp.iter_mut().zip(pairs) {
        *entry = Smoothness {
            halfedge: *halfedge,
            smoothness: *smoothness,
        };
    }
    sharp
}

// Making from sharp edges, with the entries as structs.
fn create_entries(case: Creation<'_>) -> bool {
    let sharp = entries_of(case);
    let sharp = &sharp[..case.entries.len().min(ENTRIES)];
    agrees(
        case,
        case.n,
        |t, fixed, flags, smooth, desired, points, link| {
            entries::create_entries(
                case.n,
                case.p,
                case.h,
                case.pos,
                case.normals,
                case.face_normals,
                case.refs,
                sharp,
                case.old,
                t,
                fixed,
                flags,
                smooth,
                desired,
                points,
                link,
            )
        },
    )
}

// Making from normals, which is lent no list of links.
fn create_from_normals(case: Creation<'_>) -> bool {
    agrees(case, 0, |t, fixed, flags, smooth, desired, points, _| {
        create_from_normals::create_tangents_from_normals(
            case.n,
            case.p,
            case.h,
            case.pos,
            case.normals,
            case.face_normals,
            case.refs,
            case.values,
            case.old,
            t,
            fixed,
            flags,
            smooth,
            desired,
            points,
        )
    })
}

// The tally with the calls of a case. A case of making from sharp edges is put to the call with entries as structs too, where
// its two lists of entries are of one length: no other has entries that are structs.
pub fn counted(tally: Tally, record: Reader<'_>) -> Tally {
    let case = Case::new(record);
    let mut xs = [0.0f64; 256];
    let mut is = [0i32; 128];
    let mut entries = [0usize; 64];
    let creation = Creation::read(case, &mut xs, &mut is, &mut entries);
    match case.operation {
        Ok(Operation::Create) => {
            let lists = tally.counted(create(creation));
            if creation.entries.len() != creation.values.len() {
                return lists;
            }
            lists.counted(create_entries(creation))
        }
        Ok(Operation::CreateFromNormals) => tally.counted(create_from_normals(creation)),
        _ => tally.counted(false),
    }
}
