// The public calls as C functions: flat lists, counts as numbers, and the answer as numbers through a lent list (the number
// of the refusal or 0, its place, and the two numbers of an accepted call). A slice is a pointer and a length; where the length
// is 0 the pointer may be NULL, in whose place the compiler puts another address. include/tangents.h declares them.
#![tactic(auto)]

ghost use Rattle.std.specs.Prelude.{◌≡◌, not, set, replicate, eqb};
ghost use Rattle.float.specs.Ops.{zero};
ghost use Rattle.linearize.specs.Linearize.{linearize_answer, tangents_after};
ghost use Rattle.validate.specs.Validate.{valid_answer};
ghost use Rattle.sharpen.specs.declared.edge.Rule.TheVariants.{Ported, Clean};
ghost use Rattle.sharpen.specs.Sharpen.{sharpen_edges, entries_after};
ghost use Rattle.distribute.specs.Distribute.{distribute_tangents, scratch_after, check_lists};
ghost use Rattle.distribute.specs.Distribute.{tangents_after as spread_after};
ghost use Rattle.distribute.specs.Preview.Preview.{preview_tangents, bytes_after};
ghost use Rattle.mesh.specs.Mesh.{as_halfedges};
ghost use Rattle.questions.specs.Check.{number_of, place_of, when_accepted};
ghost use Rattle.create.specs.Sharp.Entries.{entries_of};
ghost use Rattle.create_shared.specs.Answer.{checked_of};
ghost use Rattle.create.specs.Create.{create_answer, tangents_after as created_tangents};
ghost use Rattle.create_from_normals.specs.FromNormals.{create_answer as from_normals_answer, tangents_after as tangents_from_normals};
ghost use Rattle.stl.specs.Stl.{read_stl, pos_after, h_after, face_normals_after};
ghost use Rattle.tangents_c.specs.Curve.{check_curve_at, point_after, check_curve_points};
ghost use Rattle.tangents_c.specs.Curve.{points_after as curve_points_after};
ghost use Rattle.tangents_c.specs.Answers.{put, put_checked, put_validity, put_listing, put_spreading, put_making, put_reading};

mod controls;

use distribute::{Counts, preview};
use questions::Refusal;
use sharpen::Listed;
use stl::MeshCounts;

// No `get_mut`: its contract says nothing of what the list ends as.
fn put_at(answer: &mut [usize], k: usize, x: usize)
    ensures { answer.new ≡ set answer.old k x }
{
    if k < answer.len() {
        answer[k] = x;
    }
}

// The number and the place of an answer, and the two numbers of an accepted call.
fn put_answer<T: Copy>(
    answer: &mut [usize],
    answered: Result<T, Refusal>,
    first: usize,
    second: usize,
)
    ensures { answer.new ≡ put answer.old (number_of answered) (place_of answered) first second }
{
    let number = questions::number_of(answered);
    let place = questions::place_of(answered);
    put_at(answer, 0, number);
    put_at(answer, 1, place);
    put_at(answer, 2, first);
    put_at(answer, 3, second);
}

// Straightening: no further numbers. A function for each kind of answer, here and below: as a trait they would be five impls of
// two methods each, and longer. One that is lent a closure was tried, `put_answer(answer, listing, |l| [l.entries, l.tally])`. Its
// clause speaks of all that the closure may give, `(first second : T → ℕ) → ((value : T) (xs : List ℕ) → F.post numbers value xs
// → xs ≡ first value ∷ second value ∷ []) → ..`, and each C function then needs a proof, where now none does.
fn put_checked(answer: &mut [usize], checked: Result<(), Refusal>)
    ensures { answer.new ≡ put_checked answer.old checked }
{
    put_answer(answer, checked, 0, 0);
}

// The mark check: 1 for yes, 0 for no.
fn put_validity(answer: &mut [usize], valid: Result<bool, Refusal>)
    ensures { answer.new ≡ put_validity answer.old valid }
{
    put_answer(answer, valid, validate::value_of(valid), 0);
}

// A crease listing: the number of entries, and the tally.
fn put_listing(answer: &mut [usize], listing: Result<Listed, Refusal>)
    ensures { answer.new ≡ put_listing answer.old listing }
{
    let entries = sharpen::entries_of(listing);
    let tally = sharpen::tally_of(listing);
    put_answer(answer, listing, entries, tally);
}

// Spreading and its preview: looked and turned.
fn put_spreading(answer: &mut [usize], spreading: Result<Counts, Refusal>)
    ensures { answer.new ≡ put_spreading answer.old spreading }
{
    let looked = distribute::looked_of(spreading);
    let turned = distribute::turned_of(spreading);
    put_answer(answer, spreading, looked, turned);
}

// The makings: how many circular tangents were computed on an edge without direction.
fn put_making(answer: &mut [usize], making: Result<usize, Refusal>)
    ensures { answer.new ≡ put_making answer.old making }
{
    let count = create_shared::directionless_of(making);
    put_answer(answer, making, count, 0);
}

// The reading of STL: the numbers of halfedges and of points.
fn put_reading(answer: &mut [usize], reading: Result<MeshCounts, Refusal>)
    ensures { answer.new ≡ put_reading answer.old reading }
{
    let halfedges = stl::halfedges_of(reading);
    let points = stl::points_of(reading);
    put_answer(answer, reading, halfedges, points);
}

// Straightening.
#[unsafe(no_mangle)]
pub extern "C" fn tangents_linearize_flat_tangents(
    n: usize,
    p: usize,
    h: &[i32],
    pos: &[f64],
    t: &mut [f64],
    answer: &mut [usize],
)
    ensures t_after { t.new ≡ tangents_after (as_halfedges h.now) pos.now t.old n p }
    ensures answer_after { answer.new ≡ put_checked answer.old (linearize_answer (as_halfedges h.now) pos.now t.old n p) }
{
    let checked = linearize::linearize_flat_tangents(n, p, h, pos, t);
    put_checked(answer, checked);
}

// The mark check.
#[unsafe(no_mangle)]
pub extern "C" fn tangents_valid_tangents(
    n: usize,
    p: usize,
    h: &[i32],
    pos: &[f64],
    t: &[f64],
    answer: &mut [usize],
)
    ensures { answer.new ≡ put_validity answer.old (valid_answer (as_halfedges h.now) pos.now t.now n p) }
{
    let valid = validate::valid_tangents(n, p, h, pos, t);
    put_validity(answer, valid);
}

// The crease listing.
#[unsafe(no_mangle)]
pub extern "C" fn tangents_sharpen_edges(
    n: usize,
    p: usize,
    h: &[i32],
    face_normals: &[f64],
    angle: f64,
    smooth: f64,
    entries: &mut [usize],
    smoothness: &mut [f64],
    answer: &mut [usize],
)
    ensures entries_after { entries.new ≡ (entries_after Ported (as_halfedges h.now) face_normals.now angle smooth entries.old smoothness.old n p).halfedges }
    ensures smoothness_after { smoothness.new ≡ (entries_after Ported (as_halfedges h.now) face_normals.now angle smooth entries.old smoothness.old n p).smoothness }
    ensures answer_after { answer.new ≡ put_listing answer.old (sharpen_edges Ported (as_halfedges h.now) face_normals.now angle smooth entries.old smoothness.old n p) }
{
    let listing = sharpen::sharpen_edges(n, p, h, face_normals, angle, smooth, entries, smoothness);
    put_listing(answer, listing);
}

// The clean crease listing.
#[unsafe(no_mangle)]
pub extern "C" fn tangents_sharpen_edges_clean(
    n: usize,
    p: usize,
    h: &[i32],
    face_normals: &[f64],
    angle: f64,
    smooth: f64,
    entries: &mut [usize],
    smoothness: &mut [f64],
    answer: &mut [usize],
)
    ensures entries_after { entries.new ≡ (entries_after Clean (as_halfedges h.now) face_normals.now angle smooth entries.old smoothness.old n p).halfedges }
    ensures smoothness_after { smoothness.new ≡ (entries_after Clean (as_halfedges h.now) face_normals.now angle smooth entries.old smoothness.old n p).smoothness }
    ensures answer_after { answer.new ≡ put_listing answer.old (sharpen_edges Clean (as_halfedges h.now) face_normals.now angle smooth entries.old smoothness.old n p) }
{
    let listing = sharpen::sharpen_edges_clean(
        n,
        p,
        h,
        face_normals,
        angle,
        smooth,
        entries,
        smoothness,
    );
    put_listing(answer, listing);
}

// Spreading, with the answer's two counts looked and turned.
#[unsafe(no_mangle)]
pub extern "C" fn tangents_distribute_tangents(
    n: usize,
    p: usize,
    h: &[i32],
    pos: &[f64],
    normals: &[f64],
    fixed: &[u8],
    t: &mut [f64],
    current: &mut [f64],
    desired: &mut [f64],
    answer: &mut [usize],
)
    ensures t_after { t.new ≡ spread_after (as_halfedges h.now) pos.now normals.now fixed.now t.old current.old desired.old n p }
    ensures current_after { current.new ≡ scratch_after (check_lists (as_halfedges h.now) pos.now normals.now fixed.now t.old current.old desired.old n p) current.old n }
    ensures desired_after { desired.new ≡ scratch_after (check_lists (as_halfedges h.now) pos.now normals.now fixed.now t.old current.old desired.old n p) desired.old n }
    ensures answer_after { answer.new ≡ put_spreading answer.old (distribute_tangents (as_halfedges h.now) pos.now normals.now fixed.now t.old current.old desired.old n p) }
{
    let spreading = distribute::distribute_tangents(
        n, p, h, pos, normals, fixed, t, current, desired,
    );
    put_spreading(answer, spreading);
}

// The preview of spreading: a byte for each halfedge, and the answer's two counts looked and turned.
#[unsafe(no_mangle)]
pub extern "C" fn tangents_preview_tangents(
    n: usize,
    p: usize,
    h: &[i32],
    pos: &[f64],
    normals: &[f64],
    fixed: &[u8],
    t: &[f64],
    bytes: &mut [u8],
    answer: &mut [usize],
)
    ensures bytes_after { bytes.new ≡ bytes_after (as_halfedges h.now) pos.now normals.now fixed.now t.now bytes.old n p }
    ensures answer_after { answer.new ≡ put_spreading answer.old (preview_tangents (as_halfedges h.now) pos.now normals.now fixed.now t.now bytes.old n p) }
{
    let previewed = preview::preview_tangents(n, p, h, pos, normals, fixed, t, bytes);
    put_spreading(answer, previewed);
}

// Making from sharp edges, with the answer's count of the circular tangents on an edge without direction. `old` says whether the
// tangents lent are old ones: 0 for no.
#[unsafe(no_mangle)]
pub extern "C" fn tangents_create_tangents(
    n: usize,
    p: usize,
    h: &[i32],
    pos: &[f64],
    normals: &[f64],
    face_normals: &[f64],
    refs: &[i32],
    entries: &[usize],
    smoothness: &[f64],
    old: usize,
    t: &mut [f64],
    fixed: &mut [u8],
    flat: &mut [u8],
    smooth: &mut [f64],
    desired: &mut [f64],
    at: &mut [usize],
    link: &mut [usize],
    answer: &mut [usize],
)
    ensures { let r = create_answer (as_halfedges h.now) pos.now normals.now face_normals.now refs.now entries.now smoothness.now t.old fixed.old flat.old smooth.old desired.old at.old link.old (not (eqb old 0)) n p in (t.new ≡ created_tangents (checked_of r) (as_halfedges h.now) pos.now normals.now face_normals.now refs.now (entries_of entries.now smoothness.now) t.old (not (eqb old 0)) n p) × (fixed.new ≡ when_accepted (checked_of r) (replicate n 0) fixed.old) × (flat.new ≡ when_accepted (checked_of r) (replicate n 0) flat.old) × (smooth.new ≡ when_accepted (checked_of r) (replicate n zero) smooth.old) × (desired.new ≡ when_accepted (checked_of r) (replicate n zero) desired.old) × (at.new ≡ when_accepted (checked_of r) (replicate p 0) at.old) × (link.new ≡ when_accepted (checked_of r) (replicate n 0) link.old) × (answer.new ≡ put_making answer.old r) }
{
    let making = create::create_tangents(
        n,
        p,
        h,
        pos,
        normals,
        face_normals,
        refs,
        entries,
        smoothness,
        old != 0,
        t,
        fixed,
        flat,
        smooth,
        desired,
        at,
        link,
    );
    put_making(answer, making);
}

// Making from normals, with the same count; `rows` has three numbers for each row. `old` says whether the tangents lent are old
// ones: 0 for no.
#[unsafe(no_mangle)]
pub extern "C" fn tangents_create_tangents_from_normals(
    n: usize,
    p: usize,
    h: &[i32],
    pos: &[f64],
    normals: &[f64],
    face_normals: &[f64],
    refs: &[i32],
    rows: &[f64],
    old: usize,
    t: &mut [f64],
    fixed: &mut [u8],
    inside: &mut [u8],
    current: &mut [f64],
    desired: &mut [f64],
    first: &mut [usize],
    answer: &mut [usize],
)
    ensures { let r = from_normals_answer h.now pos.now normals.now face_normals.now refs.now rows.now t.old fixed.old inside.old current.old desired.old first.old (not (eqb old 0)) n p in (t.new ≡ tangents_from_normals (checked_of r) h.now pos.now normals.now face_normals.now refs.now rows.now t.old (not (eqb old 0)) n p) × (fixed.new ≡ when_accepted (checked_of r) (replicate n 0) fixed.old) × (inside.new ≡ when_accepted (checked_of r) (replicate n 0) inside.old) × (current.new ≡ when_accepted (checked_of r) (replicate n zero) current.old) × (desired.new ≡ when_accepted (checked_of r) (replicate n zero) desired.old) × (first.new ≡ when_accepted (checked_of r) (replicate p 0) first.old) × (answer.new ≡ put_making answer.old r) }
{
    let making = create_from_normals::create_tangents_from_normals(
        n,
        p,
        h,
        pos,
        normals,
        face_normals,
        refs,
        rows,
        old != 0,
        t,
        fixed,
        inside,
        current,
        desired,
        first,
    );
    put_making(answer, making);
}

// The reading of a binary STL file, with the answer's two counts.
#[unsafe(no_mangle)]
pub extern "C" fn tangents_read_stl(
    file: &[u8],
    pos: &mut [f64],
    h: &mut [i32],
    face_normals: &mut [f64],
    answer: &mut [usize],
)
    ensures pos_after { pos.new ≡ pos_after file.now pos.old h.old face_normals.old }
    ensures h_after { h.new ≡ h_after file.now pos.old h.old face_normals.old }
    ensures face_normals_after { face_normals.new ≡ face_normals_after file.now pos.old h.old face_normals.old }
    ensures answer_after { answer.new ≡ put_reading answer.old (read_stl file.now pos.old h.old face_normals.old) }
{
    let reading = stl::read_stl(file, pos, h, face_normals);
    put_reading(answer, reading);
}

// A point of a curve: its position and direction, six numbers.
#[unsafe(no_mangle)]
pub extern "C" fn tangents_curve_at(
    controls: &[f64],
    x: f64,
    point: &mut [f64],
    answer: &mut [usize],
)
    ensures point_after { point.new ≡ point_after controls.now x point.old }
    ensures answer_after { answer.new ≡ put_checked answer.old (check_curve_at controls.now x point.old) }
{
    let checked = controls::curve_at(controls, x, point);
    put_checked(answer, checked);
}

// Points along a curve.
#[unsafe(no_mangle)]
pub extern "C" fn tangents_curve_points(
    controls: &[f64],
    count: usize,
    points: &mut [f64],
    answer: &mut [usize],
)
    ensures points_after { points.new ≡ curve_points_after controls.now count points.old }
    ensures answer_after { answer.new ≡ put_checked answer.old (check_curve_points controls.now count points.old) }
{
    let checked = controls::curve_points(controls, count, points);
    put_checked(answer, checked);
}
