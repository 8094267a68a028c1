// Request E9: one island at a time through the base, each frame in its place.
// The order list, for n faces: at f the next face of the island of face f, its number and one, or 0; at n + t the first face of island t in the same way; at 2n + f and 3n + f how many corners and how many slots stand before face f.
// One island's numbers are in one list: positions from its start on, normals from 12n on, texture coordinates from 24n on.
#![tactic(auto)]

ghost use Rattle.std.specs.Prelude.{◌≡◌, false, ◌++◌, ◌+◌, ◌*◌, ◌<◌, ◌≤◌, length, set, take, drop, replicate};
ghost use Rattle.std.proofs.Math.Option.{none};
ghost use Rattle.std.specs.Float.{nan};
ghost use Rattle.bits.specs.Single.{zeroᶠ};
ghost use Rattle.tangent.specs.Slot.{slot_words};
ghost use Rattle.definition.specs.Limits.{face_limit, work_words};
ghost use Rattle.definition.specs.Handed.{mesh_of, call, handed, slot_count, corner_count};
ghost use Rattle.definition.specs.Desk.{shown, verdict};
ghost use Rattle.definition.specs.Frames.{frames};
ghost use Rattle.definition.specs.Outcome.{answer_words};
ghost use Rattle.islands.specs.Islands.{island_of};
ghost use Rattle.islands.specs.Rows.{labelled};
ghost use Rattle.apart.specs.Lists.{Past, Copies, cleared};
ghost use Rattle.apart.specs.Order as chain;
ghost use Rattle.apart.specs.Gather as gather;
ghost use Rattle.apart.specs.Scatter as scatter;
ghost use Rattle.mesh.specs.Parts.{Fits, given};
ghost use Rattle.mikktspace.specs.Contract.{outcome_of};
ghost use Rattle.apart.specs.Steps as step;
ghost use Rattle.apart.specs.Call as spec;

use desk::Refusal;
use mesh::Mesh;
use mikktspace::Outcome;

// The numbers and the frames' words that are lent for each face: 8 numbers for each of four corners, a slot for each.
const NUMBER_ENTRIES: usize = 32;

const FRAME_ENTRIES: usize = 4 * tangent::SLOT_WORDS;

// ---- copying

// Entries copied from one list into another.
fn copy<T: Copy>(xs: &[T], at: usize, ys: &mut [T], start: usize, count: usize)
    requires { (at + count ≤ length xs.now) × (start + count ≤ length ys.old) }
    ensures { Copies xs.now ys.old ys.new at start count }
{
    for (i, y) in ys[start..start + count].iter_mut().enumerate() {
        *y = xs[at + i];
    }
}

// ---- the order of the faces

// A face is put first into the chain of its island: its next is the one that was first.
fn link_face(labels: &[u32], order: &mut [u32], count: usize, f: usize)
    requires { (f < count) × (count ≤ length labels.now) × (2 * count ≤ length order.old) × (count < 4294967296) × chain.Linked count (chain.label_at labels.now) (f + 1) order.old }
    ensures { chain.Linked count (chain.label_at labels.now) f order.new × Past 0 (2 * count) order.old order.new }
{
    let t = labels[f] as usize;
    if count <= t {
        return;
    }
    order[f] = order[count + t];
    order[count + t] = f as u32 + 1;
}

// All faces, from the last to the first.
fn link_faces(labels: &[u32], order: &mut [u32], count: usize)
    requires { (count ≤ length labels.now) × (2 * count ≤ length order.old) × (count < 4294967296) }
    ensures { chain.Linked count (chain.label_at labels.now) 0 order.new × Past 0 (2 * count) order.old order.new }
{
    table::clear_first(order, 2 * count);
    for i in (0..count).rev() {
        link_face(labels, order, count, i);
    }
}

// How many corners and how many slots stand before each face.
fn start_faces(sizes: &[u8], order: &mut [u32])
    requires { (length sizes.now ≤ face_limit) × (4 * length sizes.now ≤ length order.old) }
    ensures { chain.Begun sizes.now (length sizes.now) order.new × Past 0 (4 * length sizes.now) order.old order.new }
{
    let n = sizes.len();
    let mut corners: u32 = 0;
    let mut slots: u32 = 0;
    for (f, &size) in sizes.iter().enumerate() {
        order[2 * n + f] = corners;
        order[3 * n + f] = slots;
        corners += size as u32;
        slots += mesh::slots_of(size) as u32;
    }
}

// ---- one island in lists of its own

// One face, as number k of its island, after c corners: its size, and the numbers of its corners, which start at number base.
fn gather_face(
    mesh: &Mesh,
    base: usize,
    size: u8,
    own_sizes: &mut [u8],
    own_numbers: &mut [f32],
    n: usize,
    k: usize,
    c: usize,
)
    requires { (3 * base + 3 * size ≤ length mesh.now.positions.now) × (3 * base + 3 * size ≤ length mesh.now.normals.now) × (2 * base + 2 * size ≤ length mesh.now.texture.now) × (k < length own_sizes.old) × (c + size ≤ 4 * n) × (spec.number_entries * n ≤ length own_numbers.old) }
    ensures { (own_sizes.new ≡ set own_sizes.old k size) × gather.Laid mesh.now.positions.now mesh.now.normals.now mesh.now.texture.now n base c size own_numbers.old own_numbers.new }
{
    let z = size as usize;
    own_sizes[k] = size;
    copy(mesh.positions, 3 * base, own_numbers, 3 * c, 3 * z);
    copy(mesh.normals, 3 * base, own_numbers, 12 * n + 3 * c, 3 * z);
    copy(mesh.texture, 2 * base, own_numbers, 24 * n + 2 * c, 2 * z);
}

// How many faces of an island are gathered, and how many corners they have.
#[derive(Clone, Copy)]
pub struct Taken {
    pub faces: usize,
    pub corners: usize,
}

// All faces of island t, in order.
fn gather(
    mesh: &Mesh,
    order: &[u32],
    t: usize,
    own_sizes: &mut [u8],
    own_numbers: &mut [f32],
) -> Taken
    requires { (t < length mesh.now.sizes.now) × step.Ready (given mesh.now) order.now × (length mesh.now.sizes.now ≤ length own_sizes.old) × (spec.number_entries * length mesh.now.sizes.now ≤ length own_numbers.old) }
    ensures { gather.Gathered (chain.among (island_of (mesh_of (given mesh.now))) t) (given mesh.now) (length mesh.now.sizes.now) result.faces result.corners own_sizes.new own_numbers.new × Past 0 (length mesh.now.sizes.now) own_sizes.old own_sizes.new × Past nan (spec.number_entries * length mesh.now.sizes.now) own_numbers.old own_numbers.new }
{
    let n = mesh.sizes.len();
    let mut next = order[n + t];
    let mut f: usize = 0;
    let mut k: usize = 0;
    let mut c: usize = 0;
    while next != 0 {
        f = next as usize;
        let size = mesh.sizes[f - 1];
        let base = order[2 * n + (f - 1)] as usize;
        gather_face(mesh, base, size, own_sizes, own_numbers, n, k, c);
        k += 1;
        c += size as usize;
        next = order[f - 1];
    }
    Taken {
        faces: k,
        corners: c,
    }
}

// The base, on an island of k faces and c corners; its frames are in `own_frames` afterwards.
fn make(
    own_sizes: &[u8],
    own_numbers: &[f32],
    n: usize,
    k: usize,
    c: usize,
    threshold: f32,
    own_frames: &mut [u32],
    work: &mut [u32],
)
    requires { step.Fit n k c threshold own_sizes.now own_numbers.now own_frames.old work.old }
    ensures { (own_frames.new ≡ answer_words (frames threshold (gather.mesh_in n own_numbers.now (take k own_sizes.now))) ++ drop (slot_words * slot_count (take k own_sizes.now)) own_frames.old) × (work.new ≡ cleared 0 (work_words * k) work.old) }
{
    let a = 12 * n;
    let b = a + 3 * c;
    let d = 24 * n;
    let e = d + 2 * c;
    let g = 3 * c;
    mikktspace::generate_tangent_space(
        &own_sizes[..k],
        &own_numbers[..g],
        &own_numbers[a..b],
        &own_numbers[d..e],
        threshold,
        own_frames,
        work,
    );
}

// The words of an island's faces, each to its place.
fn scatter(sizes: &[u8], order: &[u32], t: usize, own_frames: &[u32], answer: &mut [u32])
    requires { (length sizes.now ≤ face_limit) × (t < length sizes.now) × (4 * length sizes.now ≤ length order.now) × (slot_words * slot_count sizes.now ≤ length answer.old) × scatter.Scene sizes.now order.now own_frames.now t }
    ensures { (s : scatter.Scene sizes.now order.now own_frames.now t) → scatter.Put (chain.among s.l t) sizes.now s.W (length sizes.now) answer.old answer.new }
{
    let n = sizes.len();
    let mut next = order[n + t];
    let mut f: usize = 0;
    let mut c: usize = 0;
    while next != 0 {
        f = next as usize;
        let z = sizes[f - 1] as usize;
        let to = order[3 * n + (f - 1)] as usize;
        copy(
            own_frames,
            tangent::SLOT_WORDS * c,
            answer,
            tangent::SLOT_WORDS * to,
            tangent::SLOT_WORDS * z,
        );
        c += z;
        next = order[f - 1];
    }
}

// ---- all islands

// Island t, where there is one: its faces gathered, the base, its frames in their places.
fn one_island(
    mesh: &Mesh,
    threshold: f32,
    order: &[u32],
    t: usize,
    answer: &mut [u32],
    work: &mut [u32],
    own_sizes: &mut [u8],
    own_numbers: &mut [f32],
    own_frames: &mut [u32],
)
    requires { (t < length mesh.now.sizes.now) × step.Ready (given mesh.now) order.now × step.Good (given mesh.now) threshold × step.Room mesh.now.sizes.now answer.old work.old own_sizes.old own_numbers.old own_frames.old }
    ensures { step.Done (given mesh.now) threshold t answer.old answer.new × (work.new ≡ work.old) × step.Kept (length mesh.now.sizes.now) own_sizes.old own_sizes.new own_numbers.old own_numbers.new own_frames.old own_frames.new }
{
    let n = mesh.sizes.len();
    if order[n + t] == 0 {
        return;
    }
    let taken = gather(mesh, order, t, own_sizes, own_numbers);
    let k = taken.faces;
    let c = taken.corners;
    make(own_sizes, own_numbers, n, k, c, threshold, own_frames, work);
    scatter(mesh.sizes, order, t, own_frames, answer);
}

// Each of them.
fn all_islands(
    mesh: &Mesh,
    own_sizes: &mut [u8],
    own_numbers: &mut [f32],
    own_frames: &mut [u32],
    answer: &mut [u32],
    work: &mut [u32],
    order: &[u32],
    threshold: f32,
)
    requires { step.Ready (given mesh.now) order.now × step.Good (given mesh.now) threshold × step.Room mesh.now.sizes.now answer.old work.old own_sizes.old own_numbers.old own_frames.old }
    ensures { step.DoneBelow (given mesh.now) threshold (length mesh.now.sizes.now) answer.old answer.new × (work.new ≡ work.old) × step.Kept (length mesh.now.sizes.now) own_sizes.old own_sizes.new own_numbers.old own_numbers.new own_frames.old own_frames.new }
{
    for t in 0..mesh.sizes.len() {
        one_island(
            mesh,
            threshold,
            order,
            t,
            answer,
            work,
            own_sizes,
            own_numbers,
            own_frames,
        );
    }
}

// ---- the call

// Before the first island: the faces' numbers, a cleared work list and the order of the faces.
fn prepare(mesh: &Mesh, labels: &mut [u32], order: &mut [u32], work: &mut [u32])
    requires { Fits (given mesh.now) × (length mesh.now.sizes.now ≤ length labels.old) × (4 * length mesh.now.sizes.now ≤ length order.old) × (work_words * length mesh.now.sizes.now ≤ length work.old) }
    ensures { (labels.new ≡ labelled (given mesh.now) labels.old) × step.Ready (given mesh.now) order.new × Past 0 (4 * length mesh.now.sizes.now) order.old order.new × (work.new ≡ cleared 0 (work_words * length mesh.now.sizes.now) work.old) }
{
    let n = mesh.sizes.len();
    islands::label(mesh, labels, work);
    table::clear_first(work, definition::WORK_WORDS * n);
    start_faces(mesh.sizes, order);
    link_faces(labels, order, n);
}

// After the last one: zeros wherever an island stood.
fn clear_own(
    n: usize,
    order: &mut [u32],
    own_sizes: &mut [u8],
    own_numbers: &mut [f32],
    own_frames: &mut [u32],
)
    requires { (n ≤ face_limit) × (4 * n ≤ length order.old) × (n ≤ length own_sizes.old) × (spec.number_entries * n ≤ length own_numbers.old) × (spec.frame_entries * n ≤ length own_frames.old) }
    ensures { (order.new ≡ cleared 0 (4 * n) order.old) × (own_sizes.new ≡ cleared 0 n own_sizes.old) × (own_numbers.new ≡ cleared zeroᶠ (spec.number_entries * n) own_numbers.old) × (own_frames.new ≡ cleared 0 (spec.frame_entries * n) own_frames.old) }
{
    order[..4 * n].fill(0);
    own_sizes[..n].fill(0);
    own_numbers[..NUMBER_ENTRIES * n].fill(0.0);
    own_frames[..FRAME_ENTRIES * n].fill(0);
}

// Whether a list of its own is too short for n faces.
#[tactic(auto, unfolding(crate::specs::Call::too_short))]
fn is_short(
    n: usize,
    labels: usize,
    order: usize,
    own_sizes: usize,
    own_numbers: usize,
    own_frames: usize,
) -> bool
    requires { n ≤ face_limit }
    ensures { result ≡ spec.too_short n labels order own_sizes own_numbers own_frames }
{
    labels < n
        || order < 4 * n
        || own_sizes < n
        || own_numbers < NUMBER_ENTRIES * n
        || own_frames < FRAME_ENTRIES * n
}

// The frames of a mesh that the desk accepts, island by island; the result is how many slots there are.
fn make_frames(
    mesh: &Mesh,
    threshold: f32,
    order: &mut [u32],
    labels: &mut [u32],
    answer: &mut [u32],
    work: &mut [u32],
    own_sizes: &mut [u8],
    own_numbers: &mut [f32],
    own_frames: &mut [u32],
) -> u32
    requires { (verdict (shown (given mesh.now) threshold (length answer.old) (length work.old)) ≡ none) × (spec.short (length mesh.now.sizes.now) (spec.lists labels.old order.old own_sizes.old own_numbers.old own_frames.old) ≡ false) }
    ensures { spec.leaving (record { number = 0; place = 0; slots = result }) answer.new work.new (spec.lists labels.new order.new own_sizes.new own_numbers.new own_frames.new) ≡ spec.taken (call (given mesh.now) threshold answer.old work.old) (spec.lists labels.old order.old own_sizes.old own_numbers.old own_frames.old) }
{
    prepare(mesh, labels, order, work);
    all_islands(
        mesh,
        own_sizes,
        own_numbers,
        own_frames,
        answer,
        work,
        order,
        threshold,
    );
    clear_own(mesh.sizes.len(), order, own_sizes, own_numbers, own_frames);
    mesh::slots_before(mesh.sizes, definition::FACE_LIMIT) as u32
}

// The desk, the lists of its own, and then the islands: how many slots were written, or why none were.
fn try_islands(
    mesh: &Mesh,
    threshold: f32,
    answer: &mut [u32],
    work: &mut [u32],
    labels: &mut [u32],
    order: &mut [u32],
    own_sizes: &mut [u8],
    own_numbers: &mut [f32],
    own_frames: &mut [u32],
) -> Result<u32, Refusal>
    ensures { spec.Contract (call (given mesh.now) threshold answer.old work.old) (spec.lists labels.old order.old own_sizes.old own_numbers.old own_frames.old) (outcome_of result) answer.new work.new (spec.lists labels.new order.new own_sizes.new own_numbers.new own_frames.new) }
{
    desk::judge(mesh, threshold, answer.len(), work.len())?;
    let short = is_short(
        mesh.sizes.len(),
        labels.len(),
        order.len(),
        own_sizes.len(),
        own_numbers.len(),
        own_frames.len(),
    );
    if short {
        return Err(Refusal::ShortOwn);
    }
    Ok(make_frames(
        mesh,
        threshold,
        order,
        labels,
        answer,
        work,
        own_sizes,
        own_numbers,
        own_frames,
    ))
}

// What one call of the base leaves, got one island at a time; the lists of its own are lent: for each face of the mesh 1 entry of `labels`, 4 of `order`, 1 of `own_sizes`, 32 of `own_numbers` and 40 of `own_frames`.
// A refusal (a number from 1 to 7 by the table, or 9 where a list of its own is too short) alters nothing.
pub fn frames_by_islands(
    sizes: &[u8],
    positions: &[f32],
    normals: &[f32],
    texture: &[f32],
    threshold: f32,
    answer: &mut [u32],
    work: &mut [u32],
    labels: &mut [u32],
    order: &mut [u32],
    own_sizes: &mut [u8],
    own_numbers: &mut [f32],
    own_frames: &mut [u32],
) -> Outcome
    ensures { spec.Contract (call (handed sizes.now positions.now normals.now texture.now) threshold answer.old work.old) (spec.lists labels.old order.old own_sizes.old own_numbers.old own_frames.old) result answer.new work.new (spec.lists labels.new order.new own_sizes.new own_numbers.new own_frames.new) }
{
    let mesh = Mesh {
        sizes,
        positions,
        normals,
        texture,
    };
    Outcome::from(try_islands(
        &mesh,
        threshold,
        answer,
        work,
        labels,
        order,
        own_sizes,
        own_numbers,
        own_frames,
    ))
}
