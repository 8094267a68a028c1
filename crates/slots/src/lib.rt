// Step 8, and what step 9 does to one slot: the answer list by slots.
// Carried over from mikktspace.rs (generate_tangent_spaces) of the Rust crate bevy_mikktspace and ALTERED: written anew in Rattle, over the lent list. See NOTICE.
// Every function does nothing where the list is too short for the slot.
#![tactic(auto)]

ghost use Rattle.std.specs.Prelude.{◌≡◌, ◌+◌, ◌*◌, ◌/◌, ◌≤◌, ltb, length};
ghost use Rattle.std.proofs.lemmas.List.Edits.{sets};
ghost use Rattle.tangent.specs.Slot.{slot_words};
ghost use Rattle.slots.specs.Slots as spec;

use tangent::Evaluated;

// The words of a slot.
#[tactic(auto, unfolding(crate::specs::Slots::words_at))]
fn words_at(answer: &[u32], slot: usize) -> [u32; tangent::SLOT_WORDS]
    requires { slot_words * slot + slot_words ≤ length answer.now }
    ensures { result ≡ spec.words_at slot answer.now }
{
    let at = tangent::SLOT_WORDS * slot;
    let mut words = [0; tangent::SLOT_WORDS];
    words.copy_from_slice(&answer[at..at + tangent::SLOT_WORDS]);
    words
}

// Words into a slot.
#[tactic(auto, using(crate::proofs::Runs::part_set))]
pub fn put(answer: &mut [u32], slot: usize, words: [u32; tangent::SLOT_WORDS])
    requires { slot_words * slot + slot_words ≤ length answer.old }
    ensures { answer.new ≡ sets answer.old (slot_words * slot) words }
{
    let at = tangent::SLOT_WORDS * slot;
    answer[at..at + tangent::SLOT_WORDS].copy_from_slice(&words);
}

// Whether a list has a slot.
fn has(answer: &[u32], slot: usize) -> bool
    ensures { result ≡ ltb slot (length answer.now / slot_words) }
{
    slot < answer.len() / tangent::SLOT_WORDS
}

// A slot reached by what a subgroup gave: combined where it was reached before.
#[tactic(auto, unfolding(crate::specs::Slots::reached_at, crate::specs::Slots::written_at))]
pub fn reach(answer: &mut [u32], slot: usize, v: Evaluated, orientation: bool)
    ensures { answer.new ≡ spec.reached_at slot v orientation answer.old }
{
    if has(answer, slot) {
        let before = tangent::reading_of(words_at(answer, slot));
        let after = tangent::reached(before, v, orientation);
        put(answer, slot, tangent::words(after));
    }
}

// A copy of one slot's reading in another, within a quad or not.
#[tactic(auto, unfolding(crate::specs::Slots::copied_at, crate::specs::Slots::written_at, crate::specs::Slots::copy_at))]
pub fn copy(answer: &mut [u32], from: usize, to: usize, quad: bool)
    ensures { answer.new ≡ spec.copied_at quad from to answer.old }
{
    if has(answer, from) && has(answer, to) {
        let before = tangent::reading_of(words_at(answer, from));
        let after = tangent::copy_of(before, quad);
        put(answer, to, tangent::words(after));
    }
}

// A slot made absent.
#[tactic(auto, unfolding(crate::specs::Slots::cleared_at, crate::specs::Slots::written_at))]
pub fn clear(answer: &mut [u32], slot: usize)
    ensures { answer.new ≡ spec.cleared_at slot answer.old }
{
    if has(answer, slot) {
        put(answer, slot, [0; tangent::SLOT_WORDS]);
    }
}
