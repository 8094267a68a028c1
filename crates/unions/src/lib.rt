// Numbers that are joined, as a list of parents: the parent of each number is itself or a lower one.
#![tactic(auto)]

ghost use Rattle.std.specs.Prelude.{◌≡◌, ◌+◌, ◌*◌, ◌<◌, ◌≤◌, length};
ghost use Rattle.unions.specs.Unions as spec;

// Each number by itself: its own parent.
pub fn alone(parents: &mut [u32], count: usize)
    requires { (count ≤ length parents.old) × (count < 4294967296) }
    ensures { spec.Alone count parents.old parents.new }
{
    for (x, parent) in parents[..count].iter_mut().enumerate() {
        *parent = x as u32;
    }
}

// The number at the end of the parents of one. On the way each number that is met gets its parent's parent for a parent, so that the next way is shorter.
fn root(parents: &mut [u32], count: usize, from: u32) -> u32
    requires { (count ≤ length parents.old) × (from < count) × spec.Downward count parents.old }
    ensures { spec.Climbed count parents.old parents.new from result }
{
    let mut x = from;
    while parents[x as usize] != x {
        parents[x as usize] = parents[parents[x as usize] as usize];
        x = parents[x as usize];
    }
    x
}

// Two numbers are joined: the higher of their two ends gets the lower for a parent.
pub fn unite(parents: &mut [u32], count: usize, a: u32, b: u32)
    requires { (count ≤ length parents.old) × (a < count) × (b < count) × spec.Downward count parents.old }
    ensures { spec.United count parents.old parents.new a b }
{
    let x = root(parents, count, a);
    let y = root(parents, count, b);
    parents[x.max(y) as usize] = x.min(y);
}

// Each number gets the end of its parents for a parent.
pub fn settle(parents: &mut [u32], count: usize)
    requires { (count ≤ length parents.old) × spec.Downward count parents.old }
    ensures { spec.Settled count parents.old parents.new }
{
    // by the number, since a turn reads another place of the list that it writes
    for x in 0..count {
        parents[x] = parents[parents[x] as usize];
    }
}
