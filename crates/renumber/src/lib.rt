// The new list and the map from the groups in the work buffer. A corner with an earlier parent takes the number that stands
// there already, any other is the earliest of its group. It stands on `groups`; `cut` stands on it.
#![tactic(auto)]

ghost use Rattle.std.specs.Prelude.{◌≡◌, List, ℕ, ◌*◌, ◌<◌, ◌≤◌, ◌^◌, pos, length, get_or};
ghost use Rattle.list.specs.Faces.{corners};
ghost use Rattle.renumber.specs.Renumber.{refilled};
ghost use Rattle.groups.specs.Forest.{Forest, VertexWords};
ghost use Rattle.renumber.specs.Numbered.{CornerWords, Numbered, Renumbered};

// Writes each corner's new vertex over the first block and each new vertex's input vertex into the map, and answers how many new
// vertices there are.
fn number(w: &mut [u32], c: usize, map: &mut [i32]) -> usize
    requires { VertexWords w.old c (2 ^ 31) × (c ≤ length map.old) }
    ensures { Numbered w.old c w.new map.old map.new result }
{
    let (numbers, rest) = w.split_at_mut(c);
    let (vertices, rest) = rest.split_at(c);
    let (_, parents) = rest.split_at(c);
    let mut count = 0;
    for (e, &parent) in parents.iter().enumerate() {
        let parent = parent as usize;
        if parent < e {
            numbers[e] = numbers[parent];
        } else {
            map[count] = vertices[e] as i32;
            numbers[e] = count as u32;
            count += 1;
        }
    }
    count
}

// Writes the new list: -1 where the list has it, and at its corners, in their order, the numbers in w.
fn fill_list(list: &[i32], w: &[u32], new_list: &mut [i32])
    requires { (length new_list.old ≡ length list.now) × (length (corners list.now) ≤ length w.now) × ((e : ℕ) → e < length w.now → get_or w.now e 0 < 2 ^ 31) }
    ensures { new_list.new ≡ refilled list.now w.now }
{
    // kept: e counts the corners met. The numbers of an iterator (`numbers.next()`) proved, and miss the bar of speed: the cut took 1.2 ns
    // more of the 16 to 25 that a corner takes.
    let mut e = 0;
    for (i, &entry) in list.iter().enumerate() {
        if list::is_end(entry) {
            new_list[i] = -1;
        } else {
            new_list[i] = w[e] as i32;
            e += 1;
        }
    }
}

// The new list and the map of the groups in w, and how many new vertices there are. The first block of w is written over.
pub fn renumber(
    list: &[i32],
    w: &mut [u32],
    c: usize,
    new_list: &mut [i32],
    map: &mut [i32],
) -> usize
    requires { CornerWords list.now c w.old × (length new_list.old ≡ length list.now) × (c ≤ length map.old) }
    ensures { (labels : List ℕ) → Forest w.old (3 * c) labels → Renumbered list.now labels result new_list.new map.old map.new }
{
    let vertices = number(w, c, map);
    fill_list(list, &w[..c], new_list);
    vertices
}
