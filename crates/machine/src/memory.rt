ghost use Rattle.std.specs.Prelude.{◌≡◌, slice_set};

// Keeps a word at a place; outside the memory nothing is kept.
// By an index: `get_mut` was tried, and its contract says nothing of what the memory is after the write, so with it nothing is proved.
pub fn keep(memory: &mut [u32], a: usize, v: u32)
    ensures { memory.new ≡ slice_set memory.old a v }
{
    if a < memory.len() {
        memory[a] = v;
    }
}
