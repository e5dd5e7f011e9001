// Names of objects: whether two are the same.
ghost use Rattle.std.specs.Prelude.{◌≡◌};
ghost use Rattle.linker.specs.Names.{repeats};

// Whether two of the names are the same. A loop, since each name is looked for among those behind it alone.
pub fn twice(names: &[u32]) -> bool
    ensures { result ≡ repeats names.now }
{
    let mut left = names;
    while let Some((name, rest)) = left.split_first() {
        if rest.contains(name) {
            return true;
        }
        left = rest;
    }
    false
}
