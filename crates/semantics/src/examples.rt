// Objects made by hand: one that is an object of its unit, shown without any compiler, and some that are none.
ghost use Rattle.semantics.specs.Smallest.{SmallestObjectIsOne};
ghost use Rattle.semantics.specs.Wrong.{WrongObjects, NearlyRight};

// The smallest object is an object of the smallest unit, though its code is not what a plain compiler writes.
pub fn smallest_object_is_one()
    ensures { SmallestObjectIsOne }
{}

// Objects with one of the faults that compilers and linkers are known for are no objects of their units.
pub fn wrong_objects_are_none()
    ensures wrong { WrongObjects }
    ensures nearly { NearlyRight }
{}
