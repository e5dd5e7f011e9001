// What is promised of objects that stand in the relation to their units, whoever made them.
ghost use Rattle.semantics.specs.Theorems.{Demands, LinksIfLinkable, KeepsOthers};

// Objects say what their units say, link exactly if the units' wants are met, leave other units' words alone but for calls, and are linked to an
// image that does what the units do together, in any order and company. All that linking asks of units is that no two have one name, the first can be
// started and all wants are met; and whatever holds of another unit's words, and is kept by calls of an object's wants, still holds when it returns.
pub fn linked_runs_as_units_do()
    ensures demands { Demands }
    ensures linkable { LinksIfLinkable }
    ensures others { KeepsOthers }
{}
